// Call 11, report sent.
ghost use Rattle.std.specs.Prelude.{◌≡◌, ◌<◌, true, length};
ghost use Rattle.ring.specs.Rings.{Fit};
ghost use Rattle.shape.specs.Calls.{settles};
ghost use Rattle.engine.specs.Answers.{replied, left};
ghost use Rattle.engine.specs.Calls.{world};
ghost use Rattle.engine.specs.Fitness.{shared_ring_size};
ghost use Rattle.engine.specs.Flags.{raised, raised_if};
ghost use Rattle.choosing.specs.Choosing.{is_candidate};
ghost use Rattle.reporting.specs.Reporting.{shared_sent, sent_with, reports, report_sent};
ghost use Rattle.reporting.specs.Needs.{Reportable};

use crate::event::tell_event;
use crate::judging::judge_report;
use engine::flags::{SENT, TX_FIFO_EMPTIED};
use engine::refusals::Refusal;
use engine::state::{After, Record, State};
use ring::Ring;
use words::bits;

// The shared ring after the send of a buffer: its head moves where the buffer is in it.
#[tactic(auto, using(crate::proofs::Sends::head_held, crate::proofs::Sends::head_moved))]
fn shared_sent(s: State, buffer: u32) -> Ring
    requires { Fit s.shared (shared_ring_size s.regs) × (is_candidate s buffer ≡ true) }
    ensures { result ≡ shared_sent s buffer }
{
    if s.regs.in_shared_fifo(buffer) {
        return s.shared_circle().release_through(s.shared.oldest);
    }
    s.shared
}

// The buffer is sent, and no longer pending.
fn with_sent(s: State, next: Ring, buffer: u32) -> State
    requires { buffer < 32 }
    ensures { result ≡ sent_with s next buffer }
{
    State {
        shared: next,
        pending: bits::clear(s.pending, buffer),
        sent: bits::set(s.sent, buffer),
        ..s
    }
}

fn sent_flags(r: Record, emptied: bool) -> Record
    ensures { result ≡ raised_if (raised r 9) emptied 11 }
{
    r.raise(SENT).raise_if(emptied, TX_FIFO_EMPTIED)
}

// The event comes last: it is kept in the state and the record after the send.
#[tactic(auto, using(crate::proofs::Sends::report_small), unfolding(crate::specs::Reporting::reports))]
fn report(
    s: State,
    recorded: Record,
    mem: &mut [u32],
    buffer: u32,
    passive: bool,
    time: u16,
) -> After
    requires { Reportable s (length mem.old) buffer }
    ensures { world result.state result.recorded mem.new
        ≡ reports (world s recorded mem.old) buffer passive time }
{
    let next = shared_sent(s, buffer);
    let emptied = s.regs.in_shared_fifo(buffer) && next.fill == 0;
    tell_event(
        with_sent(s, next, buffer),
        sent_flags(recorded, emptied),
        mem,
        buffer,
        passive,
        time,
    )
}

// Reports that the present choice was sent.
#[tactic(auto, using(crate::proofs::Judgements::reportable), unfolding(shape::specs::Calls::call))]
pub fn report_sent(
    s: State,
    recorded: Record,
    mem: &mut [u32],
    buffer: u32,
    passive: bool,
    time: u16,
) -> Result<After, Refusal>
    ensures { settles (replied result)
        (world (left (λ a. a.state) s result) (left (λ a. a.recorded) recorded result) mem.new)
        ≡ report_sent (world s recorded mem.old) buffer passive time }
{
    judge_report(s, recorded, mem, buffer)?;
    Ok(report(s, recorded, mem, buffer, passive, time))
}
