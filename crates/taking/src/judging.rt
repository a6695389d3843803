// What is found against the calls before anything is done: the refusal of the lowest number.
ghost use Rattle.std.specs.Prelude.{◌≡◌};
ghost use Rattle.words.specs.Rules.{first};
ghost use Rattle.engine.specs.Answers.{ruled};
ghost use Rattle.engine.specs.Calls.{world};
ghost use Rattle.taking.specs.Places.{fifo_refusals, buffer_refusals};

use engine::fitness::judge_fit;
use engine::holding::judge_held;
use engine::refusals::Refusal;
use engine::state::{Record, State};
use words::bits;

// Calls 3 and 4, but for 30.
#[tactic(auto, using(crate::proofs::Judgements::ring_tested), unfolding(crate::specs::Places::fifo_refusals, engine::specs::Holding::place_refusals))]
pub fn judge_fifo(
    s: State,
    recorded: Record,
    mem: &[u32],
    fifo: u32,
    place: u32,
) -> Result<(), Refusal>
    ensures { ruled result ≡ first (fifo_refusals (world s recorded mem.now) fifo place) }
{
    judge_fit(s, recorded, mem.len())?;
    if 1 < fifo {
        return Err(Refusal::NoSuch);
    }
    judge_held(s.fifo_circle(fifo), place)
}

// Calls 5 and 6, but for 30.
#[tactic(auto, using(crate::proofs::Judgements::bit_inside), unfolding(crate::specs::Places::buffer_refusals))]
pub fn judge_buffer(s: State, recorded: Record, mem: &[u32], buffer: u32) -> Result<(), Refusal>
    ensures { ruled result ≡ first (buffer_refusals (world s recorded mem.now) buffer) }
{
    judge_fit(s, recorded, mem.len())?;
    if s.regs.buffers <= buffer {
        return Err(Refusal::NoSuch);
    }
    if !bits::test(s.newdata, buffer) {
        return Err(Refusal::NotHeld);
    }
    Ok(())
}
