// Call 2, receive.
ghost use Rattle.std.specs.Prelude.{◌≡◌, length};
ghost use Rattle.shape.specs.Calls.{answers, settles, effected};
ghost use Rattle.engine.specs.Answers.{saying, left};
ghost use Rattle.engine.specs.Calls.{world};
ghost use Rattle.receiving.specs.Receive.{fate_of, slot_says, into_fifo, into_buffer, receives, receive};
ghost use Rattle.receiving.specs.Needs.{Ready, ReadyFifo, ReadyBuffer};

use crate::judging::judge_frame;
use crate::noting::{note_drop, note_slot};
use crate::storing::{keep_in, put, store_at};
use areas::{buffer_area, fifo_area};
use element::Arrival;
use engine::flags::RX_BUFFER_STORED;
use engine::refusals::Refusal;
use engine::state::{Record, State};
use filter::{Destination, Reason, destination_of};
use frame::Frame;
use words::bits;

// What became of a frame, with the filter element that matched it, if one did.
// FIFO 0 or 1 is a number, as calls 3 and 4 take it, and flags are worked out from it: an enum would be no plainer.
#[derive(Clone, Copy)]
pub enum Received {
    // in a FIFO, at a place
    Stored(u32, u32, Option<u32>),
    // in an Rx buffer, by the element of this index
    StoredBuffer(u32, u32),
    // to a FIFO
    Lost(u32, Option<u32>),
    Discarded(Reason, Option<u32>),
}

// What became of it, and what is left. Its own struct beside After, Started and AfterRequest: one for all would
// be no plainer, since each answer has its name in the handler.
#[derive(Clone, Copy)]
pub struct AfterReceive {
    pub answer: Received,
    pub state: State,
    pub recorded: Record,
}

// In a FIFO's slot, if there was one.
fn answer_of(fifo: u32, m: Option<u32>, slot: Option<u32>) -> Received
    ensures { fate_of result ≡ slot_says fifo m slot }
{
    match slot {
        Some(place) => Received::Stored(fifo, place, m),
        None => Received::Lost(fifo, m),
    }
}

// To FIFO 0 or 1, with priority or without.
#[tactic(auto, unfolding(crate::specs::Receive::into_fifo))]
fn into_fifo(
    s: State,
    recorded: Record,
    mem: &mut [u32],
    fifo: u32,
    priority: bool,
    a: Arrival,
    bytes: &[u8],
) -> AfterReceive
    requires { ReadyFifo s fifo a (length mem.old) }
    ensures { settles (answers (fate_of result.answer)) (world result.state result.recorded mem.new)
        ≡ effected (into_fifo (world s recorded mem.old) fifo priority a bytes.now) }
{
    let kept = keep_in(s, fifo, recorded);
    put(mem, fifo_area(s.regs, fifo), kept.slot, a, bytes);
    AfterReceive {
        answer: answer_of(fifo, a.matched, kept.slot),
        state: s.with_fifo(fifo, kept.ring),
        recorded: note_slot(kept.recorded, priority, a, fifo, kept.slot),
    }
}

// To an Rx buffer: its new-data bit is set from then on.
#[tactic(auto, unfolding(crate::specs::Receive::into_buffer))]
fn into_buffer(
    s: State,
    recorded: Record,
    mem: &mut [u32],
    buffer: u32,
    a: Arrival,
    bytes: &[u8],
) -> AfterReceive
    requires { ReadyBuffer s buffer a (length mem.old) }
    ensures { settles (answers (fate_of result.answer)) (world result.state result.recorded mem.new)
        ≡ effected (into_buffer (world s recorded mem.old) buffer a bytes.now) }
{
    store_at(mem, buffer_area(s.regs), buffer, a, bytes);
    AfterReceive {
        answer: Received::StoredBuffer(buffer, a.matched.unwrap_or(0)),
        state: State {
            newdata: bits::set(s.newdata, buffer),
            ..s
        },
        recorded: recorded.raise(RX_BUFFER_STORED),
    }
}

// By the destination that the filters give.
#[tactic(auto, using(crate::proofs::Takes::drop_ready), unfolding(crate::specs::Receive::into_nothing))]
fn take_in(
    s: State,
    recorded: Record,
    mem: &mut [u32],
    f: Frame,
    bytes: &[u8],
    time: u16,
) -> AfterReceive
    requires { Ready s f (length mem.old) }
    ensures { settles (answers (fate_of result.answer)) (world result.state result.recorded mem.new)
        ≡ effected (receives (world s recorded mem.old) f bytes.now time) }
{
    let arrival = |matched| Arrival {
        frame: f,
        time,
        matched,
    };
    match destination_of(s.regs, mem, f, s.newdata) {
        Destination::Fifo(fifo, priority, matched) => {
            into_fifo(s, recorded, mem, fifo, priority, arrival(matched), bytes)
        }
        Destination::Buffer(buffer, i) => {
            into_buffer(s, recorded, mem, buffer, arrival(Some(i)), bytes)
        }
        Destination::Discarded(why, matched) => AfterReceive {
            answer: Received::Discarded(why, matched),
            state: s,
            recorded: note_drop(recorded, arrival(matched), why),
        },
    }
}

// Receives a frame: stores it where the filters send it, or loses or discards it.
#[tactic(auto, using(crate::proofs::Judgements::receive_ready), unfolding(shape::specs::Calls::call))]
pub fn receive(
    s: State,
    recorded: Record,
    mem: &mut [u32],
    f: Frame,
    bytes: &[u8],
    time: u16,
) -> Result<AfterReceive, Refusal>
    ensures { settles (saying (λ a. fate_of a.answer) result)
        (world (left (λ a. a.state) s result) (left (λ a. a.recorded) recorded result) mem.new)
        ≡ receive (world s recorded mem.old) f bytes.now time }
{
    judge_frame(s, recorded, mem, f, bytes.len())?;
    Ok(take_in(s, recorded, mem, f, bytes, time))
}
