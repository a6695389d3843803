// Calls 4 and 6, acknowledge in a FIFO and release an Rx buffer.
ghost use Rattle.std.specs.Prelude.{◌≡◌, ◌<◌};
ghost use Rattle.shape.specs.Calls.{settles};
ghost use Rattle.registers.specs.Fields.{fifo_size};
ghost use Rattle.engine.specs.Answers.{replied, left};
ghost use Rattle.engine.specs.Calls.{world};
ghost use Rattle.engine.specs.Needs.{HoldsPlace};
ghost use Rattle.engine.specs.States.{fifo_ring};
ghost use Rattle.taking.specs.Releasing.{released, acknowledge_fifo, emptied, release_buffer};

use crate::judging::{judge_buffer, judge_fifo};
use engine::refusals::Refusal;
use engine::state::{Record, State};
use words::bits;

// All held in FIFO 0 or 1 up to and including a place are released.
#[tactic(auto, unfolding(crate::specs::Releasing::released))]
fn release_through(s: State, fifo: u32, place: u32) -> State
    requires { HoldsPlace (fifo_ring s fifo) (fifo_size s.regs fifo) place }
    ensures { result ≡ released s fifo place }
{
    s.with_fifo(fifo, s.fifo_circle(fifo).release_through(place))
}

// The place need not be the oldest: all held before it are released with it.
#[tactic(auto, using(crate::proofs::Judgements::holds_place), unfolding(shape::specs::Calls::call))]
pub fn acknowledge_fifo(
    s: State,
    recorded: Record,
    mem: &[u32],
    fifo: u32,
    place: u32,
) -> Result<State, Refusal>
    ensures { settles (replied result) (world (left (λ n. n) s result) recorded mem.now)
        ≡ acknowledge_fifo (world s recorded mem.now) fifo place }
{
    judge_fifo(s, recorded, mem, fifo, place)?;
    Ok(release_through(s, fifo, place))
}

// The new-data bit is cleared.
fn without_new(s: State, buffer: u32) -> State
    requires { buffer < 64 }
    ensures { result ≡ emptied s buffer }
{
    State {
        newdata: bits::clear(s.newdata, buffer),
        ..s
    }
}

// From then on a frame can be stored in the buffer again.
#[tactic(auto, using(crate::proofs::Judgements::buffer_small), unfolding(shape::specs::Calls::call))]
pub fn release_buffer(
    s: State,
    recorded: Record,
    mem: &[u32],
    buffer: u32,
) -> Result<State, Refusal>
    ensures { settles (replied result) (world (left (λ n. n) s result) recorded mem.now)
        ≡ release_buffer (world s recorded mem.now) buffer }
{
    judge_buffer(s, recorded, mem, buffer)?;
    Ok(without_new(s, buffer))
}
