// Call 9, cancel.
ghost use Rattle.std.specs.Prelude.{◌≡◌, ◌<◌};
ghost use Rattle.shape.specs.Calls.{settles};
ghost use Rattle.engine.specs.Answers.{replied, left};
ghost use Rattle.engine.specs.Calls.{world};
ghost use Rattle.requesting.specs.Cancelling.{cancel as cancel_call, cancelled_state};

use crate::judging::judge_cancel;
use engine::flags::CANCELLED;
use engine::refusals::Refusal;
use engine::state::{After, Record, State};
use words::bits;

// The buffer is no longer pending, but cancelled.
fn with_cancel(s: State, buffer: u32) -> State
    requires { buffer < 32 }
    ensures { result ≡ cancelled_state s buffer }
{
    State {
        pending: bits::clear(s.pending, buffer),
        cancelled: bits::set(s.cancelled, buffer),
        ..s
    }
}

// A request in the shared FIFO cannot be cancelled: it is sent in its turn.
#[tactic(auto, using(crate::proofs::Opens::cancel_small), unfolding(shape::specs::Calls::call))]
pub fn cancel(s: State, recorded: Record, mem: &[u32], buffer: u32) -> Result<After, Refusal>
    ensures { settles (replied result)
        (world (left (λ a. a.state) s result) (left (λ a. a.recorded) recorded result) mem.now)
        ≡ cancel_call (world s recorded mem.now) buffer }
{
    judge_cancel(s, recorded, mem, buffer)?;
    Ok(After {
        state: with_cancel(s, buffer),
        recorded: recorded.raise(CANCELLED),
    })
}
