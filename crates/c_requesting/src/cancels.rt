// Call 9 on words.
ghost use Rattle.std.specs.Prelude.{◌≡◌, []};
ghost use Rattle.c_answers.specs.Answers.{code};
ghost use Rattle.c_entering.specs.Entering.{returned, lent};
ghost use Rattle.c_requesting.specs.RequestingCalls.{cancel_call};

use c_answers::numbers::CRefusal;
use c_entering::entering::enter;
use c_words::states::{put_record, put_state};
use requesting::cancelling;

// Cancels a request.
#[tactic(auto, unfolding(words::specs::Runs::splice))]
pub fn cancel(
    state: &mut [u32],
    recorded: &mut [u32],
    mem: &[u32],
    buffer: u32,
) -> Result<(), CRefusal>
    ensures { returned (code result) (lent state.new recorded.new mem.now [] [])
        ≡ cancel_call (lent state.old recorded.old mem.now [] []) buffer }
{
    let (s, r) = enter(state, recorded, true)?;
    let after = cancelling::cancel(s, r, mem, buffer)?;
    put_state(state, after.state);
    put_record(recorded, after.recorded);
    Ok(())
}
