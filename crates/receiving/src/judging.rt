// Whether a frame is refused, before anything is done: the lowest number that applies.
ghost use Rattle.std.specs.Prelude.{◌≡◌};
ghost use Rattle.words.specs.Rules.{first};
ghost use Rattle.engine.specs.Answers.{ruled};
ghost use Rattle.engine.specs.Calls.{world};
ghost use Rattle.receiving.specs.Receive.{receive_refusals};

use engine::fitness::judge_fit;
use engine::refusals::Refusal;
use engine::state::{Record, State};
use frame::Frame;

// Call 2, of a frame with so many bytes of data.
#[tactic(auto, unfolding(crate::specs::Receive::receive_refusals))]
pub fn judge_frame(
    s: State,
    recorded: Record,
    mem: &[u32],
    f: Frame,
    len: usize,
) -> Result<(), Refusal>
    ensures { ruled result ≡ first (receive_refusals (world s recorded mem.now) f len) }
{
    judge_fit(s, recorded, mem.len())?;
    if f.is_malformed(len) {
        return Err(Refusal::Malformed);
    }
    if f.fdf && !s.regs.fdon {
        return Err(Refusal::FdOff);
    }
    Ok(())
}
