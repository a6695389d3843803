// What is found against a report before anything is done: the lowest number that applies.
ghost use Rattle.std.specs.Prelude.{◌≡◌};
ghost use Rattle.words.specs.Rules.{first};
ghost use Rattle.engine.specs.Answers.{ruled};
ghost use Rattle.engine.specs.Calls.{world};
ghost use Rattle.reporting.specs.Reporting.{report_refusals};

use choosing::picking::best_buffer;
use engine::fitness::judge_fit;
use engine::refusals::Refusal;
use engine::state::{Record, State};

// 20, 23 and 28.
#[tactic(auto, using(engine::proofs::Sounds::found_sound), unfolding(crate::specs::Reporting::report_refusals))]
pub fn judge_report(s: State, recorded: Record, mem: &[u32], buffer: u32) -> Result<(), Refusal>
    ensures { ruled result ≡ first (report_refusals (world s recorded mem.now) buffer) }
{
    judge_fit(s, recorded, mem.len())?;
    if s.regs.tx_count() <= buffer {
        return Err(Refusal::NoSuch);
    }
    if best_buffer(s, mem) != Some(buffer) {
        return Err(Refusal::NotTheChoice);
    }
    Ok(())
}
