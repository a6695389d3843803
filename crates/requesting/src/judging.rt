// What is found against the calls before anything is done: the refusal of the lowest number.
ghost use Rattle.std.specs.Prelude.{◌≡◌, IfOk};
ghost use Rattle.words.specs.Rules.{first};
ghost use Rattle.engine.specs.Answers.{ruled};
ghost use Rattle.engine.specs.Calls.{world};
ghost use Rattle.requesting.specs.Cancelling.{cancel_refusals};
ghost use Rattle.requesting.specs.Places.{free_place};
ghost use Rattle.requesting.specs.Requesting.{dedicated_refusals, shared_refusals};

use crate::sharing::free_place;
use element::TxHeader;
use engine::fitness::judge_fit;
use engine::refusals::Refusal;
use engine::state::{Record, State};
use words::bits;

// Call 7, with so many bytes of data.
#[tactic(auto, using(crate::proofs::Judgements::few), unfolding(crate::specs::Requesting::dedicated_refusals))]
pub fn judge_dedicated(
    s: State,
    recorded: Record,
    mem: &[u32],
    buffer: u32,
    h: TxHeader,
    len: usize,
) -> Result<(), Refusal>
    ensures { ruled result ≡ first (dedicated_refusals (world s recorded mem.now) buffer h len) }
{
    judge_fit(s, recorded, mem.len())?;
    if h.frame.is_malformed(len) {
        return Err(Refusal::Malformed);
    }
    if s.regs.txbc.dedicated() <= buffer {
        return Err(Refusal::NoSuch);
    }
    if bits::test(s.pending, buffer) {
        return Err(Refusal::AlreadyPending);
    }
    Ok(())
}

// Call 8, and the place that it takes where nothing is against it.
#[tactic(auto, using(crate::proofs::Judgements::can_look), unfolding(crate::specs::Requesting::shared_refusals))]
pub fn judge_shared(
    s: State,
    recorded: Record,
    mem: &[u32],
    h: TxHeader,
    len: usize,
) -> Result<u32, Refusal>
    ensures refusal { ruled result ≡ first (shared_refusals (world s recorded mem.now) h len) }
    ensures place { IfOk result (λ p. p ≡ free_place s) }
{
    judge_fit(s, recorded, mem.len())?;
    if h.frame.is_malformed(len) {
        return Err(Refusal::Malformed);
    }
    free_place(s).ok_or(Refusal::NoneFree)
}

// Call 9.
#[tactic(auto, using(crate::proofs::Judgements::few), unfolding(crate::specs::Cancelling::cancel_refusals))]
pub fn judge_cancel(s: State, recorded: Record, mem: &[u32], buffer: u32) -> Result<(), Refusal>
    ensures { ruled result ≡ first (cancel_refusals (world s recorded mem.now) buffer) }
{
    judge_fit(s, recorded, mem.len())?;
    if s.regs.tx_count() <= buffer {
        return Err(Refusal::NoSuch);
    }
    if s.regs.in_shared_fifo(buffer) {
        return Err(Refusal::InSharedFifo);
    }
    if !bits::test(s.pending, buffer) {
        return Err(Refusal::NotPending);
    }
    Ok(())
}
