// When a state and its record are unfit for a memory (refusal 20).
ghost use Rattle.std.specs.Prelude.{◌≡◌, ◌≤◌};
ghost use Rattle.engine.specs.Fitness.{past, rings_unfit, bits_unfit, shared_ring_size, differs};
ghost use Rattle.engine.specs.Fitness.{shared_unfit, flags_unfit, unfit};
ghost use Rattle.engine.specs.Answers.{ruled};
ghost use Rattle.engine.specs.Calls.{◌when◌};
ghost use Rattle.engine.specs.Needs.{SharedFits, SharedCan};

use crate::flags::FLAGS;
use crate::refusals::Refusal;
use crate::state::{Record, State};
use layout::check::check;
use registers::Registers;
use ring::Circle;
use words::bits;

// A bit at place n or above is set.
#[tactic(auto, using(crate::proofs::Unfitness::none_past))]
fn is_past(word: u64, n: u32) -> bool
    ensures { result ≡ past word n }
{
    n < 64 && (word >> n) != 0
}

// The size of the shared FIFO's ring: 0 in queue mode.
#[tactic(auto, unfolding(crate::specs::Fitness::shared_ring_size))]
pub fn shared_ring_size(r: Registers) -> u32
    ensures { (result ≡ shared_ring_size r) × (result ≤ 63) }
{
    if r.is_queue() { 0 } else { r.txbc.shared() }
}

#[tactic(auto, unfolding(registers::specs::Fields::fifo_word))]
fn rings_unfit(s: State) -> bool
    ensures { result ≡ rings_unfit s }
{
    !s.fifo0.fits(s.regs.rxf0c.count())
        || !s.fifo1.fits(s.regs.rxf1c.count())
        || !s.events.fits(s.regs.txefc.count())
        || !s.shared.fits(shared_ring_size(s.regs))
}

fn bits_unfit(s: State) -> bool
    ensures { result ≡ bits_unfit s }
{
    let count = s.regs.tx_count();
    is_past(u64::from(s.pending), count)
        || is_past(u64::from(s.sent), count)
        || is_past(u64::from(s.cancelled), count)
        || is_past(s.newdata, s.regs.buffers)
}

// Whether place p's pending bit is other than the ring says. The ring is found once for all places.
#[tactic(auto, using(crate::proofs::Unfitness::unlike))]
fn differs_at(s: State, circle: Circle, p: u32) -> bool
    requires fits { SharedFits s p }
    requires ring { circle.ring ≡ s.shared }
    requires size { circle.size ≡ shared_ring_size s.regs }
    ensures { result ≡ differs s p }
{
    let held = circle.is_held(p);
    let pending = bits::test(s.pending, s.regs.txbc.dedicated() + p);
    held != pending
}

fn shared_unfit(s: State) -> bool
    requires { SharedCan s }
    ensures { result ≡ shared_unfit s }
{
    let circle = s.shared_circle();
    // Not `any`, which stops at the first that differs: tried and slower, by a fifth of a call on a box with 32 shared.
    (0..circle.size).fold(false, |unlike, p| unlike | differs_at(s, circle, p))
}

fn flags_unfit(r: Record) -> bool
    ensures { result ≡ flags_unfit r }
{
    r.flags & FLAGS != r.flags
}

// Refusal 20, for a memory of so many words.
#[tactic(auto, unfolding(crate::specs::Fitness::unfit))]
pub fn judge_fit(s: State, r: Record, words: usize) -> Result<(), Refusal>
    ensures { ruled result ≡ 20 when unfit s r words }
{
    if check(s.regs, words).is_err()
        || rings_unfit(s)
        || bits_unfit(s)
        || shared_unfit(s)
        || flags_unfit(r)
    {
        return Err(Refusal::Unfit);
    }
    Ok(())
}
