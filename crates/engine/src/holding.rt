// A place of a ring that a call names, in FIFO 0 or 1 or the event list.
ghost use Rattle.std.specs.Prelude.{◌≡◌};
ghost use Rattle.words.specs.Rules.{first};
ghost use Rattle.engine.specs.Answers.{ruled};
ghost use Rattle.engine.specs.Holding.{place_refusals};

use crate::refusals::Refusal;
use ring::Circle;

// 23 where there is no such place, and 29 where it is not held.
#[tactic(auto, unfolding(crate::specs::Holding::place_refusals))]
pub fn judge_held(circle: Circle, place: u32) -> Result<(), Refusal>
    ensures { ruled result ≡ first (place_refusals circle.ring circle.size place) }
{
    if circle.size <= place {
        return Err(Refusal::NoSuch);
    }
    if !circle.is_held(place) {
        return Err(Refusal::NotHeld);
    }
    Ok(())
}
