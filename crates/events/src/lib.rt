// Calls 12 and 13, read and acknowledge an event.
#![tactic(auto)]

ghost use Rattle.std.specs.Prelude.{◌≡◌, length};
ghost use Rattle.words.specs.Rules.{first};
ghost use Rattle.shape.specs.Calls.{settles};
ghost use Rattle.places.specs.Areas.{place_in, HasPlace};
ghost use Rattle.registers.specs.Fields.{event_size};
ghost use Rattle.element.specs.Headers.{event_header_in, headed};
ghost use Rattle.engine.specs.Answers.{saying, replied, ruled, left};
ghost use Rattle.engine.specs.Calls.{world};
ghost use Rattle.engine.specs.Needs.{HoldsPlace};
ghost use Rattle.events.specs.Events.{event_refusals, read_event, released_events, acknowledge_event};

use areas::event_area;
use element::EventHeader;
use engine::fitness::judge_fit;
use engine::holding::judge_held;
use engine::refusals::Refusal;
use engine::state::{Record, State};
use places::Area;

// What is found against both calls before anything is done.
#[tactic(auto, using(engine::proofs::Sounds::found), unfolding(crate::specs::Events::event_refusals, engine::specs::Holding::place_refusals))]
fn judge_event(s: State, recorded: Record, mem: &[u32], place: u32) -> Result<(), Refusal>
    ensures { ruled result ≡ first (event_refusals (world s recorded mem.now) place) }
{
    judge_fit(s, recorded, mem.len())?;
    judge_held(s.event_circle(), place)
}

fn event_in(mem: &[u32], a: Area, place: u32) -> EventHeader
    requires { HasPlace a place (length mem.now) }
    ensures { result ≡ headed event_header_in mem.now (place_in a place) }
{
    element::memory::read_event(mem, a.place_in(place, mem.len()))
}

// Reads a held event.
#[tactic(auto, using(crate::proofs::Judgements::has_event), unfolding(shape::specs::Calls::call, crate::specs::Events::event_at))]
pub fn read_event(
    s: State,
    recorded: Record,
    mem: &[u32],
    place: u32,
) -> Result<EventHeader, Refusal>
    ensures { settles (saying (λ h. h) result) (world s recorded mem.now)
        ≡ read_event (world s recorded mem.now) place }
{
    judge_event(s, recorded, mem, place)?;
    Ok(event_in(mem, event_area(s.regs), place))
}

// All held events up to and including a place are released.
fn release_events(s: State, place: u32) -> State
    requires { HoldsPlace s.events (event_size s.regs) place }
    ensures { result ≡ released_events s place }
{
    s.with_events(s.event_circle().release_through(place))
}

// The place need not be the oldest: all held before it are released with it.
#[tactic(auto, using(crate::proofs::Judgements::holds_event), unfolding(shape::specs::Calls::call))]
pub fn acknowledge_event(
    s: State,
    recorded: Record,
    mem: &[u32],
    place: u32,
) -> Result<State, Refusal>
    ensures { settles (replied result) (world (left (λ n. n) s result) recorded mem.now)
        ≡ acknowledge_event (world s recorded mem.now) place }
{
    judge_event(s, recorded, mem, place)?;
    Ok(release_events(s, place))
}
