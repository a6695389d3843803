// What a match for priority leaves in the record.
ghost use Rattle.std.specs.Prelude.{◌≡◌, ◌<◌};
ghost use Rattle.element.specs.Fitting.{index_of};
ghost use Rattle.filter.specs.Destination.{reason};
ghost use Rattle.receiving.specs.Priority.{prioritised, slot_noted, drop_noted};
ghost use Rattle.receiving.specs.Needs.{Notable, SlotNotable};

use element::Arrival;
use engine::flags::{PRIORITY, priority_word};
use engine::state::Record;
use filter::Reason;

// Outcomes in the priority word: no FIFO, lost to one, and stored in FIFO 0. FIFO 1 has one more than that.
// An enum is no plainer: it would make a case of the FIFO's number, and a number of that again.
const NO_FIFO: u32 = 0;

const LOST: u32 = 1;

const STORED: u32 = 2;

fn prioritise(recorded: Record, a: Arrival, outcome: u32, place: u32) -> Record
    requires { Notable a outcome place }
    ensures { result ≡ prioritised recorded a outcome place }
{
    let word = priority_word(a.frame.xtd, a.matched.unwrap_or(0), outcome, place);
    recorded.raise(PRIORITY).set_priority(word)
}

// Of an arrival that went to a slot of FIFO 0 or 1, with priority or without.
pub fn note_slot(
    recorded: Record,
    priority: bool,
    a: Arrival,
    fifo: u32,
    slot: Option<u32>,
) -> Record
    requires { SlotNotable a fifo slot }
    ensures { result ≡ slot_noted recorded priority a fifo slot }
{
    if !priority {
        return recorded;
    }
    match slot {
        Some(place) => prioritise(recorded, a, STORED + fifo, place),
        None => prioritise(recorded, a, LOST, 0),
    }
}

// Of an arrival that is discarded.
pub fn note_drop(recorded: Record, a: Arrival, why: Reason) -> Record
    requires { index_of a.matched < 128 }
    ensures { result ≡ drop_noted recorded a (reason why) }
{
    match why {
        Reason::PriorityOnly => prioritise(recorded, a, NO_FIFO, 0),
        _ => recorded,
    }
}
