// The event of a sent frame, where its element wants one.
ghost use Rattle.std.specs.Prelude.{◌≡◌, ◌<◌, length};
ghost use Rattle.registers.specs.Fields.{tx_count};
ghost use Rattle.element.specs.Elements.{event_element};
ghost use Rattle.element.specs.Fitting.{InFields};
ghost use Rattle.places.specs.Slots.{slot_memory};
ghost use Rattle.engine.specs.Calls.{world};
ghost use Rattle.reporting.specs.Reporting.{event_keeper, event_kept, event_due};
ghost use Rattle.reporting.specs.Needs.{CanTell, EventFits};

use areas::{event_area, tx_area};
use choosing::buffers::{form_sent, header_at};
use element::Event;
use element::memory::store_event;
use engine::flags::EVENT_FLAGS;
use engine::keeping::Keeper;
use engine::state::{After, Record, State};
use places::Area;
use registers::Registers;

// A full list blocks.
fn event_keeper(r: Registers) -> Keeper
    ensures { result ≡ event_keeper r }
{
    Keeper {
        size: r.txefc.count(),
        mark: r.txefc.watermark(),
        overwrites: false,
        first: EVENT_FLAGS,
    }
}

// Writes an event to its slot, if it has one, as receiving's `put` does an arrival: one for both would be no plainer.
fn write_event(mem: &mut [u32], a: Area, slot: Option<u32>, e: Event)
    requires { EventFits a (length mem.old) slot e.frame }
    ensures { mem.new ≡ slot_memory mem.old a (event_element e.marker e.frame e.time) slot }
{
    if let Some(place) = slot {
        store_event(mem, a.place_in(place, mem.len()), e)
    }
}

// A full list loses the event, with a flag.
fn keep_event(s: State, recorded: Record, mem: &mut [u32], e: Event) -> After
    requires { CanTell s (length mem.old) × InFields e.frame }
    ensures { world result.state result.recorded mem.new
        ≡ event_kept (world s recorded mem.old) e.marker e.frame e.time }
{
    let kept = event_keeper(s.regs).keep(s.events, recorded);
    write_event(mem, event_area(s.regs), kept.slot, e);
    After {
        state: s.with_events(kept.ring),
        recorded: kept.recorded,
    }
}

// After the send: an event, where the sent element wants one, with the frame as sent.
#[tactic(auto, using(crate::proofs::Events::sent_in_fields))]
pub fn tell_event(
    s: State,
    recorded: Record,
    mem: &mut [u32],
    buffer: u32,
    passive: bool,
    time: u16,
) -> After
    requires { CanTell s (length mem.old) × (buffer < tx_count s.regs) }
    ensures { world result.state result.recorded mem.new
        ≡ event_due (world s recorded mem.old) buffer passive time }
{
    let h = header_at(mem, tx_area(s.regs), buffer);
    if h.wish {
        let e = Event {
            frame: form_sent(s.regs, h.frame, passive),
            marker: h.marker,
            time,
        };
        return keep_event(s, recorded, mem, e);
    }
    After { state: s, recorded }
}
