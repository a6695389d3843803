// An arrival in the element at a place, and what a FIFO keeps of it.
ghost use Rattle.std.specs.Prelude.{◌≡◌, length};
ghost use Rattle.words.specs.Runs.{splice};
ghost use Rattle.places.specs.Areas.{place_in};
ghost use Rattle.places.specs.Slots.{slot_memory};
ghost use Rattle.element.specs.Elements.{rx_element};
ghost use Rattle.areas.specs.Areas.{data_words};
ghost use Rattle.engine.specs.Keeping.{keep_rule};
ghost use Rattle.engine.specs.States.{fifo_ring};
ghost use Rattle.receiving.specs.Fifos.{keeper_of};
ghost use Rattle.receiving.specs.Needs.{CanStore, CanPut, RingFits};

use areas::element_in;
use element::Arrival;
use engine::flags::FIFO_FLAGS;
use engine::keeping::{Keeper, Kept};
use engine::state::{Record, State};
use places::Area;

// The arrival and its bytes are no struct, which is no plainer: words and priority speak of an arrival without bytes.
pub fn store_at(mem: &mut [u32], area: Area, place: u32, a: Arrival, bytes: &[u8])
    requires { CanStore area place a (length mem.old) }
    ensures { mem.new
        ≡ splice mem.old (place_in area place) (rx_element a bytes.now (data_words area)) }
{
    element_in(area, place, mem.len()).store_rx(mem, a, bytes)
}

// Stores an arrival in a slot, if that has a place, as reporting does an event: one for both, with a closure for a
// line, would be no plainer.
pub fn put(mem: &mut [u32], area: Area, slot: Option<u32>, a: Arrival, bytes: &[u8])
    requires { CanPut area slot a (length mem.old) }
    ensures { mem.new
        ≡ slot_memory mem.old area (rx_element a bytes.now (data_words area)) slot }
{
    if let Some(place) = slot {
        store_at(mem, area, place, a, bytes)
    }
}

// What FIFO 0 or 1 keeps in its ring.
pub fn keep_in(s: State, fifo: u32, recorded: Record) -> Kept
    requires { RingFits s fifo }
    ensures { result ≡ keep_rule (keeper_of s.regs fifo) (fifo_ring s fifo) recorded }
{
    let w = s.regs.fifo(fifo);
    let k = Keeper {
        size: w.count(),
        mark: w.watermark(),
        overwrites: w.overwrite(),
        first: FIFO_FLAGS * fifo,
    };
    k.keep(s.fifo_ring(fifo), recorded)
}
