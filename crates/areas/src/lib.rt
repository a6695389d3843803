// The areas of the memory where elements stand: FIFO 0 and 1, Rx buffers, events and Tx buffers.
#![tactic(auto)]

ghost use Rattle.std.specs.Prelude.{◌≡◌, ◌+◌, ◌≤◌};
ghost use Rattle.places.specs.Areas.{place_in, HasPlace};
ghost use Rattle.areas.specs.Areas.{area_in, fifo_area, buffer_area, event_area, tx_area, data_words};

use element::memory::Element;
use frame::sizes::element_words;
use layout::sections::{Section, events, fifo, rx_buffers, tx_buffers};
use places::Area;
use registers::Registers;
use registers::kinds::Txefc;

fn area_in(s: Section, count: u32, each: u32) -> Area
    ensures { result ≡ area_in s count each }
{
    Area {
        start: s.start,
        count,
        each,
    }
}

// Each area by its own register, as layout's sections: one function for several would be no plainer.
pub fn fifo_area(r: Registers, number: u32) -> Area
    ensures { result ≡ fifo_area r number }
{
    area_in(
        fifo(r, number),
        r.fifo(number).count(),
        element_words(r.fifo_code(number)),
    )
}

pub fn buffer_area(r: Registers) -> Area
    requires { r.buffers ≤ 64 }
    ensures { result ≡ buffer_area r }
{
    area_in(rx_buffers(r), r.buffers, element_words(r.rxesc.buffers()))
}

pub fn event_area(r: Registers) -> Area
    ensures { result ≡ event_area r }
{
    area_in(events(r), r.txefc.count(), Txefc::EACH)
}

pub fn tx_area(r: Registers) -> Area
    ensures { result ≡ tx_area r }
{
    area_in(tx_buffers(r), r.tx_count(), element_words(r.txesc.size()))
}

// The data words of an element: all but the two of its header.
pub fn data_words(a: Area) -> usize
    requires { 2 ≤ a.each }
    ensures { result ≡ data_words a }
{
    (a.each - 2) as usize
}

// The element at a place of an area in a memory of so many words.
pub fn element_in(a: Area, place: u32, words: usize) -> Element
    requires place { HasPlace a place words }
    requires header { 2 ≤ a.each }
    ensures at { result.at.0 ≡ place_in a place }
    ensures words { result.words ≡ data_words a }
    ensures fits { result.at.0 + 2 + result.words ≤ words }
{
    Element {
        at: a.place_in(place, words),
        words: data_words(a),
    }
}
