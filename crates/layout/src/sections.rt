// The seven sections that the registers lay out in the memory.
ghost use Rattle.std.specs.Prelude.{◌≡◌, ◌≤◌};
ghost use Rattle.layout.specs.Sections.{none, section, over_most, sections_of};
ghost use Rattle.layout.specs.Sections.{filters11_section, filters29_section, fifo_section};
ghost use Rattle.layout.specs.Sections.{buffer_section, event_section, tx_section};

use frame::sizes::element_words;
use registers::Registers;
use registers::kinds::{Rxbc, Rxfc, SectionRegister, Sidfc, Txbc, Txefc, Xidfc};
use words::WordAddress;

// A section as reported: its first word and how many it has. One of count 0 has none, and starts at 0.
#[derive(Clone, Copy)]
pub struct Section {
    pub start: WordAddress,
    pub words: u32,
}

impl Default for Section {
    // No words.
    fn default() -> Section
        ensures { result ≡ none }
    {
        Section {
            start: WordAddress(0),
            words: 0,
        }
    }
}

fn section_of(start: WordAddress, count: u32, each: u32) -> Section
    requires { (count ≤ 255) × (each ≤ 18) }
    ensures { result ≡ section start.0 count each }
{
    if count == 0 {
        Section::default()
    } else {
        Section {
            start,
            words: count * each,
        }
    }
}

// Each list by its own register's fields: one function for several would be no plainer.
fn filters11(r: Registers) -> Section
    ensures { result ≡ filters11_section r }
{
    section_of(r.sidfc.start(), r.sidfc.count(), Sidfc::EACH)
}

fn filters29(r: Registers) -> Section
    ensures { result ≡ filters29_section r }
{
    section_of(r.xidfc.start(), r.xidfc.count(), Xidfc::EACH)
}

// Of Rx FIFO 0 or 1.
pub fn fifo(r: Registers, number: u32) -> Section
    ensures { result ≡ fifo_section r number }
{
    let w = r.fifo(number);
    section_of(w.start(), w.count(), element_words(r.fifo_code(number)))
}

// At most 64 is asked where a section is made, and no invariant: what may not change, Registers takes any number.
pub fn rx_buffers(r: Registers) -> Section
    requires { r.buffers ≤ 64 }
    ensures { result ≡ buffer_section r }
{
    section_of(r.rxbc.start(), r.buffers, element_words(r.rxesc.buffers()))
}

pub fn events(r: Registers) -> Section
    ensures { result ≡ event_section r }
{
    section_of(r.txefc.start(), r.txefc.count(), Txefc::EACH)
}

pub fn tx_buffers(r: Registers) -> Section
    ensures { result ≡ tx_section r }
{
    section_of(r.txbc.start(), r.tx_count(), element_words(r.txesc.size()))
}

// Which of the seven counts are over their most. Of the Tx buffers, the dedicated and the shared ones each have one.
pub fn over_most(r: Registers) -> [bool; 7]
    ensures { result ≡ over_most r }
{
    [
        Sidfc::MOST < r.sidfc.count(),
        Xidfc::MOST < r.xidfc.count(),
        Rxfc::MOST < r.fifo(0).count(),
        Rxfc::MOST < r.fifo(1).count(),
        Rxbc::MOST < r.buffers,
        Txefc::MOST < r.txefc.count(),
        (Txbc::MOST < r.txbc.dedicated()) | (Txbc::MOST < r.txbc.shared()),
    ]
}

pub fn sections(r: Registers) -> [Section; 7]
    requires { r.buffers ≤ 64 }
    ensures { result ≡ sections_of r }
{
    [
        filters11(r),
        filters29(r),
        fifo(r, 0),
        fifo(r, 1),
        rx_buffers(r),
        events(r),
        tx_buffers(r),
    ]
}
