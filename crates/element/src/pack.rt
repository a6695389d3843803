// A frame as words: word 0, the same in every element, and word 1 of each kind.
ghost use Rattle.std.specs.Prelude.{◌≡◌, ◌*◌, ◌^◌, ◌≤◌, ◌<◌};
ghost use Rattle.frame.specs.Identifier.{IdInKind};
ghost use Rattle.element.specs.Fitting.{index_of, InFields};
ghost use Rattle.element.specs.Needs.{RxInFields};
ghost use Rattle.element.specs.Word0.{id_bits, word0};
ghost use Rattle.element.specs.Word1.{form_bits, match_bits, marker_bits, rx_word1, tx_word1, event_word1};

use crate::{Arrival, Event, TxHeader};
use frame::Frame;
use words::bit_of;

// The identifier in its place.
fn id_bits(xtd: bool, id: u32) -> u32
    requires { IdInKind xtd id }
    ensures { (result ≡ id_bits xtd id) × (result < 2 ^ 29) }
{
    if xtd { id } else { id * 0x4_0000 }
}

// Word 0 of every element.
#[tactic(auto, unfolding(crate::specs::Word0::word0))]
pub fn first_word(f: Frame) -> u32
    requires { InFields f }
    ensures { result ≡ word0 f }
{
    bit_of(f.esi) * 0x8000_0000
        + bit_of(f.xtd) * 0x4000_0000
        + bit_of(f.rtr) * 0x2000_0000
        + id_bits(f.xtd, f.id)
}

// Bits 21:16 of word 1, the same in every element.
#[tactic(auto, unfolding(crate::specs::Word1::form_bits))]
fn form_bits(f: Frame) -> u32
    requires { f.dlc ≤ 15 }
    ensures { (result ≡ form_bits f) × (result ≤ 0x3F * 2 ^ 16) }
{
    bit_of(f.fdf) * 0x20_0000 + bit_of(f.brs) * 0x10_0000 + f.dlc * 0x1_0000
}

// The match in its place.
fn match_bits(m: Option<u32>) -> u32
    requires { index_of m < 128 }
    ensures { (result ≡ match_bits m) × (result ≤ 2 ^ 31) }
{
    match m {
        None => 0x8000_0000,
        Some(i) => i * 0x100_0000,
    }
}

// The marker in its place.
fn marker_bits(marker: u8) -> u32
    ensures { (result ≡ marker_bits marker) × (result ≤ 0xFF * 2 ^ 24) }
{
    marker as u32 * 0x100_0000
}

// Word 1 of an Rx element.
#[tactic(auto, unfolding(crate::specs::Word1::rx_word1))]
pub fn rx_second_word(a: Arrival) -> u32
    requires { RxInFields a }
    ensures { result ≡ rx_word1 a }
{
    let m = a.matched;
    match_bits(m) + form_bits(a.frame) + a.time as u32
}

// Word 1 of a Tx element.
#[tactic(auto, unfolding(crate::specs::Word1::tx_word1))]
pub fn tx_second_word(h: TxHeader) -> u32
    requires { InFields h.frame }
    ensures { result ≡ tx_word1 h }
{
    marker_bits(h.marker) + bit_of(h.wish) * 0x80_0000 + form_bits(h.frame)
}

// Word 1 of an event.
#[tactic(auto, unfolding(crate::specs::Word1::event_word1))]
pub fn event_second_word(e: Event) -> u32
    requires { InFields e.frame }
    ensures { result ≡ event_word1 e.marker e.frame e.time }
{
    marker_bits(e.marker) + 0x40_0000 + form_bits(e.frame) + e.time as u32
}
