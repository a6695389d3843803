// Words as a frame with what stands beside it. Bits that are not named are ignored.
ghost use Rattle.std.specs.Prelude.{◌≡◌, ◌^◌, ◌<◌};
ghost use Rattle.words.specs.Fields.{bits};
ghost use Rattle.frame.specs.Identifier.{IdInKind};
ghost use Rattle.element.specs.Fitting.{InFields};
ghost use Rattle.element.specs.Word0.{id_in};
ghost use Rattle.element.specs.Word1.{marker_in};
ghost use Rattle.element.specs.Headers.{frame_in, rx_header_in, tx_header_in, event_header_in};

use crate::{EventHeader, RxHeader, TxHeader};
use frame::Frame;

// The identifier, of 29 bits or of 11.
fn id_in(xtd: bool, first: u32) -> u32
    ensures { (result ≡ id_in xtd first) × IdInKind xtd result }
{
    if xtd {
        first % 0x2000_0000
    } else {
        first / 0x4_0000 % 0x800
    }
}

// The frame, in every kind of element.
#[tactic(auto, unfolding(crate::specs::Headers::frame_in))]
fn frame_in(first: u32, second: u32) -> Frame
    ensures { (result ≡ frame_in first second) × InFields result }
{
    let xtd = first / 0x4000_0000 % 2 == 1;
    Frame {
        id: id_in(xtd, first),
        xtd,
        rtr: first / 0x2000_0000 % 2 == 1,
        fdf: second / 0x20_0000 % 2 == 1,
        brs: second / 0x10_0000 % 2 == 1,
        esi: first / 0x8000_0000 % 2 == 1,
        dlc: second / 0x1_0000 % 16,
    }
}

fn marker_in(second: u32) -> u8
    ensures { result ≡ marker_in second }
{
    (second / 0x100_0000 % 256) as u8
}

fn time_in(second: u32) -> u32
    ensures { (result ≡ bits 15 0 second) × (result < 2 ^ 16) }
{
    second % 0x1_0000
}

#[tactic(auto, unfolding(crate::specs::Headers::rx_header_in))]
pub fn rx_header(first: u32, second: u32) -> RxHeader
    ensures { (result ≡ rx_header_in first second) × InFields result.frame }
{
    let frame = frame_in(first, second);
    RxHeader {
        frame,
        anmf: second / 0x8000_0000 % 2 == 1,
        index: second / 0x100_0000 % 128,
        time: time_in(second),
    }
}

#[tactic(auto, unfolding(crate::specs::Headers::tx_header_in))]
pub fn tx_header(first: u32, second: u32) -> TxHeader
    ensures { (result ≡ tx_header_in first second) × InFields result.frame }
{
    let frame = frame_in(first, second);
    TxHeader {
        frame,
        marker: marker_in(second),
        wish: second / 0x80_0000 % 2 == 1,
    }
}

#[tactic(auto, unfolding(crate::specs::Headers::event_header_in))]
pub fn event_header(first: u32, second: u32) -> EventHeader
    ensures { (result ≡ event_header_in first second) × InFields result.frame × (result.marker < 256) }
{
    let frame = frame_in(first, second);
    EventHeader {
        frame,
        marker: marker_in(second) as u32,
        kind: second / 0x40_0000 % 4,
        time: time_in(second),
    }
}
