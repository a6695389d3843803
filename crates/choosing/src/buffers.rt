// Tx buffers: what stands in one, and its frame as it is sent.
ghost use Rattle.std.specs.Prelude.{◌≡◌, length};
ghost use Rattle.element.specs.Fitting.{InFields};
ghost use Rattle.places.specs.Areas.{HasPlace};
ghost use Rattle.choosing.specs.Buffers.{header_in};
ghost use Rattle.choosing.specs.Choosing.{form_sent};

use element::TxHeader;
use element::memory::read_tx;
use frame::Frame;
use places::Area;
use registers::Registers;

// What stands in a buffer's element, but for the bytes.
pub fn header_at(mem: &[u32], a: Area, buffer: u32) -> TxHeader
    requires { HasPlace a buffer (length mem.now) }
    ensures { (result ≡ header_in mem.now a buffer) × InFields result.frame }
{
    read_tx(mem, a.place_in(buffer, mem.len()))
}

// A frame as it is sent.
pub fn form_sent(r: Registers, f: Frame, passive: bool) -> Frame
    ensures { result ≡ form_sent r f passive }
{
    f.as_sent(r.fdon, r.rateon, passive)
}
