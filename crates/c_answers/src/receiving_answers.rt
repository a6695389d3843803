// The words of what calls 2, 3 and 5 answer.
ghost use Rattle.std.specs.Prelude.{◌≡◌};
ghost use Rattle.receiving.specs.Receive.{fate_of};
ghost use Rattle.c_answers.specs.Answers.{fate_words, read_words};
ghost use Rattle.c_answers.specs.Needs.{FateFits};

use crate::numbers::filter_number;
use c_words::frames::pack_frame;
use element::RxRead;
use receiving::receive::Received;

// What became of a frame, as C is told it: the C interface has numbers here.
const IN_FIFO: u32 = 1;

const IN_BUFFER: u32 = 2;

const LOST: u32 = 3;

const DISCARDED: u32 = 4;

// Of a receive: what became of the frame, FIFO, buffer or reason, the place in a FIFO, and the filter element.
pub fn fate_words(a: Received) -> [u32; 4]
    requires { FateFits (fate_of a) }
    ensures { result ≡ fate_words (fate_of a) }
{
    match a {
        Received::Stored(fifo, place, m) => [IN_FIFO, fifo, place, filter_number(m)],
        Received::StoredBuffer(buffer, i) => [IN_BUFFER, buffer, 0, i + 1],
        Received::Lost(fifo, m) => [LOST, fifo, 0, filter_number(m)],
        Received::Discarded(why, m) => [DISCARDED, why.into(), 0, filter_number(m)],
    }
}

// Of a read in a FIFO or of an Rx buffer: the frame, timestamp, filter index, ANMF and number of bytes.
#[tactic(auto, unfolding(crate::specs::Answers::read_words, c_words::specs::Frames::pack_frame))]
pub fn read_words(r: RxRead) -> [u32; 11]
    ensures { result ≡ read_words r }
{
    let h = r.header;
    let [id, xtd, rtr, fdf, brs, esi, dlc] = pack_frame(h.frame);
    let anmf = words::bit_of(h.anmf);
    [
        id, xtd, rtr, fdf, brs, esi, dlc, h.time, h.index, anmf, r.count,
    ]
}
