// A frame and a request as words, and back: by functions and no `From`, which would be no plainer: it would stand in
// the crates below, which know of no C words.
ghost use Rattle.std.specs.Prelude.{◌≡◌, length};
ghost use Rattle.c_words.specs.Frames.{plain_frame, unpack_frame, pack_frame, unpack_request};

use crate::buffers::is_yes_no;
use element::TxHeader;
use frame::Frame;
use words::bit_of;

pub const FRAME_WORDS: usize = 7;

// The five words that say yes or no are 0 or 1.
pub fn is_plain_frame(words: &[u32]) -> bool
    ensures { result ≡ plain_frame words.now }
{
    (1..6).all(|n| is_yes_no(words, n))
}

pub fn take_frame(words: &[u32]) -> Frame
    requires { length words.now ≡ 7 }
    ensures { result ≡ unpack_frame words.now }
{
    Frame {
        id: words[0],
        xtd: words[1] == 1,
        rtr: words[2] == 1,
        fdf: words[3] == 1,
        brs: words[4] == 1,
        esi: words[5] == 1,
        dlc: words[6],
    }
}

#[tactic(auto, unfolding(crate::specs::Frames::pack_frame))]
pub fn pack_frame(f: Frame) -> [u32; 7]
    ensures { result ≡ pack_frame f }
{
    [
        f.id,
        bit_of(f.xtd),
        bit_of(f.rtr),
        bit_of(f.fdf),
        bit_of(f.brs),
        bit_of(f.esi),
        f.dlc,
    ]
}

// What a request brings.
pub fn take_request(words: &[u32], marker: u8, wish: u32) -> TxHeader
    requires { length words.now ≡ 7 }
    ensures { result ≡ unpack_request words.now marker wish }
{
    TxHeader {
        frame: take_frame(words),
        marker,
        wish: wish == 1,
    }
}
