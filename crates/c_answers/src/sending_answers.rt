// The words of what calls 10 and 12 answer.
ghost use Rattle.std.specs.Prelude.{◌≡◌};
ghost use Rattle.choosing.specs.Choosing.{none};
ghost use Rattle.c_answers.specs.Answers.{chosen_words, choice_words, event_words};

use c_words::frames::pack_frame;
use choosing::asking::Chosen;
use element::EventHeader;

// The choice's buffer where nothing is to be sent: a number of the C interface.
const NOTHING: u32 = 32;

// Of a choice where nothing is to be sent.
pub fn nothing_words() -> [u32; 1]
    ensures { result ≡ choice_words none }
{
    [NOTHING]
}

// Of a choice: buffer, marker, event wish, the frame to send and its number of bytes.
#[tactic(auto, unfolding(crate::specs::Answers::chosen_words, c_words::specs::Frames::pack_frame))]
pub fn chosen_words(c: Chosen) -> [u32; 11]
    ensures { result ≡ chosen_words c }
{
    let [id, xtd, rtr, fdf, brs, esi, dlc] = pack_frame(c.frame);
    let marker = u32::from(c.marker);
    let wish = words::bit_of(c.wish);
    [
        c.buffer, marker, wish, id, xtd, rtr, fdf, brs, esi, dlc, c.count,
    ]
}

// Of a read of an event: the frame as sent, marker, type and timestamp.
#[tactic(auto, unfolding(crate::specs::Answers::event_words, c_words::specs::Frames::pack_frame))]
pub fn event_words(h: EventHeader) -> [u32; 10]
    ensures { result ≡ event_words h }
{
    let [id, xtd, rtr, fdf, brs, esi, dlc] = pack_frame(h.frame);
    [id, xtd, rtr, fdf, brs, esi, dlc, h.marker, h.kind, h.time]
}
