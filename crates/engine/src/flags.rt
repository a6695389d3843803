// The flags, and the steps on the record, by value.
ghost use Rattle.std.specs.Prelude.{◌≡◌, ◌+◌, ◌≤◌, ◌<◌};
ghost use Rattle.engine.specs.Flags.{raised, raised_if, cleared, with_priority, filling, priority_word};

use crate::state::Record;
use words::bits;

// Numbers and no enum, which is no plainer: a ring's flags are worked out, as `first + FULL`.
// FIFO 0's flags start at 0, FIFO 1's at 4, the event list's at 12: new, watermark, full and lost, in this order.
pub const FIFO_FLAGS: u32 = 4;

pub const EVENT_FLAGS: u32 = 12;

pub const WATERMARK: u32 = 1;

pub const FULL: u32 = 2;

pub const LOST: u32 = 3;

pub const PRIORITY: u32 = 8;

pub const SENT: u32 = 9;

pub const CANCELLED: u32 = 10;

pub const TX_FIFO_EMPTIED: u32 = 11;

pub const RX_BUFFER_STORED: u32 = 19;

// The flags that exist.
pub const FLAGS: u32 = 0x8_ffff;

impl Record {
    // One flag is set.
    #[tactic(auto, unfolding(crate::specs::Flags::raised))]
    pub fn raise(self, flag: u32) -> Record
        requires { flag < 32 }
        ensures { result ≡ raised self flag }
    {
        Record {
            flags: bits::set(self.flags, flag),
            ..self
        }
    }

    // One flag is set where a test holds.
    pub fn raise_if(self, on: bool, flag: u32) -> Record
        requires { flag < 32 }
        ensures { result ≡ raised_if self on flag }
    {
        if on { self.raise(flag) } else { self }
    }

    // The flags of a mask are cleared; the priority stays.
    #[tactic(auto, unfolding(crate::specs::Flags::cleared))]
    pub fn clear(self, mask: u32) -> Record
        ensures { result ≡ cleared self mask }
    {
        Record {
            flags: bits::clear_mask(self.flags, mask),
            ..self
        }
    }

    // The priority word is replaced whole.
    #[tactic(auto, unfolding(crate::specs::Flags::with_priority))]
    pub fn set_priority(self, word: u32) -> Record
        ensures { result ≡ with_priority self word }
    {
        Record {
            priority: word,
            ..self
        }
    }

    // A fill rose to a number: new, watermark where it is the watermark, full where it is the size.
    #[tactic(auto, unfolding(crate::specs::Flags::filling))]
    pub fn fill_rose(self, first: u32, fill: u32, mark: u32, size: u32) -> Record
        requires { first ≤ 28 }
        ensures { result ≡ filling self first fill mark size }
    {
        self.raise(first)
            .raise_if(fill == mark, first + WATERMARK)
            .raise_if(fill == size, first + FULL)
    }
}

// What the priority record says of a match: its list and index, the outcome (as receiving numbers it) and the element.
#[tactic(auto, unfolding(crate::specs::Flags::priority_word))]
pub fn priority_word(xtd: bool, index: u32, outcome: u32, place: u32) -> u32
    requires { (index < 128) × (outcome < 4) × (place < 64) }
    ensures { result ≡ priority_word xtd index outcome place }
{
    let list = words::bit_of(xtd);
    list * 0x8000 + index * 0x100 + outcome * 0x40 + place
}
