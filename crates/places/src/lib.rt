// Places of elements in a memory, and what becomes of a new element in a ring of places.
#![tactic(auto)]

ghost use Rattle.std.specs.Prelude.{◌≡◌, ◌+◌, ◌≤◌};
ghost use Rattle.places.specs.Areas.{place_in, HasPlace};
ghost use Rattle.places.specs.Slots.{take_rule};

use ring::{Circle, Ring};
use words::WordAddress;

// So many elements of so many words each, from a word of the memory on: a start and a count, since the memory is lent
// (no heap). That a place is in it is asked at each use and is no invariant, which would be no plainer: the memory comes
// now as `&`, now as `&mut`.
#[derive(Clone, Copy)]
pub struct Area {
    pub start: WordAddress,
    pub count: u32,
    pub each: u32,
}

impl Area {
    // The first word of the element at a place.
    pub fn place_in(self, place: u32, words: usize) -> WordAddress
        requires { HasPlace self place words }
        ensures { (result.0 ≡ place_in self place) × (result.0 + self.each ≤ words) }
    {
        WordAddress(self.start.0 + place * self.each)
    }
}

// The place that a new element goes to, if any, and the ring after it.
#[derive(Clone, Copy)]
pub struct Taken {
    pub slot: Option<u32>,
    pub ring: Ring,
}

// What becomes of a new element in a ring of this mode.
#[tactic(auto, unfolding(crate::specs::Slots::take_rule))]
pub fn take(q: Circle, overwrites: bool) -> Taken
    ensures { result ≡ take_rule q.size overwrites q.ring }
{
    if q.ring.fill < q.size {
        return Taken {
            slot: Some(q.put_place()),
            ring: q.push(),
        };
    }
    if q.size == 0 || !overwrites {
        return Taken {
            slot: None,
            ring: q.ring,
        };
    }
    Taken {
        slot: Some(q.ring.oldest),
        ring: q.overwrite(),
    }
}
