// What becomes of a new element in a ring of elements, with its flags: FIFO 0, FIFO 1 and the event list alike.
ghost use Rattle.std.specs.Prelude.{◌≡◌, ◌≤◌};
ghost use Rattle.engine.specs.Keeping.{kept_flags, keep_rule};
ghost use Rattle.engine.specs.Needs.{CanKeep};

use crate::flags::LOST;
use crate::state::Record;
use places::take;
use ring::{Circle, Ring};

#[derive(Clone, Copy)]
pub struct Kept {
    pub slot: Option<u32>,
    pub ring: Ring,
    pub recorded: Record,
}

// A ring of this size, watermark and mode, whose flags start at `first`. The size is here and in no Circle: what may
// not change, `keep_rule` reads it here. That `first` is small is asked and no invariant: two callers, both constants.
#[derive(Clone, Copy)]
pub struct Keeper {
    pub size: u32,
    pub mark: u32,
    pub overwrites: bool,
    pub first: u32,
}

impl Keeper {
    // The flags of what became of it, by the fill before.
    #[tactic(auto, unfolding(crate::specs::Keeping::kept_flags))]
    fn note_kept(self, fill: u32, slot: Option<u32>, recorded: Record) -> Record
        requires { self.first ≤ 28 }
        ensures { result ≡ kept_flags self fill slot recorded }
    {
        if fill < self.size {
            return recorded.fill_rose(self.first, fill + 1, self.mark, self.size);
        }
        match slot {
            Some(_) => recorded.raise(self.first),
            None => recorded.raise(self.first + LOST),
        }
    }

    // A new element finds a place or none, and its flags are raised.
    #[tactic(auto, unfolding(crate::specs::Keeping::keep_rule))]
    pub fn keep(self, q: Ring, recorded: Record) -> Kept
        requires { CanKeep self q }
        ensures { result ≡ keep_rule self q recorded }
    {
        let circle = Circle {
            ring: q,
            size: self.size,
        };
        let taken = take(circle, self.overwrites);
        Kept {
            slot: taken.slot,
            ring: taken.ring,
            recorded: self.note_kept(q.fill, taken.slot, recorded),
        }
    }
}
