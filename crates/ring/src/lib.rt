// Places in a circle: which is the oldest held, and how many are held. The size is the caller's, 0 included.
#![tactic(auto)]

ghost use Rattle.std.specs.Prelude.{◌≡◌, true, ◌+◌, ◌%◌, ◌≤◌, ◌<◌, max};
ghost use Rattle.ring.specs.Rings.{Fit, none_held, fits, place_after, put_place, pushed, overwritten};
ghost use Rattle.ring.specs.Rings.{age, held, released_through};

#[derive(Clone, Copy)]
pub struct Ring {
    pub oldest: u32,
    pub fill: u32,
}

impl Ring {
    // Nothing is held.
    pub fn empty() -> Self
        ensures { result ≡ none_held }
    {
        Ring { oldest: 0, fill: 0 }
    }

    // Whether a ring can be one of this size.
    #[tactic(auto, unfolding(crate::specs::Rings::fits))]
    pub fn fits(self, size: u32) -> bool
        ensures { result ≡ fits self size }
    {
        self.oldest < size.max(1) && self.fill <= size
    }
}

// A ring of a size that it can have.
#[derive(Clone, Copy)]
pub struct Circle {
    pub ring: Ring,
    pub size: u32,
    pub ghost fit: { Fit ring size },
}

impl Circle {
    // A number below two turns, brought into the circle without a division.
    fn in_circle(self, n: u32) -> u32
        requires { n < max 1 self.size + self.size }
        ensures { (result ≡ n % self.size) × (result < max 1 self.size) }
    {
        if n < self.size { n } else { n - self.size }
    }

    // The place n places after the oldest.
    #[tactic(auto, unfolding(crate::specs::Rings::place_after))]
    pub fn place_after(self, n: u32) -> u32
        requires { n ≤ self.size }
        ensures { (result ≡ place_after self.ring self.size n) × (result < max 1 self.size) }
    {
        self.in_circle(self.ring.oldest + n)
    }

    // Where the next one goes.
    pub fn put_place(self) -> u32
        ensures { (result ≡ put_place self.ring self.size) × (result < max 1 self.size) }
    {
        self.place_after(self.ring.fill)
    }

    // One more, at the put place.
    pub fn push(self) -> Ring
        requires { self.ring.fill < self.size }
        ensures { result ≡ pushed self.ring }
    {
        Ring {
            fill: self.ring.fill + 1,
            ..self.ring
        }
    }

    // The oldest of a full ring gives way to a new one.
    pub fn overwrite(self) -> Ring
        requires size_nonzero { 0 < self.size }
        requires fill_value { self.ring.fill ≡ self.size }
        ensures { result ≡ overwritten self.ring self.size }
    {
        Ring {
            oldest: self.place_after(1),
            ..self.ring
        }
    }

    // How many places after the oldest a place is.
    #[tactic(auto, unfolding(crate::specs::Rings::age))]
    pub fn age_of(self, p: u32) -> u32
        requires { p < self.size }
        ensures { (result ≡ age self.ring self.size p) × (result < self.size) }
    {
        self.in_circle(p + self.size - self.ring.oldest)
    }

    // Whether a place is held: none past the size is.
    #[tactic(auto, unfolding(crate::specs::Rings::held))]
    pub fn is_held(self, p: u32) -> bool
        ensures { result ≡ held self.ring self.size p }
    {
        p < self.size && self.age_of(p) < self.ring.fill
    }

    // All held up to and including a place are given up.
    #[tactic(auto, using(crate::proofs::Holding::held_inside, crate::proofs::Holding::held_age))]
    pub fn release_through(self, p: u32) -> Ring
        requires { held self.ring self.size p ≡ true }
        ensures { result ≡ released_through self.ring self.size p }
    {
        let n = self.age_of(p) + 1;
        Ring {
            oldest: self.in_circle(p + 1),
            fill: self.ring.fill - n,
        }
    }
}
