// A field of a word, by its highest and its lowest bit.
ghost use Rattle.std.specs.Prelude.{◌≡◌, ◌≤◌, ◌<◌, ◌+◌, ◌-◌, ◌*◌, ◌^◌};
ghost use Rattle.registers.specs.Kinds.{field, flag};

#[derive(Clone, Copy)]
pub struct Field {
    pub high: u32,
    pub low: u32,
    // It is of a word of 32 bits, and leaves out one of them at least.
    ghost in_word: { (low ≤ high) × (high < 32) × (high < low + 31) },
}

impl Field {
    // What stands there in a word.
    pub fn of(self, word: u32) -> u32
        ensures { result ≡ field (self.high, self.low) word }
    {
        (word >> self.low) % (1 << (self.high + 1 - self.low))
    }

    // Whether a one stands there.
    pub fn is_one(self, word: u32) -> bool
        ensures { result ≡ flag (self.high, self.low) word }
    {
        self.of(word) == 1
    }

    // The word that has a number there, and no other bit set.
    pub fn put(self, number: u32) -> u32
        requires { number < 2 ^ (self.high + 1 - self.low) }
        ensures { result ≡ number * 2 ^ self.low }
    {
        number << self.low
    }
}
