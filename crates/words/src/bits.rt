// Single bits and masks of a word, of 32 or 64 bits.
ghost use Rattle.std.specs.Prelude.{◌≡◌, ◌≤◌, ◌<◌, ◌-◌, ◌^◌, ℕ};
ghost use Rattle.std.specs.Int.Bits.{bit_or, bit_and};
ghost use Rattle.std.specs.Int.Count.{ones};
ghost use Rattle.words.specs.Bits.{bit, is_set, with_bit, without_bit, without_mask, LowestClear};

use std::ops::{BitAnd, BitOr, Not};

// A word of some width, the number that it stands for, and what the operators on bits give.
pub trait Word: Copy + Not<Output = Self> + BitAnd<Output = Self> + BitOr<Output = Self> {
    ghost width: { ℕ };

    ghost value: { Self → ℕ };

    // The word with bit n alone.
    fn one_at(n: u32) -> Self
        requires { n < width }
        ensures { value result ≡ 2 ^ n };

    // Bit n, 0 or 1.
    fn bit(self, n: u32) -> u32
        requires { n < width }
        ensures { result ≡ bit (value self) n };

    ghost can_not_law: { (a : Self) → Self.can_not a };

    ghost not_law: { (a r : Self) → Self.not_gives a r → value r ≡ 2 ^ width - 1 - value a };

    ghost can_and_law: { (a b : Self) → Self.can_bitand a b };

    ghost and_law: { (a b r : Self) → Self.bitand_gives a b r
        → value r ≡ bit_and (value a) (value b) };

    ghost can_or_law: { (a b : Self) → Self.can_bitor a b };

    ghost or_law: { (a b r : Self) → Self.bitor_gives a b r
        → value r ≡ bit_or (value a) (value b) };
}

impl Word for u32 {
    ghost width = { 32 };

    ghost value = { λ word. word };

    ghost can_not_law = { λ _. tt };

    ghost not_law = { λ _ _ gives. gives };

    ghost can_and_law = { λ _ _. tt };

    ghost and_law = { λ _ _ _ gives. gives };

    ghost can_or_law = { λ _ _. tt };

    ghost or_law = { λ _ _ _ gives. gives };

    fn one_at(n: u32) -> u32 {
        1 << n
    }

    fn bit(self, n: u32) -> u32 {
        (self >> n) % 2
    }
}

impl Word for u64 {
    ghost width = { 64 };

    ghost value = { λ word. word };

    ghost can_not_law = { λ _. tt };

    ghost not_law = { λ _ _ gives. gives };

    ghost can_and_law = { λ _ _. tt };

    ghost and_law = { λ _ _ _ gives. gives };

    ghost can_or_law = { λ _ _. tt };

    ghost or_law = { λ _ _ _ gives. gives };

    fn one_at(n: u32) -> u64 {
        1 << n
    }

    fn bit(self, n: u32) -> u32 {
        ((self >> n) % 2) as u32
    }
}

pub fn test<W: Word>(word: W, n: u32) -> bool
    requires { n < W.width }
    ensures { result ≡ is_set (W.value word) n }
{
    word.bit(n) == 1
}

#[tactic(auto, unfolding(crate::specs::Bits::with_bit))]
pub fn set<W: Word>(word: W, n: u32) -> W
    requires { n < W.width }
    ensures { W.value result ≡ with_bit (W.value word) n }
{
    set_mask(word, W::one_at(n))
}

pub fn clear<W: Word>(word: W, n: u32) -> W
    requires { n < W.width }
    ensures { W.value result ≡ without_bit W.width (W.value word) n }
{
    clear_mask(word, W::one_at(n))
}

pub fn set_mask<W: Word>(word: W, mask: W) -> W
    ensures { W.value result ≡ bit_or (W.value word) (W.value mask) }
{
    word | mask
}

#[tactic(auto, unfolding(crate::specs::Bits::without_mask))]
pub fn clear_mask<W: Word>(word: W, mask: W) -> W
    ensures { W.value result ≡ without_mask W.width (W.value word) (W.value mask) }
{
    word & !mask
}

// The number of the lowest clear bit: 32 where all are set, and no Option: what may not change, `LowestClear`.
#[tactic(auto, using(crate::proofs::BitLaws::lowest))]
pub fn lowest_clear(word: u32) -> u32
    ensures { LowestClear 32 word result }
{
    (!word).trailing_zeros()
}

// How many bits are set.
pub fn count_set(word: u32) -> u32
    ensures { (result ≡ ones word) × (result ≤ 32) }
{
    word.count_ones()
}
