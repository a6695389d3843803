// The vocabulary: a word's address, bits of words, and bytes in words.
#![tactic(auto)]

pub mod bits;
pub mod bytes;

ghost use Rattle.std.specs.Prelude.{◌≡◌, ◌<◌};
ghost use Rattle.words.specs.Choice.{pick};

// A word's place in the memory: no count, no place in a section, no byte address.
#[derive(Clone, Copy)]
pub struct WordAddress(pub u32);

// Yes or no as a bit of a word: 1 where it is set.
// Beside `u32::from`: what may not change, its clause says `pick` and that it is below 2.
pub fn bit_of(b: bool) -> u32
    ensures { (result ≡ pick b 1 0) × (result < 2) }
{
    u32::from(b)
}
