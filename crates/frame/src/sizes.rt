// The sizes of elements, by their code.
ghost use Rattle.std.specs.Prelude.{◌≡◌, ◌≤◌, ◌<◌};
ghost use Rattle.frame.specs.Sizes.{element_words};

const WORDS: [u32; 8] = [4, 5, 6, 7, 8, 10, 14, 18];

// The words of an element: two of header, and its data words. The code is a number as in the registers (Rxesc).
pub fn element_words(code: u32) -> u32
    requires { code < 8 }
    ensures { (result ≡ element_words code) × (4 ≤ result) × (result ≤ 18) }
{
    WORDS[code as usize]
}
