// The twelve numbers of the input.
ghost use Rattle.std.specs.Prelude.{◌≡◌, true, length, SomeIff};
ghost use Rattle.printout.specs.Input.{LineRead, number_from, readable, registers_of};

use registers::Registers;

// The length of the memory of document 01's bench cases.
pub(crate) const BENCH_WORDS: u32 = 2560;

// The number that eight hex digits write, the most significant first, where a newline follows them. Not
// `from_str_radix`, which reads a sign: what may not change, `readable` refuses one.
fn number_on(line: &[u8]) -> Option<u32>
    requires { length line.now ≡ 9 }
    ensures { SomeIff result (LineRead line.now) (number_from line.now 0 8) }
{
    let mut n = 0;
    for byte in &line[..8] {
        n = n * 16 + (*byte as char).to_digit(16)?;
    }
    if line[8] == b'\n' { Some(n) } else { None }
}

// The registers of twelve such lines, the last the number of Rx buffers.
pub(crate) fn registers(input: &[u8]) -> Option<Registers>
    ensures { SomeIff result (readable input.now ≡ true) (registers_of input.now) }
{
    if input.len() != 108 {
        return None;
    }
    let mut words = [0; 12];
    for (i, line) in input.chunks_exact(9).enumerate() {
        words[i] = number_on(line)?;
    }
    Some(Registers::from_words(&words, false, false, BENCH_WORDS))
}
