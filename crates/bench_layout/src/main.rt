// Reads a layout's registers from standard input and prints what a start says of them.
#![tactic(auto)]

ghost use Rattle.std.specs.Prelude.{◌≡◌, ◌≤◌, ◌<◌, length, take, IfOk};
ghost use Rattle.std.specs.Io.KnownBytes.{Consumes, IsAtEnd};

use printout::printout;
use std::io;
use std::io::Read;

// Reads until the input is full or ends, and says how many bytes stand at its front: those that the reader gave.
fn read_full<R: Read>(from: &mut R, input: &mut [u8]) -> io::Result<usize>
    ensures within { IfOk result (λ n. n ≤ length input.new) }
    ensures same_length { length input.new ≡ length input.old }
    ensures bytes { IfOk result (λ n. Consumes (R.remaining from.old) (R.remaining from.new) (take n input.new)) }
    ensures to_the_end { IfOk result (λ n. n < length input.new → IsAtEnd (R.remaining from.new)) }
{
    let mut done = 0;
    // No `for`, which would be no plainer: each read moves on as far as it comes.
    while done < input.len() {
        let n = from.read(&mut input[done..])?;
        if n == 0 {
            return Ok(done);
        }
        done += n;
    }
    Ok(done)
}

fn main(rt: HostRuntime) -> io::Result<()> {
    // Longer than an input that is read, so that a byte too many is seen.
    // No heap, so no `read_to_end`.
    let mut input = [0; 4096];
    let n = read_full(&mut rt.reader(), &mut input)?;
    print!(rt; "{}", printout(&input[..n]))
}
