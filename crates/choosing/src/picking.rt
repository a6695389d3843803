// The choice: the best candidate in arbitration.
ghost use Rattle.std.specs.Prelude.{◌≡◌, ◌&&◌, ◌+◌, ◌≤◌, ◌<◌, ltb, eqb, length};
ghost use Rattle.words.specs.Best.{somebody, better};
ghost use Rattle.places.specs.Areas.{HasPlace};
ghost use Rattle.engine.specs.Fitness.{Sound};
ghost use Rattle.choosing.specs.Choosing.{is_candidate, choice};
ghost use Rattle.choosing.specs.Needs.{picked, rank_in};

use areas::tx_area;
use element::unpack::tx_header;
use engine::state::State;
use places::Area;
use ring::Ring;
use words::bits;

// Whether a shared buffer is the FIFO's oldest.
fn is_oldest(q: Ring, dedicated: u32, buffer: u32) -> bool
    requires { dedicated ≤ buffer }
    ensures { result ≡ (ltb 0 q.fill && eqb buffer (dedicated + q.oldest)) }
{
    0 < q.fill && buffer - dedicated == q.oldest
}

// A pending dedicated or queue buffer, or the shared FIFO's oldest.
#[tactic(auto, unfolding(crate::specs::Choosing::is_candidate))]
fn is_candidate(s: State, buffer: u32) -> bool
    requires { buffer < 32 }
    ensures { result ≡ is_candidate s buffer }
{
    let dedicated = s.regs.txbc.dedicated();
    if buffer < dedicated || s.regs.is_queue() {
        return bits::test(s.pending, buffer);
    }
    is_oldest(s.shared, dedicated, buffer)
}

// A buffer's rank, which is in the first word of its element alone.
#[tactic(auto, unfolding(crate::specs::Needs::rank_in, element::specs::Headers::tx_header_in, element::specs::Headers::frame_in))]
fn rank_at(mem: &[u32], a: Area, buffer: u32) -> u32
    requires { HasPlace a buffer (length mem.now) }
    ensures { result ≡ rank_in mem.now a buffer }
{
    let at = a.place_in(buffer, mem.len());
    tx_header(mem[at.0 as usize], 0).frame.rank()
}

// A candidate against the best of the lower numbers: only a smaller rank is better.
fn better_of(mem: &[u32], a: Area, best: u32, buffer: u32) -> u32
    requires best { HasPlace a best (length mem.now) }
    requires buffer { HasPlace a buffer (length mem.now) }
    ensures { somebody result ≡ better (rank_in mem.now a) (somebody best) buffer }
{
    if rank_at(mem, a, buffer) < rank_at(mem, a, best) {
        buffer
    } else {
        best
    }
}

// The candidate of the smallest rank, and of several such the one of the lowest number.
// Not `min_by_key`: which of two is kept would be std's rule alone, and no edit of ours could try it.
#[tactic(auto, unfolding(crate::specs::Choosing::choice))]
pub fn best_buffer(s: State, mem: &[u32]) -> Option<u32>
    requires { Sound s (length mem.now) }
    ensures { picked result ≡ choice s mem.now }
{
    let a = tx_area(s.regs);
    (0..a.count)
        .filter(|b| is_candidate(s, *b))
        .reduce(|best, b| better_of(mem, a, best, b))
}
