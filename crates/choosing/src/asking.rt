// Call 10, ask the choice.
ghost use Rattle.std.specs.Prelude.{◌≡◌};
ghost use Rattle.words.specs.Runs.{splice};
ghost use Rattle.areas.specs.Areas.{tx_area};
ghost use Rattle.shape.specs.Calls.{outcome};
ghost use Rattle.engine.specs.Answers.{saying};
ghost use Rattle.engine.specs.Calls.{world};
ghost use Rattle.choosing.specs.Choosing.{choice, chosen_of, bytes_of, next_of, output_of, next};
ghost use Rattle.choosing.specs.Choosing.{ask_choice};
ghost use Rattle.choosing.specs.Needs.{CanWrite, CanChoose};

use crate::buffers::{form_sent, header_at};
use crate::picking::best_buffer;
use areas::{element_in, tx_area};
use engine::fitness::judge_fit;
use engine::refusals::{Refusal, judge_output};
use engine::state::{Record, State};
use frame::Frame;

// The frame to send next, as it is sent. Call 10 tells marker and wish apart, as they stand: what may not change.
#[derive(Clone, Copy)]
pub struct Chosen {
    pub buffer: u32,
    pub marker: u8,
    // an event is wanted
    pub wish: bool,
    pub frame: Frame,
    // how many bytes were written to the lent output: no heap
    pub count: u32,
}

// The frame to send from a buffer, with its bytes.
fn send_from(s: State, mem: &[u32], buffer: u32, passive: bool, out: &mut [u8]) -> Chosen
    requires { CanWrite mem.now (tx_area s.regs) buffer out.old }
    ensures { (result ≡ chosen_of s mem.now passive buffer)
        × (out.new ≡ splice out.old 0 (bytes_of s mem.now passive buffer)) }
{
    let a = tx_area(s.regs);
    let h = header_at(mem, a, buffer);
    let frame = form_sent(s.regs, h.frame, passive);
    let count = frame.data_length();
    let element = element_in(a, buffer, mem.len());
    element.write_sent(mem, count as usize, out);
    Chosen {
        buffer,
        marker: h.marker,
        wish: h.wish,
        frame,
        count,
    }
}

// None where nothing is pending.
#[tactic(auto, using(crate::proofs::Picks::choice_can_write))]
fn choose(s: State, mem: &[u32], passive: bool, out: &mut [u8]) -> Option<Chosen>
    requires { CanChoose s mem.now out.old }
    ensures { (next result ≡ next_of s mem.now passive (choice s mem.now))
        × (out.new ≡ output_of s mem.now passive out.old (choice s mem.now)) }
{
    let buffer = best_buffer(s, mem)?;
    Some(send_from(s, mem, buffer, passive, out))
}

// Asks which frame to send next, as it is sent, and writes its bytes to the front of the output.
#[tactic(auto, using(shape::proofs::Calls::rows_then), unfolding(shape::specs::Calls::call, crate::specs::Choosing::choice_refusals, crate::specs::Choosing::chooses))]
pub fn ask_choice(
    s: State,
    recorded: Record,
    mem: &[u32],
    passive: bool,
    out: &mut [u8],
) -> Result<Option<Chosen>, Refusal>
    ensures { outcome (saying next result) (world s recorded mem.now) out.new
        ≡ ask_choice (world s recorded mem.now) passive out.old }
{
    judge_fit(s, recorded, mem.len())?;
    judge_output(out.len())?;
    Ok(choose(s, mem, passive, out))
}
