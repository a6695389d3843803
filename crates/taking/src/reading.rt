// Calls 3 and 5, read in a FIFO and read an Rx buffer.
ghost use Rattle.std.specs.Prelude.{◌≡◌};
ghost use Rattle.words.specs.Runs.{splice};
ghost use Rattle.shape.specs.Calls.{outcome};
ghost use Rattle.places.specs.Areas.{place_in};
ghost use Rattle.element.specs.Bytes.{rx_read, read_bytes};
ghost use Rattle.areas.specs.Areas.{data_words};
ghost use Rattle.engine.specs.Answers.{saying};
ghost use Rattle.engine.specs.Calls.{world};
ghost use Rattle.taking.specs.Needs.{CanRead};
ghost use Rattle.taking.specs.Reading.{read_fifo, read_buffer};

use crate::judging::{judge_buffer, judge_fifo};
use areas::{buffer_area, element_in, fifo_area};
use element::RxRead;
use engine::refusals::{Refusal, judge_output};
use engine::state::{Record, State};
use places::Area;

// Reads the element at a place.
fn read_in(mem: &[u32], a: Area, place: u32, out: &mut [u8]) -> RxRead
    requires { CanRead mem.now a place out.old }
    ensures { (result ≡ rx_read mem.now (place_in a place) (data_words a))
        × (out.new
        ≡ splice out.old 0 (read_bytes mem.now (place_in a place) (data_words a))) }
{
    element_in(a, place, mem.len()).read_rx(mem, out)
}

// Reads the element at a held place of a FIFO.
#[tactic(auto, using(crate::proofs::Judgements::can_read_place, shape::proofs::Calls::rows_then), unfolding(shape::specs::Calls::call, crate::specs::Reading::reads))]
pub fn read_fifo(
    s: State,
    recorded: Record,
    mem: &[u32],
    fifo: u32,
    place: u32,
    out: &mut [u8],
) -> Result<RxRead, Refusal>
    ensures { outcome (saying (λ h. h) result) (world s recorded mem.now) out.new
        ≡ read_fifo (world s recorded mem.now) fifo place out.old }
{
    judge_fifo(s, recorded, mem, fifo, place)?;
    judge_output(out.len())?;
    Ok(read_in(mem, fifo_area(s.regs, fifo), place, out))
}

// Reads an Rx buffer that holds new data.
#[tactic(auto, using(crate::proofs::Judgements::can_read_buffer, crate::proofs::Judgements::buffer_few, shape::proofs::Calls::rows_then), unfolding(shape::specs::Calls::call, crate::specs::Reading::reads))]
pub fn read_buffer(
    s: State,
    recorded: Record,
    mem: &[u32],
    buffer: u32,
    out: &mut [u8],
) -> Result<RxRead, Refusal>
    ensures { outcome (saying (λ h. h) result) (world s recorded mem.now) out.new
        ≡ read_buffer (world s recorded mem.now) buffer out.old }
{
    judge_buffer(s, recorded, mem, buffer)?;
    judge_output(out.len())?;
    Ok(read_in(mem, buffer_area(s.regs), buffer, out))
}
