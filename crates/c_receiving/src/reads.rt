// Calls 3 and 5 on words.
ghost use Rattle.std.specs.Prelude.{◌≡◌};
ghost use Rattle.c_answers.specs.Answers.{code};
ghost use Rattle.c_entering.specs.Entering.{returned, lent};
ghost use Rattle.c_receiving.specs.ReceivingCalls.{read_fifo_call, read_buffer_call};

use c_answers::ANSWER_WORDS;
use c_answers::numbers::CRefusal;
use c_answers::receiving_answers::read_words;
use c_entering::entering::enter;
use c_words::buffers::put;
use taking::reading;

// Reads the element at a held place of a FIFO.
#[tactic(auto, using(c_entering::proofs::Keeps::call_keeps))]
pub fn read_fifo(
    state: &[u32],
    recorded: &[u32],
    mem: &[u32],
    fifo: u32,
    place: u32,
    out: &mut [u8],
    answer: &mut [u32],
) -> Result<(), CRefusal>
    ensures { returned (code result)
        (lent state.now recorded.now mem.now answer.new out.new)
        ≡ read_fifo_call
        (lent state.now recorded.now mem.now answer.old out.old)
        fifo place }
{
    let (s, r) = enter(state, recorded, answer.len() == ANSWER_WORDS)?;
    let read = reading::read_fifo(s, r, mem, fifo, place, out)?;
    put(answer, 0, &read_words(read));
    Ok(())
}

// Reads an Rx buffer that holds new data.
#[tactic(auto, using(c_entering::proofs::Keeps::call_keeps))]
pub fn read_buffer(
    state: &[u32],
    recorded: &[u32],
    mem: &[u32],
    buffer: u32,
    out: &mut [u8],
    answer: &mut [u32],
) -> Result<(), CRefusal>
    ensures { returned (code result)
        (lent state.now recorded.now mem.now answer.new out.new)
        ≡ read_buffer_call
        (lent state.now recorded.now mem.now answer.old out.old)
        buffer }
{
    let (s, r) = enter(state, recorded, answer.len() == ANSWER_WORDS)?;
    let read = reading::read_buffer(s, r, mem, buffer, out)?;
    put(answer, 0, &read_words(read));
    Ok(())
}
