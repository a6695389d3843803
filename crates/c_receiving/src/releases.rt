// Calls 4 and 6 on words.
ghost use Rattle.std.specs.Prelude.{◌≡◌, []};
ghost use Rattle.c_answers.specs.Answers.{code};
ghost use Rattle.c_entering.specs.Entering.{returned, lent};
ghost use Rattle.c_receiving.specs.ReceivingCalls.{acknowledge_fifo_call, release_buffer_call};

use c_answers::numbers::CRefusal;
use c_entering::entering::enter;
use c_words::states::put_state;
use taking::releasing;

// Releases all held in a FIFO up to and including a place.
#[tactic(auto, unfolding(words::specs::Runs::splice))]
pub fn acknowledge_fifo(
    state: &mut [u32],
    recorded: &[u32],
    mem: &[u32],
    fifo: u32,
    place: u32,
) -> Result<(), CRefusal>
    ensures { returned (code result) (lent state.new recorded.now mem.now [] [])
        ≡ acknowledge_fifo_call (lent state.old recorded.now mem.now [] [])
        fifo place }
{
    let (s, r) = enter(state, recorded, true)?;
    let next = releasing::acknowledge_fifo(s, r, mem, fifo, place)?;
    put_state(state, next);
    Ok(())
}

// Releases an Rx buffer.
#[tactic(auto, unfolding(words::specs::Runs::splice))]
pub fn release_buffer(
    state: &mut [u32],
    recorded: &[u32],
    mem: &[u32],
    buffer: u32,
) -> Result<(), CRefusal>
    ensures { returned (code result) (lent state.new recorded.now mem.now [] [])
        ≡ release_buffer_call (lent state.old recorded.now mem.now [] []) buffer }
{
    let (s, r) = enter(state, recorded, true)?;
    let next = releasing::release_buffer(s, r, mem, buffer)?;
    put_state(state, next);
    Ok(())
}
