// Call 2 on words.
ghost use Rattle.std.specs.Prelude.{◌≡◌, []};
ghost use Rattle.c_answers.specs.Answers.{code};
ghost use Rattle.c_entering.specs.Entering.{returned, lent};
ghost use Rattle.c_receiving.specs.ReceivingCalls.{receive_call};

use c_answers::numbers::CRefusal;
use c_answers::receiving_answers::fate_words;
use c_entering::entering::enter_frame;
use c_words::buffers::put;
use c_words::frames::take_frame;
use c_words::states::{put_record, put_state};

// Receives a frame.
#[tactic(auto, using(c_entering::proofs::Keeps::call_keeps))]
pub fn receive(
    state: &mut [u32],
    recorded: &mut [u32],
    mem: &mut [u32],
    frame: &[u32],
    bytes: &[u8],
    time: u16,
    answer: &mut [u32],
) -> Result<(), CRefusal>
    ensures { returned (code result)
        (lent state.new recorded.new mem.new answer.new [])
        ≡ receive_call (lent state.old recorded.old mem.old answer.old [])
        frame.now bytes.now time }
{
    let (s, r) = enter_frame(state, recorded, frame, answer.len())?;
    let after = receiving::receive::receive(s, r, mem, take_frame(frame), bytes, time)?;
    put(answer, 0, &fate_words(after.answer));
    put_state(state, after.state);
    put_record(recorded, after.recorded);
    Ok(())
}
