// Calls 7 and 8 on words.
ghost use Rattle.std.specs.Prelude.{◌≡◌, []};
ghost use Rattle.c_answers.specs.Answers.{code};
ghost use Rattle.c_entering.specs.Entering.{returned, lent};
ghost use Rattle.c_requesting.specs.RequestingCalls.{request_dedicated_call, request_shared_call};

use c_answers::numbers::CRefusal;
use c_entering::entering::{enter_frame, yes_no};
use c_words::buffers::put;
use c_words::frames::take_request;
use c_words::states::put_state;
use requesting::requesting as calls;

// Requests a dedicated buffer.
#[tactic(auto, using(c_entering::proofs::Keeps::call_keeps))]
pub fn request_dedicated(
    state: &mut [u32],
    recorded: &[u32],
    mem: &mut [u32],
    buffer: u32,
    frame: &[u32],
    bytes: &[u8],
    marker: u8,
    wish: u32,
    answer: &mut [u32],
) -> Result<(), CRefusal>
    ensures { returned (code result)
        (lent state.new recorded.now mem.new answer.new [])
        ≡ request_dedicated_call
        (lent state.old recorded.now mem.old answer.old [])
        buffer frame.now bytes.now marker wish }
{
    let (s, r) = enter_frame(state, recorded, frame, answer.len())?;
    yes_no(wish)?;
    let h = take_request(frame, marker, wish);
    let after = calls::request_dedicated(s, r, mem, buffer, h, bytes)?;
    put(answer, 0, &[after.buffer]);
    put_state(state, after.state);
    Ok(())
}

// Requests the shared part.
#[tactic(auto, using(c_entering::proofs::Keeps::call_keeps))]
pub fn request_shared(
    state: &mut [u32],
    recorded: &[u32],
    mem: &mut [u32],
    frame: &[u32],
    bytes: &[u8],
    marker: u8,
    wish: u32,
    answer: &mut [u32],
) -> Result<(), CRefusal>
    ensures { returned (code result)
        (lent state.new recorded.now mem.new answer.new [])
        ≡ request_shared_call
        (lent state.old recorded.now mem.old answer.old [])
        frame.now bytes.now marker wish }
{
    let (s, r) = enter_frame(state, recorded, frame, answer.len())?;
    yes_no(wish)?;
    let h = take_request(frame, marker, wish);
    let after = calls::request_shared(s, r, mem, h, bytes)?;
    put(answer, 0, &[after.buffer]);
    put_state(state, after.state);
    Ok(())
}
