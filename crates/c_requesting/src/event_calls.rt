// Calls 12 and 13 on words.
ghost use Rattle.std.specs.Prelude.{◌≡◌, []};
ghost use Rattle.c_answers.specs.Answers.{code};
ghost use Rattle.c_entering.specs.Entering.{returned, lent};
ghost use Rattle.c_requesting.specs.EventCalls.{read_event_call, acknowledge_event_call};

use c_answers::ANSWER_WORDS;
use c_answers::numbers::CRefusal;
use c_answers::sending_answers::event_words;
use c_entering::entering::enter;
use c_words::buffers::put;
use c_words::states::put_state;

// Tells a held event.
pub fn read_event(
    state: &[u32],
    recorded: &[u32],
    mem: &[u32],
    place: u32,
    answer: &mut [u32],
) -> Result<(), CRefusal>
    ensures { returned (code result)
        (lent state.now recorded.now mem.now answer.new [])
        ≡ read_event_call (lent state.now recorded.now mem.now answer.old [])
        place }
{
    let (s, r) = enter(state, recorded, answer.len() == ANSWER_WORDS)?;
    let event = events::read_event(s, r, mem, place)?;
    put(answer, 0, &event_words(event));
    Ok(())
}

// Releases all held events up to and including a place.
#[tactic(auto, unfolding(words::specs::Runs::splice))]
pub fn acknowledge_event(
    state: &mut [u32],
    recorded: &[u32],
    mem: &[u32],
    place: u32,
) -> Result<(), CRefusal>
    ensures { returned (code result) (lent state.new recorded.now mem.now [] [])
        ≡ acknowledge_event_call (lent state.old recorded.now mem.now [] []) place }
{
    let (s, r) = enter(state, recorded, true)?;
    let next = events::acknowledge_event(s, r, mem, place)?;
    put_state(state, next);
    Ok(())
}
