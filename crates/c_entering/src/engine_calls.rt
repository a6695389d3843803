// Calls 1, 14 and 15 on words, and a state that was never started.
ghost use Rattle.std.specs.Prelude.{◌≡◌, [], ◌≤◌, length, replicate};
ghost use Rattle.shape.specs.Calls.{outcome};
ghost use Rattle.layout.specs.Sections.{none};
ghost use Rattle.layout.specs.Verdict.{meaning};
ghost use Rattle.engine.specs.Answers.{left};
ghost use Rattle.engine.specs.Calls.{world};
ghost use Rattle.starting.specs.Starting.{start_says, flat, start as start_rule};
ghost use Rattle.c_words.specs.States.{register_words, state_words, unpack_registers, unpack_state, unpack_record};
ghost use Rattle.c_answers.specs.Answers.{code};
ghost use Rattle.c_entering.specs.Entering.{returned, lent};
ghost use Rattle.c_entering.specs.EngineCalls.{never_started_call, start_call, clear_call, status_call};

use crate::entering::{enter, enter_start};
use c_answers::ANSWER_WORDS;
use c_answers::engine_answers::{named_words, overview_words, section_words};
use c_answers::numbers::CRefusal;
use c_words::buffers::put;
use c_words::states::{
    STATE_WORDS, put_record, put_state, take_any_state, take_record, take_registers,
};
use engine::state::State;
use layout::check::LayoutRefusal;
use starting::Started;

// Writes a state for which every call but a start answers 20.
pub fn never_started(state: &mut [u32]) -> Result<(), CRefusal>
    ensures { returned (code result) (lent state.new [] [] [] [])
        ≡ never_started_call (lent state.old [] [] [] []) }
{
    if state.len() != STATE_WORDS {
        return Err(CRefusal::WrongLength);
    }
    put_state(state, State::never_started());
    Ok(())
}

// The start of the state, record and registers that stand in these words.
fn start_of(
    state: &[u32],
    recorded: &[u32],
    mem: &[u32],
    registers: &[u32],
) -> Result<Started, LayoutRefusal>
    requires { (length state.now ≡ state_words) × (length recorded.now ≡ 2)
        × (register_words ≤ length registers.now) }
    ensures { outcome (start_says (meaning result))
        (world
        (left (λ a. a.state) (unpack_state state.now) result)
        (left (λ a. a.recorded) (unpack_record recorded.now) result)
        mem.now)
        (flat (left (λ a. a.sections) (replicate 7 none) result))
        ≡ start_rule (world (unpack_state state.now) (unpack_record recorded.now) mem.now)
        (unpack_registers registers.now) }
{
    let s = take_any_state(state);
    let r = take_record(recorded);
    starting::start(s, r, take_registers(registers), mem)
}

// Starts with the registers; the memory is only measured. A refusal names two sections in the answer.
pub fn start(
    state: &mut [u32],
    recorded: &mut [u32],
    mem: &[u32],
    registers: &[u32],
    answer: &mut [u32],
) -> Result<(), CRefusal>
    ensures { returned (code result)
        (lent state.new recorded.new mem.now answer.new [])
        ≡ start_call (lent state.old recorded.old mem.now answer.old [])
        registers.now }
{
    enter_start(state.len(), recorded.len(), registers, answer.len())?;
    match start_of(state, recorded, mem, registers) {
        Ok(after) => {
            put_state(state, after.state);
            put_record(recorded, after.recorded);
            put(answer, 0, &section_words(after.sections));
            Ok(())
        }
        Err(n) => {
            put(answer, 0, &named_words(n));
            Err(n.into())
        }
    }
}

// Clears the flags of a mask.
#[tactic(auto, unfolding(words::specs::Runs::splice))]
pub fn clear_flags(
    state: &[u32],
    recorded: &mut [u32],
    mem: &[u32],
    mask: u32,
) -> Result<(), CRefusal>
    ensures { returned (code result) (lent state.now recorded.new mem.now [] [])
        ≡ clear_call (lent state.now recorded.old mem.now [] []) mask }
{
    let (s, r) = enter(state, recorded, true)?;
    let next = overview::clear_flags(s, r, mem, mask)?;
    put_record(recorded, next);
    Ok(())
}

// Tells how the rings stand, and how many buffers are pending.
pub fn status(
    state: &[u32],
    recorded: &[u32],
    mem: &[u32],
    answer: &mut [u32],
) -> Result<(), CRefusal>
    ensures { returned (code result)
        (lent state.now recorded.now mem.now answer.new [])
        ≡ status_call (lent state.now recorded.now mem.now answer.old []) }
{
    let (s, r) = enter(state, recorded, answer.len() == ANSWER_WORDS)?;
    let told = overview::report_status(s, r, mem)?;
    put(answer, 0, &overview_words(told));
    Ok(())
}
