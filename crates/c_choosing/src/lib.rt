// Calls 10 and 11 on words, each as `c_entering` says.
#![tactic(auto)]

ghost use Rattle.std.specs.Prelude.{◌≡◌, []};
ghost use Rattle.c_answers.specs.Answers.{code};
ghost use Rattle.c_entering.specs.Entering.{returned, lent};
ghost use Rattle.c_choosing.specs.ChoosingCalls.{ask_choice_call, report_sent_call};

use c_answers::ANSWER_WORDS;
use c_answers::numbers::CRefusal;
use c_answers::sending_answers::{chosen_words, nothing_words};
use c_entering::entering::{enter, yes_no};
use c_words::buffers::put;
use c_words::states::{put_record, put_state};
use choosing::asking;
use reporting::report;

// Asks which frame to send next.
#[tactic(auto, using(c_entering::proofs::Keeps::call_keeps))]
pub fn ask_choice(
    state: &[u32],
    recorded: &[u32],
    mem: &[u32],
    passive: u32,
    out: &mut [u8],
    answer: &mut [u32],
) -> Result<(), CRefusal>
    ensures { returned (code result)
        (lent state.now recorded.now mem.now answer.new out.new)
        ≡ ask_choice_call
        (lent state.now recorded.now mem.now answer.old out.old)
        passive }
{
    let (s, r) = enter(state, recorded, answer.len() == ANSWER_WORDS)?;
    let passive = yes_no(passive)?;
    match asking::ask_choice(s, r, mem, passive, out)? {
        Some(chosen) => put(answer, 0, &chosen_words(chosen)),
        None => put(answer, 0, &nothing_words()),
    }
    Ok(())
}

// Reports that the present choice was sent.
#[tactic(auto, using(c_entering::proofs::Keeps::call_keeps), unfolding(words::specs::Runs::splice))]
pub fn report_sent(
    state: &mut [u32],
    recorded: &mut [u32],
    mem: &mut [u32],
    buffer: u32,
    passive: u32,
    time: u16,
) -> Result<(), CRefusal>
    ensures { returned (code result) (lent state.new recorded.new mem.new [] [])
        ≡ report_sent_call (lent state.old recorded.old mem.old [] [])
        buffer passive time }
{
    let (s, r) = enter(state, recorded, true)?;
    let passive = yes_no(passive)?;
    let after = report::report_sent(s, r, mem, buffer, passive, time)?;
    put_state(state, after.state);
    put_record(recorded, after.recorded);
    Ok(())
}
