// What is found against a call from C before it begins, 100 and 101, and the state and record of one that begins.
ghost use Rattle.std.specs.Prelude.{◌≡◌, ◌&&◌, not, eqb, length, true, IfOk};
ghost use Rattle.words.specs.Rules.{refuse_if};
ghost use Rattle.c_words.specs.Words.{is_yes_no, says_yes};
ghost use Rattle.c_words.specs.Frames.{plain_frame};
ghost use Rattle.c_words.specs.States.{register_words, state_words, plain_registers};
ghost use Rattle.c_entering.specs.Entering.{has, entry_ruling, entered, sized};
ghost use Rattle.c_entering.specs.Needs.{Entered};

use c_answers::ANSWER_WORDS;
use c_answers::numbers::CRefusal;
use c_words::frames::{FRAME_WORDS, is_plain_frame};
use c_words::states::{
    RECORD_WORDS, REGISTER_WORDS, STATE_WORDS, is_plain_registers, take_record, take_state,
};
use engine::state::{Record, State};

// Told are whether all buffers have their lengths, and all words that say yes or no say so.
fn judge(lengths: bool, words: bool) -> Result<(), CRefusal>
    ensures ruling { entered result ≡ entry_ruling lengths words }
    ensures passed { IfOk result (λ u. (lengths ≡ true) × (words ≡ true)) }
{
    if !lengths {
        return Err(CRefusal::WrongLength);
    }
    if !words {
        return Err(CRefusal::Neither);
    }
    Ok(())
}

fn is_sized(state: usize, recorded: usize) -> bool
    ensures { result ≡ (eqb state state_words && eqb recorded 2) }
{
    state == STATE_WORDS && recorded == RECORD_WORDS
}

// Of a call on a state, whose own buffers have their lengths.
pub fn enter(state: &[u32], recorded: &[u32], lengths: bool) -> Result<(State, Record), CRefusal>
    ensures ruling { entered result
        ≡ entry_ruling (sized state.now recorded.now && lengths) (plain_registers state.now) }
    ensures taken { IfOk result (λ b. Entered state.now recorded.now b.0 b.1) }
    ensures own { IfOk result (λ b. lengths ≡ true) }
{
    let box_sized = is_sized(state.len(), recorded.len());
    judge(box_sized && lengths, is_plain_registers(state))?;
    Ok((take_state(state), take_record(recorded)))
}

// What a word of the call's own says, yes or no; found after all lengths, as 101 comes after 100.
pub fn yes_no(word: u32) -> Result<bool, CRefusal>
    ensures ruling { entered result ≡ refuse_if (not (is_yes_no word)) 101 }
    ensures is { IfOk result (λ b. b ≡ says_yes word) }
{
    match word {
        0 => Ok(false),
        1 => Ok(true),
        _ => Err(CRefusal::Neither),
    }
}

// The same as `enter` with a frame and an answer of so many words. Inlined: a receive is slower else.
#[inline]
pub fn enter_frame(
    state: &[u32],
    recorded: &[u32],
    frame: &[u32],
    answer: usize,
) -> Result<(State, Record), CRefusal>
    ensures ruling { entered result
        ≡ entry_ruling
        (sized state.now recorded.now && (has frame.now 7 && eqb answer 16))
        (plain_registers state.now && plain_frame frame.now) }
    ensures taken { IfOk result (λ b. Entered state.now recorded.now b.0 b.1) }
    ensures own { IfOk result (λ b. (length frame.now ≡ 7) × (answer ≡ 16)) }
{
    let lengths = frame.len() == FRAME_WORDS && answer == ANSWER_WORDS;
    let entered = enter(state, recorded, lengths)?;
    if is_plain_frame(frame) {
        Ok(entered)
    } else {
        Err(CRefusal::Neither)
    }
}

// Of a start: a state, a record and an answer of so many words, and registers. The old state may be any words.
pub fn enter_start(
    state: usize,
    recorded: usize,
    registers: &[u32],
    answer: usize,
) -> Result<(), CRefusal>
    ensures ruling { entered result
        ≡ entry_ruling
        ((eqb state state_words && eqb recorded 2) && (has registers.now register_words && eqb answer 16))
        (plain_registers registers.now) }
    ensures sizes { IfOk result
        (λ u. (state ≡ state_words) × (recorded ≡ 2)
        × (length registers.now ≡ register_words) × (answer ≡ 16)) }
{
    let box_sized = is_sized(state, recorded);
    let lengths = registers.len() == REGISTER_WORDS && answer == ANSWER_WORDS;
    judge(box_sized && lengths, is_plain_registers(registers))
}
