// Why a call other than a start is refused, and what is found against a lent output before anything is done.
ghost use Rattle.std.specs.Prelude.{◌≡◌};
ghost use Rattle.words.specs.Rules.{first};
ghost use Rattle.engine.specs.Answers.{number_of, ruled};
ghost use Rattle.engine.specs.Calls.{output_refusals};

// Each with the paper's number.
#[derive(Clone, Copy)]
pub enum Refusal {
    Unfit = 20,
    Malformed = 21,
    FdOff = 22,
    NoSuch = 23,
    AlreadyPending = 24,
    NoneFree = 25,
    InSharedFifo = 26,
    NotPending = 27,
    NotTheChoice = 28,
    NotHeld = 29,
    WrongOutput = 30,
}

impl From<Refusal> for u32 {
    ghost from_gives = { λ refusal n. n ≡ number_of refusal };

    fn from(refusal: Refusal) -> u32 {
        refusal as u32
    }
}

// How many bytes a lent output has.
pub const OUTPUT_BYTES: usize = 64;

// 30: the lent output is of the wrong length.
#[tactic(auto, unfolding(crate::specs::Calls::output_refusals))]
pub fn judge_output(bytes: usize) -> Result<(), Refusal>
    ensures { ruled result ≡ first (output_refusals bytes) }
{
    if bytes != OUTPUT_BYTES {
        return Err(Refusal::WrongOutput);
    }
    Ok(())
}
