// The number that a call from C returns, and a filter element's number.
ghost use Rattle.std.specs.Prelude.{◌≡◌, ◌<◌};
ghost use Rattle.element.specs.Fitting.{index_of};
ghost use Rattle.c_answers.specs.Answers.{code_of, code, filter_number};
ghost use Rattle.c_answers.specs.declared.numbers.CRefusal.TheVariants.{Layout, Call};

use engine::refusals::Refusal;
use layout::check::LayoutRefusal;

// Why a call from C is refused.
#[derive(Clone, Copy)]
pub enum CRefusal {
    // a lent buffer that has a length of its own has another
    WrongLength,
    // a word that says yes or no is neither 0 nor 1
    Neither,
    // what refuses a start
    Layout(LayoutRefusal),
    // what refuses any other call
    Call(Refusal),
}

impl From<LayoutRefusal> for CRefusal {
    ghost from_gives = { λ n e. e ≡ Layout n };

    fn from(n: LayoutRefusal) -> Self {
        Self::Layout(n)
    }
}

impl From<Refusal> for CRefusal {
    ghost from_gives = { λ n e. e ≡ Call n };

    fn from(n: Refusal) -> Self {
        Self::Call(n)
    }
}

impl From<CRefusal> for u32 {
    ghost from_gives = { λ e n. n ≡ code_of e };

    fn from(e: CRefusal) -> u32 {
        match e {
            CRefusal::WrongLength => 100,
            CRefusal::Neither => 101,
            CRefusal::Layout(n) => n.naming().number,
            CRefusal::Call(n) => n.into(),
        }
    }
}

// 0 where the call is done: the C interface.
pub fn number_of(done: Result<(), CRefusal>) -> u32
    ensures { result ≡ code done }
{
    match done {
        Ok(()) => 0,
        Err(e) => e.into(),
    }
}

// A filter element: its index + 1, 0 for none: the C interface.
pub fn filter_number(m: Option<u32>) -> u32
    requires { index_of m < 128 }
    ensures { result ≡ filter_number m }
{
    m.map_or(0, |i| i + 1)
}
