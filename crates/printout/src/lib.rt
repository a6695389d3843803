// What the bench program prints: the layout that its twelve registers give, its refusal, or `layout unread`.
#![tactic(auto)]

mod reading;

ghost use Rattle.std.specs.Prelude.{◌≤◌, ◌≡◌, Some, length};
ghost use Rattle.printout.specs.Printed.{content, printed};

use crate::reading::{BENCH_WORDS, registers};
use layout::check::{LayoutRefusal, judge};
use layout::sections::Section;
use std::fmt;

// What an input gives.
// An enum of its own, for `Display`: a type around std's `Option<Result<..>>` would be no plainer.
#[derive(Clone, Copy)]
pub enum Answer {
    Unread,
    Refused(LayoutRefusal),
    Accepted([Section; 7]),
}

// Of an accepted layout a line for each section: its number, its first word and how many it has.
impl fmt::Display for Answer {
    ghost output = { λ p. Some (content p) };

    fn fmt<W: fmt::Write>(&self, f: &mut fmt::Formatter<W>) -> fmt::Result {
        match self {
            Answer::Unread => writeln!(f, "layout unread"),
            Answer::Refused(refusal) => {
                let n = refusal.naming();
                writeln!(f, "layout refused {} {} {}", n.number, n.section, n.other)
            }
            Answer::Accepted(sections) => {
                writeln!(f, "layout ok")?;
                for (i, s) in sections.iter().enumerate() {
                    writeln!(f, "{i} {} {}", s.start.0, s.words)?;
                }
                Ok(())
            }
        }
    }
}

pub fn printout(input: &[u8]) -> Answer
    ensures bytes { content result ≡ printed input.now }
    ensures most { length (content result) ≤ 512 }
{
    let Some(regs) = registers(input) else {
        return Answer::Unread;
    };
    match judge(regs, BENCH_WORDS as usize) {
        Ok(sections) => Answer::Accepted(sections),
        Err(refusal) => Answer::Refused(refusal),
    }
}
