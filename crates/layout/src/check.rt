// Which layouts a start refuses: numbers 10 to 15, the lowest first.
ghost use Rattle.std.specs.Prelude.{◌≡◌, IfOk, nat_lt, position};
ghost use Rattle.layout.specs.Sections.{over_most, sections_of};
ghost use Rattle.words.specs.Rules.{refused};
ghost use Rattle.layout.specs.Verdict.{meaning, numbers, refusal_of, as_refusal};
ghost use Rattle.layout.specs.Verdict.{wrong_memory, end, shares, pair_rule, verdict};

use crate::sections::{Section, over_most, sections};
use registers::Registers;
use registers::kinds::Txbc;

// The most words that a memory may have.
pub const MEMORY_MOST: u32 = 4352;

// Why a start is refused. Sections are named by their numbers, 0 to 6, which a search in `sections` gives: an enum
// would be no plainer.
#[derive(Clone, Copy)]
pub enum LayoutRefusal {
    WrongMemory,
    UnnamedBit,
    CountOver(usize),
    TxOver,
    PastMemory(usize),
    Overlap(usize, usize),
}

// A refusal in the paper's numbers: its own, and the two sections that it names.
#[derive(Clone, Copy)]
pub struct Naming {
    pub number: u32,
    pub section: usize,
    pub other: usize,
}

impl LayoutRefusal {
    // A section that is not named is 7: the paper's number, and what C is told. A method and no `From`, which would be
    // no plainer: it has the name of what it gives.
    pub fn naming(self) -> Naming
        ensures { as_refusal result ≡ numbers (refused (refusal_of self)) }
    {
        let (number, section, other) = match self {
            LayoutRefusal::WrongMemory => (10, 7, 7),
            LayoutRefusal::UnnamedBit => (11, 7, 7),
            LayoutRefusal::CountOver(i) => (12, i, 7),
            LayoutRefusal::TxOver => (13, 7, 7),
            LayoutRefusal::PastMemory(i) => (14, i, 7),
            LayoutRefusal::Overlap(i, j) => (15, i, j),
        };
        Naming {
            number,
            section,
            other,
        }
    }
}

impl Section {
    fn end(self) -> u64
        ensures { result ≡ end self }
    {
        u64::from(self.start.0) + u64::from(self.words)
    }

    // Whether two sections have a word in common: neither is empty, and neither ends before the other starts.
    // Not by `max` and `min`: tried and slower, by a tenth to a fifth of every call.
    fn shares(self, other: Section) -> bool
        ensures { result ≡ shares self other }
    {
        self.words != 0
            && u64::from(other.start.0) < self.end()
            && u64::from(self.start.0) < other.end()
            && other.words != 0
    }
}

// Whether a memory of so many words is not one of the given length, or that length is none that a memory may have.
fn wrong_memory(given: u32, len: usize) -> bool
    ensures { result ≡ wrong_memory given len }
{
    (given == 0) | (MEMORY_MOST < given) | (len != given as usize)
}

// The first section with a count over its most.
fn first_over(regs: Registers) -> Option<usize>
    ensures { result ≡ position (λ t. t) (over_most regs) }
{
    over_most(regs).iter().position(|over| *over)
}

// The first section that ends past a memory of so many words.
fn first_past(s: &[Section; 7], words: u32) -> Option<usize>
    ensures { result ≡ position (λ x. nat_lt words (end x)) s.now }
{
    s.iter()
        .position(|section| u64::from(words) < section.end())
}

// No two sections share a word.
fn check_pairs(s: &[Section; 7]) -> Result<(), LayoutRefusal>
    ensures { meaning result ≡ pair_rule s.now }
{
    // Document 01 asks for nested loops that a label leaves.
    let mut found = Ok(());
    'pairs: for i in 0..7 {
        for j in i + 1..7 {
            if s[i].shares(s[j]) {
                found = Err(LayoutRefusal::Overlap(i, j));
                break 'pairs;
            }
        }
    }
    found
}

pub fn check(regs: Registers, len: usize) -> Result<(), LayoutRefusal>
    ensures { meaning result ≡ verdict regs len }
{
    if wrong_memory(regs.memory, len) {
        return Err(LayoutRefusal::WrongMemory);
    }
    if !regs.only_named() {
        return Err(LayoutRefusal::UnnamedBit);
    }
    if let Some(i) = first_over(regs) {
        return Err(LayoutRefusal::CountOver(i));
    }
    if Txbc::MOST < regs.tx_count() {
        return Err(LayoutRefusal::TxOver);
    }
    let s = sections(regs);
    if let Some(i) = first_past(&s, regs.memory) {
        return Err(LayoutRefusal::PastMemory(i));
    }
    check_pairs(&s)
}

// The sections of a layout that a start accepts.
pub fn judge(regs: Registers, len: usize) -> Result<[Section; 7], LayoutRefusal>
    ensures verdict { meaning result ≡ verdict regs len }
    ensures sections { IfOk result (λ s. s ≡ sections_of regs) }
{
    check(regs, len)?;
    Ok(sections(regs))
}
