// Call 1, start.
#![tactic(auto)]

ghost use Rattle.std.specs.Prelude.{◌≡◌, replicate};
ghost use Rattle.shape.specs.Calls.{outcome};
ghost use Rattle.layout.specs.Sections.{none};
ghost use Rattle.layout.specs.Verdict.{meaning};
ghost use Rattle.engine.specs.Answers.{left};
ghost use Rattle.engine.specs.Calls.{world};
ghost use Rattle.starting.specs.Starting.{start_says, flat, start as start_call};

use engine::state::{Record, State};
use layout::check::{LayoutRefusal, judge};
use layout::sections::Section;
use registers::Registers;

// The seven sections, and an empty state and record: its own struct, as AfterReceive.
#[derive(Clone, Copy)]
pub struct Started {
    pub sections: [Section; 7],
    pub state: State,
    pub recorded: Record,
}

// The old state and record stay the caller's where it is refused. The memory is only measured.
#[tactic(auto, unfolding(shape::specs::Calls::call, layout::specs::Verdict::verdict))]
pub fn start(
    old: State,
    recorded: Record,
    regs: Registers,
    mem: &[u32],
) -> Result<Started, LayoutRefusal>
    ensures { outcome (start_says (meaning result))
        (world (left (λ a. a.state) old result) (left (λ a. a.recorded) recorded result) mem.now)
        (flat (left (λ a. a.sections) (replicate 7 none) result))
        ≡ start_call (world old recorded mem.now) regs }
{
    let sections = judge(regs, mem.len())?;
    Ok(Started {
        sections,
        state: State::empty(regs),
        recorded: Record::clean(),
    })
}
