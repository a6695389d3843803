// The record, changed in place by the caller's interrupt code: few thin functions by `&mut` (document 01's form) over
// the steps by value.
// They are raw steps: no state is asked for, and nothing is refused.
#![tactic(auto)]

ghost use Rattle.std.specs.Prelude.{◌≡◌};
ghost use Rattle.engine.specs.Flags.{cleared, with_priority};
ghost use Rattle.inplace.specs.Raising.{raised_mask};
ghost use Rattle.inplace.specs.Taking.{taken, without_flags};

use engine::state::Record;
use words::bits;

// The flags of a mask are set; the priority stays. No method, since Record is of another crate.
#[tactic(auto, unfolding(crate::specs::Raising::raised_mask))]
pub fn raise_mask(r: Record, mask: u32) -> Record
    ensures { result ≡ raised_mask r mask }
{
    Record {
        flags: bits::set_mask(r.flags, mask),
        ..r
    }
}

// The same in place.
pub fn cuongphemi_flags_raise(recorded: &mut Record, mask: u32)
    ensures { recorded.new ≡ raised_mask recorded.old mask }
{
    *recorded = raise_mask(*recorded, mask);
}

// The flags of a mask are cleared in place; the priority stays.
pub fn cuongphemi_flags_clear(recorded: &mut Record, mask: u32)
    ensures { recorded.new ≡ cleared recorded.old mask }
{
    *recorded = recorded.clear(mask);
}

// The priority word is replaced in place; the flags stay.
pub fn cuongphemi_priority_put(recorded: &mut Record, word: u32)
    ensures { recorded.new ≡ with_priority recorded.old word }
{
    *recorded = recorded.set_priority(word);
}

// The flags that are up.
pub fn flags_up(r: Record) -> u32
    ensures { result ≡ taken r }
{
    r.flags
}

// No flag is up; the priority stays.
pub fn without_flags(r: Record) -> Record
    ensures { result ≡ without_flags r }
{
    Record { flags: 0, ..r }
}

// Gives back the flags that were up, and clears them in place; the priority stays.
pub fn cuongphemi_flags_take(recorded: &mut Record) -> u32
    ensures { (result ≡ taken recorded.old)
        × (recorded.new ≡ without_flags recorded.old) }
{
    let up = flags_up(*recorded);
    *recorded = without_flags(*recorded);
    up
}
