// Call 11, report sent.
// What a call is given stands apart, as docs/CALLS.md has it: what may not change.
#![tactic(auto)]

mod event;
mod judging;
pub mod report;
