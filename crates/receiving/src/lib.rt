// Call 2, receive.
// What a call is given stands apart, as docs/CALLS.md has it: what may not change.
#![tactic(auto)]

mod judging;
mod noting;
pub mod receive;
mod storing;
