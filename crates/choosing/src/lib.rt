// Call 10, ask the choice: which frame to send next.
// What a call is given stands apart, as docs/CALLS.md has it: what may not change.
#![tactic(auto)]

pub mod asking;
pub mod buffers;
pub mod picking;
