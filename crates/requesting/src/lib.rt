// Calls 7, 8 and 9: request a dedicated buffer, request the shared part, cancel.
// What a call is given stands apart, as docs/CALLS.md has it: what may not change.
#![tactic(auto)]

pub mod cancelling;
mod judging;
pub mod requesting;
mod sharing;
