// The engine: its state and record, when they are unfit, what calls are refused by, and what becomes of a new element.
#![tactic(auto)]

pub mod fitness;
pub mod flags;
pub mod holding;
pub mod keeping;
pub mod refusals;
pub mod state;
