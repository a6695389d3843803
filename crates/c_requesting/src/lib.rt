// Calls 7, 8, 9, 12 and 13 on words, each as `c_entering` says.
#![tactic(auto)]

pub mod cancels;
pub mod event_calls;
pub mod requests;
