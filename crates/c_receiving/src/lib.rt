// Calls 2 to 6 on words, each as `c_entering` says.
#![tactic(auto)]

pub mod reads;
pub mod receives;
pub mod releases;
