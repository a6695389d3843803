// The layout of the memory: the seven sections that the registers ask for, and which layouts a start refuses.
#![tactic(auto)]

pub mod check;
pub mod sections;
