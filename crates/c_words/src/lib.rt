// The handler's values as words, and back.
// Contracts ask lent slices for their lengths (28, 2, 7) and take no arrays: C lends slices, whose lengths `enter`
// judges once.
#![tactic(auto)]

pub mod buffers;
pub mod frames;
pub mod states;
