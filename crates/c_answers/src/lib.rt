// What the handler's calls say, in words: by functions and no `From`, which would be no plainer: it would stand in the
// crates below, which know of no C words.
#![tactic(auto)]

pub mod engine_answers;
pub mod numbers;
pub mod receiving_answers;
pub mod sending_answers;

// How many words a lent answer has.
pub const ANSWER_WORDS: usize = 16;
