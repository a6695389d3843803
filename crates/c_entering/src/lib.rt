// The calls on words: what is lent is unpacked, the call is made, and what it leaves and says is packed.
// (state, recorded, mem, answer) are apart in every function: the C interface lends them so. Each function is `enter`,
// the call and what is put: a closure for the step would be no plainer, its contract would need `F.pre` and `F.post`.
#![tactic(auto)]

pub mod engine_calls;
pub mod entering;
