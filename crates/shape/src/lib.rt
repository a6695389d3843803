// One shape for every call, over any world. There is no code here: the definitions and their laws stand in specs and
// proofs.
#![tactic(auto)]
