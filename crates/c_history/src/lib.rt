// Any calls from C as a run of steps, so that the demands hold of them. Definitions and laws, no code.
#![tactic(auto)]
