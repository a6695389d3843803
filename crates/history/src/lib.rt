// Demand 3: the history of an engine, rebuilt from calls and answers alone. Definitions and laws, no code.
#![tactic(auto)]
