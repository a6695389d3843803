// Books that a history keeps: of one ring of elements, and of requests of any kind. Definitions and laws, no code.
#![tactic(auto)]
