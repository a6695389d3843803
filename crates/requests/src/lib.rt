// M_CAN's book of transmit requests: definitions and laws, no code.
#![tactic(auto)]
