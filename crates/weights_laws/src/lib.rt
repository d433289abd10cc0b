// Theorems on the weights of a result record: definitions and laws, and no code.

#![tactic(auto)]
