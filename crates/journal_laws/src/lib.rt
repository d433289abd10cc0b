// Theorems on the log: definitions and laws, and no code.

#![tactic(auto)]
