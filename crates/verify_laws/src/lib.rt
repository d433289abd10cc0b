// Theorems on verdicts: definitions and laws, and no code.

#![tactic(auto)]
