// Theorems on pages: definitions and laws, and no code.

#![tactic(auto)]
