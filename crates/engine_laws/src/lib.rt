// Theorems on the five calls that speak of more than one call or of all inputs at once: definitions and laws, and no code.

#![tactic(auto)]
