// Whole numbers: what the kit's library lacks over ℤ. Definitions and laws, and no code.

#![tactic(auto)]
