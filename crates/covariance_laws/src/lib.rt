// Theorems on snapshots added up and on the matrix record that is written of the sums: definitions and laws, and no code.

#![tactic(auto)]
