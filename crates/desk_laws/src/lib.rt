// The theorems on the desk that speak of more than one call: no code.

#![tactic(auto)]
