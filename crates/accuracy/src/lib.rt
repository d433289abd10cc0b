// The accuracy of the engine over lists of calls: definitions and theorems, and no code.

#![tactic(auto)]
