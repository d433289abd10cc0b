// Lists by position, and tests on every number below a bound. Definitions and laws, and no code.

#![tactic(auto)]
