// The workspace: 16 rows of 32 words, in which a matrix is loaded, rotated and read out. A longer slice may be lent, and words behind the 512 are never
// touched: `take_turns`, `fill` and `write` are offered to others, and their clauses speak of the words behind the 512, so that a type of 512 words would
// ask more and say less.

#![tactic(auto)]

pub mod filling;
pub mod result;
pub mod rotations;

// The words that are worked on.
pub const WORDS: usize = 512;
