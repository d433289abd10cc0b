// The five calls of the engine. Each tests its own input, in the order of its check function, and refuses for the reason of the first test
// that fails, with every lent buffer unchanged. What a call answers becomes a reply, a refusal's number or 0 and the call's fields, only where a C host
// calls it.

#![tactic(auto)]

pub mod fetch;
pub mod job;
pub mod lent;
pub mod load;
pub mod read;
pub mod run;
pub mod whole;
