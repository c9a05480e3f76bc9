// The calls for C, on numbers and byte slices: each is the Rattle call of its name, and its answer's number and value in one word.
#![tactic(auto)]

pub mod ask;
pub mod reason;
