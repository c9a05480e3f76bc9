// The writer of our sheets.
#![tactic(auto)]

pub mod answer;
pub mod write;
