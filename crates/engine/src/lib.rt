// The engine: passes over the rows, the verdict, completion.
#![tactic(auto)]

pub mod answer;
pub mod complete;
pub mod over;
pub mod run;
pub mod verdict;
