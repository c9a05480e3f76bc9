// The check of a no sheet. It stands below everything that writes sheets and knows nothing of passes.
#![tactic(auto)]

pub mod check;
pub mod row;
pub mod thing;
pub mod world;
