// Text into a lent buffer: the lines of an outcome, and the whole of it.
#![tactic(auto)]

mod line;
pub mod outcome;
