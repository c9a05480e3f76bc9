// A pack and the question about it: records, lines, the goal; words and marks read from bytes.
#![tactic(auto)]

pub mod bytes;
pub mod check;
pub mod line;
pub mod question;
pub mod taken;
pub mod told;
