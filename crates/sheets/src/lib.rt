// The two sheet checks for C. That no goal has accepted sheets of both sorts is in proofs/.
#![tactic(auto)]

pub mod calls;
