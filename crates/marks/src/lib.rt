// Marks: 16 words of 64 bits. Place i is marked when bit i mod 64 of word i div 64 is set.
#![tactic(auto)]

pub mod change;
pub mod look;
pub mod walk;
