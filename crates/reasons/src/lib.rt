// Why a goal follows: the module and the printed set.
#![tactic(auto)]

mod files;
pub mod halve;
pub mod module;
pub mod names;
pub mod out;
pub mod reach;
pub mod set;
