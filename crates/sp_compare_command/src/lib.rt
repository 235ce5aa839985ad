//! `compare`: a run of a script beside the run of what a level sees of it.
#![tactic(auto)]

mod compare;
mod laws;
mod level;
mod printed;

pub use compare::compare_command;
pub use laws::compare_law;
