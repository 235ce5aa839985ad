//! In which order the changes of a function are made: the rank of each change, where changes read new values.
#![tactic(auto)]

mod heights;
mod ranking;

pub use heights::Height;
pub use ranking::{count_ranks, ranks};
