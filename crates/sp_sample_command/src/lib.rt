//! `sample`: an interface of a given size, made, checked and summed up.
#![tactic(auto)]

mod laws;
mod sample;
mod summary;
mod terms;
mod texts;

pub use laws::{admissible_law, nothing_law, sample_law, sampled_law};
pub use sample::sample_command;
