//! An interface and its modules stand for one specification at most.
#![tactic(auto)]

mod laws;

pub use laws::{one_answer_law, one_spec_law};
