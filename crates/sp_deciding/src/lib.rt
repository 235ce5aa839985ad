//! Formulas over a specification, decided one after the other, and the lines of what was decided.
#![tactic(auto)]

mod atoms;
mod deciding;
mod laws;
mod printed;

pub use deciding::{Decision, decide_all, open_count};
pub use laws::{closed_law, decided_law};
pub use printed::{push_accepted, push_decisions, push_proved, push_refused};
