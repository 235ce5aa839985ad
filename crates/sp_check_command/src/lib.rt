//! `check`: whether each flow formula of an interface is proved, and ACCEPTED where all are.
#![tactic(auto)]

mod check;
mod laws;

pub use check::{check_answered, check_command};
pub use laws::{accepted_law, answered_law, check_law, proved_law, secured_law};
