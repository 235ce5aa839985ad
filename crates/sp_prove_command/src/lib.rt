//! `prove`: certificates of the flow formulas of an interface, where all are proved, and else the report of `check`.
#![tactic(auto)]

mod laws;
mod prove;
mod proving;

pub use laws::{certified_law, checked_law, prove_law, proved_law};
pub use prove::prove_command;
