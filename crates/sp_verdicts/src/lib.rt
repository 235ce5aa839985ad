//! Formulas judged by their certificates: one that checks shows that its formula holds.
#![tactic(auto)]

mod laws;
mod root;
mod verdict;

pub use laws::{certified_are_closed, certified_claims_hold, tell_certified};
pub use root::root_of;
pub use verdict::{CheckFault, check_formula, lift_formula};
