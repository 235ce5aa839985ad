//! Whole specifications: an interface and its modules, judged and made.
#![tactic(auto)]

mod rest;
mod whole;

pub use whole::elaborate;
