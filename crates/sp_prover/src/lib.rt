//! Decides formulas: a certificate that no branch is open, or the first open branch.
#![tactic(auto)]

mod branch;
mod deciding;
mod exploring;

pub use branch::{Branch, DecideFault};
pub use deciding::{decide, decide_root};
