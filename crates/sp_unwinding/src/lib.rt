//! What ACCEPTED means: a specification whose flow formulas have no open branch is secure.
#![tactic(auto)]

mod accepted;

pub use accepted::{Accepted, accept};
