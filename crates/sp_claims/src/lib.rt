//! Why a formula holds: what makes its hypotheses TRUE and its goal FALSE is an open branch.
#![tactic(auto)]

mod judged;
mod laws;

pub use judged::tell_holds;
pub use laws::{closed_claims_hold, counterexamples_are_open};
