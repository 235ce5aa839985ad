//! Where the flow formulas of a specification hold, it is secure.
#![tactic(auto)]

pub mod laws;
