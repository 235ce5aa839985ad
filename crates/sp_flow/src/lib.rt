//! When a specification is secure, said without formulas: in each of its instances information flows upward alone.
#![tactic(auto)]

pub mod laws;
