//! Why each kind of flow formula is needed, on worked specifications.
#![tactic(auto)]

pub mod theorems;
