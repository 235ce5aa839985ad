//! What a mapping promises: its views hide what is above.
#![tactic(auto)]

pub mod laws;
