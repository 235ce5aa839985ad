//! Reads the texts of instances and scripts from their tokens.
#![tactic(auto)]

mod instance;
mod parse;
mod script;
mod value;

pub use parse::{parse_instance, parse_script};
