//! Reads the texts of interfaces, hierarchies and mappings from their tokens.
#![tactic(auto)]

mod counts;
mod equation;
mod hierarchy;
mod interface;
mod lattice;
mod mapping;
mod parse;

pub use parse::{parse_hierarchy, parse_interface, parse_mapping};
