//! Interned terms: each different term has one number, its arguments have lesser ones, and the last are given up first.
#![tactic(auto)]

mod index;
mod laws;
mod node;
mod plain;
mod pool;
mod region;
mod spelling;

pub use laws::{front_keeps_trees, longer_keeps_trees, one_number, one_tree};
pub use node::{Full, Head, Mark, Node, TermId};
pub use plain::PlainPool;
pub use pool::Pool;
pub use region::{Region, RegionFull};
