//! The order of the levels that an interface declares, and its lattice.
#![tactic(auto)]

mod order;

pub use order::{NoLattice, has_levels, lattice_of};
