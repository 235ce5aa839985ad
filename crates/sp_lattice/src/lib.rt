//! Finite lattices of security levels: those of declared pairs, and the products of a chain and categories.
#![tactic(auto)]

mod decl;
mod lattice;
mod laws;
mod table;

pub use decl::{LatticeDecl, LatticeFault};
pub use lattice::Lattice;
pub use laws::{one_order, product_is_lattice, product_numbers};
