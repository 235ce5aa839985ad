//! Expressions of the texts of an interface, elaborated by its names alone.
#![tactic(auto)]

mod expr;

pub use expr::elaborate_expr;
