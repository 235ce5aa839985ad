//! Reads the texts of modules from their tokens.
#![tactic(auto)]

mod effect;
mod functions;
mod module;
mod names;
mod parse;
mod sections;
mod statements;

pub use parse::parse_module;
pub use sp_expression::parse_expr;
