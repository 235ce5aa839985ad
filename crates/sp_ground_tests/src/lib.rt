//! Tests of the lowest libraries, in a crate of their own so that none of these is proved again with them.
#![tactic(auto)]

#[cfg(test)]
mod bits;
#[cfg(test)]
mod lattice;
#[cfg(test)]
mod lexer;
#[cfg(test)]
mod pool;
#[cfg(test)]
mod text;
#[cfg(test)]
mod values;
