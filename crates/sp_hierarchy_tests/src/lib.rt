//! Tests of hierarchies over a library in memory, in a crate of their own so that no library is proved again with them.
#![tactic(auto)]

#[cfg(test)]
mod counted;
#[cfg(test)]
mod files;
#[cfg(test)]
mod names;
#[cfg(test)]
mod rows;
