//! Tests of the names of interfaces and modules, in a crate of their own so that `sp_scopes` isn't proved again with
//! them.
#![tactic(auto)]

#[cfg(test)]
mod tests;
#[cfg(test)]
mod trees;
