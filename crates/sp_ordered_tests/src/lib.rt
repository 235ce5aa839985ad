//! Tests of the first pass, in a crate of their own so that `sp_ordered` isn't proved again with them.
#![tactic(auto)]

#[cfg(test)]
mod tests;
