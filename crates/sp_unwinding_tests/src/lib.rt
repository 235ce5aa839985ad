//! Tests of `accept`, in a crate of their own so that it isn't proved again with them.
#![tactic(auto)]

#[cfg(test)]
mod tests;
