//! Tests of what the texts of modules break, in a crate of their own so that no library is proved again with them.
#![tactic(auto)]

#[cfg(test)]
mod tests;
#[cfg(test)]
mod texts;
