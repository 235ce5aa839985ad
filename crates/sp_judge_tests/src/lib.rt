//! Tests of the rules of expressions, over texts, in a crate of their own so that no library is proved again with them.
#![tactic(auto)]

#[cfg(test)]
mod limits;
#[cfg(test)]
mod names;
#[cfg(test)]
mod texts;
#[cfg(test)]
mod types;
