//! Tests of the rules of effects, over texts, in a crate of their own so that no library is proved again with them.
#![tactic(auto)]

#[cfg(test)]
mod changes;
#[cfg(test)]
mod limits;
#[cfg(test)]
mod results;
#[cfg(test)]
mod texts;
