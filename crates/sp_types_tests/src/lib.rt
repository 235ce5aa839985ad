//! Tests of whole specifications, over texts, in a crate of their own so that no library is proved again with them.
#![tactic(auto)]

#[cfg(test)]
mod bodies;
#[cfg(test)]
mod effects;
#[cfg(test)]
mod firsts;
#[cfg(test)]
mod interfaces;
#[cfg(test)]
mod limits;
#[cfg(test)]
mod names;
#[cfg(test)]
mod texts;
#[cfg(test)]
mod worked;
