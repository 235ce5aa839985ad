//! Tests of the readers of texts, in a crate of their own so that no reader is proved again with them.
#![tactic(auto)]

#[cfg(test)]
mod expressions;
#[cfg(test)]
mod instances;
#[cfg(test)]
mod interfaces;
#[cfg(test)]
mod modules;
#[cfg(test)]
mod texts;
#[cfg(test)]
mod worked;
