//! Tests of instances and scripts, over texts, in a crate of their own so that no library is proved again with them.
#![tactic(auto)]

#[cfg(test)]
mod instances;
#[cfg(test)]
mod limits;
#[cfg(test)]
mod scripts;
#[cfg(test)]
mod texts;
#[cfg(test)]
mod values;
