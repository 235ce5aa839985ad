//! Tests of mappings over texts, in a crate of their own so that no library is proved again with them.
#![tactic(auto)]

#[cfg(test)]
mod functions;
#[cfg(test)]
mod limits;
#[cfg(test)]
mod parameters;
#[cfg(test)]
mod texts;
#[cfg(test)]
mod types;
#[cfg(test)]
mod views;
#[cfg(test)]
mod worked;
