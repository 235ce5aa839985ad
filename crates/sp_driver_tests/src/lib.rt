//! Tests of the top call over a library and a sink in memory, in a crate of their own so that `sp_driver` isn't proved again
//! with them.
#![tactic(auto)]

#[cfg(test)]
mod certificates;
#[cfg(test)]
mod given;
#[cfg(test)]
mod hierarchies;
#[cfg(test)]
mod refusals;
#[cfg(test)]
mod rows;
#[cfg(test)]
mod samples;
#[cfg(test)]
mod tests;
