//! Tests of printed lines, in a crate of their own so that `sp_report` isn't proved again with them.
#![tactic(auto)]

#[cfg(test)]
mod answers;
#[cfg(test)]
mod counting;
#[cfg(test)]
mod expressions;
#[cfg(test)]
mod faults;
