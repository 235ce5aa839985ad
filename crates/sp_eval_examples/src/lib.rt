//! Worked examples of evaluation, as tests: two small specifications that are built by hand.
#![tactic(auto)]

#[cfg(test)]
mod specifications;
#[cfg(test)]
mod tests;
