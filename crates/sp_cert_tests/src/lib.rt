//! Tests of certificate texts and of the checker, in a crate of their own so that neither is proved again with them.
#![tactic(auto)]

#[cfg(test)]
mod hostile;
#[cfg(test)]
mod migrated;
#[cfg(test)]
mod root;
#[cfg(test)]
mod texts;
