//! Flow formulas of worked specifications, for readers and for tests alone.
#![tactic(auto)]

#[cfg(test)]
mod tests;
mod theorems;

pub use theorems::{
    assertions_are_shielded, bound_changes_agree, changes_agree, new_values_flow,
    quantifiers_are_one_term, targets_flow, tuples_are_in_order, tuples_may_repeat,
};
