//! Flow formulas of worked mappings, for readers and for tests alone.
#![tactic(auto)]

#[cfg(test)]
mod tests;
mod theorems;

pub use theorems::{
    arguments_come_first, bound_variables_follow, number_is_mapped, paths_are_assumed,
    rows_are_bounded,
};
