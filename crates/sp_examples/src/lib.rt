//! Worked examples of the machine's definitions: specifications that show what is well-formed and what is secure, each with
//! its theorem, and the parts of which tests build such specifications.
#![tactic(auto)]

mod builders;
mod theorems;

pub use builders::{
    designator, formal, function, level_param, look_at, low_high, one_formal, two_names,
};
pub use theorems::{
    cycles_are_refused, effects_with_conditions_and_quantifiers, last_pushed_is_first_popped,
    leaky_is_not_secure, name_that_stands_twice_is_refused, pop_gives_what_was_pushed,
    second_result_is_refused, seventeen_derivations_are_refused, silent_is_secure,
    stacks_are_well_formed, target_that_is_not_injective_is_refused,
};
