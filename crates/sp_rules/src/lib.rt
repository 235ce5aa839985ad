//! Facts about the terms of a formula, and the rules by which they follow.
#![tactic(auto)]

mod fact;
mod heads;
mod lacking;
mod laws;
mod root;
mod terms;

pub use fact::{Fact, Lack, Needs, Rule, Step};
pub use lacking::{clashes, holds, lack, needs};
pub use laws::{
    closed_sets_have_all, facts_that_follow_may_be_given, more_facts_give_more,
    more_facts_lack_no_more, steps_are_sound,
};
pub use root::Root;
pub use terms::TermTable;
