//! Expressions of texts, judged and translated.
#![tactic(auto)]

mod judge_expr;
mod names;
mod scope;
mod translate_expr;
mod types;
mod whole_expr;

pub use judge_expr::{asked_of, count_rule, formal_rules, judge, next_type, rest};
pub use names::{extend, find, type_named};
pub use scope::{Meaning, Scope, Site};
pub use translate_expr::translate;
pub use whole_expr::{elaborate, elaborate_expr, limit_of};
