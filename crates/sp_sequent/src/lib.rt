//! Formulas, and the numbers of their subterms.
#![tactic(auto)]

mod formula;
mod own;
mod placing;
mod same;
mod sequent;
mod sorts;
mod terms;

pub use formula::{Formula, FormulaKind};
pub use own::own_type;
pub use placing::{fits, insert_each};
pub use same::same_expr;
pub use sequent::Sequent;
pub use terms::{Refused, insert};
