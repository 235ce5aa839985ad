//! Which V-functions an expression reads once its definitions are expanded, told from its text.
#![tactic(auto)]

ghost use Rattle.sp_reads.specs.Laws.{ClearLaw};

mod expressions;
mod texts;

pub use expressions::first_read;
pub use texts::judge_reads;

/// An expression in whose text no flagged V-function is read looks at none after expansion.
pub fn clear_law()
    ensures { ClearLaw }
{}
