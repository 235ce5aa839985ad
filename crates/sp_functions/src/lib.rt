//! Functions, definitions, assertions and level equations of texts, judged and made; effects apart.
#![tactic(auto)]

ghost use Rattle.sp_functions.specs.Laws.{AssertionLaw, DerivationLaw, ExceptionsLaw, InitialLaw, LevelLaw};

mod assertions;
mod definitions;
mod depths;
mod equations;
mod exceptions;
mod flags;
mod judging;

pub use assertions::{judge_assertion, make_assertion};
pub use definitions::judge_definitions;
pub use depths::derived_depth;
pub use equations::judge_equations;
pub use exceptions::{judge_exceptions, make_exceptions};
pub use flags::{all_flags, later_flags};
pub use judging::{judge_level, judge_reading, make_expression};

/// An INITIALLY that breaks nothing is well-formed.
pub fn initial_law()
    ensures { InitialLaw }
{}

/// A derivation that breaks nothing and is within the depth is well-formed.
pub fn derivation_law()
    ensures { DerivationLaw }
{}

/// A level that breaks nothing is well-formed.
pub fn level_law()
    ensures { LevelLaw }
{}

/// Exceptions that break nothing are well-formed.
pub fn exceptions_law()
    ensures { ExceptionsLaw }
{}

/// An assertion that breaks nothing is well-formed.
pub fn assertion_law()
    ensures { AssertionLaw }
{}
