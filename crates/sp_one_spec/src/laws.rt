//! Laws of what texts stand for, as calls that do nothing.

ghost use Rattle.sp_one_spec.specs.Laws.{OneAnswerLaw, OneSpecLaw};

/// An interface and its modules stand for one specification at most.
pub fn one_spec_law()
    ensures { OneSpecLaw }
{}

/// The same with all that is known of their names.
pub fn one_answer_law()
    ensures { OneAnswerLaw }
{}
