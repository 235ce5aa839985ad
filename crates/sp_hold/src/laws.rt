//! Laws of formulas that hold, each on a function that does nothing.

ghost use Rattle.sp_hold.specs.Laws.{FlowsLaw, ReferencesLaw, UnwindingLaw};

/// An expression whose references are at or below a level has one value over all pairs of states that are alike there.
pub fn references_law()
    ensures { ReferencesLaw }
{}

/// In an admissible instance in which the flow formulas hold, information flows upward alone.
pub fn flows_law()
    ensures { FlowsLaw }
{}

/// A well-formed specification is secure where each of its flow formulas holds in each admissible instance.
pub fn unwinding_law()
    ensures { UnwindingLaw }
{}
