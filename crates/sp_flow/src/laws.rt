//! Laws of the definitions, each on a function that does nothing.

ghost use Rattle.sp_flow.specs.Laws.{AlikeStepLaw, FlowLaw, NoConflictLaw, NoFunctionsLaw, QuietLaw, ReferenceLaw};

/// An expression that reads at or below a level has one value over all pairs of states that are alike there.
pub fn reference_law()
    ensures { ReferenceLaw }
{}

/// An invocation that isn't at or below a level leaves the state alike there.
pub fn quiet_law()
    ensures { QuietLaw }
{}

/// An invocation at or below a level answers the same from states that are alike there, and leads to alike ones.
pub fn alike_step_law()
    ensures { AlikeStepLaw }
{}

/// No invocation meets a conflict.
pub fn no_conflict_law()
    ensures { NoConflictLaw }
{}

/// A well-formed specification is secure where in each admissible instance information flows upward alone.
pub fn flow_law()
    ensures { FlowLaw }
{}

/// In an instance of a specification without functions information flows upward alone.
pub fn no_functions_law()
    ensures { NoFunctionsLaw }
{}
