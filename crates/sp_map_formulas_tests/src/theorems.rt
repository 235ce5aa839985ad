//! What the worked mappings show, each theorem on a function that does nothing.

ghost use Rattle.sp_map_formulas_tests.specs.Theorems.{ArgumentsComeFirst, BoundVariablesFollow, NumberIsMapped, PathsAreAssumed, RowsAreBounded};

/// What a row reads is bounded by the level of the upper place.
pub fn rows_are_bounded()
    ensures { RowsAreBounded }
{}

/// The conditions on the way to a reference are assumed.
pub fn paths_are_assumed()
    ensures { PathsAreAssumed }
{}

/// A reference in arguments has a formula too, which comes first.
pub fn arguments_come_first()
    ensures { ArgumentsComeFirst }
{}

/// A quantifier's variable stands behind the row's formals.
pub fn bound_variables_follow()
    ensures { BoundVariablesFollow }
{}

/// The smallest specification is well-formed, and the smallest mapping is one to it.
pub fn number_is_mapped()
    ensures { NumberIsMapped }
{}
