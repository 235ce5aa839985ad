//! What the worked specifications show, each theorem on a function that does nothing.

ghost use Rattle.sp_formulas_tests.specs.Theorems.{AssertionsAreShielded, BoundChangesAgree, ChangesAgree, NewValuesFlow, QuantifiersAreOneTerm, TargetsFlow, TuplesAreInOrder, TuplesMayRepeat};

/// A LOW function that writes where HIGH data say has the formula that HIGH is at or below LOW.
pub fn targets_flow()
    ensures { TargetsFlow }
{}

/// Two changes under two conditions give one place two values.
pub fn changes_agree()
    ensures { ChangesAgree }
{}

/// An assertion about proper users says nothing where the user may be `?`.
pub fn assertions_are_shielded()
    ensures { AssertionsAreShielded }
{}

/// An assertion about two users is about one user twice.
pub fn tuples_may_repeat()
    ensures { TuplesMayRepeat }
{}

/// An assertion about two users is about each two of two users, in order.
pub fn tuples_are_in_order()
    ensures { TuplesAreInOrder }
{}

/// A stack whose `push` reads the new pointer has nine formulas.
pub fn new_values_flow()
    ensures { NewValuesFlow }
{}

/// Two changes below one FORALL agree with variables of their own.
pub fn bound_changes_agree()
    ensures { BoundChangesAgree }
{}

/// Equal quantifiers of an exception and of a guard below a FORALL are one term.
pub fn quantifiers_are_one_term()
    ensures { QuantifiersAreOneTerm }
{}
