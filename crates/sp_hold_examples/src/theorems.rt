//! What the worked specifications show, each on a function that does nothing.

ghost use Rattle.sp_hold_examples.specs.Theorems.{AgreementFormulasAreNeeded, ChangeFormulasAreNeeded};

/// Without change formulas, all others hold of a specification that isn't secure.
pub fn change_formulas_are_needed()
    ensures { ChangeFormulasAreNeeded }
{}

/// Without agreement formulas, all others hold of a specification that isn't secure.
pub fn agreement_formulas_are_needed()
    ensures { AgreementFormulasAreNeeded }
{}
