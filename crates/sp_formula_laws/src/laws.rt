//! Laws of the list, as calls that do nothing.

ghost use Rattle.sp_formulas.specs.Formulas.{formulas};
ghost use Rattle.sp_formulas.specs.Typed.{AreTypedFormulas};
ghost use Rattle.sp_formula_laws.specs.Laws.{FormulasAreTyped};

use sp_core::Spec;

/// Each formula of a well-formed specification is typed over its variables.
pub fn formulas_are_typed()
    ensures { FormulasAreTyped }
{}

/// Tells that each formula of this specification is typed over its variables. It does nothing.
pub fn tell_typed(spec: &Spec)
    ensures { AreTypedFormulas spec.now (formulas spec.now) }
{
    let _ = spec.functions();
}
