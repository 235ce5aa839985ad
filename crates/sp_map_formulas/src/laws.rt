//! Laws of the list, as calls that do nothing.

ghost use Rattle.sp_core.specs.Mappings.{IsMappingTo};
ghost use Rattle.sp_formulas.specs.Typed.{AreTypedFormulas};
ghost use Rattle.sp_map_formulas.specs.Laws.{MapFormulasAreTyped};
ghost use Rattle.sp_map_formulas.specs.Rows.{map_formulas};

use sp_core::{Mapping, Spec};

/// Each formula of a mapping to a well-formed specification is typed over its variables.
pub fn map_formulas_are_typed()
    ensures { MapFormulasAreTyped }
{}

/// Tells that each formula of this mapping is typed over its variables. It does nothing.
pub fn tell_map_typed(lower: &Spec, m: &Mapping)
    requires { IsMappingTo lower.now m.now }
    ensures { AreTypedFormulas lower.now (map_formulas lower.now m.now) }
{
    let _ = lower.functions();
    let _ = m.functions.items();
}
