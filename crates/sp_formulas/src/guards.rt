//! The formulas of guards.

ghost use Rattle.std.specs.Prelude.{◌≡◌, ◌++◌, ◌∷◌, [], length, map, IfErr, OnOk};
ghost use Rattle.sp_core.specs.Tree.{tree};
ghost use Rattle.sp_sequent.specs.Numbers.{nodes_of};
ghost use Rattle.sp_sequent.specs.Subterms.{truths};
ghost use Rattle.sp_formulas.specs.Formulas.{guard_formulas};
ghost use Rattle.sp_formulas.specs.Generated.{IsAdded, IsRefused, hypothesis_tree, spot_of};
ghost use Rattle.sp_formulas.specs.Typed.{AreTypedFormulas};
ghost use Rattle.sp_formulas.specs.declared.fault.FormulaFault.TheVariants as fault;

use crate::fault::FormulaFault;
use crate::reading::walk;
use crate::spot::{Hypothesis, Place};
use sp_core::{Expr, Spec};
use sp_pool::Pool;
use sp_sequent::Formula;
use sp_values::Ty;
use std::alloc::Global;

fn assume<'f>(before: &mut Vec<Hypothesis<'f>>, e: &'f Expr) -> Result<(), FormulaFault>
    ensures ok { OnOk result (map hypothesis_tree before.new.items ≡ map hypothesis_tree before.old.items ++ tree e.now ∷ []) }
    ensures err { IfErr result (λ f. f ≡ fault.Memory) }
{
    if before.push(Hypothesis { denied: false, e }).is_err() {
        return Err(FormulaFault::Memory);
    }
    Ok(())
}

/// Adds the formulas of the guards' references: those of each where the guards outside of it are true. `before` has what
/// is assumed for the first one, and then the guards besides.
///
/// # Errors
/// The first limit that they exceed, or `Memory`.
pub fn add_guards<'f>(
    alloc: Global,
    spec: &Spec,
    pool: &mut Pool,
    place: &Place<'f>,
    bound: &[Ty],
    before: &mut Vec<Hypothesis<'f>>,
    guards: &'f [Expr],
    out: &mut Vec<Formula>,
) -> Result<(), FormulaFault>
    requires two { pool.old ≡ nodes_of truths }
    requires typed { AreTypedFormulas spec.now (guard_formulas spec.now (spot_of place.now bound.now) (map hypothesis_tree before.old.items) (map tree guards.now)) }
    ensures ok { OnOk result (IsAdded spec.now out.old.items out.new.items (guard_formulas spec.now (spot_of place.now bound.now) (map hypothesis_tree before.old.items) (map tree guards.now))) }
    ensures refused { IfErr result (λ f. IsRefused spec.now (length out.old.items) (guard_formulas spec.now (spot_of place.now bound.now) (map hypothesis_tree before.old.items) (map tree guards.now)) f) }
    ensures assumed { OnOk result (map hypothesis_tree before.new.items ≡ map hypothesis_tree before.old.items ++ map tree guards.now) }
    ensures two { pool.new ≡ nodes_of truths }
{
    for guard in guards {
        walk(alloc, spec, pool, place, bound, before, guard, out)?;
        assume(before, guard)?;
    }
    Ok(())
}
