//! The formulas of the references in a change's arguments.

ghost use Rattle.std.specs.Prelude.{◌≡◌, length, map, IfErr, OnOk};
ghost use Rattle.sp_core.specs.Tree.{tree, trees_of};
ghost use Rattle.sp_sequent.specs.Numbers.{nodes_of};
ghost use Rattle.sp_sequent.specs.Subterms.{truths};
ghost use Rattle.sp_formulas.specs.Formulas.{reference_formulas};
ghost use Rattle.sp_formulas.specs.Generated.{IsAdded, IsRefused, hypothesis_tree, spot_of};
ghost use Rattle.sp_formulas.specs.References.{references_in};
ghost use Rattle.sp_formulas.specs.Typed.{AreTypedFormulas};

use crate::fault::FormulaFault;
use crate::reading::walk;
use crate::spot::{Hypothesis, Place};
use sp_core::{Expr, Spec};
use sp_pool::Pool;
use sp_sequent::Formula;
use sp_values::Ty;
use std::alloc::Global;

/// Adds the formulas of the references in some expressions, one after the other.
///
/// # Errors
/// The first limit that they exceed, or `Memory`.
pub fn walk_each<'f>(
    alloc: Global,
    spec: &Spec,
    pool: &mut Pool,
    place: &Place<'f>,
    bound: &[Ty],
    hyps: &[Hypothesis<'f>],
    exprs: &'f [Expr],
    out: &mut Vec<Formula>,
) -> Result<(), FormulaFault>
    requires two { pool.old ≡ nodes_of truths }
    requires typed { AreTypedFormulas spec.now (reference_formulas spec.now (spot_of place.now bound.now) (map hypothesis_tree hyps.now) (references_in (trees_of (map tree exprs.now)))) }
    ensures ok { OnOk result (IsAdded spec.now out.old.items out.new.items (reference_formulas spec.now (spot_of place.now bound.now) (map hypothesis_tree hyps.now) (references_in (trees_of (map tree exprs.now))))) }
    ensures refused { IfErr result (λ f. IsRefused spec.now (length out.old.items) (reference_formulas spec.now (spot_of place.now bound.now) (map hypothesis_tree hyps.now) (references_in (trees_of (map tree exprs.now)))) f) }
    ensures two { pool.new ≡ nodes_of truths }
{
    for e in exprs {
        walk(alloc, spec, pool, place, bound, hyps, e, out)?;
    }
    Ok(())
}
