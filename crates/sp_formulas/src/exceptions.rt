//! The formulas of a function's exceptions.

ghost use Rattle.std.specs.Prelude.{◌≡◌, ◌++◌, ◌∷◌, [], length, map, IfErr, OnOk};
ghost use Rattle.sp_core.specs.Tree.{Not, tree};
ghost use Rattle.sp_sequent.specs.Numbers.{nodes_of};
ghost use Rattle.sp_sequent.specs.Subterms.{truths};
ghost use Rattle.sp_formulas.specs.Formulas.{exception_formulas};
ghost use Rattle.sp_formulas.specs.Generated.{IsAdded, IsRefused, hypothesis_tree, spot_of};
ghost use Rattle.sp_formulas.specs.Typed.{AreTypedFormulas};
ghost use Rattle.sp_formulas.specs.declared.fault.FormulaFault.TheVariants as fault;

use crate::fault::FormulaFault;
use crate::reading::walk;
use crate::spot::{Hypothesis, Place};
use sp_core::{Expr, Spec};
use sp_pool::Pool;
use sp_sequent::Formula;
use sp_text::Name;
use std::alloc::Global;

fn deny<'f>(before: &mut Vec<Hypothesis<'f>>, e: &'f Expr) -> Result<(), FormulaFault>
    ensures ok { OnOk result (map hypothesis_tree before.new.items ≡ map hypothesis_tree before.old.items ++ Not (tree e.now) ∷ []) }
    ensures err { IfErr result (λ f. f ≡ fault.Memory) }
{
    if before.push(Hypothesis { denied: true, e }).is_err() {
        return Err(FormulaFault::Memory);
    }
    Ok(())
}

/// Adds the formulas of the exceptions' references: those of each where the earlier ones are false.
///
/// # Errors
/// The first limit that they exceed, or `Memory`.
pub fn add_exceptions<'f>(
    alloc: Global,
    spec: &Spec,
    pool: &mut Pool,
    place: &Place<'f>,
    exceptions: &'f [(Name, Expr)],
    out: &mut Vec<Formula>,
) -> Result<(), FormulaFault>
    requires two { pool.old ≡ nodes_of truths }
    requires typed { AreTypedFormulas spec.now (exception_formulas spec.now (spot_of place.now []) [] (map (λ e. tree e.1) exceptions.now)) }
    ensures ok { OnOk result (IsAdded spec.now out.old.items out.new.items (exception_formulas spec.now (spot_of place.now []) [] (map (λ e. tree e.1) exceptions.now))) }
    ensures refused { IfErr result (λ f. IsRefused spec.now (length out.old.items) (exception_formulas spec.now (spot_of place.now []) [] (map (λ e. tree e.1) exceptions.now)) f) }
    ensures two { pool.new ≡ nodes_of truths }
{
    let mut before = Vec::new(alloc);
    for exception in exceptions {
        walk(alloc, spec, pool, place, &[], &before, &exception.1, out)?;
        deny(&mut before, &exception.1)?;
    }
    Ok(())
}
