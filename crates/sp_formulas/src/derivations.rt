//! The formulas of a derivation.

ghost use Rattle.std.specs.Prelude.{◌≡◌, length, IfErr, OnOk};
ghost use Rattle.sp_core.specs.Tree.{tree};
ghost use Rattle.sp_sequent.specs.Numbers.{nodes_of};
ghost use Rattle.sp_sequent.specs.Subterms.{truths};
ghost use Rattle.sp_formulas.specs.Formulas.{derivation_formulas};
ghost use Rattle.sp_formulas.specs.Generated.{IsAdded, IsRefused};
ghost use Rattle.sp_formulas.specs.Typed.{AreTypedFormulas};

use crate::fault::FormulaFault;
use crate::reading::walk;
use crate::spot::{Level, Place, Subject};
use sp_core::{Function, Kind, Spec};
use sp_pool::Pool;
use sp_sequent::{Formula, FormulaKind};
use std::alloc::Global;

/// Adds the formulas of the references in a function's derivation, where it has one. Nothing is assumed of its arguments.
///
/// # Errors
/// The first limit that they exceed, or `Memory`.
pub fn add_derivation(
    alloc: Global,
    spec: &Spec,
    pool: &mut Pool,
    fun: u16,
    function: &Function,
    out: &mut Vec<Formula>,
) -> Result<(), FormulaFault>
    requires two { pool.old ≡ nodes_of truths }
    requires typed { AreTypedFormulas spec.now (derivation_formulas spec.now fun function.now function.now.kind) }
    ensures ok { OnOk result (IsAdded spec.now out.old.items out.new.items (derivation_formulas spec.now fun function.now function.now.kind)) }
    ensures refused { IfErr result (λ f. IsRefused spec.now (length out.old.items) (derivation_formulas spec.now fun function.now function.now.kind) f) }
    ensures two { pool.new ≡ nodes_of truths }
{
    let Kind::Derived(_, e) = &function.kind else {
        return Ok(());
    };
    let formals = function.formals.items();
    let place = Place {
        subject: Subject {
            kind: FormulaKind::DerivationReference,
            fun,
            name: &function.name,
            formals,
            known: formals.len(),
        },
        upper: Level {
            term: &function.level,
            args: None,
        },
    };
    walk(alloc, spec, pool, &place, &[], &[], e, out)
}
