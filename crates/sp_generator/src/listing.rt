//! The formulas of a function, and those of a specification.

ghost use Rattle.std.specs.Prelude.{◌≡◌, Some, length, slice_get, IfOk, IfErr, OnOk};
ghost use Rattle.sp_sequent.specs.Numbers.{nodes_of};
ghost use Rattle.sp_sequent.specs.Subterms.{truths};
ghost use Rattle.sp_formulas.specs.Formulas.{formulas, function_formulas};
ghost use Rattle.sp_formulas.specs.Generated.{IsAdded, IsRefused};
ghost use Rattle.sp_formulas.specs.Typed.{AreTypedFormulas};
ghost use Rattle.sp_generator.specs.Listed.{IsListed, effects_at, exceptions_at};

use crate::agreements::add_agreements;
use crate::effects::add_items;
use crate::items::items_of;
use crate::site::own_level;
use sp_core::{Function, Spec};
use sp_formula_laws::tell_typed;
use sp_formulas::{FormulaFault, Place, Subject, add_derivation, add_exceptions};
use sp_pool::Pool;
use sp_sequent::{Formula, FormulaKind};
use std::alloc::Global;

/// Adds the formulas of the exceptions of function number `fun`.
fn add_its_exceptions(
    alloc: Global,
    spec: &Spec,
    pool: &mut Pool,
    fun: u16,
    function: &Function,
    out: &mut Vec<Formula>,
) -> Result<(), FormulaFault>
    requires two { pool.old ≡ nodes_of truths }
    requires typed { AreTypedFormulas spec.now (exceptions_at spec.now fun function.now) }
    ensures ok { OnOk result (IsAdded spec.now out.old.items out.new.items (exceptions_at spec.now fun function.now)) }
    ensures refused { IfErr result (λ f. IsRefused spec.now (length out.old.items) (exceptions_at spec.now fun function.now) f) }
    ensures two { pool.new ≡ nodes_of truths }
{
    let place = Place {
        subject: Subject {
            kind: FormulaKind::ExceptionReference,
            fun,
            name: &function.name,
            formals: function.formals.items(),
            known: 0,
        },
        upper: own_level(function),
    };
    add_exceptions(alloc, spec, pool, &place, function.exceptions.items(), out)
}

/// Adds the formulas of the effects of function number `fun`.
fn add_effects<'f>(
    alloc: Global,
    spec: &'f Spec,
    pool: &mut Pool,
    fun: u16,
    function: &'f Function,
    out: &mut Vec<Formula>,
) -> Result<(), FormulaFault>
    requires two { pool.old ≡ nodes_of truths }
    requires there { slice_get spec.now.functions fun ≡ Some function.now }
    requires typed { AreTypedFormulas spec.now (effects_at spec.now fun function.now) }
    ensures ok { OnOk result (IsAdded spec.now out.old.items out.new.items (effects_at spec.now fun function.now)) }
    ensures refused { IfErr result (λ f. IsRefused spec.now (length out.old.items) (effects_at spec.now fun function.now) f) }
    ensures two { pool.new ≡ nodes_of truths }
{
    spec.lattice();
    let Ok(items) = items_of(alloc, &function.kind) else {
        return Err(FormulaFault::Memory);
    };
    add_items(alloc, spec, pool, fun, function, &items, out)?;
    add_agreements(alloc, spec, pool, fun, function, &items, out)
}

/// Adds the formulas of function number `fun`.
fn add_function<'f>(
    alloc: Global,
    spec: &'f Spec,
    pool: &mut Pool,
    fun: u16,
    function: &'f Function,
    out: &mut Vec<Formula>,
) -> Result<(), FormulaFault>
    requires two { pool.old ≡ nodes_of truths }
    requires there { slice_get spec.now.functions fun ≡ Some function.now }
    requires typed { AreTypedFormulas spec.now (function_formulas spec.now fun function.now) }
    ensures ok { OnOk result (IsAdded spec.now out.old.items out.new.items (function_formulas spec.now fun function.now)) }
    ensures refused { IfErr result (λ f. IsRefused spec.now (length out.old.items) (function_formulas spec.now fun function.now) f) }
    ensures two { pool.new ≡ nodes_of truths }
{
    add_its_exceptions(alloc, spec, pool, fun, function, out)?;
    add_derivation(alloc, spec, pool, fun, function, out)?;
    add_effects(alloc, spec, pool, fun, function, out)
}

/// Adds the formulas of all functions.
fn add_all(
    alloc: Global,
    spec: &Spec,
    pool: &mut Pool,
    out: &mut Vec<Formula>,
) -> Result<(), FormulaFault>
    requires two { pool.old ≡ nodes_of truths }
    requires typed { AreTypedFormulas spec.now (formulas spec.now) }
    ensures ok { OnOk result (IsAdded spec.now out.old.items out.new.items (formulas spec.now)) }
    ensures refused { IfErr result (λ f. IsRefused spec.now (length out.old.items) (formulas spec.now) f) }
{
    let functions = spec.functions();
    for g in 0..functions.len() {
        add_function(alloc, spec, pool, g as u16, &functions[g], out)?;
    }
    Ok(())
}

/// The formulas of a specification, where they are typed.
fn formulas_of(alloc: Global, spec: &Spec) -> Result<Vec<Formula>, FormulaFault>
    requires { AreTypedFormulas spec.now (formulas spec.now) }
    ensures ok { IfOk result (λ all. IsListed spec.now all.items) }
    ensures refused { IfErr result (λ f. IsRefused spec.now 0 (formulas spec.now) f) }
{
    let Ok(mut pool) = Pool::new(alloc) else {
        return Err(FormulaFault::Memory);
    };
    let mut out = Vec::new(alloc);
    add_all(alloc, spec, &mut pool, &mut out)?;
    Ok(out)
}

/// The formulas of a specification.
///
/// # Errors
/// The first limit that they exceed, with the number of the formula, or `Memory`.
pub fn formulas(alloc: Global, spec: &Spec) -> Result<Vec<Formula>, FormulaFault>
    ensures ok { IfOk result (λ all. IsListed spec.now all.items) }
    ensures refused { IfErr result (λ f. IsRefused spec.now 0 (formulas spec.now) f) }
{
    tell_typed(spec);
    formulas_of(alloc, spec)
}
