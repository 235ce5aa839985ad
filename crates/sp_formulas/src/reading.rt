//! The formulas of an expression's references.

ghost use Rattle.std.specs.Prelude.{◌≡◌, ℕ, ◌<◌, ◌≤◌, ◌++◌, ◌∷◌, [], length, map, slice_get, Some, IfOk, IfErr, OnOk, if◌then◌else◌};
ghost use Rattle.sp_values.specs.declared.value.Value.TheVariants as value;
ghost use Rattle.sp_core.specs.Tree.{Const, Not, tree, trees_of};
ghost use Rattle.sp_sequent.specs.Numbers.{nodes_of};
ghost use Rattle.sp_sequent.specs.Subterms.{truths};
ghost use Rattle.sp_formulas.specs.Children.{part_as, optional_hypothesis, optional_type};
ghost use Rattle.sp_formulas.specs.Formulas.{level_term, own_formula, reference_formulas};
ghost use Rattle.sp_formulas.specs.Generated.{IsAdded, IsRefused, hypothesis_tree, spot_of};
ghost use Rattle.sp_formulas.specs.References.{references};
ghost use Rattle.sp_formulas.specs.Steps.{after, own, parts_of, plain, right_part};
ghost use Rattle.sp_formulas.specs.Typed.{AreTypedFormulas, IsTypedFormula};
ghost use Rattle.sp_formulas.specs.declared.fault.FormulaFault.TheVariants as fault;

use crate::fault::FormulaFault;
use crate::one::add;
use crate::spot::{Goal, Hypothesis, Level, Place};
use sp_core::{Expr, Spec};
use sp_pool::Pool;
use sp_sequent::Formula;
use sp_values::{Op, Ty, Value};
use sqlite_items::Items;
use std::alloc::Global;

/// A part of an expression, with what stands before the references in it.
#[derive(Clone, Copy)]
pub struct Child<'a> {
    pub variable: Option<Ty>,
    pub condition: Option<Hypothesis<'a>>,
    pub e: &'a Expr,
}

fn plain<'a>(e: &'a Expr) -> Child<'a>
    ensures { part_as result ≡ plain (tree e.now) }
{
    Child {
        variable: None,
        condition: None,
        e,
    }
}

fn after<'a>(denied: bool, c: &'a Expr, e: &'a Expr) -> Child<'a>
    ensures { part_as result ≡ after (if denied then Not (tree c.now) else tree c.now) (tree e.now) }
{
    Child {
        variable: None,
        condition: Some(Hypothesis { denied, e: c }),
        e,
    }
}

fn right<'a>(op: Op, a: &'a Expr, b: &'a Expr) -> Child<'a>
    ensures { part_as result ≡ right_part op (tree a.now) (tree b.now) }
{
    match op {
        Op::And => after(false, a, b),
        Op::Or => after(true, a, b),
        _ => plain(b),
    }
}

fn child_count(e: &Expr) -> usize
    ensures { result ≡ length (parts_of (tree e.now)) }
{
    match e {
        Expr::Const(_) => 0,
        Expr::Var(_) => 0,
        Expr::Not(_) => 1,
        Expr::Two(_, _, _) => 2,
        Expr::If(_, _, _) => 3,
        Expr::Param(_, items) => items.len(),
        Expr::Look(_, items) => items.len(),
        Expr::Every(_, _, _) => 1,
        Expr::New(_, items) => items.len(),
    }
}

fn item(items: &Items<Expr>, k: usize) -> &Expr
    requires { k < length items.now }
    ensures { slice_get (map tree items.now) k ≡ Some (tree result.now) }
{
    let Some(e) = items.get(k) else {
        unreachable!()
    };
    e
}

fn child_at(e: &Expr, k: usize) -> Child<'_>
    requires { k < length (parts_of (tree e.now)) }
    ensures { slice_get (parts_of (tree e.now)) k ≡ Some (part_as result) }
{
    match e {
        Expr::Const(_) => unreachable!(),
        Expr::Var(_) => unreachable!(),
        Expr::Not(a) => plain(a.get()),
        Expr::Two(op, a, b) => {
            if k == 0 {
                plain(a.get())
            } else {
                right(*op, a.get(), b.get())
            }
        }
        Expr::If(c, a, b) => {
            if k == 0 {
                plain(c.get())
            } else if k == 1 {
                after(false, c.get(), a.get())
            } else {
                after(true, c.get(), b.get())
            }
        }
        Expr::Param(_, items) => plain(item(items, k)),
        Expr::Look(_, items) => plain(item(items, k)),
        Expr::Every(_, ty, a) => Child {
            variable: Some(*ty),
            condition: None,
            e: a.get(),
        },
        Expr::New(_, items) => plain(item(items, k)),
    }
}

/// The hypotheses with one more behind them.
fn with_condition<'a>(
    alloc: Global,
    hyps: &[Hypothesis<'a>],
    more: Option<Hypothesis<'a>>,
) -> Result<Vec<Hypothesis<'a>>, FormulaFault>
    ensures ok { IfOk result (λ v. map hypothesis_tree v.items ≡ map hypothesis_tree hyps.now ++ optional_hypothesis more.entry) }
    ensures err { IfErr result (λ f. f ≡ fault.Memory) }
{
    let Ok(mut all) = Vec::from_slice(alloc, hyps) else {
        return Err(FormulaFault::Memory);
    };
    if let Some(h) = more {
        if all.push(h).is_err() {
            return Err(FormulaFault::Memory);
        }
    }
    Ok(all)
}

/// The bound variables with one more behind them.
fn with_variable(alloc: Global, bound: &[Ty], more: Option<Ty>) -> Result<Vec<Ty>, FormulaFault>
    ensures ok { IfOk result (λ v. v.items ≡ bound.now ++ optional_type more) }
    ensures err { IfErr result (λ f. f ≡ fault.Memory) }
{
    let Ok(mut all) = Vec::from_slice(alloc, bound) else {
        return Err(FormulaFault::Memory);
    };
    if let Some(ty) = more {
        if all.push(ty).is_err() {
            return Err(FormulaFault::Memory);
        }
    }
    Ok(all)
}

/// The level term of a function, or this one where there is no such function.
fn level_term<'a>(spec: &'a Spec, g: u16, none: &'a Expr) -> &'a Expr
    requires { tree none.now ≡ Const (value.Level 0) }
    ensures { tree result.now ≡ level_term (slice_get spec.now.functions g) }
{
    match spec.functions().get(g as usize) {
        Some(function) => &function.level,
        None => none,
    }
}

/// Adds the formula of a reference to function g at these arguments.
fn add_reference<'f>(
    alloc: Global,
    spec: &Spec,
    pool: &mut Pool,
    place: &Place<'f>,
    bound: &[Ty],
    hyps: &[Hypothesis<'f>],
    g: u16,
    args: &'f [Expr],
    out: &mut Vec<Formula>,
) -> Result<(), FormulaFault>
    requires two { pool.old ≡ nodes_of truths }
    requires typed { IsTypedFormula spec.now (own_formula spec.now (spot_of place.now bound.now) (map hypothesis_tree hyps.now) g (trees_of (map tree args.now))) }
    ensures ok { OnOk result (IsAdded spec.now out.old.items out.new.items (own_formula spec.now (spot_of place.now bound.now) (map hypothesis_tree hyps.now) g (trees_of (map tree args.now)) ∷ [])) }
    ensures refused { IfErr result (λ f. IsRefused spec.now (length out.old.items) (own_formula spec.now (spot_of place.now bound.now) (map hypothesis_tree hyps.now) g (trees_of (map tree args.now)) ∷ []) f) }
    ensures two { pool.new ≡ nodes_of truths }
{
    let none = Expr::Const(Value::Level(0));
    let lower = Level {
        term: level_term(spec, g, &none),
        args: Some(args),
    };
    let goal = Goal::Below(lower, place.upper);
    add(alloc, spec, pool, &place.subject, bound, hyps, &goal, out)
}

/// Adds the formula of the expression itself, where it is a reference.
fn add_own<'f>(
    alloc: Global,
    spec: &Spec,
    pool: &mut Pool,
    place: &Place<'f>,
    bound: &[Ty],
    hyps: &[Hypothesis<'f>],
    e: &'f Expr,
    out: &mut Vec<Formula>,
) -> Result<(), FormulaFault>
    requires two { pool.old ≡ nodes_of truths }
    requires typed { AreTypedFormulas spec.now (reference_formulas spec.now (spot_of place.now bound.now) (map hypothesis_tree hyps.now) (own (tree e.now))) }
    ensures ok { OnOk result (IsAdded spec.now out.old.items out.new.items (reference_formulas spec.now (spot_of place.now bound.now) (map hypothesis_tree hyps.now) (own (tree e.now)))) }
    ensures refused { IfErr result (λ f. IsRefused spec.now (length out.old.items) (reference_formulas spec.now (spot_of place.now bound.now) (map hypothesis_tree hyps.now) (own (tree e.now))) f) }
    ensures two { pool.new ≡ nodes_of truths }
{
    match e {
        Expr::Look(g, args) => {
            add_reference(
                alloc,
                spec,
                pool,
                place,
                bound,
                hyps,
                *g,
                args.as_slice(),
                out,
            )
        }
        Expr::New(g, args) => {
            add_reference(
                alloc,
                spec,
                pool,
                place,
                bound,
                hyps,
                *g,
                args.as_slice(),
                out,
            )
        }
        _ => Ok(()),
    }
}

/// Adds the formulas of an expression's references.
///
/// # Errors
/// The first limit that they exceed, or `Memory`.
pub fn walk<'f>(
    alloc: Global,
    spec: &Spec,
    pool: &mut Pool,
    place: &Place<'f>,
    bound: &[Ty],
    hyps: &[Hypothesis<'f>],
    e: &'f Expr,
    out: &mut Vec<Formula>,
) -> Result<(), FormulaFault>
    requires two { pool.old ≡ nodes_of truths }
    requires typed { AreTypedFormulas spec.now (reference_formulas spec.now (spot_of place.now bound.now) (map hypothesis_tree hyps.now) (references (tree e.now))) }
    ensures ok { OnOk result (IsAdded spec.now out.old.items out.new.items (reference_formulas spec.now (spot_of place.now bound.now) (map hypothesis_tree hyps.now) (references (tree e.now)))) }
    ensures refused { IfErr result (λ f. IsRefused spec.now (length out.old.items) (reference_formulas spec.now (spot_of place.now bound.now) (map hypothesis_tree hyps.now) (references (tree e.now))) f) }
    ensures two { pool.new ≡ nodes_of truths }
{
    for k in 0..child_count(e) {
        let part = child_at(e, k);
        let longer = with_condition(alloc, hyps, part.condition)?;
        let more = with_variable(alloc, bound, part.variable)?;
        walk(alloc, spec, pool, place, &more, &longer, part.e, out)?;
    }
    add_own(alloc, spec, pool, place, bound, hyps, e, out)
}
