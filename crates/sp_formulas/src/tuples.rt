//! The instances of assertions at a formula's variables.

ghost use Rattle.std.specs.Prelude.{◌≡◌, ℕ, ◌+◌, ◌^◌, ◌<◌, ◌≤◌, ◌++◌, ◌∷◌, [], IfOk, IfErr, OnOk, ◌-◌, length, map, drop, slice_get, Some, if◌then◌else◌};
ghost use Rattle.sp_core.specs.Machine.{types_of};
ghost use Rattle.sp_core.specs.Tree.{Two, tree};
ghost use Rattle.sp_values.specs.declared.value.Op.TheVariants as op;
ghost use Rattle.sp_formulas.specs.Assertions.{IsTooMany, instance_of, instances_of, is_unknown, shielded, tuples};
ghost use Rattle.sp_values.specs.Domains.{has_unknown};
ghost use Rattle.sp_formulas.specs.Moves.{IsBelow};
ghost use Rattle.sp_formulas.specs.declared.tuples.Refused.TheVariants as refused;
ghost use Rattle.sp_sequent.specs.Same.{same_type};

use crate::moves::{Renumbering, renumber};
use sp_core::{Assertion, Expr, Formal};
use sp_text::{MOST_ASSERTION_INSTANCES, Memory};
use sp_values::{Op, Ty, Value};
use sqlite_items::Boxed;
use std::alloc::Global;

/// Why the instances aren't made.
#[derive(Debug, Drop)]
pub enum Refused {
    TooMany,
    Memory,
}

/// Whether a type has the value `?`.
pub fn has_unknown(ty: Ty) -> bool
    ensures { result ≡ has_unknown ty }
{
    matches!(ty, Ty::Integer | Ty::Member(_))
}

/// That a variable is `?`.
pub fn is_unknown(alloc: Global, k: u32) -> Result<Expr, Memory>
    ensures { IfOk result (λ r. tree r ≡ is_unknown k) }
{
    Ok(Expr::Two(
        Op::Same,
        Boxed::new(alloc, Expr::Var(k))?,
        Boxed::new(alloc, Expr::Const(Value::Unknown))?,
    ))
}

/// An expression behind the shield of variable k, where its type has `?`.
fn shield_one(alloc: Global, ty: Ty, k: u32, e: Expr) -> Result<Expr, Memory>
    ensures { IfOk result (λ r. tree r ≡ (if has_unknown ty then Two op.Or (is_unknown k) (tree e) else tree e)) }
{
    if has_unknown(ty) {
        Ok(Expr::Two(
            Op::Or,
            Boxed::new(alloc, is_unknown(alloc, k)?)?,
            Boxed::new(alloc, e)?,
        ))
    } else {
        Ok(e)
    }
}

/// The body behind the shields of a tuple's variables.
fn shield(alloc: Global, tuple: &[u32], formals: &[Formal], body: Expr) -> Result<Expr, Memory>
    ensures { IfOk result (λ r. tree r ≡ shielded tuple.now (types_of formals.now) (tree body)) }
{
    let [k, ks @ ..] = tuple else { return Ok(body) };
    let [formal, formals @ ..] = formals else {
        return Ok(body)
    };
    let inner = shield(alloc, ks, formals, body)?;
    Ok(shield_one(alloc, formal.ty, *k, inner)?)
}

/// The instance at a tuple, in a formula of n variables.
fn instance(alloc: Global, a: &Assertion, tuple: &[u32], n: u32) -> Result<Expr, Memory>
    requires room { n ≤ 2 ^ 31 }
    requires low { IsBelow (2 ^ 31) (tree a.now.body) }
    requires few { length tuple.now ≤ 8 }
    ensures { IfOk result (λ r. tree r ≡ instance_of n a.now tuple.now) }
{
    let body = renumber(alloc, &Renumbering::Instance(tuple, n), &a.body)?;
    shield(alloc, tuple, a.vars.items(), body)
}

/// Adds the instance at a tuple where there is room for one more.
fn push_one(
    alloc: Global,
    a: &Assertion,
    tuple: &[u32],
    n: u32,
    out: &mut Vec<Expr>,
) -> Result<(), Refused>
    requires room { n ≤ 2 ^ 31 }
    requires low { IsBelow (2 ^ 31) (tree a.now.body) }
    requires few { length tuple.now ≤ 8 }
    ensures ok { OnOk result (map tree out.new.items ≡ map tree out.old.items ++ instance_of n a.now tuple.now ∷ []) }
    ensures within { OnOk result (length out.new.items ≤ 64) }
    ensures many { IfErr result (λ r. IsTooMany (length out.old.items + 1) r) }
{
    if out.len() >= MOST_ASSERTION_INSTANCES as usize {
        return Err(Refused::TooMany);
    }
    let Ok(made) = instance(alloc, a, tuple, n) else {
        return Err(Refused::Memory);
    };
    if out.push(made).is_err() {
        return Err(Refused::Memory);
    }
    Ok(())
}

fn is_same_type(t: Ty, u: Ty) -> bool
    ensures { result ≡ same_type t u }
{
    t == u
}

/// The type of an assertion's variable.
fn type_at(a: &Assertion, at: usize) -> Ty
    requires { at < length a.now.vars }
    ensures { slice_get (types_of a.now.vars) at ≡ Some result }
{
    a.vars.items()[at].ty
}

fn extend(tuple: &mut Vec<u32>, k: u32) -> Result<(), Refused>
    ensures ok { OnOk result (tuple.new.items ≡ tuple.old.items ++ k ∷ []) }
    ensures err { IfErr result (λ r. r ≡ refused.Memory) }
{
    if tuple.push(k).is_err() {
        return Err(Refused::Memory);
    }
    Ok(())
}

/// Adds the instances at the tuples that go on from this one with variable k.
#[cycle(tuples)]
fn push_with(
    alloc: Global,
    vars: &[Ty],
    a: &Assertion,
    k: u32,
    tuple: &mut Vec<u32>,
    out: &mut Vec<Expr>,
) -> Result<(), Refused>
    requires room { length vars.now ≤ 2 ^ 31 }
    requires low { IsBelow (2 ^ 31) (tree a.now.body) }
    requires few { length a.now.vars ≤ 8 }
    requires within { length tuple.old.items < length a.now.vars }
    ensures ok { OnOk result (map tree out.new.items ≡ map tree out.old.items ++ map (λ ks. instance_of (length vars.now) a.now (tuple.old.items ++ ks)) (map (λ ks. k ∷ ks) (tuples vars.now (drop (length tuple.old.items + 1) (types_of a.now.vars))))) }
    ensures many { IfErr result (λ r. IsTooMany (length out.old.items + length (tuples vars.now (drop (length tuple.old.items + 1) (types_of a.now.vars)))) r) }
    ensures same { OnOk result (tuple.new.items ≡ tuple.old.items) }
    ensures within { OnOk result (length out.old.items ≤ 64 → length out.new.items ≤ 64) }
{
    let at = tuple.len();
    extend(tuple, k)?;
    push_tuples(alloc, vars, a, tuple, out)?;
    tuple.truncate(at);
    Ok(())
}

/// Adds the instances at the tuples that go on from this one.
#[cycle(tuples)]
pub fn push_tuples(
    alloc: Global,
    vars: &[Ty],
    a: &Assertion,
    tuple: &mut Vec<u32>,
    out: &mut Vec<Expr>,
) -> Result<(), Refused>
    requires room { length vars.now ≤ 2 ^ 31 }
    requires low { IsBelow (2 ^ 31) (tree a.now.body) }
    requires few { length a.now.vars ≤ 8 }
    requires within { length tuple.old.items ≤ length a.now.vars }
    ensures ok { OnOk result (map tree out.new.items ≡ map tree out.old.items ++ map (λ ks. instance_of (length vars.now) a.now (tuple.old.items ++ ks)) (tuples vars.now (drop (length tuple.old.items) (types_of a.now.vars)))) }
    ensures many { IfErr result (λ r. IsTooMany (length out.old.items + length (tuples vars.now (drop (length tuple.old.items) (types_of a.now.vars)))) r) }
    ensures same { OnOk result (tuple.new.items ≡ tuple.old.items) }
    ensures within { OnOk result (length out.old.items ≤ 64 → length out.new.items ≤ 64) }
{
    let at = tuple.len();
    if at == a.vars.items().len() {
        return push_one(alloc, a, tuple, vars.len() as u32, out);
    }
    let ty = type_at(a, at);
    for k in 0..vars.len() {
        if is_same_type(ty, vars[k]) {
            push_with(alloc, vars, a, k as u32, tuple, out)?;
        }
    }
    Ok(())
}
