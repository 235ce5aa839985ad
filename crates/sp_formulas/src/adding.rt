//! The hypotheses of a formula, and the room for its nodes.

ghost use Rattle.std.specs.Prelude.{◌≡◌, ℕ, ◌+◌, ◌^◌, ◌<◌, ◌≤◌, ◌++◌, ◌∷◌, [], length, map, drop, IfOk, IfErr, IfSome, IfNone, OnOk};
ghost use Rattle.std.specs.List.{All, sum_by};
ghost use Rattle.sp_core.specs.Measures.{nodes, nodes_in};
ghost use Rattle.sp_core.specs.Tree.{Not, tree, trees_of};
ghost use Rattle.sp_formulas.specs.Assertions.{IsTooMany, instances};
ghost use Rattle.sp_formulas.specs.Formulas.{known_from};
ghost use Rattle.sp_formulas.specs.Generated.{hypothesis_tree};
ghost use Rattle.sp_formulas.specs.Moves.{IsBelow, nth_tree, put, put_all, settle};
ghost use Rattle.sp_formulas.specs.declared.fault.FormulaFault.TheVariants as fault;
ghost use Rattle.sp_formulas.specs.declared.tuples.Refused.TheVariants as refused;

use crate::fault::FormulaFault;
use crate::moves::settled;
use crate::spot::Hypothesis;
use crate::tuples::{Refused, has_unknown, is_unknown, push_tuples};
use sp_core::{Assertion, Expr};
use sp_text::Memory;
use sp_values::Ty;
use sqlite_items::Boxed;
use std::alloc::Global;

fn push(out: &mut Vec<Expr>, e: Expr) -> Result<(), FormulaFault>
    ensures ok { OnOk result (map tree out.new.items ≡ map tree out.old.items ++ tree e ∷ []) }
    ensures err { IfErr result (λ f. f ≡ fault.Memory) }
{
    if out.push(e).is_err() {
        return Err(FormulaFault::Memory);
    }
    Ok(())
}

fn negated(alloc: Global, e: Expr) -> Result<Expr, Memory>
    ensures { IfOk result (λ r. tree r ≡ Not (tree e)) }
{
    Ok(Expr::Not(Boxed::new(alloc, e)?))
}

/// The hypothesis in the numbering of a formula with n variables.
fn settled_hypothesis(alloc: Global, n: u32, h: &Hypothesis<'_>) -> Result<Expr, FormulaFault>
    requires room { n ≤ 2 ^ 31 }
    requires low { IsBelow (2 ^ 31) (tree h.now.e.now) }
    ensures ok { IfOk result (λ r. tree r ≡ settle n (hypothesis_tree h.now)) }
    ensures err { IfErr result (λ f. f ≡ fault.Memory) }
{
    let Ok(e) = settled(alloc, n, h.e) else {
        return Err(FormulaFault::Memory);
    };
    if !h.denied {
        return Ok(e);
    }
    let Ok(e) = negated(alloc, e) else {
        return Err(FormulaFault::Memory);
    };
    Ok(e)
}

/// Appends these expressions.
///
/// # Errors
/// `Memory` where they can't be stored.
pub fn push_each(out: &mut Vec<Expr>, more: Vec<Expr>) -> Result<(), FormulaFault>
    ensures ok { OnOk result (map tree out.new.items ≡ map tree out.old.items ++ map tree more.items) }
    ensures err { IfErr result (λ f. f ≡ fault.Memory) }
{
    for e in more {
        push(out, e)?;
    }
    Ok(())
}

/// NOT (x = ?) for each variable from a number on whose type has `?`.
///
/// # Errors
/// `Memory` where they can't be made.
pub fn push_known(
    alloc: Global,
    types: &[Ty],
    from: usize,
    out: &mut Vec<Expr>,
) -> Result<(), FormulaFault>
    requires { length types.now < 2 ^ 31 }
    ensures ok { OnOk result (map tree out.new.items ≡ map tree out.old.items ++ known_from from (drop from types.now)) }
    ensures err { IfErr result (λ f. f ≡ fault.Memory) }
{
    for k in from..types.len() {
        if has_unknown(types[k]) {
            let Ok(e) = is_unknown(alloc, k as u32) else {
                return Err(FormulaFault::Memory);
            };
            let Ok(e) = negated(alloc, e) else {
                return Err(FormulaFault::Memory);
            };
            push(out, e)?;
        }
    }
    Ok(())
}

/// The given hypotheses in the numbering of a formula with n variables.
///
/// # Errors
/// `Memory` where they can't be made.
pub fn push_settled(
    alloc: Global,
    n: u32,
    hyps: &[Hypothesis<'_>],
    out: &mut Vec<Expr>,
) -> Result<(), FormulaFault>
    requires room { n ≤ 2 ^ 31 }
    requires low { All (λ h. IsBelow (2 ^ 31) (tree h.e.now)) hyps.now }
    ensures ok { OnOk result (map tree out.new.items ≡ map tree out.old.items ++ map (settle n) (map hypothesis_tree hyps.now)) }
    ensures err { IfErr result (λ f. f ≡ fault.Memory) }
{
    for h in hyps {
        let e = settled_hypothesis(alloc, n, h)?;
        push(out, e)?;
    }
    Ok(())
}

/// The instances of assertions at variables of these types.
///
/// # Errors
/// `TooMany` exactly where there are over 64, `Memory` where they can't be made.
pub fn instances(
    alloc: Global,
    types: &[Ty],
    assertions: &[Assertion],
) -> Result<Vec<Expr>, Refused>
    requires room { length types.now ≤ 2 ^ 31 }
    requires low { All (λ a. IsBelow (2 ^ 31) (tree a.body)) assertions.now }
    requires few { All (λ a. length a.vars ≤ 8) assertions.now }
    ensures ok { IfOk result (λ v. map tree v.items ≡ instances assertions.now types.now) }
    ensures within { IfOk result (λ v. length v.items ≤ 64) }
    ensures many { IfErr result (λ r. IsTooMany (length (instances assertions.now types.now)) r) }
{
    let mut out = Vec::new(alloc);
    for a in assertions {
        let mut tuple = Vec::new(alloc);
        push_tuples(alloc, types, a, &mut tuple, &mut out)?;
    }
    Ok(out)
}

/// What is left of room after an expression's nodes, if there is room for them.
#[cycle(spend)]
pub fn spend(e: &Expr, room: u32) -> Option<u32>
    ensures some { IfSome result (λ left. left + nodes (tree e.now) ≡ room) }
    ensures none { IfNone result (room < nodes (tree e.now)) }
{
    if room == 0 {
        return None;
    }
    let left = room - 1;
    match e {
        Expr::Const(_) => Some(left),
        Expr::Var(_) => Some(left),
        Expr::Not(a) => spend(a.get(), left),
        Expr::Two(_, a, b) => {
            let left = spend(a.get(), left)?;
            spend(b.get(), left)
        }
        Expr::If(c, a, b) => {
            let left = spend(c.get(), left)?;
            let left = spend(a.get(), left)?;
            spend(b.get(), left)
        }
        Expr::Param(_, parts) => spend_all(parts.as_slice(), left),
        Expr::Look(_, parts) => spend_all(parts.as_slice(), left),
        Expr::Every(_, _, a) => spend(a.get(), left),
        Expr::New(_, parts) => spend_all(parts.as_slice(), left),
    }
}

/// The same of several expressions.
#[cycle(spend)]
pub fn spend_all(parts: &[Expr], room: u32) -> Option<u32>
    ensures some { IfSome result (λ left. left + nodes_in (trees_of (map tree parts.now)) ≡ room) }
    ensures none { IfNone result (room < nodes_in (trees_of (map tree parts.now))) }
{
    if let [part, rest @ ..] = parts {
        let left = spend(part, room)?;
        spend_all(rest, left)
    } else {
        Some(room)
    }
}

/// What is left of room after the nodes of a term with arguments in the place of its variables.
#[cycle(spend_put)]
pub fn spend_put(args: &[Expr], e: &Expr, room: u32) -> Option<u32>
    ensures some { IfSome result (λ left. left + nodes (put (trees_of (map tree args.now)) (tree e.now)) ≡ room) }
    ensures none { IfNone result (room < nodes (put (trees_of (map tree args.now)) (tree e.now))) }
{
    if let Expr::Var(k) = e {
        return spend_argument(args, *k, room);
    }
    if room == 0 {
        return None;
    }
    let left = room - 1;
    match e {
        Expr::Const(_) => Some(left),
        Expr::Var(_) => None,
        Expr::Not(a) => spend_put(args, a.get(), left),
        Expr::Two(_, a, b) => {
            let left = spend_put(args, a.get(), left)?;
            spend_put(args, b.get(), left)
        }
        Expr::If(c, a, b) => {
            let left = spend_put(args, c.get(), left)?;
            let left = spend_put(args, a.get(), left)?;
            spend_put(args, b.get(), left)
        }
        Expr::Param(_, parts) => spend_put_all(args, parts.as_slice(), left),
        Expr::Look(_, parts) => spend_put_all(args, parts.as_slice(), left),
        Expr::Every(_, _, a) => spend(a.get(), left),
        Expr::New(_, parts) => spend_put_all(args, parts.as_slice(), left),
    }
}

#[cycle(spend_put)]
fn spend_put_all(args: &[Expr], parts: &[Expr], room: u32) -> Option<u32>
    ensures some { IfSome result (λ left. left + nodes_in (put_all (trees_of (map tree args.now)) (trees_of (map tree parts.now))) ≡ room) }
    ensures none { IfNone result (room < nodes_in (put_all (trees_of (map tree args.now)) (trees_of (map tree parts.now)))) }
{
    if let [part, rest @ ..] = parts {
        let left = spend_put(args, part, room)?;
        spend_put_all(args, rest, left)
    } else {
        Some(room)
    }
}

/// What is left after the argument that stands for a variable.
fn spend_argument(args: &[Expr], k: u32, room: u32) -> Option<u32>
    ensures some { IfSome result (λ left. left + nodes (nth_tree (trees_of (map tree args.now)) k) ≡ room) }
    ensures none { IfNone result (room < nodes (nth_tree (trees_of (map tree args.now)) k)) }
{
    match args.get(k as usize) {
        Some(a) => spend(a, room),
        None => { if room == 0 { None } else { Some(room - 1) } }
    }
}
