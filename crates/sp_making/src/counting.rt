//! How many nodes the expressions of a function have.

ghost use Rattle.std.specs.Prelude.{◌≡◌, ◌+◌, suc, IfOk, map};
ghost use Rattle.std.specs.List.{sum_by};
ghost use Rattle.sp_core.specs.Effects.{effect_tree, effect_trees_of};
ghost use Rattle.sp_core.specs.Measures as measures;
ghost use Rattle.sp_core.specs.Tree.{tree, trees_of};
ghost use Rattle.sp_making.specs.Counted.{condition_count};

use sp_core::{Effect, Expr, Function, Kind};
use sp_text::{Memory, Name};

// The sum, which is far below the greatest number.
fn sum(a: u64, b: u64) -> Result<u64, Memory>
    ensures { IfOk result (λ n. n ≡ a + b) }
{
    match a.checked_add(b) {
        Some(n) => Ok(n),
        None => Err(Memory),
    }
}

fn one_more(a: u64) -> Result<u64, Memory>
    ensures { IfOk result (λ n. n ≡ suc a) }
{
    sum(1, a)
}

#[cycle(count)]
#[tactic(auto, using(sp_expand::proofs::TreeLemmas::nodes_some))]
fn count(e: &Expr) -> Result<u64, Memory>
    ensures { IfOk result (λ n. n ≡ measures.nodes (tree e.now)) }
{
    match e {
        Expr::Const(_) => Ok(1),
        Expr::Var(_) => Ok(1),
        Expr::Not(a) => one_more(count(a.get())?),
        Expr::Two(_, a, b) => one_more(sum(count(a.get())?, count(b.get())?)?),
        Expr::If(c, a, b) => {
            let branches = sum(count(a.get())?, count(b.get())?)?;
            one_more(sum(count(c.get())?, branches)?)
        }
        Expr::Param(_, parts) => one_more(count_all(parts.as_slice())?),
        Expr::Look(_, parts) => one_more(count_all(parts.as_slice())?),
        Expr::Every(_, _, a) => one_more(count(a.get())?),
        Expr::New(_, parts) => one_more(count_all(parts.as_slice())?),
    }
}

#[cycle(count)]
#[tactic(auto, using(sp_expand::proofs::TreeLemmas::nodes_some))]
fn count_all(parts: &[Expr]) -> Result<u64, Memory>
    ensures { IfOk result (λ n. n ≡ measures.nodes_in (trees_of (map tree parts.now))) }
{
    if let [first, rest @ ..] = parts {
        return sum(count(first)?, count_all(rest)?);
    }
    Ok(0)
}

#[cycle(count_effects)]
fn count_effect(w: &Effect) -> Result<u64, Memory>
    ensures { IfOk result (λ n. n ≡ measures.effect_nodes (effect_tree w.now)) }
{
    match w {
        Effect::Change(_, parts, value) => sum(count_all(parts.as_slice())?, count(value)?),
        Effect::Answer(value) => count(value),
        Effect::If(c, a, b) => {
            let branches = sum(count_effects(a.as_slice())?, count_effects(b.as_slice())?)?;
            sum(count(c)?, branches)
        }
        Effect::Every(_, _, body) => count_effects(body.as_slice()),
    }
}

#[cycle(count_effects)]
fn count_effects(ws: &[Effect]) -> Result<u64, Memory>
    ensures { IfOk result (λ n. n ≡ measures.effect_nodes_in (effect_trees_of (map effect_tree ws.now))) }
{
    if let [first, rest @ ..] = ws {
        return sum(count_effect(first)?, count_effects(rest)?);
    }
    Ok(0)
}

fn count_kind(kind: &Kind) -> Result<u64, Memory>
    ensures { IfOk result (λ n. n ≡ measures.kind_nodes kind.now) }
{
    match kind {
        Kind::Primitive(_, e) => count(e),
        Kind::Derived(_, e) => count(e),
        Kind::Operation(ws) => count_effects(ws.as_slice()),
        Kind::Both(_, ws) => count_effects(ws.as_slice()),
    }
}

#[tactic(auto, using(crate::proofs::Counts::sum_next))]
fn count_conditions(exceptions: &[(Name, Expr)]) -> Result<u64, Memory>
    ensures { IfOk result (λ n. n ≡ sum_by condition_count exceptions.now) }
{
    let mut all = 0;
    for exception in exceptions {
        all = sum(all, count(&exception.1)?)?;
    }
    Ok(all)
}

/// The nodes of all expressions of a function, its level included.
///
/// # Errors
/// `Memory` where they are more than any function within the limits of its expressions has.
pub fn count_function(f: &Function) -> Result<u64, Memory>
    ensures { IfOk result (λ n. n ≡ measures.function_nodes f.now) }
{
    let conditions = count_conditions(f.exceptions.items())?;
    let kind = count_kind(&f.kind)?;
    let level = count(&f.level)?;
    sum(conditions, sum(kind, level)?)
}
