//! The formula of two changes, that they agree.

ghost use Rattle.std.specs.Prelude.{◌≡◌, ◌++◌, ◌∷◌, [], ◌^◌, All, length, map, IfOk, IfErr, OnOk};
ghost use Rattle.sp_values.specs.declared.value.Op.TheVariants as op;
ghost use Rattle.sp_core.specs.Tree.{Two, tree, trees_of};
ghost use Rattle.sp_sequent.specs.Numbers.{nodes_of};
ghost use Rattle.sp_sequent.specs.Subterms.{truths};
ghost use Rattle.sp_formulas.specs.Formulas.{guards_of};
ghost use Rattle.sp_formulas.specs.Generated.{IsAdded, IsRefused, hypothesis_tree};
ghost use Rattle.sp_formulas.specs.Moves.{AreBelow, IsBelow};
ghost use Rattle.sp_formulas.specs.Typed.{AreTypedFormulas, IsTypedFormula};
ghost use Rattle.sp_formulas.specs.declared.fault.FormulaFault.TheVariants as fault;
ghost use Rattle.sp_generator.specs.Pairs.{agreement_at, agreement_over, agreements_at, both_assumed, first_of, raised_in, same_place, second_of};
ghost use Rattle.sp_generator.specs.Room.{HasRoom};

use crate::effects::settled_guards;
use crate::items::{Deed, Item};
use crate::site::{assuming, denials};
use sp_core::{Expr, Function, Spec};
use sp_formulas::{FormulaFault, Goal, Hypothesis, Renumbering, Subject, add, renumber};
use sp_pool::Pool;
use sp_sequent::{Formula, FormulaKind};
use sp_text::Memory;
use sp_values::{Op, Ty};
use sqlite_items::Boxed;
use std::alloc::Global;

/// Two items of a function, the earlier one first.
#[derive(Clone, Copy)]
pub struct Pair<'a, 'b> {
    /// The function's number.
    pub fun: u16,
    pub function: &'a Function,
    pub first: &'b Item<'a>,
    pub second: &'b Item<'a>,
}

/// What a change gives: a value at arguments.
#[derive(Clone, Copy)]
pub struct Given<'a> {
    pub args: &'a [Expr],
    pub value: &'a Expr,
}

/// An expression of the second one, with its own variables behind those of the first.
fn raised(alloc: Global, pair: &Pair<'_, '_>, e: &Expr) -> Result<Expr, Memory>
    requires room { HasRoom pair.now.function.now (first_of pair.now) }
    requires low { IsBelow (2 ^ 31) (tree e.now) }
    ensures { IfOk result (λ r. tree r ≡ raised_in pair.now (tree e.now)) }
{
    let from = pair.function.formals.items().len() as u32;
    let by = pair.first.vars.len() as u32;
    renumber(alloc, &Renumbering::Raise(from, by), e)
}

/// That an argument of the first one is that of the second.
fn equality(alloc: Global, pair: &Pair<'_, '_>, d: &Expr, e: &Expr) -> Result<Expr, Memory>
    requires room { HasRoom pair.now.function.now (first_of pair.now) }
    requires low { IsBelow (2 ^ 31) (tree e.now) }
    ensures { IfOk result (λ r. tree r ≡ Two op.Same (tree d.now) (raised_in pair.now (tree e.now))) }
{
    Ok(Expr::Two(
        Op::Same,
        Boxed::new(alloc, d.copy(alloc)?)?,
        Boxed::new(alloc, raised(alloc, pair, e)?)?,
    ))
}

/// Appends that both change one place, argument by argument.
fn push_equalities(
    alloc: Global,
    pair: &Pair<'_, '_>,
    firsts: &[Expr],
    seconds: &[Expr],
    out: &mut Vec<Expr>,
) -> Result<(), Memory>
    requires room { HasRoom pair.now.function.now (first_of pair.now) }
    requires low { AreBelow (2 ^ 31) (trees_of (map tree seconds.now)) }
    ensures { OnOk result (map tree out.new.items ≡ map tree out.old.items ++ same_place pair.now (map tree firsts.now) (map tree seconds.now)) }
{
    let [d, other_firsts @ ..] = firsts else {
        return Ok(());
    };
    let [e, other_seconds @ ..] = seconds else {
        return Ok(());
    };
    out.push(equality(alloc, pair, d, e)?)?;
    push_equalities(alloc, pair, other_firsts, other_seconds, out)
}

/// Appends conditions of the second one.
fn push_raised(
    alloc: Global,
    pair: &Pair<'_, '_>,
    conditions: &[Expr],
    out: &mut Vec<Expr>,
) -> Result<(), Memory>
    requires room { HasRoom pair.now.function.now (first_of pair.now) }
    requires low { All (λ e. IsBelow (2 ^ 31) (tree e)) conditions.now }
    ensures { OnOk result (map tree out.new.items ≡ map tree out.old.items ++ map (raised_in pair.now) (map tree conditions.now)) }
{
    for e in conditions {
        out.push(raised(alloc, pair, e)?)?;
    }
    Ok(())
}

/// Appends a guard as it stands.
fn push_guard(alloc: Global, guard: &Hypothesis<'_>, out: &mut Vec<Expr>) -> Result<(), Memory>
    ensures { OnOk result (map tree out.new.items ≡ map tree out.old.items ++ hypothesis_tree guard.now ∷ []) }
{
    let e = guard.e.copy(alloc)?;
    if guard.denied {
        out.push(Expr::Not(Boxed::new(alloc, e)?))?;
        Ok(())
    } else {
        out.push(e)?;
        Ok(())
    }
}

/// Appends guards as they stand.
fn push_guards(alloc: Global, guards: &[Hypothesis<'_>], out: &mut Vec<Expr>) -> Result<(), Memory>
    ensures { OnOk result (map tree out.new.items ≡ map tree out.old.items ++ map hypothesis_tree guards.now) }
{
    for guard in guards {
        push_guard(alloc, guard, out)?;
    }
    Ok(())
}

/// What the formula assumes besides the denials: the first one's guards, the second one's, and that both change one place.
fn assumptions(
    alloc: Global,
    pair: &Pair<'_, '_>,
    guards: &[Expr],
    firsts: &[Expr],
    seconds: &[Expr],
) -> Result<Vec<Expr>, Memory>
    requires room { HasRoom pair.now.function.now (first_of pair.now) }
    requires second { HasRoom pair.now.function.now (second_of pair.now) }
    requires guards { map tree guards.now ≡ guards_of pair.now.function.now (second_of pair.now) }
    requires low { AreBelow (2 ^ 31) (trees_of (map tree seconds.now)) }
    ensures { IfOk result (λ all. map tree all.items ≡ both_assumed pair.now (map tree firsts.now) (map tree seconds.now)) }
{
    let mut all = Vec::new(alloc);
    push_guards(alloc, &pair.first.guards, &mut all)?;
    push_raised(alloc, pair, guards, &mut all)?;
    push_equalities(alloc, pair, firsts, seconds, &mut all)?;
    Ok(all)
}

fn both_variables(alloc: Global, pair: &Pair<'_, '_>) -> Result<Vec<Ty>, FormulaFault>
    ensures ok { IfOk result (λ all. all.items ≡ (first_of pair.now).vars ++ (second_of pair.now).vars) }
    ensures err { IfErr result (λ f. f ≡ fault.Memory) }
{
    let Ok(mut all) = Vec::from_slice(alloc, &pair.first.vars) else {
        return Err(FormulaFault::Memory);
    };
    if all.extend_from_slice(&pair.second.vars).is_err() {
        return Err(FormulaFault::Memory);
    }
    Ok(all)
}

/// Adds the formula about a function over these variables that two values are the same where what is made holds.
fn add_made<'f>(
    alloc: Global,
    spec: &Spec,
    pool: &mut Pool,
    fun: u16,
    function: &'f Function,
    vars: &[Ty],
    made: &'f [Expr],
    value: &'f Expr,
    other: &'f Expr,
    out: &mut Vec<Formula>,
) -> Result<(), FormulaFault>
    requires two { pool.old ≡ nodes_of truths }
    requires typed { IsTypedFormula spec.now (agreement_over spec.now fun function.now vars.now (map tree made.now) (tree value.now) (tree other.now)) }
    ensures ok { OnOk result (IsAdded spec.now out.old.items out.new.items (agreement_over spec.now fun function.now vars.now (map tree made.now) (tree value.now) (tree other.now) ∷ [])) }
    ensures refused { IfErr result (λ f. IsRefused spec.now (length out.old.items) (agreement_over spec.now fun function.now vars.now (map tree made.now) (tree value.now) (tree other.now) ∷ []) f) }
    ensures two { pool.new ≡ nodes_of truths }
{
    let denied = denials(alloc, function)?;
    let hyps = assuming(alloc, &denied, made)?;
    let subject = Subject {
        kind: FormulaKind::Agreement,
        fun,
        name: &function.name,
        formals: function.formals.items(),
        known: 0,
    };
    add(
        alloc,
        spec,
        pool,
        &subject,
        vars,
        &hyps,
        &Goal::Equal(value, other),
        out,
    )
}

/// Adds the formula of two changes of one V-function.
fn add_agreement<'f>(
    alloc: Global,
    spec: &Spec,
    pool: &mut Pool,
    pair: &Pair<'f, '_>,
    x: &Given<'f>,
    y: &Given<'f>,
    out: &mut Vec<Formula>,
) -> Result<(), FormulaFault>
    requires two { pool.old ≡ nodes_of truths }
    requires room { HasRoom pair.now.function.now (first_of pair.now) }
    requires second { HasRoom pair.now.function.now (second_of pair.now) }
    requires low { AreBelow (2 ^ 31) (trees_of (map tree y.now.args.now)) }
    requires low_value { IsBelow (2 ^ 31) (tree y.now.value.now) }
    requires typed { IsTypedFormula spec.now (agreement_at spec.now pair.now x.now y.now) }
    ensures ok { OnOk result (IsAdded spec.now out.old.items out.new.items (agreement_at spec.now pair.now x.now y.now ∷ [])) }
    ensures refused { IfErr result (λ f. IsRefused spec.now (length out.old.items) (agreement_at spec.now pair.now x.now y.now ∷ []) f) }
    ensures two { pool.new ≡ nodes_of truths }
{
    let guards = settled_guards(alloc, pair.function, pair.second)?;
    let Ok(made) = assumptions(alloc, pair, &guards, x.args, y.args) else {
        return Err(FormulaFault::Memory);
    };
    let Ok(other) = raised(alloc, pair, y.value) else {
        return Err(FormulaFault::Memory);
    };
    let vars = both_variables(alloc, pair)?;
    add_made(
        alloc,
        spec,
        pool,
        pair.fun,
        pair.function,
        &vars,
        &made,
        x.value,
        &other,
        out,
    )
}

/// Adds the formula of two items, where both change one V-function.
///
/// # Errors
/// The first limit that it exceeds, or `Memory`.
pub fn add_pair<'f>(
    alloc: Global,
    spec: &Spec,
    pool: &mut Pool,
    pair: &Pair<'f, '_>,
    out: &mut Vec<Formula>,
) -> Result<(), FormulaFault>
    requires two { pool.old ≡ nodes_of truths }
    requires room { HasRoom pair.now.function.now (first_of pair.now) }
    requires second { HasRoom pair.now.function.now (second_of pair.now) }
    requires typed { AreTypedFormulas spec.now (agreements_at spec.now pair.now) }
    ensures ok { OnOk result (IsAdded spec.now out.old.items out.new.items (agreements_at spec.now pair.now)) }
    ensures refused { IfErr result (λ f. IsRefused spec.now (length out.old.items) (agreements_at spec.now pair.now) f) }
    ensures two { pool.new ≡ nodes_of truths }
{
    match pair.first.deed {
        Deed::Answer(_) => Ok(()),
        Deed::Change(g, args, value) => match pair.second.deed {
            Deed::Answer(_) => Ok(()),
            Deed::Change(h, others, other) => {
                if g != h {
                    return Ok(());
                }
                let x = Given { args, value };
                let y = Given {
                    args: others,
                    value: other,
                };
                add_agreement(alloc, spec, pool, pair, &x, &y, out)
            }
        },
    }
}
