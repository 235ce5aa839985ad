//! The changes and results of effects in text order, each with what stands around it.

ghost use Rattle.std.specs.Prelude.{◌≡◌, ◌++◌, ◌∷◌, [], map, IfOk, OnOk};
ghost use Rattle.sp_core.specs.Effects.{effect_tree, effect_trees, effect_trees_of, effects_of};
ghost use Rattle.sp_formulas.specs.Generated.{hypothesis_tree};
ghost use Rattle.sp_formulas.specs.Items.{items, items_in};
ghost use Rattle.sp_generator.specs.Collected.{deed_as, inside, item_as};

use sp_core::{Effect, Expr, Kind};
use sp_formulas::Hypothesis;
use sp_text::Memory;
use sp_values::Ty;
use std::alloc::Global;

/// A new value of a V-function at arguments, or a result.
#[derive(Clone, Copy)]
pub enum Deed<'a> {
    Change(u16, &'a [Expr], &'a Expr),
    Answer(&'a Expr),
}

/// A change or a result, with the types of the FORALL variables around it and its guards, both from the outermost.
#[derive(Drop)]
pub struct Item<'a> {
    pub vars: Vec<Ty>,
    pub guards: Vec<Hypothesis<'a>>,
    pub deed: Deed<'a>,
}

fn push_item<'a>(
    alloc: Global,
    vars: &[Ty],
    guards: &[Hypothesis<'a>],
    deed: Deed<'a>,
    out: &mut Vec<Item<'a>>,
) -> Result<(), Memory>
    ensures { OnOk result (map item_as out.new.items ≡ map item_as out.old.items ++ record { vars = vars.now; guards = map hypothesis_tree guards.now; deed = deed_as deed.entry } ∷ []) }
{
    let vars = Vec::from_slice(alloc, vars)?;
    let guards = Vec::from_slice(alloc, guards)?;
    let Ok(()) = out.push(Item { vars, guards, deed }) else {
        return Err(Memory);
    };
    Ok(())
}

/// The guards with one more inside of them.
fn with_guard<'a>(
    alloc: Global,
    guards: &[Hypothesis<'a>],
    guard: Hypothesis<'a>,
) -> Result<Vec<Hypothesis<'a>>, Memory>
    ensures { IfOk result (λ all. map hypothesis_tree all.items ≡ map hypothesis_tree guards.now ++ hypothesis_tree guard.entry ∷ []) }
{
    let mut all = Vec::from_slice(alloc, guards)?;
    let Ok(()) = all.push(guard) else {
        return Err(Memory);
    };
    Ok(all)
}

/// The variables with one more inside of them.
fn with_variable(alloc: Global, vars: &[Ty], ty: Ty) -> Result<Vec<Ty>, Memory>
    ensures { IfOk result (λ all. all.items ≡ vars.now ++ ty ∷ []) }
{
    let mut all = Vec::from_slice(alloc, vars)?;
    all.push(ty)?;
    Ok(all)
}

#[cycle(collecting)]
fn collect_one<'a>(
    alloc: Global,
    vars: &[Ty],
    guards: &[Hypothesis<'a>],
    effect: &'a Effect,
    out: &mut Vec<Item<'a>>,
) -> Result<(), Memory>
    ensures { OnOk result (map item_as out.new.items ≡ map item_as out.old.items ++ map (inside vars.now (map hypothesis_tree guards.now)) (items (effect_tree effect.now))) }
{
    match effect {
        Effect::Change(g, args, value) => {
            let deed = Deed::Change(*g, args.as_slice(), value);
            push_item(alloc, vars, guards, deed, out)
        }
        Effect::Answer(value) => push_item(alloc, vars, guards, Deed::Answer(value), out),
        Effect::If(e, then, otherwise) => {
            let taken = with_guard(alloc, guards, Hypothesis { denied: false, e })?;
            collect_all(alloc, vars, &taken, then.as_slice(), out)?;
            let left = with_guard(alloc, guards, Hypothesis { denied: true, e })?;
            collect_all(alloc, vars, &left, otherwise.as_slice(), out)
        }
        Effect::Every(_, ty, body) => {
            let more = with_variable(alloc, vars, *ty)?;
            collect_all(alloc, &more, guards, body.as_slice(), out)
        }
    }
}

#[cycle(collecting)]
fn collect_all<'a>(
    alloc: Global,
    vars: &[Ty],
    guards: &[Hypothesis<'a>],
    effects: &'a [Effect],
    out: &mut Vec<Item<'a>>,
) -> Result<(), Memory>
    ensures { OnOk result (map item_as out.new.items ≡ map item_as out.old.items ++ map (inside vars.now (map hypothesis_tree guards.now)) (items_in (effect_trees_of (map effect_tree effects.now)))) }
{
    for effect in effects {
        collect_one(alloc, vars, guards, effect, out)?;
    }
    Ok(())
}

fn effects_of(kind: &Kind) -> &[Effect]
    ensures { result.now ≡ effects_of kind.now }
{
    match kind {
        Kind::Primitive(_, _) => &[],
        Kind::Derived(_, _) => &[],
        Kind::Operation(effects) => effects.as_slice(),
        Kind::Both(_, effects) => effects.as_slice(),
    }
}

/// The changes and results of a function in text order.
///
/// # Errors
/// `Memory` where they can't be listed.
pub fn items_of(alloc: Global, kind: &Kind) -> Result<Vec<Item<'_>>, Memory>
    ensures { IfOk result (λ all. map item_as all.items ≡ items_in (effect_trees kind.now)) }
{
    let mut all = Vec::new(alloc);
    collect_all(alloc, &[], &[], effects_of(kind), &mut all)?;
    Ok(all)
}
