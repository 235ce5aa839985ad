//! The formulas of one change or result.

ghost use Rattle.std.specs.Prelude.{◌≡◌, ◌∷◌, [], length, map, IfErr, OnOk};
ghost use Rattle.sp_values.specs.declared.value.Value.TheVariants as constant;
ghost use Rattle.sp_core.specs.Tree.{Const, tree, trees_of};
ghost use Rattle.sp_sequent.specs.Numbers.{nodes_of};
ghost use Rattle.sp_sequent.specs.Subterms.{truths};
ghost use Rattle.sp_formulas.specs.Formulas.{about, spot};
ghost use Rattle.sp_formulas.specs.Generated.{IsAdded, IsRefused, about_of, level_tree, spot_of};
ghost use Rattle.sp_formulas.specs.Items.{Answer, Change};
ghost use Rattle.sp_formulas.specs.Typed.{AreTypedFormulas, IsTypedFormula};
ghost use Rattle.sp_generator.specs.Sites.{AreAssumptions, AreDenials, change_at, formulas_at, guards_at, targets_at, value_at};

use crate::site::{Site, assuming, copied, denials, level_at, own_level};
use sp_core::{Expr, Spec};
use sp_formulas::{
    FormulaFault, Goal, Hypothesis, Level, Place, Subject, add, add_guards, walk, walk_each,
};
use sp_pool::Pool;
use sp_sequent::{Formula, FormulaKind};
use std::alloc::Global;

fn subject<'f>(site: &Site<'f, '_>, kind: FormulaKind) -> Subject<'f>
    ensures about { about_of result ≡ about kind site.now.fun site.now.function.now }
    ensures known { result.known ≡ 0 }
{
    Subject {
        kind,
        fun: site.fun,
        name: &site.function.name,
        formals: site.function.formals.items(),
        known: 0,
    }
}

fn place<'f>(site: &Site<'f, '_>, kind: FormulaKind, upper: &Level<'f>) -> Place<'f>
    ensures { spot_of result site.now.vars.now ≡ spot kind site.now.fun site.now.function.now site.now.vars.now (level_tree upper.now) }
{
    Place {
        subject: subject(site, kind),
        upper: *upper,
    }
}

/// Adds the formula of a change to a function of this level.
fn add_own<'f>(
    alloc: Global,
    spec: &Spec,
    pool: &mut Pool,
    site: &Site<'f, '_>,
    assumed: &[Hypothesis<'f>],
    level: &Level<'f>,
    out: &mut Vec<Formula>,
) -> Result<(), FormulaFault>
    requires two { pool.old ≡ nodes_of truths }
    requires assumed { AreAssumptions site.now assumed.now }
    requires typed { IsTypedFormula spec.now (change_at spec.now site.now (level_tree level.now)) }
    ensures ok { OnOk result (IsAdded spec.now out.old.items out.new.items (change_at spec.now site.now (level_tree level.now) ∷ [])) }
    ensures refused { IfErr result (λ f. IsRefused spec.now (length out.old.items) (change_at spec.now site.now (level_tree level.now) ∷ []) f) }
    ensures two { pool.new ≡ nodes_of truths }
{
    let subject = subject(site, FormulaKind::Change);
    let goal = Goal::Below(own_level(site.function), *level);
    add(alloc, spec, pool, &subject, site.vars, assumed, &goal, out)
}

/// Adds those of the references in its guards, which have this kind, below this level.
fn add_its_guards<'f>(
    alloc: Global,
    spec: &Spec,
    pool: &mut Pool,
    site: &Site<'f, '_>,
    denied: &[Hypothesis<'f>],
    kind: FormulaKind,
    upper: &Level<'f>,
    out: &mut Vec<Formula>,
) -> Result<(), FormulaFault>
    requires two { pool.old ≡ nodes_of truths }
    requires denied { AreDenials site.now denied.now }
    requires typed { AreTypedFormulas spec.now (guards_at spec.now site.now kind (level_tree upper.now)) }
    ensures ok { OnOk result (IsAdded spec.now out.old.items out.new.items (guards_at spec.now site.now kind (level_tree upper.now))) }
    ensures refused { IfErr result (λ f. IsRefused spec.now (length out.old.items) (guards_at spec.now site.now kind (level_tree upper.now)) f) }
    ensures two { pool.new ≡ nodes_of truths }
{
    let place = place(site, kind, upper);
    let mut before = copied(alloc, denied)?;
    add_guards(
        alloc,
        spec,
        pool,
        &place,
        site.vars,
        &mut before,
        site.guards,
        out,
    )
}

/// Adds those of the references in its value, which have this kind, below this level.
fn add_its_value<'f>(
    alloc: Global,
    spec: &Spec,
    pool: &mut Pool,
    site: &Site<'f, '_>,
    assumed: &[Hypothesis<'f>],
    kind: FormulaKind,
    upper: &Level<'f>,
    value: &'f Expr,
    out: &mut Vec<Formula>,
) -> Result<(), FormulaFault>
    requires two { pool.old ≡ nodes_of truths }
    requires assumed { AreAssumptions site.now assumed.now }
    requires typed { AreTypedFormulas spec.now (value_at spec.now site.now kind (level_tree upper.now) (tree value.now)) }
    ensures ok { OnOk result (IsAdded spec.now out.old.items out.new.items (value_at spec.now site.now kind (level_tree upper.now) (tree value.now))) }
    ensures refused { IfErr result (λ f. IsRefused spec.now (length out.old.items) (value_at spec.now site.now kind (level_tree upper.now) (tree value.now)) f) }
    ensures two { pool.new ≡ nodes_of truths }
{
    let place = place(site, kind, upper);
    walk(alloc, spec, pool, &place, site.vars, assumed, value, out)
}

/// Adds those of the references in a change's arguments.
fn add_its_targets<'f>(
    alloc: Global,
    spec: &Spec,
    pool: &mut Pool,
    site: &Site<'f, '_>,
    denied: &[Hypothesis<'f>],
    args: &'f [Expr],
    out: &mut Vec<Formula>,
) -> Result<(), FormulaFault>
    requires two { pool.old ≡ nodes_of truths }
    requires denied { AreDenials site.now denied.now }
    requires typed { AreTypedFormulas spec.now (targets_at spec.now site.now (trees_of (map tree args.now))) }
    ensures ok { OnOk result (IsAdded spec.now out.old.items out.new.items (targets_at spec.now site.now (trees_of (map tree args.now)))) }
    ensures refused { IfErr result (λ f. IsRefused spec.now (length out.old.items) (targets_at spec.now site.now (trees_of (map tree args.now))) f) }
    ensures two { pool.new ≡ nodes_of truths }
{
    let upper = own_level(site.function);
    let place = place(site, FormulaKind::TargetReference, &upper);
    walk_each(alloc, spec, pool, &place, site.vars, denied, args, out)
}

/// Adds the formulas of a change: its own, and those of the references in its guards, its value and its arguments.
///
/// # Errors
/// The first limit that they exceed, or `Memory`.
pub fn add_change<'f>(
    alloc: Global,
    spec: &'f Spec,
    pool: &mut Pool,
    site: &Site<'f, '_>,
    none: &'f Expr,
    g: u16,
    args: &'f [Expr],
    value: &'f Expr,
    out: &mut Vec<Formula>,
) -> Result<(), FormulaFault>
    requires two { pool.old ≡ nodes_of truths }
    requires none { tree none.now ≡ Const (constant.Level 0) }
    requires typed { AreTypedFormulas spec.now (formulas_at spec.now site.now (Change g (trees_of (map tree args.now)) (tree value.now))) }
    ensures ok { OnOk result (IsAdded spec.now out.old.items out.new.items (formulas_at spec.now site.now (Change g (trees_of (map tree args.now)) (tree value.now)))) }
    ensures refused { IfErr result (λ f. IsRefused spec.now (length out.old.items) (formulas_at spec.now site.now (Change g (trees_of (map tree args.now)) (tree value.now))) f) }
    ensures two { pool.new ≡ nodes_of truths }
{
    let denied = denials(alloc, site.function)?;
    let assumed = assuming(alloc, &denied, site.guards)?;
    let level = level_at(spec, none, g, args);
    add_own(alloc, spec, pool, site, &assumed, &level, out)?;
    add_its_guards(
        alloc,
        spec,
        pool,
        site,
        &denied,
        FormulaKind::GuardReference,
        &level,
        out,
    )?;
    add_its_value(
        alloc,
        spec,
        pool,
        site,
        &assumed,
        FormulaKind::ValueReference,
        &level,
        value,
        out,
    )?;
    add_its_targets(alloc, spec, pool, site, &denied, args, out)
}

/// Adds the formulas of a result: those of the references in its guards and its value.
///
/// # Errors
/// The first limit that they exceed, or `Memory`.
pub fn add_answer<'f>(
    alloc: Global,
    spec: &Spec,
    pool: &mut Pool,
    site: &Site<'f, '_>,
    value: &'f Expr,
    out: &mut Vec<Formula>,
) -> Result<(), FormulaFault>
    requires two { pool.old ≡ nodes_of truths }
    requires typed { AreTypedFormulas spec.now (formulas_at spec.now site.now (Answer (tree value.now))) }
    ensures ok { OnOk result (IsAdded spec.now out.old.items out.new.items (formulas_at spec.now site.now (Answer (tree value.now)))) }
    ensures refused { IfErr result (λ f. IsRefused spec.now (length out.old.items) (formulas_at spec.now site.now (Answer (tree value.now))) f) }
    ensures two { pool.new ≡ nodes_of truths }
{
    let denied = denials(alloc, site.function)?;
    let assumed = assuming(alloc, &denied, site.guards)?;
    let level = own_level(site.function);
    add_its_guards(
        alloc,
        spec,
        pool,
        site,
        &denied,
        FormulaKind::ResultGuardReference,
        &level,
        out,
    )?;
    add_its_value(
        alloc,
        spec,
        pool,
        site,
        &assumed,
        FormulaKind::ResultReference,
        &level,
        value,
        out,
    )
}
