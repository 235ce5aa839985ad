//! The formulas of a function's changes and results.

ghost use Rattle.std.specs.Prelude.{◌≡◌, ◌^◌, ◌+◌, ◌≤◌, All, length, map, IfOk, IfErr, OnOk};
ghost use Rattle.std.specs.List.{flat_map};
ghost use Rattle.sp_core.specs.Tree.{tree};
ghost use Rattle.sp_sequent.specs.Numbers.{nodes_of};
ghost use Rattle.sp_sequent.specs.Subterms.{truths};
ghost use Rattle.sp_formulas.specs.Formulas.{guards_of, item_formulas};
ghost use Rattle.sp_formulas.specs.Generated.{IsAdded, IsRefused};
ghost use Rattle.sp_formulas.specs.Typed.{AreTypedFormulas};
ghost use Rattle.sp_formulas.specs.declared.fault.FormulaFault.TheVariants as fault;
ghost use Rattle.sp_generator.specs.Collected.{item_as};
ghost use Rattle.sp_generator.specs.Room.{HasRoom};

use crate::deeds::{add_answer, add_change};
use crate::items::{Deed, Item};
use crate::site::Site;
use sp_core::{Expr, Function, Spec};
use sp_formulas::{FormulaFault, push_settled};
use sp_pool::Pool;
use sp_sequent::Formula;
use sp_values::Value;
use std::alloc::Global;

/// The guards of an item, with quantifiers numbered behind all its variables.
///
/// # Errors
/// `Memory` where they can't be made.
pub fn settled_guards(
    alloc: Global,
    function: &Function,
    item: &Item<'_>,
) -> Result<Vec<Expr>, FormulaFault>
    requires room { HasRoom function.now (item_as item.now) }
    ensures ok { IfOk result (λ all. map tree all.items ≡ guards_of function.now (item_as item.now)) }
    ensures err { IfErr result (λ f. f ≡ fault.Memory) }
{
    let count = function.formals.items().len() + item.vars.len();
    let mut all = Vec::new(alloc);
    push_settled(alloc, count as u32, &item.guards, &mut all)?;
    Ok(all)
}

/// Adds the formulas of an item of function number `fun`.
fn add_item<'f>(
    alloc: Global,
    spec: &'f Spec,
    pool: &mut Pool,
    fun: u16,
    function: &'f Function,
    item: &Item<'f>,
    out: &mut Vec<Formula>,
) -> Result<(), FormulaFault>
    requires two { pool.old ≡ nodes_of truths }
    requires room { HasRoom function.now (item_as item.now) }
    requires typed { AreTypedFormulas spec.now (item_formulas spec.now fun function.now (item_as item.now)) }
    ensures ok { OnOk result (IsAdded spec.now out.old.items out.new.items (item_formulas spec.now fun function.now (item_as item.now))) }
    ensures refused { IfErr result (λ f. IsRefused spec.now (length out.old.items) (item_formulas spec.now fun function.now (item_as item.now)) f) }
    ensures two { pool.new ≡ nodes_of truths }
{
    let guards = settled_guards(alloc, function, item)?;
    let none = Expr::Const(Value::Level(0));
    let site = Site {
        fun,
        function,
        guards: &guards,
        vars: &item.vars,
    };
    match item.deed {
        Deed::Change(g, args, value) => add_change(
            alloc, spec, pool, &site, &none, g, args, value, out,
        ),
        Deed::Answer(value) => add_answer(alloc, spec, pool, &site, value, out),
    }
}

/// Adds the formulas of these items of function number `fun`.
///
/// # Errors
/// The first limit that they exceed, or `Memory`.
pub fn add_items<'f>(
    alloc: Global,
    spec: &'f Spec,
    pool: &mut Pool,
    fun: u16,
    function: &'f Function,
    items: &[Item<'f>],
    out: &mut Vec<Formula>,
) -> Result<(), FormulaFault>
    requires two { pool.old ≡ nodes_of truths }
    requires room { All (λ i. HasRoom function.now (item_as i)) items.now }
    requires typed { AreTypedFormulas spec.now (flat_map (item_formulas spec.now fun function.now) (map item_as items.now)) }
    ensures ok { OnOk result (IsAdded spec.now out.old.items out.new.items (flat_map (item_formulas spec.now fun function.now) (map item_as items.now))) }
    ensures refused { IfErr result (λ f. IsRefused spec.now (length out.old.items) (flat_map (item_formulas spec.now fun function.now) (map item_as items.now)) f) }
    ensures two { pool.new ≡ nodes_of truths }
{
    for item in items {
        add_item(alloc, spec, pool, fun, function, item, out)?;
    }
    Ok(())
}
