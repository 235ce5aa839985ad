//! The formulas of each two changes of one V-function.

ghost use Rattle.std.specs.Prelude.{◌≡◌, All, length, map, IfErr, OnOk};
ghost use Rattle.sp_sequent.specs.Numbers.{nodes_of};
ghost use Rattle.sp_sequent.specs.Subterms.{truths};
ghost use Rattle.sp_formulas.specs.Formulas.{agreements, agreements_with};
ghost use Rattle.sp_formulas.specs.Generated.{IsAdded, IsRefused};
ghost use Rattle.sp_formulas.specs.Typed.{AreTypedFormulas};
ghost use Rattle.sp_generator.specs.Collected.{item_as};
ghost use Rattle.sp_generator.specs.Room.{HasRoom};

use crate::items::Item;
use crate::pairs::{Pair, add_pair};
use sp_core::{Function, Spec};
use sp_formulas::FormulaFault;
use sp_pool::Pool;
use sp_sequent::Formula;
use std::alloc::Global;

/// Adds the formulas of an item with each of these later ones.
fn add_with<'f, 'i>(
    alloc: Global,
    spec: &Spec,
    pool: &mut Pool,
    fun: u16,
    function: &'f Function,
    first: &'i Item<'f>,
    later: &'i [Item<'f>],
    out: &mut Vec<Formula>,
) -> Result<(), FormulaFault>
    requires two { pool.old ≡ nodes_of truths }
    requires room { HasRoom function.now (item_as first.now) }
    requires later { All (λ i. HasRoom function.now (item_as i)) later.now }
    requires typed { AreTypedFormulas spec.now (agreements_with spec.now fun function.now (item_as first.now) (map item_as later.now)) }
    ensures ok { OnOk result (IsAdded spec.now out.old.items out.new.items (agreements_with spec.now fun function.now (item_as first.now) (map item_as later.now))) }
    ensures refused { IfErr result (λ f. IsRefused spec.now (length out.old.items) (agreements_with spec.now fun function.now (item_as first.now) (map item_as later.now)) f) }
    ensures two { pool.new ≡ nodes_of truths }
{
    for second in later {
        let pair = Pair {
            fun,
            function,
            first,
            second,
        };
        add_pair(alloc, spec, pool, &pair, out)?;
    }
    Ok(())
}

/// Adds the formulas of each two of these items of function number `fun`, by the earlier one and then by the later one.
///
/// # Errors
/// The first limit that they exceed, or `Memory`.
pub fn add_agreements<'f>(
    alloc: Global,
    spec: &Spec,
    pool: &mut Pool,
    fun: u16,
    function: &'f Function,
    items: &[Item<'f>],
    out: &mut Vec<Formula>,
) -> Result<(), FormulaFault>
    requires two { pool.old ≡ nodes_of truths }
    requires room { All (λ i. HasRoom function.now (item_as i)) items.now }
    requires typed { AreTypedFormulas spec.now (agreements spec.now fun function.now (map item_as items.now)) }
    ensures ok { OnOk result (IsAdded spec.now out.old.items out.new.items (agreements spec.now fun function.now (map item_as items.now))) }
    ensures refused { IfErr result (λ f. IsRefused spec.now (length out.old.items) (agreements spec.now fun function.now (map item_as items.now)) f) }
    ensures two { pool.new ≡ nodes_of truths }
{
    for k in 0..items.len() {
        add_with(
            alloc,
            spec,
            pool,
            fun,
            function,
            &items[k],
            &items[k + 1..],
            out,
        )?;
    }
    Ok(())
}
