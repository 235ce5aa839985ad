//! What the order of the levels is, by itself.

ghost use Rattle.std.specs.Prelude.{◌≡◌, ◌≤◌, false, IfOk, IsTrue};
ghost use Rattle.sp_order.specs.Orders.{HasLevels, count_of};
ghost use Rattle.sp_ordered.specs.Judgements.{IsTold, IsToldOf};

use crate::alone::alone;
use sp_lattice::Lattice;
use sp_order::{NoLattice, lattice_of};
use sp_scopes::{LevelOrder, Scopes, found_are_lent, lent_are_found};
use sp_text::{Memory, Rule, TextFault};
use sp_tree::InterfaceTree;
use std::alloc::Global;

/// What is told of the order of the levels.
#[derive(Drop)]
pub enum Judgement {
    /// It is a lattice.
    Kept(Lattice),
    /// It breaks this rule.
    Flawed(Rule),
    /// It isn't judged, since the lattice's own names break something.
    Unjudged,
}

// Whether the order has a level.
fn has_some(order: &LevelOrder, named: usize) -> bool
    ensures some { IsTrue result → 1 ≤ count_of named order.now }
    ensures none { result ≡ false → count_of named order.now ≡ 0 }
{
    match order {
        LevelOrder::Pairs(_) => named > 0,
        LevelOrder::Product(chain, _) => *chain > 0,
    }
}

fn judge_levels(alloc: Global, scopes: &Scopes) -> Result<Judgement, Memory>
    requires { HasLevels scopes.now }
    ensures { IfOk result (IsToldOf scopes.now) }
{
    match lattice_of(alloc, scopes) {
        Ok(lattice) => Ok(Judgement::Kept(lattice)),
        Err(NoLattice::Flaw(rule)) => Ok(Judgement::Flawed(rule)),
        Err(NoLattice::Memory) => Err(Memory),
    }
}

/// The order of the levels, judged.
///
/// # Errors
/// `Memory` where it can't be stored, or where there is no level.
pub fn judge_order(alloc: Global, interface: &InterfaceTree) -> Result<Judgement, Memory>
    ensures { IfOk result (IsTold interface.now) }
{
    let own = alone(alloc, interface)?;
    match Scopes::declare(alloc, &own, &[]) {
        Ok(scopes) => {
            found_are_lent();
            lent_are_found();
            if has_some(scopes.order(), scopes.levels().len()) {
                judge_levels(alloc, &scopes)
            } else {
                Err(Memory)
            }
        }
        Err(refused) => match refused.fault {
            TextFault::Memory => Err(Memory),
            TextFault::Malformed(_) => Ok(Judgement::Unjudged),
            TextFault::Limit(_) => Ok(Judgement::Unjudged),
        },
    }
}
