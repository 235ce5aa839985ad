//! The lattice of the levels that an interface declares.

ghost use Rattle.std.specs.Prelude.{◌≡◌, ◌*◌, ◌^◌, ◌≤◌, ℕ, List, IfErr, IfOk, IsTrue};
ghost use Rattle.sp_text.specs.declared.limits.TheConstants.{MOST_LEVELS};
ghost use Rattle.sp_lattice.specs.Bounds.{IsLattice};
ghost use Rattle.sp_lattice.specs.Closure.{AreLevels, IsOrdered};
ghost use Rattle.sp_lattice.specs.Order.{IsLatticeOrder, IsOrderOf};
ghost use Rattle.sp_lattice.specs.Product.{IsProductBelow};
ghost use Rattle.sp_lattice.specs.Refusal.{IsRefused};
ghost use Rattle.sp_order.specs.Orders.{ArePairs, ArePairsOf, HasLevels, IsLower, IsPairOf, IsRefusal, KeepsLattice, count_of, level_count};

use sp_lattice::{Lattice, LatticeDecl, LatticeFault};
use sp_scopes::{LevelOrder, Scopes};
use sp_text::{MOST_LEVELS, Memory, Rule, Sequence};
use std::alloc::Global;

fn wide_pair(pair: &(u16, u16)) -> (u32, u32)
    ensures { result ≡ pair.now }
{
    (pair.0 as u32, pair.1 as u32)
}

fn wide(alloc: Global, pairs: &[(u16, u16)]) -> Result<Vec<(u32, u32)>, Memory>
    ensures { IfOk result (λ all. all.items ≡ pairs.now) }
{
    let mut all = Vec::new(alloc);
    for pair in pairs {
        all.push(wide_pair(pair))?;
    }
    Ok(all)
}

fn declared(alloc: Global, count: u32, pairs: &[(u16, u16)]) -> Result<Lattice, LatticeFault>
    requires { AreLevels count pairs.now }
    ensures order { IfOk result (IsOrderOf count (IsOrdered pairs.now)) }
    ensures lattice { IfOk result IsLatticeOrder }
    ensures refused { IfErr result (IsRefused count pairs.now) }
    ensures accepted { 1 ≤ count → count ≤ MOST_LEVELS → IsLattice count (IsOrdered pairs.now) → IfErr result (λ fault. fault ≡ LatticeFault.Memory) }
{
    let below = wide(alloc, pairs).map_err(|_| LatticeFault::Memory)?;
    let decl = LatticeDecl {
        count,
        below: Sequence::new(below),
    };
    Lattice::declare(alloc, &decl)
}

#[tactic(auto, using(crate::proofs::Ends::same_order, crate::proofs::Ends::some_chain))]
fn product(alloc: Global, chain: u16, categories: u16) -> Result<Lattice, LatticeFault>
    requires some { 1 ≤ chain * 2 ^ categories }
    requires few { chain * 2 ^ categories ≤ MOST_LEVELS }
    ensures order { IfOk result (IsOrderOf (chain * 2 ^ categories) (IsProductBelow categories)) }
    ensures lattice { IfOk result IsLatticeOrder }
    ensures refused { IfErr result (λ fault. fault ≡ LatticeFault.Memory) }
{
    let decl = LatticeDecl::product(alloc, chain as u32, categories as u32)?;
    Lattice::declare(alloc, &decl)
}

/// Why there is no lattice: the rule that the order breaks, with the first two levels that show it.
#[derive(Clone, Copy, Debug, PartialEq, Eq)]
pub enum NoLattice {
    Flaw(Rule),
    Memory,
}

// What refuses such levels, as what their order breaks.
fn refusal(fault: LatticeFault) -> NoLattice
    ensures { (n : ℕ) (ps : List (ℕ × ℕ)) → 1 ≤ n → n ≤ MOST_LEVELS → IsRefused n ps fault → IsRefusal n (IsOrdered ps) result }
{
    match fault {
        LatticeFault::Cycle(x, y) => NoLattice::Flaw(Rule::Cycle(x, y)),
        LatticeFault::NoLub(x, y) => NoLattice::Flaw(Rule::NoLub(x, y)),
        LatticeFault::NoGlb(x, y) => NoLattice::Flaw(Rule::NoGlb(x, y)),
        LatticeFault::TooManyLevels(_) => NoLattice::Memory,
        LatticeFault::Empty => NoLattice::Memory,
        LatticeFault::Memory => NoLattice::Memory,
    }
}

#[tactic(auto, using(crate::proofs::Ends::levels_of))]
fn lattice_of_pairs(alloc: Global, count: u32, pairs: &[(u16, u16)]) -> Result<Lattice, NoLattice>
    requires some { 1 ≤ count }
    requires few { count ≤ MOST_LEVELS }
    requires pairs { ArePairs count pairs.now }
    ensures order { IfOk result (IsOrderOf count (IsOrdered pairs.now)) }
    ensures lattice { IfOk result IsLatticeOrder }
    ensures refused { IfErr result (IsRefusal count (IsOrdered pairs.now)) }
{
    match declared(alloc, count, pairs) {
        Ok(lattice) => Ok(lattice),
        Err(fault) => Err(refusal(fault)),
    }
}

fn lattice_of_product(alloc: Global, chain: u16, categories: u16) -> Result<Lattice, NoLattice>
    requires some { 1 ≤ chain * 2 ^ categories }
    requires few { chain * 2 ^ categories ≤ MOST_LEVELS }
    ensures order { IfOk result (IsOrderOf (chain * 2 ^ categories) (IsProductBelow categories)) }
    ensures lattice { IfOk result IsLatticeOrder }
    ensures refused { IfErr result (IsRefusal (chain * 2 ^ categories) (IsProductBelow categories)) }
{
    match product(alloc, chain, categories) {
        Ok(lattice) => Ok(lattice),
        Err(_) => Err(NoLattice::Memory),
    }
}

#[tactic(auto, using(crate::proofs::Ends::refused_pairs, crate::proofs::Ends::refused_product))]
fn lattice_by(alloc: Global, order: &LevelOrder, named: usize) -> Result<Lattice, NoLattice>
    requires some { 1 ≤ count_of named order.now }
    requires few { count_of named order.now ≤ MOST_LEVELS }
    requires pairs { ArePairsOf (count_of named order.now) order.now }
    ensures order { IfOk result (IsOrderOf (count_of named order.now) (IsLower order.now)) }
    ensures lattice { IfOk result IsLatticeOrder }
    ensures refused { IfErr result (IsRefusal (count_of named order.now) (IsLower order.now)) }
{
    match order {
        LevelOrder::Pairs(pairs) => lattice_of_pairs(alloc, named as u32, pairs.items()),
        LevelOrder::Product(chain, categories) => lattice_of_product(alloc, *chain, *categories),
    }
}

/// The lattice of the levels, by the order that the interface declares.
///
/// # Errors
/// `Flaw` with `Cycle`, `NoLub` or `NoGlb` where the order is no lattice; `Memory` where it can't be stored.
#[tactic(auto, using(crate::proofs::Ends::all_kept))]
pub fn lattice_of(alloc: Global, scopes: &Scopes) -> Result<Lattice, NoLattice>
    requires { HasLevels scopes.now }
    ensures order { IfOk result (IsOrderOf (level_count scopes.now) (IsLower scopes.now.order)) }
    ensures lattice { IfOk result IsLatticeOrder }
    ensures kept { IfOk result (λ o. KeepsLattice scopes.now) }
    ensures refused { IfErr result (IsRefusal (level_count scopes.now) (IsLower scopes.now.order)) }
{
    lattice_by(alloc, scopes.order(), scopes.levels().len())
}

fn is_pair_of(count: usize, pair: &(u16, u16)) -> bool
    ensures { IsTrue result → IsPairOf count pair.now }
{
    (pair.0 as usize) < count && (pair.1 as usize) < count
}

// Whether the pairs speak of the first `count` levels alone.
fn are_levels(count: usize, pairs: &[(u16, u16)]) -> bool
    ensures { IsTrue result → ArePairs count pairs.now }
{
    if let [first, rest @ ..] = pairs {
        return is_pair_of(count, first) && are_levels(count, rest);
    }
    true
}

fn are_few(chain: u16, categories: u16) -> bool
    ensures some { IsTrue result → 1 ≤ chain * 2 ^ categories }
    ensures few { IsTrue result → chain * 2 ^ categories ≤ MOST_LEVELS }
{
    if categories > 8 {
        return false;
    }
    let count = chain as u32 * 2u32.pow(categories as u32);
    1 <= count && count <= MOST_LEVELS
}

fn has_levels_by(order: &LevelOrder, named: usize) -> bool
    ensures some { IsTrue result → 1 ≤ count_of named order.now }
    ensures few { IsTrue result → count_of named order.now ≤ MOST_LEVELS }
    ensures pairs { IsTrue result → ArePairsOf (count_of named order.now) order.now }
{
    match order {
        LevelOrder::Pairs(pairs) => {
            1 <= named && named <= MOST_LEVELS as usize && are_levels(named, pairs.items())
        }
        LevelOrder::Product(chain, categories) => are_few(*chain, *categories),
    }
}

/// Whether there are 1 to 256 levels, and pairs of them alone.
pub fn has_levels(scopes: &Scopes) -> bool
    ensures { IsTrue result → HasLevels scopes.now }
{
    has_levels_by(scopes.order(), scopes.levels().len())
}
