ghost use Rattle.std.specs.Prelude.{◌≡◌, ℕ, ◌*◌, ◌^◌, ◌-◌, ◌<◌, ◌≤◌, ◌↔◌, min, IfOk, IfErr, IsTrue};
ghost use Rattle.std.specs.List.{Contains};
ghost use Rattle.sp_lattice.specs.Bounds.{IsLattice};
ghost use Rattle.sp_lattice.specs.Closure.{AreLevels, IsOrdered};
ghost use Rattle.sp_lattice.specs.Product.{IsProductBelow, IsSubset};
ghost use Rattle.sp_lattice.specs.Refusal.{IsProductRefused};

use sp_text::{MOST_LEVELS, Memory, Sequence};
use std::alloc::Global;

/// Levels, numbered from 0, and pairs of them of which the first is declared to be below the second.
#[derive(Debug, Drop)]
pub struct LatticeDecl {
    pub count: u32,
    pub below: Sequence<(u32, u32)>,
}

/// Why levels make no lattice: by their number, or with the first two levels, the lesser number first, that are each
/// below the other, have no least upper bound, or have no greatest lower bound.
#[derive(Clone, Copy, Debug, PartialEq, Eq)]
pub enum LatticeFault {
    TooManyLevels(u32),
    Empty,
    Cycle(u16, u16),
    NoLub(u16, u16),
    NoGlb(u16, u16),
    Memory,
}

impl LatticeDecl {
    /// The levels that consist of a position in a chain and a set of categories, ordered in both parts. The level at
    /// position `c` with the set of mask `s` has the number `c * 2^categories + s`.
    ///
    /// # Errors
    /// `TooManyLevels` with their number, or with the greatest `u32` where it is larger, exactly where there are over
    /// 256; `Memory` where the pairs can't be stored.
    pub fn product(alloc: Global, chain: u32, categories: u32) -> Result<LatticeDecl, LatticeFault>
        requires { 1 ≤ chain }
        ensures count { IfOk result (λ decl. decl.count ≡ chain * 2 ^ categories) }
        ensures few { IfOk result (λ decl. decl.count ≤ 256) }
        ensures levels { IfOk result (λ decl. AreLevels decl.count decl.below) }
        ensures order { IfOk result (λ decl. (x y : ℕ) → x < decl.count → y < decl.count
            → (IsOrdered decl.below x y ↔ IsProductBelow categories x y)) }
        ensures lattice { IfOk result (λ decl. IsLattice decl.count (IsOrdered decl.below)) }
        ensures refused { IfErr result (IsProductRefused chain categories) }
    {
        let count = product_count(chain, categories);
        if count > MOST_LEVELS {
            return Err(LatticeFault::TooManyLevels(count));
        }
        let below = product_pairs(alloc, count, categories).map_err(|_| LatticeFault::Memory)?;
        Ok(LatticeDecl {
            count,
            below: Sequence::new(below),
        })
    }
}

/// How many levels the product has, or the greatest `u32` where it has more.
fn product_count(chain: u32, categories: u32) -> u32
    requires { 1 ≤ chain }
    ensures { result ≡ min (chain * 2 ^ categories) (2 ^ 32 - 1) }
{
    chain.saturating_mul(2u32.saturating_pow(categories))
}

/// The pairs of the product's order.
fn product_pairs(alloc: Global, count: u32, categories: u32) -> Result<Vec<(u32, u32)>, Memory>
    requires some { 0 < count }
    requires few { count ≤ MOST_LEVELS }
    requires categories { categories ≤ 8 }
    ensures levels { IfOk result (λ pairs. AreLevels count pairs.items) }
    ensures sound { IfOk result (λ pairs. (x y : ℕ) → Contains pairs.items (x, y) → IsProductBelow categories x y) }
    ensures whole { IfOk result (λ pairs. (x y : ℕ) → x < count → y < count → IsProductBelow categories x y
        → Contains pairs.items (x, y)) }
{
    let mut pairs = Vec::new(alloc);
    for place in 0..count * count {
        let (low, high) = (place / count, place % count);
        if is_product_below(low, high, categories) {
            pairs.push((low, high)).map_err(|_| Memory)?;
        }
    }
    Ok(pairs)
}

fn is_product_below(low: u32, high: u32, categories: u32) -> bool
    requires { categories ≤ 8 }
    ensures { IsTrue result ↔ IsProductBelow categories low high }
{
    let sets = 2u32.pow(categories);
    low / sets <= high / sets && is_subset(low % sets, high % sets)
}

fn is_subset(set: u32, other: u32) -> bool
    ensures { IsTrue result ↔ IsSubset set other }
{
    set & other == set
}
