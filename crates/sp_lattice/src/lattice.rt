ghost use Rattle.std.specs.Prelude.{◌≡◌, ◌<◌, ◌≤◌, IfOk, IfErr};
ghost use Rattle.sp_lattice.specs.Bounds.{IsLattice};
ghost use Rattle.sp_lattice.specs.Closure.{AreLevels, IsOrdered};
ghost use Rattle.sp_lattice.specs.Order.{is_below, join, meet, bottom_level, top_level, IsLatticeOrder, IsOrderOf};
ghost use Rattle.sp_lattice.specs.Refusal.{IsRefused};

use crate::table::{BoundFault, closure, first_cycle, flipped, greatest, least_uppers, place};
use crate::{LatticeDecl, LatticeFault};
use sp_text::{MOST_LEVELS, Memory};
use std::alloc::Global;
use std::marker::Model;

/// A finite lattice of levels, numbered from 0. Bounds are looked up in tables.
#[derive(Debug, Drop)]
pub struct Lattice {
    count: u16,
    order: Vec<bool>,
    lubs: Vec<u16>,
    glbs: Vec<u16>,
    least: u16,
    greatest: u16,
}

impl Model for Lattice {
    ghost use Rattle.sp_lattice.specs.Order.{Order};
    ghost use Rattle.sp_lattice.specs.Table.{IsKept};

    ghost Value = { Order };

    ghost view = { λ a. record { count = a.count; table = a.order.items } };

    ghost invariant = { λ a. IsKept (record { count = a.count; table = a.order.items }) a.lubs.items a.glbs.items a.least a.greatest };
}

impl Lattice {
    /// The lattice whose order is the reflexive and transitive closure of the declared pairs.
    ///
    /// # Errors
    /// The first of these that holds: `TooManyLevels` over 256, `Empty` at none, `Cycle` where two levels are below
    /// each other, `NoLub` and `NoGlb` where two levels lack that bound. `Memory` where the tables can't be stored.
    pub fn declare(alloc: Global, decl: &LatticeDecl) -> Result<Lattice, LatticeFault>
        requires { AreLevels decl.now.count decl.now.below }
        ensures order { IfOk result (IsOrderOf decl.now.count (IsOrdered decl.now.below)) }
        ensures lattice { IfOk result IsLatticeOrder }
        ensures refused { IfErr result (IsRefused decl.now.count decl.now.below) }

        // A lattice of 1 to 256 levels is refused for want of memory alone.
        ensures accepted { 1 ≤ decl.now.count → decl.now.count ≤ MOST_LEVELS
            → IsLattice decl.now.count (IsOrdered decl.now.below) → IfErr result (λ fault. fault ≡ LatticeFault.Memory) }
    {
        if decl.count > MOST_LEVELS {
            return Err(LatticeFault::TooManyLevels(decl.count));
        }
        if decl.count == 0 {
            return Err(LatticeFault::Empty);
        }
        let count = decl.count as u16;
        let order = closure(alloc, count, decl.below.items()).map_err(|_| LatticeFault::Memory)?;
        if let Some((low, high)) = first_cycle(&order, count) {
            return Err(LatticeFault::Cycle(low, high));
        }
        let opposite = flipped(alloc, &order, count).map_err(|_| LatticeFault::Memory)?;
        let lubs = match least_uppers(alloc, &order, count) {
            Ok(lubs) => lubs,
            Err(BoundFault::Missing(low, high)) => return Err(LatticeFault::NoLub(low, high)),
            Err(BoundFault::Memory) => return Err(LatticeFault::Memory),
        };
        let glbs = match least_uppers(alloc, &opposite, count) {
            Ok(glbs) => glbs,
            Err(BoundFault::Missing(low, high)) => return Err(LatticeFault::NoGlb(low, high)),
            Err(BoundFault::Memory) => return Err(LatticeFault::Memory),
        };
        Ok(Lattice {
            count,
            least: greatest(&opposite, count),
            greatest: greatest(&order, count),
            order,
            lubs,
            glbs,
        })
    }

    /// Whether `x` is below `y`, or the same level.
    pub fn le(&self, x: u16, y: u16) -> bool
        requires x { x < self.now.count }
        requires y { y < self.now.count }
        ensures value { result ≡ is_below self.now x y }
        ensures lattice { IsLatticeOrder self.now }
    {
        self.order[place(self.count, x, y)]
    }

    /// The least upper bound of two levels.
    pub fn lub(&self, x: u16, y: u16) -> u16
        requires x { x < self.now.count }
        requires y { y < self.now.count }
        ensures value { result ≡ join self.now x y }
        ensures lattice { IsLatticeOrder self.now }
    {
        self.lubs[place(self.count, x, y)]
    }

    /// The greatest lower bound of two levels.
    pub fn glb(&self, x: u16, y: u16) -> u16
        requires x { x < self.now.count }
        requires y { y < self.now.count }
        ensures value { result ≡ meet self.now x y }
        ensures lattice { IsLatticeOrder self.now }
    {
        self.glbs[place(self.count, x, y)]
    }

    /// The level below each other.
    pub fn bottom(&self) -> u16
        ensures value { result ≡ bottom_level self.now }
        ensures lattice { IsLatticeOrder self.now }
    {
        self.least
    }

    /// The level above each other.
    pub fn top(&self) -> u16
        ensures value { result ≡ top_level self.now }
        ensures lattice { IsLatticeOrder self.now }
    {
        self.greatest
    }

    /// How many levels there are, at least one.
    pub fn count(&self) -> u16
        ensures value { result ≡ self.now.count }
        ensures lattice { IsLatticeOrder self.now }
    {
        self.count
    }

    /// A lattice of the same count and order.
    ///
    /// # Errors
    /// `Memory` where the tables can't be copied.
    pub fn copy(&self, alloc: Global) -> Result<Lattice, Memory>
        ensures { IfOk result (λ other. other ≡ self.now) }
    {
        Ok(Lattice {
            count: self.count,
            order: self.order.to_vec(alloc).map_err(|_| Memory)?,
            lubs: self.lubs.to_vec(alloc).map_err(|_| Memory)?,
            glbs: self.glbs.to_vec(alloc).map_err(|_| Memory)?,
            least: self.least,
            greatest: self.greatest,
        })
    }
}
