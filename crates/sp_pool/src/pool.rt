ghost use Rattle.std.specs.Prelude.{◌≡◌, ℕ, ◌<◌, ◌≤◌, ◌++◌, ◌∷◌, [], length, map, take, true, false, IfOk, OnOk, OnErr, IfSome, IfNone};
ghost use Rattle.sp_pool.specs.Index.{IsIndex, IsInterned};
ghost use Rattle.sp_pool.specs.Kept.{IsKept};
ghost use Rattle.sp_pool.specs.Spelling.{AreSpelled, IsTidy, node_of, spelling};
ghost use Rattle.sp_pool.specs.Nodes.{HasNode, IsGrown, IsHeld, IsNode, IsPool, truth_node};
ghost use Rattle.sp_pool.specs.Trees.{AllStand, KeepsTrees, Stands, Trees, tree};

use crate::index::{Lookup, empty, look_up, release};
use crate::node::{Full, Mark, Node, TermId, truth};
use crate::region::Region;
use crate::spelling::{Spelling, is_tidy, node_of};
use sp_text::{MOST_TERMS, Memory};
use std::alloc::Global;
use std::marker::Model;

/// Room for the words of the nodes, at most twelve for each.
const ROOM: u32 = 6144;

/// Interned terms. Contracts see the list of their nodes, in the order of their numbers.
#[derive(Drop)]
pub struct Pool {
    region: Region,
    index: Vec<Option<u16>>,
}

impl Model for Pool {
    ghost use Rattle.std.specs.Prelude.{List, map};
    ghost use Rattle.sp_pool.specs.declared.node.Node.{Node};
    ghost use Rattle.sp_pool.specs.Kept.{IsKept};
    ghost use Rattle.sp_pool.specs.Spelling.{node_of};

    ghost Value = { List Node };

    ghost view = { λ p. map node_of p.region.records };

    ghost invariant = { λ p. IsKept p.region.records p.index.items p.region.most_words p.region.most_records };
}

/// Interns a node among a region's records: its number is the one that it has, or the next one.
fn intern_node(region: &mut Region, slots: &mut [Option<u16>], node: &Node) -> Result<u16, Full>
    requires tidy { IsTidy node.now }
    requires index { IsIndex region.old.records slots.old }
    requires spelled { AreSpelled region.old.records }
    requires sizes { (region.old.most_words ≡ 6144) × (region.old.most_records ≡ 512) }
    requires few { length region.old.records ≤ 512 }
    ensures interned { IsInterned region.old.records region.new.records (spelling node.now) result }
    ensures back { node_of (spelling node.now) ≡ node.now }
    ensures index { IsIndex region.new.records slots.new }
    ensures sizes { (region.new.most_words ≡ 6144) × (region.new.most_records ≡ 512) }
{
    let spelling = Spelling::of(node);
    let slot = match look_up(slots, region, spelling.words()) {
        Lookup::Occupied(number) => return Ok(number),
        Lookup::Vacant(slot) => slot,
    };
    let Ok(number) = region.place(spelling.words()) else {
        return Err(Full);
    };
    slots[slot] = Some(number as u16);
    Ok(number as u16)
}

/// Interns TRUE and FALSE in an empty region, which has room for them.
fn intern_truths(region: &mut Region, slots: &mut [Option<u16>])
    requires empty { region.old.records ≡ [] }
    requires index { IsIndex region.old.records slots.old }
    requires sizes { (region.old.most_words ≡ 6144) × (region.old.most_records ≡ 512) }
    ensures nodes { map node_of region.new.records ≡ truth_node true ∷ truth_node false ∷ [] }
    ensures kept { IsKept region.new.records slots.new region.new.most_words region.new.most_records }
{
    let _ = intern_node(region, slots, &truth(true));
    let _ = intern_node(region, slots, &truth(false));
}

impl Pool {
    /// A pool of TRUE, whose number is 0, and FALSE, whose number is 1. It takes all its room.
    ///
    /// # Errors
    /// `Memory` where the room is refused.
    pub fn new(alloc: Global) -> Result<Pool, Memory>
        ensures nodes { IfOk result (λ pool. pool ≡ truth_node true ∷ truth_node false ∷ []) }
        ensures pool { IfOk result IsPool }
    {
        let mut region = Region::new(alloc, ROOM, MOST_TERMS)?;
        let mut index = empty(alloc)?;
        intern_truths(&mut region, &mut index);
        Ok(Pool { region, index })
    }

    /// Interns a node: its number is the one that it has, or the next one. Numbers keep their trees.
    ///
    /// # Errors
    /// `Full` exactly where 512 nodes are held and this one is none of them; the pool is then as before.
    pub fn intern(&mut self, n: Node) -> Result<TermId, Full>
        requires { IsNode (length self.old) n }
        ensures here { IfOk result (λ t. HasNode self.new t.0 n) }
        ensures held { IsHeld self.old n → self.new ≡ self.old }
        ensures next { ¬ IsHeld self.old n → OnOk result ((length self.old < MOST_TERMS) × (self.new ≡ self.old ++ n ∷ [])) }
        ensures full { OnErr result ((length self.old ≡ MOST_TERMS) × (¬ IsHeld self.old n) × (self.new ≡ self.old)) }
        ensures grown { IsGrown self.old n self.new }
        ensures trees { KeepsTrees (length self.old) self.old self.new }
        ensures tree { IfOk result (λ t. (ts : Trees) → AllStand self.old n 0 ts → Stands self.new t.0 (tree n.head ts)) }
        ensures pool { IsPool self.new }
    {
        let number = intern_node(&mut self.region, &mut self.index, &n)?;
        Ok(TermId(number))
    }

    /// The number of a node, if it is held.
    pub fn find(&self, n: &Node) -> Option<TermId>
        ensures found { IfSome result (λ t. HasNode self.now t.0 n.now) }
        ensures absent { IfNone result (¬ IsHeld self.now n.now) }
        ensures pool { IsPool self.now }
    {
        let region = &self.region;
        if !is_tidy(n) {
            return None;
        }
        match look_up(&self.index, region, Spelling::of(n).words()) {
            Lookup::Occupied(number) => Some(TermId(number)),
            Lookup::Vacant(_) => None,
        }
    }

    /// The node of a held number.
    pub fn node(&self, t: TermId) -> Node
        requires { t.0 < length self.now }
        ensures node { HasNode self.now t.0 result }
        ensures pool { IsPool self.now }
    {
        node_of(self.region.record(t.0 as u32))
    }

    /// How many nodes are held.
    pub fn len(&self) -> u16
        ensures len { result ≡ length self.now }
        ensures pool { IsPool self.now }
    {
        self.region.count() as u16
    }

    /// Where the pool stands now.
    pub fn mark(&self) -> Mark
        ensures mark { result.0 ≡ length self.now }
        ensures pool { IsPool self.now }
    {
        Mark(self.len())
    }

    /// Keeps the nodes of the numbers below the mark, which keep their trees, and no other.
    pub fn release(&mut self, m: Mark)
        requires two { 2 ≤ m.0 }
        requires held { m.0 ≤ length self.old }
        ensures nodes { self.new ≡ take m.0 self.old }
        ensures trees { KeepsTrees m.0 self.old self.new }
        ensures pool { IsPool self.new }
    {
        release(&mut self.index, &self.region, m.0);
        self.region.release(m.0 as u32);
    }
}
