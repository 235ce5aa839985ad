//! The terms of a formula by their numbers.

ghost use Rattle.std.specs.Prelude.{◌≡◌, ◌<◌, ◌≤◌, IfOk, length, take};
ghost use Rattle.sp_pool.specs.Nodes.{IsPool};
ghost use Rattle.sp_rules.specs.Terms.{Terms, AreSmall, arg, count, is_arithmetic, is_level, node_at};

use sp_lattice::Lattice;
use sp_pool::{Head, Node, Pool, TermId};
use sp_text::Memory;
use sp_values::{Op, Value};
use std::alloc::Global;
use std::marker::Model;

/// The terms of a formula, by their numbers, which of them are level terms, and the lattice of the levels. Nodes are read
/// from the pool once, so that each later look costs no decoding.
#[derive(Drop)]
pub struct TermTable {
    nodes: Vec<Node>,
    levels: Vec<bool>,
    lattice: Lattice,
}

impl Model for TermTable {
    ghost use Rattle.sp_rules.specs.Terms.{Terms, AreSmall};

    ghost Value = { Terms };

    ghost view = { λ t. record { nodes = t.nodes.items; levels = t.levels.items; lattice = t.lattice } };

    ghost invariant = { λ t. AreSmall (record { nodes = t.nodes.items; levels = t.levels.items; lattice = t.lattice }) };
}

/// The nodes of a pool, in order.
fn nodes_of(alloc: Global, pool: &Pool) -> Result<Vec<Node>, Memory>
    ensures nodes { IfOk result (λ v. v.items ≡ pool.now) }
    ensures pool { IsPool pool.now }
{
    let count = pool.len();
    let mut nodes = Vec::new(alloc);
    for i in 0..count {
        nodes.push(pool.node(TermId(i)))?;
    }
    Ok(nodes)
}

impl TermTable {
    /// The terms of a pool, of which these are level terms, over a lattice.
    ///
    /// # Errors
    /// `Memory` where they can't be stored.
    pub fn open(
        alloc: Global,
        pool: &Pool,
        levels: &[bool],
        lattice: &Lattice,
    ) -> Result<TermTable, Memory>
        ensures { IfOk result (λ t. t ≡ record { nodes = pool.now; levels = levels.now; lattice = lattice.now }) }
    {
        let nodes = nodes_of(alloc, pool)?;
        let levels = levels.to_vec(alloc)?;
        let lattice = lattice.copy(alloc)?;
        Ok(TermTable {
            nodes,
            levels,
            lattice,
        })
    }

    /// How many terms there are.
    pub fn count(&self) -> u32
        ensures count { result ≡ count self.now }
        ensures small { AreSmall self.now }
    {
        self.nodes.len() as u32
    }

    /// The lattice of the levels.
    pub fn lattice(&self) -> &Lattice
        ensures { result.now ≡ self.now.lattice }
    {
        &self.lattice
    }

    /// The node of term i.
    pub fn node(&self, i: u32) -> &Node
        requires { i < count self.now }
        ensures { result.now ≡ node_at self.now i }
    {
        &self.nodes[i as usize]
    }

    /// How many arguments term i has; 0 where there is no such term.
    pub fn argument_count(&self, i: u32) -> u8
        ensures count { result ≡ (node_at self.now i).count }
        ensures few { result ≤ 8 }
    {
        if (i as usize) < self.nodes.len() {
            self.nodes[i as usize].count
        } else {
            0
        }
    }

    /// The k-th argument of term i; 0 where there is no such term.
    pub fn argument(&self, i: u32, k: u8) -> u32
        requires { k < 8 }
        ensures { result ≡ arg self.now i k }
    {
        if (i as usize) < self.nodes.len() {
            self.nodes[i as usize].args[k as usize].0 as u32
        } else {
            0
        }
    }

    /// Whether a term is a sum, difference or product.
    pub fn is_calculation(&self, i: u32) -> bool
        requires { i < count self.now }
        ensures { result ≡ is_arithmetic (node_at self.now i).head }
    {
        matches!(
            &self.nodes[i as usize].head,
            Head::Two(Op::Add | Op::Sub | Op::Mul)
        )
    }

    /// The head of term i; FALSE where there is no such term.
    pub fn head(&self, i: u32) -> Head
        ensures { result ≡ (node_at self.now i).head }
    {
        if (i as usize) < self.nodes.len() {
            self.nodes[i as usize].head
        } else {
            Head::Const(Value::Truth(false))
        }
    }

    /// Whether a term is a level term.
    pub fn is_level(&self, i: u32) -> bool
        ensures { result ≡ is_level self.now i }
    {
        if (i as usize) < self.levels.len() {
            self.levels[i as usize]
        } else {
            false
        }
    }
}
