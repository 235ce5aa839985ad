//! A formula put together term by term. What the calls below ask is tested as it runs.

ghost use Rattle.std.specs.Prelude.{◌≡◌, ◌<◌, All, IsTrue, length};
ghost use Rattle.sp_pool.specs.Nodes.{IsNode};

use sp_lattice::{Lattice, LatticeDecl, LatticeFault};
use sp_pool::{Full, Head, Node, Pool, TermId};
use sp_rules::{Root, TermTable};
use sp_text::Memory;
use std::alloc::Global;

/// Why a formula isn't built.
#[derive(Clone, Copy, Debug, PartialEq, Eq)]
pub enum Unbuilt {
    Memory,
    /// There are more terms than a formula may have.
    Full,
    /// An argument, a hypothesis, the goal or an atom is no term.
    NoTerm,
    /// The levels are no lattice.
    NoLattice,
}

impl From<Memory> for Unbuilt {
    fn from(_: Memory) -> Unbuilt {
        Unbuilt::Memory
    }
}

impl From<Full> for Unbuilt {
    fn from(_: Full) -> Unbuilt {
        Unbuilt::Full
    }
}

impl From<LatticeFault> for Unbuilt {
    fn from(fault: LatticeFault) -> Unbuilt {
        match fault {
            LatticeFault::Memory => Unbuilt::Memory,
            _ => Unbuilt::NoLattice,
        }
    }
}

/// The head of a term, its arguments, and whether it is a level term.
pub type Term = (Head, &'static [u16], bool);

/// The terms of a formula, over the levels of a chain.
#[derive(Drop)]
pub struct Builder {
    alloc: Global,
    pool: Pool,
    levels: Vec<bool>,
    lattice: Lattice,
}

/// The node of a head at the first eight of these arguments.
fn node_of(head: Head, arguments: &[u16]) -> Node
    ensures { length result.args ≡ 8 }
{
    let mut args = [TermId(0); 8];
    for (place, argument) in arguments.iter().enumerate() {
        if place < 8 {
            args[place] = TermId(*argument);
        }
    }
    let count = arguments.len().min(8) as u8;
    Node { head, count, args }
}

/// Whether a node has at most eight arguments, which are below the count of held ones, and 0 behind them.
fn is_node(node: &Node, held: u16) -> bool
    requires { length node.now.args ≡ 8 }
    ensures { IsTrue result → IsNode held node.now }
{
    for place in 0..8 {
        if place < usize::from(node.count) && node.args[place].0 >= held {
            return false;
        }
        if place >= usize::from(node.count) && node.args[place].0 != 0 {
            return false;
        }
    }
    node.count <= 8
}

/// The terms of these numbers.
fn terms_of(alloc: Global, numbers: &[u16]) -> Result<Vec<TermId>, Memory> {
    let mut terms = Vec::new(alloc);
    for number in numbers {
        terms.push(TermId(*number))?;
    }
    Ok(terms)
}

/// Whether each of them is a term.
fn are_terms(terms: &[TermId], count: u32) -> bool
    ensures { IsTrue result → All (λ t. t.0 < count) terms.now }
{
    for place in 0..terms.len() {
        if u32::from(terms[place].0) >= count {
            return false;
        }
    }
    true
}

impl Builder {
    /// The terms TRUE, which is 0, and FALSE, which is 1, over a chain of four levels.
    ///
    /// # Errors
    /// `Memory`.
    pub fn new(alloc: Global) -> Result<Builder, Unbuilt> {
        let decl = LatticeDecl::product(alloc, 4, 0)?;
        let lattice = Lattice::declare(alloc, &decl)?;
        let pool = Pool::new(alloc)?;
        let levels = vec![in alloc; false, false].map_err(|_| Memory)?;
        Ok(Builder {
            alloc,
            pool,
            levels,
            lattice,
        })
    }

    /// The number of a term, which is a level term or not.
    ///
    /// # Errors
    /// `NoTerm`, `Full`, `Memory`.
    pub fn term(&mut self, head: Head, arguments: &[u16], is_level: bool) -> Result<u16, Unbuilt> {
        let node = node_of(head, arguments);
        let held = self.pool.len();
        if !is_node(&node, held) {
            return Err(Unbuilt::NoTerm);
        }
        let term = self.pool.intern(node)?;
        if term.0 >= held {
            self.levels.push(is_level).map_err(|_| Memory)?;
        }
        Ok(term.0)
    }

    /// Puts these terms in, in order.
    ///
    /// # Errors
    /// As those of `term`.
    pub fn put(&mut self, terms: &[Term]) -> Result<(), Unbuilt> {
        for (head, arguments, is_level) in terms {
            self.term(*head, arguments, *is_level)?;
        }
        Ok(())
    }

    /// The formula with these hypotheses, this goal and these atoms.
    ///
    /// # Errors
    /// `NoTerm`, `Memory`.
    pub fn root(&self, hypotheses: &[u16], goal: u16, atoms: &[u16]) -> Result<Root, Unbuilt> {
        let terms = TermTable::open(self.alloc, &self.pool, &self.levels, &self.lattice)?;
        let hypotheses = terms_of(self.alloc, hypotheses)?;
        let atoms = terms_of(self.alloc, atoms)?;
        let count = terms.count();
        if !are_terms(&hypotheses, count) || !are_terms(&atoms, count) || u32::from(goal) >= count {
            return Err(Unbuilt::NoTerm);
        }
        Ok(Root::new(self.alloc, terms, &hypotheses, TermId(goal), &atoms)?)
    }
}
