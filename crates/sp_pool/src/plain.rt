ghost use Rattle.std.specs.Prelude.{◌≡◌, ◌↔◌, ◌<◌, ◌≤◌, ◌++◌, ◌∷◌, [], length, take, true, false, IfOk, OnOk, OnErr, IfSome, IfNone, IsTrue};
ghost use Rattle.sp_pool.specs.Nodes.{HasNode, IsHeld, IsNode, IsPool, truth_node};

use crate::node::{Full, Head, Mark, Node, TermId, truth};
use sp_text::{MOST_TERMS, Memory};
use std::alloc::Global;
use std::marker::Model;

/// A pool as a list that is looked through from the front, to compare `Pool` with.
#[derive(Drop)]
pub struct PlainPool {
    nodes: Vec<Node>,
}

impl Model for PlainPool {
    ghost use Rattle.std.specs.Prelude.{List, ◌≤◌, vec_capacity};
    ghost use Rattle.sp_pool.specs.declared.node.Node.{Node};
    ghost use Rattle.sp_pool.specs.Nodes.{IsPool};

    ghost Value = { List Node };

    ghost view = { λ p. p.nodes.items };

    ghost invariant = { λ p. IsPool p.nodes.items × (512 ≤ vec_capacity p.nodes) };
}

fn is_same_head(head: &Head, other: &Head) -> bool
    ensures { IsTrue result ↔ (head.now ≡ other.now) }
{
    head == other
}

fn are_same_args(args: &[TermId], others: &[TermId]) -> bool
    ensures { IsTrue result ↔ (args.now ≡ others.now) }
{
    args == others
}

fn is_same(node: &Node, other: &Node) -> bool
    ensures { IsTrue result ↔ (node.now ≡ other.now) }
{
    is_same_head(&node.head, &other.head)
        && node.count == other.count
        && are_same_args(&node.args, &other.args)
}

/// The first place of a node in a list.
fn position(nodes: &[Node], n: &Node) -> Option<usize>
    ensures found { IfSome result (λ i. HasNode nodes.now i n.now) }
    ensures absent { IfNone result (¬ IsHeld nodes.now n.now) }
{
    for (i, node) in nodes.iter().enumerate() {
        if is_same(node, n) {
            return Some(i);
        }
    }
    None
}

impl PlainPool {
    /// A pool of TRUE and FALSE.
    ///
    /// # Errors
    /// `Memory` where the room is refused.
    pub fn new(alloc: Global) -> Result<PlainPool, Memory>
        ensures { IfOk result (λ pool. pool ≡ truth_node true ∷ truth_node false ∷ []) }
    {
        let mut nodes = Vec::with_capacity(alloc, MOST_TERMS as usize)?;
        nodes.push(truth(true))?;
        nodes.push(truth(false))?;
        Ok(PlainPool { nodes })
    }

    /// As `Pool::intern`.
    ///
    /// # Errors
    /// `Full` exactly where 512 nodes are held and this one is none of them.
    pub fn intern(&mut self, n: Node) -> Result<TermId, Full>
        requires { IsNode (length self.old) n }
        ensures here { IfOk result (λ t. HasNode self.new t.0 n) }
        ensures held { IsHeld self.old n → self.new ≡ self.old }
        ensures next { ¬ IsHeld self.old n → OnOk result ((length self.old < MOST_TERMS) × (self.new ≡ self.old ++ n ∷ [])) }
        ensures full { OnErr result ((length self.old ≡ MOST_TERMS) × (¬ IsHeld self.old n) × (self.new ≡ self.old)) }
    {
        if let Some(i) = position(&self.nodes, &n) {
            return Ok(TermId(i as u16));
        }
        let count = self.nodes.len();
        if count == MOST_TERMS as usize {
            return Err(Full);
        }
        if self.nodes.push(n).is_err() {
            unreachable!();
        }
        Ok(TermId(count as u16))
    }

    /// As `Pool::find`.
    pub fn find(&self, n: &Node) -> Option<TermId>
        ensures found { IfSome result (λ t. HasNode self.now t.0 n.now) }
        ensures absent { IfNone result (¬ IsHeld self.now n.now) }
    {
        match position(&self.nodes, n) {
            Some(i) => Some(TermId(i as u16)),
            None => None,
        }
    }

    /// How many nodes are held.
    pub fn len(&self) -> u16
        ensures { result ≡ length self.now }
    {
        self.nodes.len() as u16
    }

    /// As `Pool::release`.
    pub fn release(&mut self, m: Mark)
        requires two { 2 ≤ m.0 }
        requires held { m.0 ≤ length self.old }
        ensures { self.new ≡ take m.0 self.old }
    {
        self.nodes.truncate(m.0 as usize);
    }
}
