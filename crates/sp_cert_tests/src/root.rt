//! The first formula of a small interface: with the variables u and f, the hypotheses `NOT u = ?`, `NOT f = ?` and
//! `NOT NOT cls(f) <= clr(u)`, and the goal `cls(f) <= clr(u)`. What the calls below ask is tested as it runs.

ghost use Rattle.std.specs.Prelude.{◌≡◌, ◌<◌, All, IsTrue, length};
ghost use Rattle.sp_pool.specs.Nodes.{IsNode};

use sp_lattice::{Lattice, LatticeDecl};
use sp_pool::{Head, Node, Pool, TermId};
use sp_rules::{Root, TermTable};
use sp_values::{Op, Value};
use std::alloc::Global;
use std::test::Fail;

// The terms from 2 on.
const TERMS: [(Head, &[u16]); 12] = [
    (Head::Var(0), &[]),
    (Head::Const(Value::Unknown), &[]),
    (Head::Two(Op::Same), &[2, 3]),
    (Head::Not, &[4]),
    (Head::Var(1), &[]),
    (Head::Two(Op::Same), &[6, 3]),
    (Head::Not, &[7]),
    (Head::Param(1), &[6]),
    (Head::Param(0), &[2]),
    (Head::Two(Op::LevelLe), &[9, 10]),
    (Head::Not, &[11]),
    (Head::Not, &[12]),
];

// The node of a head at the first eight of these arguments.
fn node_of(head: Head, arguments: &[u16]) -> Node
    ensures { length result.args ≡ 8 }
{
    let mut args = [TermId(0); 8];
    for (place, argument) in arguments.iter().enumerate() {
        if place < 8 {
            args[place] = TermId(*argument);
        }
    }
    let count = arguments.len().min(8) as u8;
    Node { head, count, args }
}

// Whether a node has at most eight arguments, which are below the count of held ones, and 0 behind them.
fn is_node(node: &Node, held: u16) -> bool
    requires { length node.now.args ≡ 8 }
    ensures { IsTrue result → IsNode held node.now }
{
    for place in 0..8 {
        if place < usize::from(node.count) && node.args[place].0 >= held {
            return false;
        }
        if place >= usize::from(node.count) && node.args[place].0 != 0 {
            return false;
        }
    }
    node.count <= 8
}

// Whether each of them is a term.
fn are_terms(terms: &[TermId], count: u32) -> bool
    ensures { IsTrue result → All (λ t. t.0 < count) terms.now }
{
    for place in 0..terms.len() {
        if u32::from(terms[place].0) >= count {
            return false;
        }
    }
    true
}

// Puts the term of this head at these arguments behind the others.
fn add(pool: &mut Pool, head: Head, arguments: &[u16]) -> Result<(), Fail> {
    let node = node_of(head, arguments);
    let held = pool.len();
    if !is_node(&node, held) {
        return Err(Fail::new("no term"));
    }
    let _ = pool.intern(node)?;
    Ok(())
}

// The pool of all terms.
fn pool(alloc: Global) -> Result<Pool, Fail> {
    let mut pool = Pool::new(alloc)?;
    for (head, arguments) in &TERMS {
        add(&mut pool, *head, arguments)?;
    }
    Ok(pool)
}

// The root of a formula whose hypotheses, goal and atoms are terms.
fn root_of(
    alloc: Global,
    terms: TermTable,
    hypotheses: &[TermId],
    goal: TermId,
    atoms: &[TermId],
) -> Result<Root, Fail> {
    let count = terms.count();
    if u32::from(goal.0) >= count {
        return Err(Fail::new("no terms"));
    }
    if !are_terms(hypotheses, count) || !are_terms(atoms, count) {
        return Err(Fail::new("no terms"));
    }
    Ok(Root::new(alloc, terms, hypotheses, goal, atoms)?)
}

/// Terms, hypotheses, goal and atoms of the formula.
///
/// # Errors
/// Where it can't be built.
pub fn root(alloc: Global) -> Result<Root, Fail> {
    let decl = LatticeDecl::product(alloc, 2, 0)?;
    let lattice = Lattice::declare(alloc, &decl)?;
    let mut levels = Vec::new(alloc);
    for term in 0..14u16 {
        levels.push(term == 9 || term == 10)?;
    }
    let pool = pool(alloc)?;
    let terms = TermTable::open(alloc, &pool, &levels, &lattice)?;
    let hypotheses = [TermId(5), TermId(8), TermId(13)];
    let atoms = [TermId(4), TermId(7), TermId(11)];
    root_of(alloc, terms, &hypotheses, TermId(11), &atoms)
}
