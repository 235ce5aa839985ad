//! A certificate of the first format migrated: steps that both branches of a split need move above it. A node's front and
//! what is left of the node are made together, from the leaves up.

ghost use Rattle.std.specs.Prelude.{◌≡◌, ℕ, ◌+◌, ◌*◌, ◌<◌, ◌≤◌, List, length, IfOk, IsTrue, slice_index};
ghost use Rattle.sp_rules.specs.Facts.{holds_in, is_one_of, with_fact};
ghost use Rattle.sp_rules.specs.Table.{in_range};
ghost use Rattle.sp_rules.specs.Terms.{count as term_count};
ghost use Rattle.sp_rules.specs.declared.fact.Fact.{Fact};
ghost use Rattle.sp_cert.specs.Checks.{Facts, Judge};
ghost use Rattle.sp_cert.specs.Tree.{Leaf, tree};
ghost use Rattle.sp_checker.specs.Known.{judge};
ghost use Rattle.sp_checker.specs.Lifts.{lifted_for};
ghost use Rattle.sp_checker.specs.Migration.{common, following, same_step, under};
ghost use Rattle.sp_checker.specs.Raising.{HasAtoms, IsJoined, IsRaised, attached, goes_on};
ghost use Rattle.sp_checker.specs.Trail.{EachWithin, Kept, Trailed, free};

use crate::trail::{add, put, take_out, undo};
use sp_bits::BitTable;
use sp_cert::{Cert, CertFault};
use sp_rules::{Fact, Root, Step, TermTable, lack};
use sp_text::{Memory, Sequence};
use sqlite_items::Boxed;
use std::alloc::Global;

/// Why a certificate isn't migrated.
#[derive(Clone, Copy, Debug, PartialEq, Eq)]
pub enum LiftFault {
    /// It doesn't check; this is its first fault.
    Unchecked(CertFault),
    Memory,
}

/// A node's front, and what is left of the node without it.
#[derive(Drop)]
pub struct Raised {
    pub front: Vec<Step>,
    pub rest: Cert,
}

/// Steps that were followed: the trail's length, and how many they are.
#[derive(Clone, Copy)]
struct Shared {
    top: usize,
    count: usize,
}

fn is_same(step: &Step, other: &Step) -> bool
    ensures { result ≡ same_step step.now other.now }
{
    *step == *other
}

/// Whether the step also begins the other list, and lacks nothing.
fn goes_on(eq: &BitTable, le: &BitTable, terms: &TermTable, step: &Step, others: &[Step]) -> bool
    ensures { (atoms : List ℕ) → result ≡ goes_on (judge terms.now atoms) (holds_in eq.now le.now) step.now others.now }
{
    match others {
        [other, ..] => is_same(step, other) && lack(eq, le, terms, step).is_none(),
        [] => false,
    }
}

/// Follows the steps that both lists begin with, up to the first that lacks something, and puts their facts on the trail.
fn follow_shared(
    eq: &mut BitTable,
    le: &mut BitTable,
    trail: &mut [Fact],
    terms: &TermTable,
    first: &[Step],
    second: &[Step],
) -> Shared
    requires nodes { term_count terms.now ≤ 512 }
    requires eq { eq.old.count ≡ term_count terms.now }
    requires le { le.old.count ≡ term_count terms.now }
    requires room { free eq.old + free le.old ≤ length trail.old }
    ensures eq { eq.new.count ≡ eq.old.count }
    ensures le { le.new.count ≡ le.old.count }
    ensures room { result.top ≤ length trail.new }
    ensures trailed { Trailed (holds_in eq.old le.old) trail.new 0 result.top (holds_in eq.new le.new) }
    ensures within { EachWithin (term_count terms.now) trail.new result.top }
    ensures count { (atoms : List ℕ) → result.count ≡ length (following (judge terms.now atoms) (holds_in eq.old le.old) (common first.now second.now)) }
{
    let mut top = 0;
    for (place, step) in first.iter().enumerate() {
        if goes_on(eq, le, terms, step, &second[place..]) {
            top = put(eq, le, trail, top, step.fact);
        } else {
            return Shared { top, count: place };
        }
    }
    Shared {
        top,
        count: first.len(),
    }
}

/// How many steps both lists begin with, of which each follows from the facts in the tables and the earlier ones. The
/// tables are left as they were.
fn shared_count(
    eq: &mut BitTable,
    le: &mut BitTable,
    trail: &mut [Fact],
    terms: &TermTable,
    first: &[Step],
    second: &[Step],
) -> usize
    requires nodes { term_count terms.now ≤ 512 }
    requires eq { eq.old.count ≡ term_count terms.now }
    requires le { le.old.count ≡ term_count terms.now }
    requires room { 2 * (term_count terms.now * term_count terms.now) ≤ length trail.old }
    ensures size { length trail.new ≡ length trail.old }
    ensures same { (eq.new ≡ eq.old) × (le.new ≡ le.old) }
    ensures count { (atoms : List ℕ) → result ≡ length (following (judge terms.now atoms) (holds_in eq.old le.old) (common first.now second.now)) }
{
    eq.tell_within();
    le.tell_within();
    let shared = follow_shared(eq, le, trail, terms, first, second);
    undo(eq, le, trail, 0, shared.top);
    eq.tell_within();
    le.tell_within();
    shared.count
}

/// A tree below these steps, if there are any.
fn under(alloc: Global, steps: &[Step], below: Cert) -> Result<Cert, Memory>
    ensures { IfOk result (λ c. tree c ≡ under steps.now (tree below)) }
{
    if steps.is_empty() {
        return Ok(below);
    }
    let steps = Vec::from_slice(alloc, steps)?;
    Ok(Cert::Steps(Sequence::new(steps), Boxed::new(alloc, below)?))
}

/// Steps of a node's front put above what is left of it.
fn attach(alloc: Global, steps: &[Step], rest: Cert) -> Result<Cert, Memory>
    ensures { IfOk result (λ c. tree c ≡ attached steps.now (tree rest)) }
{
    match rest {
        Cert::Leaf(last) => {
            let mut all = Vec::from_slice(alloc, steps)?;
            all.extend_from_slice(last.items())?;
            Ok(Cert::Leaf(Sequence::new(all)))
        }
        Cert::Split(atom, first, second) => under(alloc, steps, Cert::Split(atom, first, second)),
        Cert::Steps(own, below) => under(alloc, steps, Cert::Steps(own, below)),
    }
}

/// A leaf's front is its steps without the last.
fn raise_leaf(alloc: Global, steps: &[Step]) -> Result<Raised, Memory>
    ensures { IfOk result (λ r. (j : Judge) (h : Facts) → IsRaised j h (Leaf steps.now) r) }
{
    let count = steps.len().saturating_sub(1);
    let front = Vec::from_slice(alloc, &steps[..count])?;
    let last = Vec::from_slice(alloc, &steps[count..])?;
    Ok(Raised {
        front,
        rest: Cert::Leaf(Sequence::new(last)),
    })
}

/// A split of two branches, of whose fronts the first steps move above it.
fn join(
    alloc: Global,
    atom: u32,
    first: Raised,
    second: Raised,
    count: usize,
) -> Result<Raised, Memory>
    requires first { count ≤ length first.front.items }
    requires second { count ≤ length second.front.items }
    ensures { IfOk result (IsJoined atom first second count) }
{
    let Raised { mut front, rest } = first;
    let left = attach(alloc, &front.as_slice()[count..], rest)?;
    let Raised {
        front: other,
        rest: other_rest,
    } = second;
    let right = attach(alloc, &other.as_slice()[count..], other_rest)?;
    front.truncate(count);
    Ok(Raised {
        front,
        rest: Cert::Split(atom, Boxed::new(alloc, left)?, Boxed::new(alloc, right)?),
    })
}

/// A node's front and what is left of it, over the facts in the tables. These are left as they were.
#[cycle(raise)]
fn raise(
    alloc: Global,
    eq: &mut BitTable,
    le: &mut BitTable,
    trail: &mut [Fact],
    terms: &TermTable,
    atoms: &[u16],
    cert: &Cert,
) -> Result<Raised, Memory>
    requires nodes { term_count terms.now ≤ 512 }
    requires two { 2 ≤ term_count terms.now }
    requires eq { eq.old.count ≡ term_count terms.now }
    requires le { le.old.count ≡ term_count terms.now }
    requires room { 2 * (term_count terms.now * term_count terms.now) ≤ length trail.old }
    requires atoms { (k : ℕ) → k < length atoms.now → slice_index atoms.now k < term_count terms.now }
    requires shape { HasAtoms (length atoms.now) (tree cert.now) }
    ensures size { length trail.new ≡ length trail.old }
    ensures same { (eq.new ≡ eq.old) × (le.new ≡ le.old) }
    ensures raised { IfOk result (IsRaised (judge terms.now atoms.now) (holds_in eq.old le.old) (tree cert.now)) }
{
    match cert {
        Cert::Leaf(steps) => raise_leaf(alloc, steps.items()),
        Cert::Steps(_, _) => unreachable!(),
        Cert::Split(atom, first, second) => {
            let term = atoms[*atom as usize] as u32;
            let yes = Fact::Eq(term, 0);
            let first = raise_branch(alloc, eq, le, trail, terms, atoms, first.get(), yes)?;
            let no = Fact::Eq(term, 1);
            let second = raise_branch(alloc, eq, le, trail, terms, atoms, second.get(), no)?;
            let count = shared_count(eq, le, trail, terms, &first.front, &second.front);
            join(alloc, *atom, first, second, count)
        }
    }
}

/// The same with one more fact.
#[cycle(raise)]
fn raise_branch(
    alloc: Global,
    eq: &mut BitTable,
    le: &mut BitTable,
    trail: &mut [Fact],
    terms: &TermTable,
    atoms: &[u16],
    cert: &Cert,
    fact: Fact,
) -> Result<Raised, Memory>
    requires nodes { term_count terms.now ≤ 512 }
    requires two { 2 ≤ term_count terms.now }
    requires eq { eq.old.count ≡ term_count terms.now }
    requires le { le.old.count ≡ term_count terms.now }
    requires room { 2 * (term_count terms.now * term_count terms.now) ≤ length trail.old }
    requires atoms { (k : ℕ) → k < length atoms.now → slice_index atoms.now k < term_count terms.now }
    requires shape { HasAtoms (length atoms.now) (tree cert.now) }
    requires fact { IsTrue (in_range (term_count terms.now) fact) }
    ensures size { length trail.new ≡ length trail.old }
    ensures same { (eq.new ≡ eq.old) × (le.new ≡ le.old) }
    ensures raised { IfOk result (IsRaised (judge terms.now atoms.now) (with_fact fact (holds_in eq.old le.old)) (tree cert.now)) }
{
    eq.tell_within();
    le.tell_within();
    let new = add(eq, le, fact);
    let raised = raise(alloc, eq, le, trail, terms, atoms, cert);
    if new {
        take_out(eq, le, fact);
        eq.tell_within();
        le.tell_within();
    }
    raised
}

/// A certificate migrated, over the tables of what is given. These are left as they were.
pub fn lifted(
    alloc: Global,
    root: &Root,
    eq: &mut BitTable,
    le: &mut BitTable,
    trail: &mut [Fact],
    cert: &Cert,
) -> Result<Cert, Memory>
    requires eq { eq.old.count ≡ term_count root.now.terms }
    requires le { le.old.count ≡ term_count root.now.terms }
    requires room { 2 * (term_count root.now.terms * term_count root.now.terms) ≤ length trail.old }
    requires holds { (f : Fact) → holds_in eq.old le.old f ≡ is_one_of root.now.given f }
    requires shape { HasAtoms (length root.now.atoms) (tree cert.now) }
    ensures size { length trail.new ≡ length trail.old }
    ensures same { (eq.new ≡ eq.old) × (le.new ≡ le.old) }
    ensures lifted { IfOk result (λ c. tree c ≡ lifted_for root.now (tree cert.now)) }
{
    let terms = root.terms();
    terms.count();
    root.tell_question();
    let raised = raise(alloc, eq, le, trail, terms, root.atoms(), cert)?;
    let Raised { front, rest } = raised;
    attach(alloc, &front, rest)
}
