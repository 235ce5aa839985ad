//! A certificate followed step by step, over two tables and a trail.

ghost use Rattle.std.specs.Prelude.{◌≡◌, ℕ, ◌+◌, ◌*◌, ◌<◌, ◌≤◌, List, length, IsTrue, None, false, true, slice_index};
ghost use Rattle.sp_rules.specs.Table.{in_range};
ghost use Rattle.sp_rules.specs.declared.fact.Fact.{Fact};
ghost use Rattle.sp_checker.specs.Trail.{free};
ghost use Rattle.sp_rules.specs.Facts.{holds_in, with_fact};
ghost use Rattle.sp_rules.specs.Terms.{count as term_count};
ghost use Rattle.sp_cert.specs.Checks.{next, bad_step, Facts, count_all, count_nodes, count_steps, ends_in_clash, fault, first_of, leaf_fault, with_steps};
ghost use Rattle.sp_cert.specs.Tree.{tree};
ghost use Rattle.sp_checker.specs.Known.{is_last, judge, weight};
ghost use Rattle.sp_checker.specs.Trail.{Trailed, EachWithin, Kept};

use crate::trail::{add, put, take_out, undo};
use sp_bits::BitTable;
use sp_cert::{Cert, CertFault};
use sp_rules::{Fact, Step, TermTable, clashes, lack};

fn next_number(n: u64) -> u64
    ensures { result ≡ next n }
{
    n.saturating_add(1)
}

/// What following steps gives: the trail's length, the count of steps, whether the last is a clash, and the first fault.
#[derive(Drop)]
struct Followed {
    len: usize,
    count: u64,
    is_clash: bool,
    fault: Option<CertFault>,
}

/// Follows steps, and puts their facts on the trail.
fn follow(
    eq: &mut BitTable,
    le: &mut BitTable,
    trail: &mut [Fact],
    from: usize,
    terms: &TermTable,
    count: u64,
    steps: &[Step],
) -> Followed
    requires nodes { term_count terms.now ≤ 512 }
    requires eq { eq.old.count ≡ term_count terms.now }
    requires le { le.old.count ≡ term_count terms.now }
    requires room { from + (free eq.old + free le.old) ≤ length trail.old }
    requires within { EachWithin (term_count terms.now) trail.old from }
    ensures eq { eq.new.count ≡ eq.old.count }
    ensures le { le.new.count ≡ le.old.count }
    ensures room { result.len + (free eq.new + free le.new) ≤ length trail.new }
    ensures longer { from ≤ result.len }
    ensures trailed { (h0 : Facts) (base : ℕ) → Trailed h0 trail.old base from (holds_in eq.old le.old) → Trailed h0 trail.new base result.len (holds_in eq.new le.new) }
    ensures within { EachWithin (term_count terms.now) trail.new result.len }
    ensures kept { Kept trail.old trail.new from }
    ensures fault { (atoms : List ℕ) → result.fault ≡ bad_step (judge terms.now atoms) (holds_in eq.old le.old) count steps.now }
    ensures counted { result.fault ≡ None → result.count ≡ count_steps count steps.now }
    ensures clash { (atoms : List ℕ) → result.fault ≡ None → result.is_clash ≡ ends_in_clash (judge terms.now atoms) false steps.now }
    ensures holds { result.fault ≡ None → (f : Fact) → holds_in eq.new le.new f ≡ with_steps steps.now (holds_in eq.old le.old) f }
{
    let mut len = from;
    let mut count = count;
    let mut last = false;
    for step in steps {
        count = next_number(count);
        if let Some(lack) = lack(eq, le, terms, step) {
            return Followed {
                len,
                count,
                is_clash: false,
                fault: Some(CertFault::BadStep(count, lack)),
            };
        }
        len = put(eq, le, trail, len, step.fact);
        last = clashes(terms, step.fact);
    }
    Followed {
        len,
        count,
        is_clash: last,
        fault: None,
    }
}

/// The first fault of a leaf. The tables are left as they were.
fn leaf_fault(
    eq: &mut BitTable,
    le: &mut BitTable,
    trail: &mut [Fact],
    from: usize,
    terms: &TermTable,
    node: u64,
    count: &mut u64,
    steps: &[Step],
) -> Option<CertFault>
    requires nodes { term_count terms.now ≤ 512 }
    requires eq { eq.old.count ≡ term_count terms.now }
    requires le { le.old.count ≡ term_count terms.now }
    requires room { from + (free eq.old + free le.old) ≤ length trail.old }
    requires within { EachWithin (term_count terms.now) trail.old from }
    ensures size { length trail.new ≡ length trail.old }
    ensures kept { Kept trail.old trail.new from }
    ensures same { (eq.new ≡ eq.old) × (le.new ≡ le.old) }
    ensures fault { (atoms : List ℕ) → result ≡ leaf_fault (judge terms.now atoms) (holds_in eq.old le.old) node count.old steps.now }
    ensures counted { result ≡ None → count.new ≡ count_steps count.old steps.now }
{
    eq.tell_within();
    le.tell_within();
    let done = follow(eq, le, trail, from, terms, *count, steps);
    undo(eq, le, trail, from, done.len);
    eq.tell_within();
    le.tell_within();
    if done.fault.is_some() {
        return done.fault;
    }
    *count = done.count;
    if done.is_clash {
        None
    } else {
        Some(CertFault::NoClash(node))
    }
}

/// Follows the STEPS nodes that stand directly below one another. Answers the trail's length, the first fault, and the
/// node behind them.
fn front<'a>(
    eq: &mut BitTable,
    le: &mut BitTable,
    trail: &mut [Fact],
    from: usize,
    terms: &TermTable,
    cert: &'a Cert,
    depth: u8,
    number: &mut u64,
    count: &mut u64,
) -> (usize, Option<CertFault>, &'a Cert)
    requires nodes { term_count terms.now ≤ 512 }
    requires eq { eq.old.count ≡ term_count terms.now }
    requires le { le.old.count ≡ term_count terms.now }
    requires room { from + (free eq.old + free le.old) ≤ length trail.old }
    requires within { EachWithin (term_count terms.now) trail.old from }
    ensures eq { eq.new.count ≡ eq.old.count }
    ensures le { le.new.count ≡ le.old.count }
    ensures size { length trail.new ≡ length trail.old }
    ensures room { result.0 + (free eq.new + free le.new) ≤ length trail.new }
    ensures longer { from ≤ result.0 }
    ensures within { EachWithin (term_count terms.now) trail.new result.0 }
    ensures kept { Kept trail.old trail.new from }
    ensures trailed { Trailed (holds_in eq.old le.old) trail.new from result.0 (holds_in eq.new le.new) }
    ensures weight { weight (tree result.2.now) ≡ weight (tree cert.now) }
    ensures last { result.1 ≡ None → is_last (tree result.2.now) ≡ true }
    ensures fault { (atoms : List ℕ) → fault (judge terms.now atoms) (tree cert.now) (holds_in eq.old le.old) depth number.old count.old ≡ first_of result.1 (fault (judge terms.now atoms) (tree result.2.now) (holds_in eq.new le.new) depth number.new count.new) }
    ensures nodes { result.1 ≡ None → count_nodes number.old (tree cert.now) ≡ count_nodes number.new (tree result.2.now) }
    ensures counted { result.1 ≡ None → count_all count.old (tree cert.now) ≡ count_all count.new (tree result.2.now) }
{
    let mut at = cert;
    let mut top = from;
    while let Cert::Steps(steps, below) = at {
        let node = next_number(*number);
        if depth > 20 {
            return (top, Some(CertFault::TooDeep(node)), at);
        }
        let done = follow(eq, le, trail, top, terms, *count, steps.items());
        top = done.len;
        if done.fault.is_some() {
            return (top, done.fault, at);
        }
        *number = node;
        *count = done.count;
        at = below.get();
    }
    (top, None, at)
}

/// The first fault of a tree below so many splits. The tables are left as they were.
#[cycle(tree)]
pub fn tree_fault(
    eq: &mut BitTable,
    le: &mut BitTable,
    trail: &mut [Fact],
    from: usize,
    terms: &TermTable,
    atoms: &[u16],
    cert: &Cert,
    depth: u8,
    number: &mut u64,
    count: &mut u64,
) -> Option<CertFault>
    requires nodes { term_count terms.now ≤ 512 }
    requires two { 2 ≤ term_count terms.now }
    requires eq { eq.old.count ≡ term_count terms.now }
    requires le { le.old.count ≡ term_count terms.now }
    requires room { from + (free eq.old + free le.old) ≤ length trail.old }
    requires within { EachWithin (term_count terms.now) trail.old from }
    requires atoms { (k : ℕ) → k < length atoms.now → slice_index atoms.now k < term_count terms.now }
    requires depth { depth ≤ 21 }
    ensures size { length trail.new ≡ length trail.old }
    ensures kept { Kept trail.old trail.new from }
    ensures same { (eq.new ≡ eq.old) × (le.new ≡ le.old) }
    ensures nodes { result ≡ None → number.new ≡ count_nodes number.old (tree cert.now) }
    ensures counted { result ≡ None → count.new ≡ count_all count.old (tree cert.now) }
    ensures fault { result ≡ fault (judge terms.now atoms.now) (tree cert.now) (holds_in eq.old le.old) depth number.old count.old }
{
    eq.tell_within();
    le.tell_within();
    let (top, fault, last) = front(eq, le, trail, from, terms, cert, depth, number, count);
    match fault {
        Some(fault) => {
            undo(eq, le, trail, from, top);
            eq.tell_within();
            le.tell_within();
            Some(fault)
        }
        None => {
            let fault = node_fault(eq, le, trail, top, terms, atoms, last, depth, number, count);
            undo(eq, le, trail, from, top);
            eq.tell_within();
            le.tell_within();
            fault
        }
    }
}

/// The first fault of a node that is no STEPS node. The tables are left as they were.
#[cycle(tree)]
fn node_fault(
    eq: &mut BitTable,
    le: &mut BitTable,
    trail: &mut [Fact],
    from: usize,
    terms: &TermTable,
    atoms: &[u16],
    cert: &Cert,
    depth: u8,
    number: &mut u64,
    count: &mut u64,
) -> Option<CertFault>
    requires nodes { term_count terms.now ≤ 512 }
    requires two { 2 ≤ term_count terms.now }
    requires eq { eq.old.count ≡ term_count terms.now }
    requires le { le.old.count ≡ term_count terms.now }
    requires room { from + (free eq.old + free le.old) ≤ length trail.old }
    requires within { EachWithin (term_count terms.now) trail.old from }
    requires atoms { (k : ℕ) → k < length atoms.now → slice_index atoms.now k < term_count terms.now }
    requires depth { depth ≤ 21 }
    requires last { is_last (tree cert.now) ≡ true }
    ensures size { length trail.new ≡ length trail.old }
    ensures kept { Kept trail.old trail.new from }
    ensures same { (eq.new ≡ eq.old) × (le.new ≡ le.old) }
    ensures nodes { result ≡ None → number.new ≡ count_nodes number.old (tree cert.now) }
    ensures counted { result ≡ None → count.new ≡ count_all count.old (tree cert.now) }
    ensures fault { result ≡ fault (judge terms.now atoms.now) (tree cert.now) (holds_in eq.old le.old) depth number.old count.old }
{
    *number = next_number(*number);
    if depth > 20 {
        return Some(CertFault::TooDeep(*number));
    }
    match cert {
        Cert::Leaf(steps) => leaf_fault(eq, le, trail, from, terms, *number, count, steps.items()),
        Cert::Steps(_, _) => unreachable!(),
        Cert::Split(atom, first, second) => {
            let place = *atom as usize;
            if place >= atoms.len() {
                return Some(CertFault::NotAnAtom(*number));
            }
            let term = atoms[place] as u32;
            let fault = branch_fault(
                eq,
                le,
                trail,
                from,
                terms,
                atoms,
                first.get(),
                Fact::Eq(term, 0),
                depth + 1,
                number,
                count,
            );
            if fault.is_some() {
                return fault;
            }
            branch_fault(
                eq,
                le,
                trail,
                from,
                terms,
                atoms,
                second.get(),
                Fact::Eq(term, 1),
                depth + 1,
                number,
                count,
            )
        }
    }
}

/// The same below one more fact.
#[cycle(tree)]
fn branch_fault(
    eq: &mut BitTable,
    le: &mut BitTable,
    trail: &mut [Fact],
    from: usize,
    terms: &TermTable,
    atoms: &[u16],
    cert: &Cert,
    fact: Fact,
    depth: u8,
    number: &mut u64,
    count: &mut u64,
) -> Option<CertFault>
    requires nodes { term_count terms.now ≤ 512 }
    requires two { 2 ≤ term_count terms.now }
    requires eq { eq.old.count ≡ term_count terms.now }
    requires le { le.old.count ≡ term_count terms.now }
    requires room { from + (free eq.old + free le.old) ≤ length trail.old }
    requires within { EachWithin (term_count terms.now) trail.old from }
    requires atoms { (k : ℕ) → k < length atoms.now → slice_index atoms.now k < term_count terms.now }
    requires depth { depth ≤ 21 }
    requires fact { IsTrue (in_range (term_count terms.now) fact) }
    ensures size { length trail.new ≡ length trail.old }
    ensures kept { Kept trail.old trail.new from }
    ensures same { (eq.new ≡ eq.old) × (le.new ≡ le.old) }
    ensures nodes { result ≡ None → number.new ≡ count_nodes number.old (tree cert.now) }
    ensures counted { result ≡ None → count.new ≡ count_all count.old (tree cert.now) }
    ensures fault { result ≡ fault (judge terms.now atoms.now) (tree cert.now) (with_fact fact (holds_in eq.old le.old)) depth number.old count.old }
{
    eq.tell_within();
    le.tell_within();
    let new = add(eq, le, fact);
    let fault = tree_fault(
        eq, le, trail, from, terms, atoms, cert, depth, number, count,
    );
    if new {
        take_out(eq, le, fact);
        eq.tell_within();
        le.tell_within();
    }
    fault
}
