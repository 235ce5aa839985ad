//! The numbers of an expression's subterms in a pool.

ghost use Rattle.std.specs.Prelude.{◌≡◌, ◌<◌, ◌≤◌, ◌++◌, ◌∷◌, [], length, map, slice_get, Some, IfOk, IfErr, OnOk, if◌then◌else◌};
ghost use Rattle.sp_sequent.specs.declared.terms.Refused.TheVariants as refused;
ghost use Rattle.sp_core.specs.Tree.{tree};
ghost use Rattle.sp_sequent.specs.Numbers.{IsInserted, IsShort, IsTooMany, Numbers, head_of, node, parts};
ghost use Rattle.sp_sequent.specs.Subterms.{is_quantified, number, quantified, with_all, ends};

use crate::same::same_expr;
use sp_core::Expr;
use sp_pool::{Head, Node, Pool, TermId};
use sqlite_items::Items;
use std::marker::Model;

/// Why an expression's subterms have no numbers.
#[derive(Debug, Drop)]
pub enum Refused {
    Full,
    Memory,
}

/// The numbers of at most eight arguments, which contracts see as their list.
#[derive(Drop)]
struct Arguments {
    count: usize,
    places: [TermId; 8],
}

impl Model for Arguments {
    ghost use Rattle.std.specs.Prelude.{List, take};
    ghost use Rattle.sp_pool.specs.declared.node.TermId.{TermId};
    ghost use Rattle.sp_sequent.specs.Numbers.{IsPadded};

    ghost Value = { List TermId };

    ghost view = { λ a. take a.count a.places };

    ghost invariant = { λ a. IsPadded a.count a.places };
}

impl Arguments {
    fn new() -> Arguments
        ensures { result ≡ [] }
    {
        Arguments {
            count: 0,
            places: [TermId(0); 8],
        }
    }

    fn push(&mut self, number: TermId)
        requires { length self.old < 8 }
        ensures { self.new ≡ self.old ++ number ∷ [] }
    {
        self.places[self.count] = number;
        self.count += 1;
    }

    /// The node of a head at these.
    fn node(&self, head: Head) -> Node
        ensures { result ≡ node head (map (λ t. t.0) self.now) }
    {
        Node {
            head,
            count: self.count as u8,
            args: self.places,
        }
    }
}

/// How many arguments it has.
fn part_count(e: &Expr) -> usize
    ensures { result ≡ length (parts (tree e.now)) }
{
    match e {
        Expr::Const(_) => 0,
        Expr::Var(_) => 0,
        Expr::Not(_) => 1,
        Expr::Two(_, _, _) => 2,
        Expr::If(_, _, _) => 3,
        Expr::Param(_, items) => items.len(),
        Expr::Look(_, items) => items.len(),
        Expr::Every(_, _, _) => 0,
        Expr::New(_, items) => items.len(),
    }
}

fn item(items: &Items<Expr>, k: usize) -> &Expr
    requires { k < length items.now }
    ensures { slice_get (map tree items.now) k ≡ Some (tree result.now) }
{
    let Some(e) = items.get(k) else {
        unreachable!()
    };
    e
}

/// Its argument in a place.
fn part(e: &Expr, k: usize) -> &Expr
    requires { k < length (parts (tree e.now)) }
    ensures { slice_get (parts (tree e.now)) k ≡ Some (tree result.now) }
{
    match e {
        Expr::Const(_) => unreachable!(),
        Expr::Var(_) => unreachable!(),
        Expr::Not(a) => a.get(),
        Expr::Two(_, a, b) => if k == 0 { a.get() } else { b.get() },
        Expr::If(c, a, b) => {
            if k == 0 {
                c.get()
            } else if k == 1 {
                a.get()
            } else {
                b.get()
            }
        }
        Expr::Param(_, items) => item(items, k),
        Expr::Look(_, items) => item(items, k),
        Expr::Every(_, _, _) => unreachable!(),
        Expr::New(_, items) => item(items, k),
    }
}

fn is_quantified(e: &Expr) -> bool
    ensures { result ≡ is_quantified (tree e.now) }
{
    matches!(e, Expr::Every(_, _, _))
}

/// The expression's number among the quantified ones.
fn quantifier_number(terms: &Vec<&Expr>, e: &Expr) -> usize
    ensures number { result ≡ number (quantified (map (λ r. tree r.now) terms.now.items)) (tree e.now) }
    ensures few { result ≤ length terms.now.items }
{
    let mut before = 0;
    for term in terms.iter() {
        if is_quantified(*term) {
            if same_expr(*term, e) {
                return before;
            }
            before += 1;
        }
    }
    before
}

/// The head of an expression.
fn head_of(terms: &Vec<&Expr>, e: &Expr) -> Head
    requires short { IsShort (tree e.now) }
    requires few { length terms.now.items ≤ 512 }
    ensures { result ≡ head_of (map (λ r. tree r.now) terms.now.items) (tree e.now) }
{
    match e {
        Expr::Const(value) => Head::Const(*value),
        Expr::Var(k) => Head::Var(*k as u16),
        Expr::Not(_) => Head::Not,
        Expr::Two(op, _, _) => Head::Two(*op),
        Expr::If(_, _, _) => Head::If,
        Expr::Param(p, _) => Head::Param(*p),
        Expr::Look(g, _) => Head::Look(*g),
        Expr::Every(_, _, _) => Head::Quant(quantifier_number(terms, e) as u16),
        Expr::New(g, _) => Head::New(*g),
    }
}

/// Lists the expression if it is new.
fn keep<'f>(terms: &mut Vec<&'f Expr>, e: &'f Expr, is_new: bool) -> Result<(), Refused>
    ensures ok { OnOk result (map (λ r. tree r.now) terms.new.items ≡ (if is_new then map (λ r. tree r.now) terms.old.items ++ tree e.now ∷ [] else map (λ r. tree r.now) terms.old.items)) }
    ensures err { IfErr result (λ r. r ≡ refused.Memory) }
{
    if is_new && terms.push(e).is_err() {
        return Err(Refused::Memory);
    }
    Ok(())
}

/// Places an expression behind its subterms, each where it isn't there yet.
///
/// # Errors
/// `Full` only where there would be over 512 subterms, `Memory` where they can't be listed.
pub fn insert<'f>(
    pool: &mut Pool,
    terms: &mut Vec<&'f Expr>,
    e: &'f Expr,
) -> Result<TermId, Refused>
    requires numbered { Numbers pool.old (map (λ r. tree r.now) terms.old.items) }
    requires short { IsShort (tree e.now) }
    ensures ok { IfOk result (λ t. IsInserted (map (λ r. tree r.now) terms.old.items) (tree e.now) pool.new (map (λ r. tree r.now) terms.new.items) t.0) }
    ensures full { IfErr result (λ r. IsTooMany (with_all (map (λ r. tree r.now) terms.old.items) (ends (tree e.now))) r) }
{
    let mut arguments = Arguments::new();
    for k in 0..part_count(e) {
        let number = insert(pool, terms, part(e, k))?;
        arguments.push(number);
    }
    let next = pool.len();
    let node = arguments.node(head_of(terms, e));
    let Ok(number) = pool.intern(node) else {
        return Err(Refused::Full);
    };
    keep(terms, e, number.0 == next)?;
    Ok(number)
}
