//! Expressions with other numbers, and terms with arguments put in.

ghost use Rattle.std.specs.Prelude.{◌≡◌, ℕ, ◌+◌, ◌-◌, ◌^◌, ◌<◌, ◌≤◌, IfOk, length, map};
ghost use Rattle.sp_core.specs.Tree.{tree, trees_of};
ghost use Rattle.sp_formulas.specs.Moves.{all_renumbered, AreBelow, IsBelow, IsRoomy, nth_tree, put, put_all, quantifier_number, raised, renumbered, settle, settle_all, variable_number};

use sp_core::Expr;
use sp_text::Memory;
use sp_values::Value;
use sqlite_items::{Boxed, Items};
use std::alloc::Global;

/// How numbers change.
#[derive(Clone, Copy)]
pub enum Renumbering<'a> {
    /// Those from the first number on are raised by the second.
    Raise(u32, u32),
    /// Those below the tuple's length are the tuple's, and each further one is as far from the second number as it was
    /// from that length.
    Instance(&'a [u32], u32),
}

impl<'a> Renumbering<'a> {
    fn variable(&self, k: u32) -> u32
        requires room { IsRoomy self.now }
        requires low { k < 2 ^ 31 }
        ensures { result ≡ variable_number self.now k }
    {
        match self {
            Renumbering::Raise(m, d) => if k < *m { k } else { k + *d },
            Renumbering::Instance(tuple, n) => {
                if (k as usize) < tuple.len() {
                    tuple[k as usize]
                } else {
                    *n + (k - tuple.len() as u32)
                }
            }
        }
    }

    fn quantifier(&self, k: u32) -> u32
        requires room { IsRoomy self.now }
        requires low { k < 2 ^ 31 }
        ensures { result ≡ quantifier_number self.now k }
    {
        match self {
            Renumbering::Raise(_, d) => k + *d,
            Renumbering::Instance(tuple, n) => {
                let count = tuple.len() as u32;
                if k < count { *n } else { *n + (k - count) }
            }
        }
    }
}

/// The expression with its numbers changed.
///
/// # Errors
/// `Memory` where it can't be made.
#[cycle(renumber)]
pub fn renumber(alloc: Global, how: &Renumbering<'_>, e: &Expr) -> Result<Expr, Memory>
    requires room { IsRoomy how.now }
    requires low { IsBelow (2 ^ 31) (tree e.now) }
    ensures { IfOk result (λ r. tree r ≡ renumbered (variable_number how.now) (quantifier_number how.now) (tree e.now)) }
{
    match e {
        Expr::Const(value) => Ok(Expr::Const(*value)),
        Expr::Var(k) => Ok(Expr::Var(how.variable(*k))),
        Expr::Not(a) => Ok(Expr::Not(renumber_boxed(alloc, how, a)?)),
        Expr::Two(op, a, b) => Ok(Expr::Two(
            *op,
            renumber_boxed(alloc, how, a)?,
            renumber_boxed(alloc, how, b)?,
        )),
        Expr::If(c, a, b) => Ok(Expr::If(
            renumber_boxed(alloc, how, c)?,
            renumber_boxed(alloc, how, a)?,
            renumber_boxed(alloc, how, b)?,
        )),
        Expr::Param(p, parts) => Ok(Expr::Param(*p, renumber_all(alloc, how, parts.as_slice())?)),
        Expr::Look(g, parts) => Ok(Expr::Look(*g, renumber_all(alloc, how, parts.as_slice())?)),
        Expr::Every(k, ty, a) => Ok(Expr::Every(
            how.quantifier(*k),
            *ty,
            renumber_boxed(alloc, how, a)?,
        )),
        Expr::New(g, parts) => Ok(Expr::New(*g, renumber_all(alloc, how, parts.as_slice())?)),
    }
}

#[cycle(renumber)]
fn renumber_boxed(
    alloc: Global,
    how: &Renumbering<'_>,
    e: &Boxed<Expr>,
) -> Result<Boxed<Expr>, Memory>
    requires room { IsRoomy how.now }
    requires low { IsBelow (2 ^ 31) (tree e.now) }
    ensures { IfOk result (λ r. tree r ≡ renumbered (variable_number how.now) (quantifier_number how.now) (tree e.now)) }
{
    Ok(Boxed::new(alloc, renumber(alloc, how, e.get())?)?)
}

#[cycle(renumber)]
fn renumber_all(alloc: Global, how: &Renumbering<'_>, parts: &[Expr]) -> Result<Items<Expr>, Memory>
    requires room { IsRoomy how.now }
    requires low { AreBelow (2 ^ 31) (trees_of (map tree parts.now)) }
    ensures { IfOk result (λ all. trees_of (map tree all) ≡ all_renumbered (variable_number how.now) (quantifier_number how.now) (trees_of (map tree parts.now))) }
{
    let mut all = Items::new(alloc);
    for part in parts {
        all.push(renumber(alloc, how, part)?)?;
    }
    Ok(all)
}

/// The expression with its outermost quantifiers numbered from `n` on.
///
/// # Errors
/// `Memory` where it can't be made.
#[cycle(settle)]
pub fn settled(alloc: Global, n: u32, e: &Expr) -> Result<Expr, Memory>
    requires room { n ≤ 2 ^ 31 }
    requires low { IsBelow (2 ^ 31) (tree e.now) }
    ensures { IfOk result (λ r. tree r ≡ settle n (tree e.now)) }
{
    match e {
        Expr::Const(value) => Ok(Expr::Const(*value)),
        Expr::Var(k) => Ok(Expr::Var(*k)),
        Expr::Not(a) => Ok(Expr::Not(settled_boxed(alloc, n, a)?)),
        Expr::Two(op, a, b) => Ok(Expr::Two(
            *op,
            settled_boxed(alloc, n, a)?,
            settled_boxed(alloc, n, b)?,
        )),
        Expr::If(c, a, b) => Ok(Expr::If(
            settled_boxed(alloc, n, c)?,
            settled_boxed(alloc, n, a)?,
            settled_boxed(alloc, n, b)?,
        )),
        Expr::Param(p, parts) => Ok(Expr::Param(*p, settled_all(alloc, n, parts.as_slice())?)),
        Expr::Look(g, parts) => Ok(Expr::Look(*g, settled_all(alloc, n, parts.as_slice())?)),
        Expr::Every(k, ty, a) => {
            let by = above(*k, n);
            let body = renumber(alloc, &Renumbering::Raise(*k, by), a.get())?;
            Ok(Expr::Every(*k + by, *ty, Boxed::new(alloc, body)?))
        }
        Expr::New(g, parts) => Ok(Expr::New(*g, settled_all(alloc, n, parts.as_slice())?)),
    }
}

/// How far n is above k.
fn above(k: u32, n: u32) -> u32
    ensures { result ≡ n - k }
{
    if k < n { n - k } else { 0 }
}

#[cycle(settle)]
fn settled_boxed(alloc: Global, n: u32, e: &Boxed<Expr>) -> Result<Boxed<Expr>, Memory>
    requires room { n ≤ 2 ^ 31 }
    requires low { IsBelow (2 ^ 31) (tree e.now) }
    ensures { IfOk result (λ r. tree r ≡ settle n (tree e.now)) }
{
    Ok(Boxed::new(alloc, settled(alloc, n, e.get())?)?)
}

#[cycle(settle)]
fn settled_all(alloc: Global, n: u32, parts: &[Expr]) -> Result<Items<Expr>, Memory>
    requires room { n ≤ 2 ^ 31 }
    requires low { AreBelow (2 ^ 31) (trees_of (map tree parts.now)) }
    ensures { IfOk result (λ all. trees_of (map tree all) ≡ settle_all n (trees_of (map tree parts.now))) }
{
    let mut all = Items::new(alloc);
    for part in parts {
        all.push(settled(alloc, n, part)?)?;
    }
    Ok(all)
}

/// The argument that stands for a variable.
fn argument(alloc: Global, args: &[Expr], k: u32) -> Result<Expr, Memory>
    ensures { IfOk result (λ r. tree r ≡ nth_tree (trees_of (map tree args.now)) k) }
{
    match args.get(k as usize) {
        Some(a) => Ok(a.copy(alloc)?),
        None => Ok(Expr::Const(Value::Unknown)),
    }
}

/// The term with arguments in the place of its variables.
///
/// # Errors
/// `Memory` where it can't be made.
#[cycle(put)]
pub fn with_arguments(alloc: Global, args: &[Expr], e: &Expr) -> Result<Expr, Memory>
    ensures { IfOk result (λ r. tree r ≡ put (trees_of (map tree args.now)) (tree e.now)) }
{
    match e {
        Expr::Const(value) => Ok(Expr::Const(*value)),
        Expr::Var(k) => argument(alloc, args, *k),
        Expr::Not(a) => Ok(Expr::Not(put_boxed(alloc, args, a)?)),
        Expr::Two(op, a, b) => Ok(Expr::Two(
            *op,
            put_boxed(alloc, args, a)?,
            put_boxed(alloc, args, b)?,
        )),
        Expr::If(c, a, b) => Ok(Expr::If(
            put_boxed(alloc, args, c)?,
            put_boxed(alloc, args, a)?,
            put_boxed(alloc, args, b)?,
        )),
        Expr::Param(p, parts) => Ok(Expr::Param(*p, put_all(alloc, args, parts.as_slice())?)),
        Expr::Look(g, parts) => Ok(Expr::Look(*g, put_all(alloc, args, parts.as_slice())?)),
        Expr::Every(k, ty, a) => Ok(Expr::Every(*k, *ty, Boxed::new(alloc, a.get().copy(alloc)?)?)),
        Expr::New(g, parts) => Ok(Expr::New(*g, put_all(alloc, args, parts.as_slice())?)),
    }
}

#[cycle(put)]
fn put_boxed(alloc: Global, args: &[Expr], e: &Boxed<Expr>) -> Result<Boxed<Expr>, Memory>
    ensures { IfOk result (λ r. tree r ≡ put (trees_of (map tree args.now)) (tree e.now)) }
{
    Ok(Boxed::new(alloc, with_arguments(alloc, args, e.get())?)?)
}

#[cycle(put)]
fn put_all(alloc: Global, args: &[Expr], parts: &[Expr]) -> Result<Items<Expr>, Memory>
    ensures { IfOk result (λ all. trees_of (map tree all) ≡ put_all (trees_of (map tree args.now)) (trees_of (map tree parts.now))) }
{
    let mut all = Items::new(alloc);
    for part in parts {
        all.push(with_arguments(alloc, args, part)?)?;
    }
    Ok(all)
}
