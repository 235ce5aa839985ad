//! What formulas are made of.

use sp_core::{Expr, Formal};
use sp_sequent::FormulaKind;
use sp_text::Name;

/// A condition of the specification, or its denial.
#[derive(Clone, Copy)]
pub struct Hypothesis<'a> {
    pub denied: bool,
    pub e: &'a Expr,
}

/// A level term, at arguments where there are some.
#[derive(Clone, Copy)]
pub struct Level<'a> {
    pub term: &'a Expr,
    pub args: Option<&'a [Expr]>,
}

/// What a formula says of its hypotheses.
#[derive(Clone, Copy)]
pub enum Goal<'a> {
    /// The first level is at or below the second.
    Below(Level<'a>, Level<'a>),
    /// Both values are the same.
    Equal(&'a Expr, &'a Expr),
}

/// What a formula is about.
#[derive(Clone, Copy)]
pub struct Subject<'a> {
    pub kind: FormulaKind,
    /// The function's number.
    pub fun: u16,
    pub name: &'a Name,
    pub formals: &'a [Formal],
    /// From which variable on they are assumed proper.
    pub known: usize,
}

/// Where references stand: what their formulas are about, and the level that bounds them.
#[derive(Clone, Copy)]
pub struct Place<'a> {
    pub subject: Subject<'a>,
    pub upper: Level<'a>,
}
