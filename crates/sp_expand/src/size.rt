//! Sizes of expressions.

ghost use Rattle.std.specs.Prelude.{◌≡◌, ◌≤◌, map};
ghost use Rattle.sp_core.specs.Tree.{tree, trees_of};
ghost use Rattle.sp_expand.specs.Sizes as spec_sizes;

use sp_core::Expr;
use sp_text::{MOST_EXPRESSION_NODES, MOST_HEIGHT, MOST_QUANTIFIERS};

/// The size of an expression: its height, its nodes and how many quantifiers stand in one another, each counted up to one
/// over its limit.
#[derive(Clone, Copy, Debug, PartialEq, Eq)]
pub struct Size {
    pub height: u32,
    pub nodes: u32,
    pub quantifiers: u32,
}

impl Size {
    /// Whether it is within the limits.
    pub fn is_within(self) -> bool
        ensures { result ≡ spec_sizes.within self }
    {
        self.height <= MOST_HEIGHT
            && self.nodes <= MOST_EXPRESSION_NODES
            && self.quantifiers <= MOST_QUANTIFIERS
    }
}

/// No parts.
pub fn nothing() -> Size
    ensures { result ≡ spec_sizes.nothing }
{
    Size {
        height: 0,
        nodes: 0,
        quantifiers: 0,
    }
}

/// Two parts.
pub fn beside(a: Size, b: Size) -> Size
    ensures { result ≡ spec_sizes.beside a b }
{
    Size {
        height: a.height.max(b.height),
        nodes: a
            .nodes
            .saturating_add(b.nodes)
            .min(MOST_EXPRESSION_NODES + 1),
        quantifiers: a.quantifiers.max(b.quantifiers),
    }
}

/// A form of these parts.
pub fn around(a: Size) -> Size
    ensures { result ≡ spec_sizes.around a }
{
    Size {
        height: a.height.saturating_add(1).min(MOST_HEIGHT + 1),
        nodes: a.nodes.saturating_add(1).min(MOST_EXPRESSION_NODES + 1),
        quantifiers: a.quantifiers,
    }
}

/// A quantifier over this part.
pub fn bound(a: Size) -> Size
    ensures { result ≡ spec_sizes.bound a }
{
    Size {
        height: a.height.saturating_add(1).min(MOST_HEIGHT + 1),
        nodes: a.nodes.saturating_add(1).min(MOST_EXPRESSION_NODES + 1),
        quantifiers: a.quantifiers.saturating_add(1).min(MOST_QUANTIFIERS + 1),
    }
}

fn nth_size(sizes: &[Size], k: u32) -> Size
    ensures { result ≡ spec_sizes.nth_size sizes.now k }
{
    match sizes.get(k as usize) {
        Some(size) => *size,
        None => around(nothing()),
    }
}

/// The size of an expression with arguments of these sizes in the place of its variables.
#[cycle(size_put)]
#[tactic(auto, using(crate::proofs::TreeLemmas::nodes_some))]
pub fn size_put(args: &[Size], e: &Expr) -> Size
    ensures { result ≡ spec_sizes.size_put args.now (tree e.now) }
{
    match e {
        Expr::Const(_) => around(nothing()),
        Expr::Var(k) => nth_size(args, *k),
        Expr::Not(a) => around(size_put(args, a.get())),
        Expr::Two(_, a, b) => around(beside(size_put(args, a.get()), size_put(args, b.get()))),
        Expr::If(c, a, b) => around(beside(
            size_put(args, c.get()),
            beside(size_put(args, a.get()), size_put(args, b.get())),
        )),
        Expr::Param(_, parts) => around(size_put_in(args, parts.as_slice())),
        Expr::Look(_, parts) => around(size_put_in(args, parts.as_slice())),
        Expr::Every(_, _, a) => bound(size_put(args, a.get())),
        Expr::New(_, parts) => around(size_put_in(args, parts.as_slice())),
    }
}

#[cycle(size_put)]
#[tactic(auto, using(crate::proofs::TreeLemmas::nodes_some))]
fn size_put_in(args: &[Size], parts: &[Expr]) -> Size
    ensures { result ≡ spec_sizes.size_put_in args.now (trees_of (map tree parts.now)) }
{
    if let [first, rest @ ..] = parts {
        return beside(size_put(args, first), size_put_in(args, rest));
    }
    nothing()
}
