//! How deep derivations read one another.

ghost use Rattle.std.specs.Prelude.{◌≡◌, map, max};
ghost use Rattle.sp_core.specs.Tree.{tree, trees_of};
ghost use Rattle.sp_functions.specs.Depths as spec;

use sp_core::Expr;
use sp_text::MOST_DERIVATION_DEPTH;
use sqlite_items::at;

fn depth_at(before: &[u8], g: u16) -> u8
    ensures { result ≡ spec.depth_at before.now g }
{
    match at(before, g as usize) {
        None => 0,
        Some(depth) => *depth,
    }
}

fn greater(one: u8, other: u8) -> u8
    ensures { result ≡ max one other }
{
    if one < other { other } else { one }
}

#[cycle(greatest)]
#[tactic(auto, using(sp_expand::proofs::TreeLemmas::nodes_some))]
fn greatest(before: &[u8], e: &Expr) -> u8
    ensures { result ≡ spec.greatest before.now (tree e.now) }
{
    match e {
        Expr::Const(_) => 0,
        Expr::Var(_) => 0,
        Expr::Not(a) => greatest(before, a.get()),
        Expr::Two(_, a, b) => greater(greatest(before, a.get()), greatest(before, b.get())),
        Expr::If(c, a, b) => greater(
            greatest(before, c.get()),
            greater(greatest(before, a.get()), greatest(before, b.get())),
        ),
        Expr::Param(_, parts) => greatest_in(before, parts.as_slice()),
        Expr::Look(g, parts) => {
            greater(depth_at(before, *g), greatest_in(before, parts.as_slice()))
        }
        Expr::Every(_, _, a) => greatest(before, a.get()),
        Expr::New(_, parts) => greatest_in(before, parts.as_slice()),
    }
}

#[cycle(greatest)]
#[tactic(auto, using(sp_expand::proofs::TreeLemmas::nodes_some))]
fn greatest_in(before: &[u8], parts: &[Expr]) -> u8
    ensures { result ≡ spec.greatest_in before.now (trees_of (map tree parts.now)) }
{
    if let [first, rest @ ..] = parts {
        return greater(greatest(before, first), greatest_in(before, rest));
    }
    0
}

/// The depth of a function with this derivation, up to one over the limit, from the depths of the functions before it.
pub fn derived_depth(before: &[u8], e: &Expr) -> u8
    ensures { result ≡ spec.derived_depth before.now (tree e.now) }
{
    let inner = greatest(before, e);
    if inner < MOST_DERIVATION_DEPTH as u8 {
        inner + 1
    } else {
        MOST_DERIVATION_DEPTH as u8 + 1
    }
}
