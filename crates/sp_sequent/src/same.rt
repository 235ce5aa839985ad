//! Whether two expressions are one.

ghost use Rattle.std.specs.Prelude.{◌≡◌, map};
ghost use Rattle.sp_core.specs.Tree.{none, tree, trees_of};
ghost use Rattle.sp_sequent.specs.Same.{same_operator, same_tree, same_trees, same_type};

use sp_core::Expr;
use sp_values::{Op, Ty, Value};

fn is_same_type(t: Ty, u: Ty) -> bool
    ensures { result ≡ same_type t u }
{
    t == u
}

fn is_same_operator(o: Op, p: Op) -> bool
    ensures { result ≡ same_operator o p }
{
    o == p
}

/// Whether they are equal, form by form.
#[cycle(same)]
pub fn same_expr(a: &Expr, b: &Expr) -> bool
    ensures { result ≡ same_tree (tree a.now) (tree b.now) }
{
    match (a, b) {
        (Expr::Const(v), Expr::Const(u)) => *v == *u,
        (Expr::Var(k), Expr::Var(j)) => k == j,
        (Expr::Not(a), Expr::Not(b)) => same_expr(a.get(), b.get()),
        (Expr::Two(o, a, c), Expr::Two(p, b, d)) => {
            is_same_operator(*o, *p) && (same_expr(a.get(), b.get()) && same_expr(c.get(), d.get()))
        }
        (Expr::If(a, c, e), Expr::If(b, d, f)) => {
            same_expr(a.get(), b.get())
                && (same_expr(c.get(), d.get()) && same_expr(e.get(), f.get()))
        }
        (Expr::Param(p, ds), Expr::Param(q, es)) => {
            *p == *q && same_exprs(ds.as_slice(), es.as_slice())
        }
        (Expr::Look(f, ds), Expr::Look(g, es)) => {
            *f == *g && same_exprs(ds.as_slice(), es.as_slice())
        }
        (Expr::Every(k, t, a), Expr::Every(j, u, b)) => {
            *k == *j && (is_same_type(*t, *u) && same_expr(a.get(), b.get()))
        }
        (Expr::New(f, ds), Expr::New(g, es)) => {
            *f == *g && same_exprs(ds.as_slice(), es.as_slice())
        }
        _ => false,
    }
}

#[cycle(same)]
fn same_exprs(ds: &[Expr], es: &[Expr]) -> bool
    ensures { result ≡ same_trees (trees_of (map tree ds.now)) (trees_of (map tree es.now)) }
{
    if let [d, ds @ ..] = ds {
        if let [e, es @ ..] = es {
            same_expr(d, e) && same_exprs(ds, es)
        } else {
            false
        }
    } else {
        are_none(es)
    }
}

/// Whether there is none.
fn are_none(es: &[Expr]) -> bool
    ensures { result ≡ same_trees none (trees_of (map tree es.now)) }
{
    if let [_, ..] = es { false } else { true }
}
