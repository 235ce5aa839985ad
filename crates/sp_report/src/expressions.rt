//! Expressions over the variables of a formula.

ghost use Rattle.std.specs.Prelude.{◌≡◌, ◌++◌, OnOk, OnErr, map, take};
ghost use Rattle.sp_core.specs.Tree.{tree, trees_of};
ghost use Rattle.sp_report.specs.Constants.{type_text};
ghost use Rattle.sp_report.specs.Expressions.{call_text, choice_text, every_text, expr_text, is_bound, is_compound, is_named, list_text, numbered, operand, rest_text, sign, two_text, variable_text};

use crate::constants::{function_name, param_name, push_constant, type_text};
use crate::counts::push_count;
use sp_core::{Expr, Formal, Spec};
use sp_sequent::Formula;
use sp_text::{Memory, Name, push_text};
use sp_values::{Op, Ty};
use std::alloc::Global;

/// Appends `#k`.
fn push_numbered(alloc: Global, out: &mut Vec<u8>, k: u32) -> Result<(), Memory>
    ensures { OnOk result (out.new.items ≡ out.old.items ++ numbered k) }
{
    push_text(alloc, out, b"#")?;
    push_count(alloc, out, u64::from(k))
}

/// Whether one of these variables has the name.
fn is_named(vars: &[Formal], name: &Name) -> bool
    ensures { result ≡ is_named vars.now name.now }
{
    vars.iter().any(|var| var.name == *name)
}

fn push_variable(alloc: Global, out: &mut Vec<u8>, vars: &[Formal], k: u32) -> Result<(), Memory>
    ensures { OnOk result (out.new.items ≡ out.old.items ++ variable_text vars.now k) }
{
    match vars.get(k as usize) {
        Some(var) => {
            push_text(alloc, out, var.name.bytes())?;
            if is_named(&vars[..k as usize], &var.name) {
                return push_numbered(alloc, out, k);
            }
            Ok(())
        }
        None => push_numbered(alloc, out, k),
    }
}

/// The sign of an operator.
fn sign(op: Op) -> &'static [u8]
    ensures { result.now ≡ sign op }
{
    match op {
        Op::And => b" AND ",
        Op::Or => b" OR ",
        Op::Same => b" = ",
        Op::LevelLe => b" <= ",
        Op::IntLe => b" <= ",
        Op::IntLt => b" < ",
        Op::Add => b" + ",
        Op::Sub => b" - ",
        Op::Mul => b" * ",
        Op::Lub => b"LUB(",
        Op::Glb => b"GLB(",
    }
}

/// Whether an operator stands before its operands.
fn is_bound(op: Op) -> bool
    ensures { result ≡ is_bound op }
{
    matches!(op, Op::Lub | Op::Glb)
}

/// Whether an expression stands in parentheses as an operand.
fn is_compound(e: &Expr) -> bool
    ensures { result ≡ is_compound (tree e.now) }
{
    match e {
        Expr::Not(_) => true,
        Expr::Two(op, _, _) => !is_bound(*op),
        _ => false,
    }
}

/// Appends an expression over these variables.
#[cycle(print)]
pub fn push_expr(
    alloc: Global,
    out: &mut Vec<u8>,
    spec: &Spec,
    vars: &[Formal],
    e: &Expr,
) -> Result<(), Memory>
    ensures { OnOk result (out.new.items ≡ out.old.items ++ expr_text spec.now vars.now (tree e.now)) }
{
    match e {
        Expr::Const(value) => push_constant(alloc, out, spec, *value),
        Expr::Var(k) => push_variable(alloc, out, vars, *k),
        Expr::Not(a) => {
            push_text(alloc, out, b"NOT ")?;
            push_operand(alloc, out, spec, vars, a.get())
        }
        Expr::Two(op, a, b) => push_two(alloc, out, spec, vars, *op, a.get(), b.get()),
        Expr::If(c, a, b) => push_choice(alloc, out, spec, vars, c.get(), a.get(), b.get()),
        Expr::Param(q, args) => {
            push_call(
                alloc,
                out,
                spec,
                vars,
                param_name(spec, *q),
                args.as_slice(),
            )
        }
        Expr::Look(g, args) => {
            push_call(
                alloc,
                out,
                spec,
                vars,
                function_name(spec, *g),
                args.as_slice(),
            )
        }
        Expr::Every(k, ty, a) => push_every(alloc, out, spec, vars, *k, *ty, a.get()),
        Expr::New(g, args) => {
            push_text(alloc, out, b"'")?;
            push_call(
                alloc,
                out,
                spec,
                vars,
                function_name(spec, *g),
                args.as_slice(),
            )
        }
    }
}

/// Appends an operand of NOT or of an operator between operands.
#[cycle(print)]
fn push_operand(
    alloc: Global,
    out: &mut Vec<u8>,
    spec: &Spec,
    vars: &[Formal],
    e: &Expr,
) -> Result<(), Memory>
    ensures { OnOk result (out.new.items ≡ out.old.items ++ operand (tree e.now) (expr_text spec.now vars.now (tree e.now))) }
{
    if !is_compound(e) {
        return push_expr(alloc, out, spec, vars, e);
    }
    push_text(alloc, out, b"(")?;
    push_expr(alloc, out, spec, vars, e)?;
    push_text(alloc, out, b")")
}

/// Appends `a op b`, or `LUB(a,b)`.
#[cycle(print)]
fn push_two(
    alloc: Global,
    out: &mut Vec<u8>,
    spec: &Spec,
    vars: &[Formal],
    op: Op,
    a: &Expr,
    b: &Expr,
) -> Result<(), Memory>
    ensures { OnOk result (out.new.items ≡ out.old.items ++ two_text op (tree a.now) (expr_text spec.now vars.now (tree a.now)) (tree b.now) (expr_text spec.now vars.now (tree b.now))) }
{
    if is_bound(op) {
        push_text(alloc, out, sign(op))?;
        push_expr(alloc, out, spec, vars, a)?;
        push_text(alloc, out, b",")?;
        push_expr(alloc, out, spec, vars, b)?;
        return push_text(alloc, out, b")");
    }
    push_operand(alloc, out, spec, vars, a)?;
    push_text(alloc, out, sign(op))?;
    push_operand(alloc, out, spec, vars, b)
}

/// Appends `IF c THEN a ELSE b END_IF`.
#[cycle(print)]
fn push_choice(
    alloc: Global,
    out: &mut Vec<u8>,
    spec: &Spec,
    vars: &[Formal],
    c: &Expr,
    a: &Expr,
    b: &Expr,
) -> Result<(), Memory>
    ensures { OnOk result (out.new.items ≡ out.old.items ++ choice_text (expr_text spec.now vars.now (tree c.now)) (expr_text spec.now vars.now (tree a.now)) (expr_text spec.now vars.now (tree b.now))) }
{
    push_text(alloc, out, b"IF ")?;
    push_expr(alloc, out, spec, vars, c)?;
    push_text(alloc, out, b" THEN ")?;
    push_expr(alloc, out, spec, vars, a)?;
    push_text(alloc, out, b" ELSE ")?;
    push_expr(alloc, out, spec, vars, b)?;
    push_text(alloc, out, b" END_IF")
}

/// Appends `FORALL t #k: a END_FORALL`.
#[cycle(print)]
fn push_every(
    alloc: Global,
    out: &mut Vec<u8>,
    spec: &Spec,
    vars: &[Formal],
    k: u32,
    ty: Ty,
    a: &Expr,
) -> Result<(), Memory>
    ensures { OnOk result (out.new.items ≡ out.old.items ++ every_text (type_text spec.now ty) k (expr_text spec.now vars.now (tree a.now))) }
{
    push_text(alloc, out, b"FORALL ")?;
    push_text(alloc, out, type_text(spec, ty))?;
    push_text(alloc, out, b" ")?;
    push_numbered(alloc, out, k)?;
    push_text(alloc, out, b": ")?;
    push_expr(alloc, out, spec, vars, a)?;
    push_text(alloc, out, b" END_FORALL")
}

/// Appends `f(a,b)`.
#[cycle(print)]
fn push_call(
    alloc: Global,
    out: &mut Vec<u8>,
    spec: &Spec,
    vars: &[Formal],
    name: &[u8],
    args: &[Expr],
) -> Result<(), Memory>
    ensures { OnOk result (out.new.items ≡ out.old.items ++ call_text name.now (list_text spec.now vars.now (trees_of (map tree args.now)))) }
{
    push_text(alloc, out, name)?;
    push_text(alloc, out, b"(")?;
    push_list(alloc, out, spec, vars, args)?;
    push_text(alloc, out, b")")
}

/// Appends expressions with a comma between each two.
#[cycle(print)]
fn push_list(
    alloc: Global,
    out: &mut Vec<u8>,
    spec: &Spec,
    vars: &[Formal],
    es: &[Expr],
) -> Result<(), Memory>
    ensures { OnOk result (out.new.items ≡ out.old.items ++ list_text spec.now vars.now (trees_of (map tree es.now))) }
{
    if let [e, rest @ ..] = es {
        push_expr(alloc, out, spec, vars, e)?;
        push_rest(alloc, out, spec, vars, rest)
    } else {
        Ok(())
    }
}

/// Appends expressions, each behind a comma.
#[cycle(print)]
fn push_rest(
    alloc: Global,
    out: &mut Vec<u8>,
    spec: &Spec,
    vars: &[Formal],
    es: &[Expr],
) -> Result<(), Memory>
    ensures { OnOk result (out.new.items ≡ out.old.items ++ rest_text spec.now vars.now (trees_of (map tree es.now))) }
{
    if let [e, rest @ ..] = es {
        push_text(alloc, out, b",")?;
        push_expr(alloc, out, spec, vars, e)?;
        push_rest(alloc, out, spec, vars, rest)
    } else {
        Ok(())
    }
}

/// Appends the text of an expression over the variables of a formula. Variables have their names, with `#k` behind that of
/// variable k where an earlier one has the same.
///
/// # Errors
/// `Memory` where it can't be made; `out` is then as before.
pub fn print_expr(
    alloc: Global,
    spec: &Spec,
    formula: &Formula,
    e: &Expr,
    out: &mut Vec<u8>,
) -> Result<(), Memory>
    ensures ok { OnOk result (out.new.items ≡ out.old.items ++ expr_text spec.now formula.now.vars (tree e.now)) }
    ensures err { OnErr result (out.new.items ≡ out.old.items) }
{
    let mut made = Vec::new(alloc);
    push_expr(alloc, &mut made, spec, formula.vars.items(), e)?;
    push_text(alloc, out, &made)
}
