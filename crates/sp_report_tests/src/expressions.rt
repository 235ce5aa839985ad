ghost use Rattle.std.specs.Prelude.{◌≡◌, ◌∷◌, [], IfOk, length};
ghost use Rattle.sp_core.specs.declared.expr.Expr.TheVariants as expr;

use crate::counting::{counting, two};
use sp_core::{Expr, Formal, Spec};
use sp_report::{print_expr, print_formula};
use sp_sequent::{Formula, FormulaKind};
use sp_text::{Memory, Name, Sequence};
use sp_values::{Op, Ty, Value};
use sqlite_items::{Boxed, Items};
use std::alloc::Global;
use std::test::Fail;

const TRUE: Value = Value::Truth(true);

fn variable(alloc: Global, name: &[u8], ty: Ty) -> Result<Formal, Memory> {
    Ok(Formal {
        name: Name::new(alloc, name)?,
        ty,
    })
}

// The variables u, x, u.
fn variables(alloc: Global) -> Result<Sequence<Formal>, Memory>
    ensures { IfOk result (λ vars. length vars ≡ 3) }
{
    let mut vars = Vec::new(alloc);
    vars.push(variable(alloc, b"u", Ty::Boolean)?)?;
    vars.push(variable(alloc, b"x", Ty::Integer)?)?;
    vars.push(variable(alloc, b"u", Ty::Boolean)?)?;
    Ok(Sequence::new(vars))
}

// The first and the last variable.
fn hypotheses(alloc: Global) -> Result<Sequence<Expr>, Memory>
    ensures { IfOk result (λ hyps. hyps ≡ expr.Var 0 ∷ expr.Var 2 ∷ []) }
{
    let mut hyps = Vec::new(alloc);
    hyps.push(Expr::Var(0))?;
    hyps.push(Expr::Var(2))?;
    Ok(Sequence::new(hyps))
}

// A formula over the variables u, x, u.
fn formula(alloc: Global) -> Result<Formula, Fail> {
    Ok(Formula {
        kind: FormulaKind::GuardReference,
        fun: 1,
        name: Name::new(alloc, b"b")?,
        vars: variables(alloc)?,
        hyps: hypotheses(alloc)?,
        goal: Expr::Const(TRUE),
    })
}

// Whether an expression is printed so.
fn is_printed(alloc: Global, e: &Expr, text: &[u8]) -> Result<bool, Fail> {
    let spec: Spec = counting(alloc)?;
    let formula = formula(alloc)?;
    let mut out = Vec::new(alloc);
    print_expr(alloc, &spec, &formula, e, &mut out)?;
    Ok(out.as_slice() == text)
}

// Whether the formula is printed so.
fn is_formula_printed(alloc: Global, text: &[u8]) -> Result<bool, Fail> {
    let spec = counting(alloc)?;
    let formula = formula(alloc)?;
    let mut out = Vec::new(alloc);
    print_formula(alloc, &spec, 7, &formula, &mut out)?;
    Ok(out.as_slice() == text)
}

fn not(alloc: Global, a: Expr) -> Result<Expr, Memory> {
    Ok(Expr::Not(Boxed::new(alloc, a)?))
}

fn number(n: i64) -> Expr {
    Expr::Const(Value::Int(n))
}

// A sum below a number.
fn less(alloc: Global) -> Result<Expr, Memory> {
    let sum = two(alloc, Op::Add, number(1), Expr::Var(1))?;
    two(alloc, Op::IntLt, sum, number(-2))
}

// What is no such sum, and another.
fn neither(alloc: Global) -> Result<Expr, Memory> {
    let not = not(alloc, less(alloc)?)?;
    two(alloc, Op::And, not, Expr::Var(0))
}

// A bound of levels, and its bound.
fn bounds(alloc: Global) -> Result<Expr, Memory> {
    let glb = two(alloc, Op::Glb, Expr::Var(0), Expr::Var(2))?;
    two(alloc, Op::Lub, Expr::Const(Value::Level(0)), glb)
}

// The new value of the first function at a product and at the second.
fn call(alloc: Global) -> Result<Expr, Memory> {
    let mut args = Items::new(alloc);
    args.push(two(alloc, Op::Mul, Expr::Var(1), number(2))?)?;
    args.push(Expr::Look(1, Items::new(alloc)))?;
    Ok(Expr::New(0, args))
}

#[test]
fn constants_have_their_names(rt: HostRuntime) -> Result<(), Fail> {
    assert!(rt; is_printed(rt.alloc(), &number(-5), b"-5")?);
    assert!(rt; is_printed(rt.alloc(), &Expr::Const(Value::Level(1)), b"HIGH")?);
    Ok(())
}

#[test]
fn a_variable_of_an_earlier_name_has_its_number(rt: HostRuntime) -> Result<(), Fail> {
    assert!(rt; is_printed(rt.alloc(), &Expr::Var(0), b"u")?);
    assert!(rt; is_printed(rt.alloc(), &Expr::Var(2), b"u#2")?);
    assert!(rt; is_printed(rt.alloc(), &Expr::Var(3), b"#3")?);
    Ok(())
}

#[test]
fn operands_that_are_compound_stand_in_parentheses(rt: HostRuntime) -> Result<(), Fail> {
    let neither = neither(rt.alloc())?;
    assert!(rt; is_printed(rt.alloc(), &neither, b"(NOT ((1 + x) < -2)) AND u")?);
    Ok(())
}

#[test]
fn bounds_of_levels_stand_without_parentheses(rt: HostRuntime) -> Result<(), Fail> {
    let bounds = bounds(rt.alloc())?;
    assert!(rt; is_printed(rt.alloc(), &bounds, b"LUB(LOW,GLB(u,u#2))")?);
    Ok(())
}

#[test]
fn calls_stand_without_parentheses(rt: HostRuntime) -> Result<(), Fail> {
    let same = two(
        rt.alloc(),
        Op::Same,
        call(rt.alloc())?,
        Expr::Const(Value::Unknown),
    )?;
    assert!(rt; is_printed(rt.alloc(), &same, b"'a(x * 2,b()) = ?")?);
    Ok(())
}

#[test]
fn quantifiers_stand_without_parentheses(rt: HostRuntime) -> Result<(), Fail> {
    let every = Expr::Every(3, Ty::Boolean, Boxed::new(rt.alloc(), Expr::Var(3))?);
    assert!(rt; is_printed(rt.alloc(), &every, b"FORALL BOOLEAN #3: #3 END_FORALL")?);
    Ok(())
}

#[test]
fn a_formula_has_its_lines(rt: HostRuntime) -> Result<(), Fail> {
    let text = b"FORMULA 7 b guard-reference\nHYP u\nHYP u#2\nGOAL TRUE\n";
    assert!(rt; is_formula_printed(rt.alloc(), text)?);
    Ok(())
}
