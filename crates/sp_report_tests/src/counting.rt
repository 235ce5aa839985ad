//! A small specification: the functions a to q over the levels LOW and HIGH. Those after a are derived.

ghost use Rattle.std.specs.Prelude.{◌≡◌, ◌≤◌, IfOk};
ghost use Rattle.sp_core.specs.declared.expr.Expr.TheVariants as expr;
ghost use Rattle.sp_examples.specs.Common.{AreOverLowHigh};
ghost use Rattle.sp_examples.specs.Counting.{count_function, count_functions, count_kind, counting};

use sp_core::{Expr, Function, Kind, Spec};
use sp_examples::{function, look_at, low_high, two_names};
use sp_text::{Memory, Name, Sequence};
use sp_values::{Op, Ty, Value};
use sqlite_items::Boxed;
use std::alloc::Global;

/// An operator at two expressions.
pub fn two(alloc: Global, op: Op, a: Expr, b: Expr) -> Result<Expr, Memory>
    ensures { IfOk result (λ e. e ≡ expr.Two op a b) }
{
    let left = Boxed::new(alloc, a)?;
    let right = Boxed::new(alloc, b)?;
    Ok(Expr::Two(op, left, right))
}

fn count_kind(alloc: Global, k: u16) -> Result<Kind, Memory>
    ensures { IfOk result (λ kind. kind ≡ count_kind k) }
{
    if k == 0 {
        return Ok(Kind::Primitive(Ty::Integer, Expr::Const(Value::Int(0))));
    }
    let before = look_at(alloc, k - 1);
    let sum = two(alloc, Op::Add, before, Expr::Const(Value::Int(1)))?;
    Ok(Kind::Derived(Ty::Integer, sum))
}

fn count_function(alloc: Global, k: u16) -> Result<Function, Memory>
    requires { k ≤ 16 }
    ensures { IfOk result (λ f. f ≡ count_function k) }
{
    let kind = count_kind(alloc, k)?;
    let formals = Sequence::new(Vec::new(alloc));
    function(
        alloc,
        &[b'a' + k as u8],
        formals,
        kind,
        Expr::Const(Value::Level(0)),
    )
}

fn count_functions(alloc: Global) -> Result<Vec<Function>, Memory>
    ensures { IfOk result (λ all. all.items ≡ count_functions 17) }
{
    let mut all = Vec::new(alloc);
    for k in 0..17 {
        all.push(count_function(alloc, k)?)?;
    }
    Ok(all)
}

/// The specification.
pub fn counting(alloc: Global) -> Result<Spec, Memory>
    ensures { IfOk result (AreOverLowHigh counting) }
{
    let name = Name::new(alloc, b"counting")?;
    let lattice = low_high(alloc)?;
    let levels = two_names(alloc, b"LOW", b"HIGH")?;
    let functions = count_functions(alloc)?;
    let types = Vec::new(alloc);
    let params = Vec::new(alloc);
    let assertions = Vec::new(alloc);
    Ok(Spec::assemble(name, lattice, levels, types, params, assertions, functions))
}
