ghost use Rattle.std.specs.Prelude.{◌≡◌, [], ◌∷◌, IfOk, codes};
ghost use Rattle.sp_values.specs.declared.value.Op.TheVariants as op;
ghost use Rattle.sp_values.specs.declared.value.Ty.TheVariants as ty;
ghost use Rattle.sp_values.specs.declared.value.Value.TheVariants as value;
ghost use Rattle.sp_core.specs.declared.expr.Expr.TheVariants as expr;
ghost use Rattle.sp_core.specs.declared.function.Effect.TheVariants as effect;
ghost use Rattle.sp_examples.specs.Common.{AreOverLowHigh, designator};
ghost use Rattle.sp_examples.specs.Stacks.{index_formal, is_empty, one, pointer, pointer_function, pop_effects, pop_function, push_effects, push_function, stack_formal, stack_function, stacks};

use sp_core::{Effect, Expr, Formal, Function, Kind, Spec, TypeInfo};
use sp_examples::{designator, formal, low_high, one_formal, stacks_are_well_formed, two_names};
use sp_formulas::FormulaFault;
use sp_generator::formulas;
use sp_sequent::FormulaKind;
use sp_text::{Memory, Name, Sequence};
use sp_values::{Op, Ty, Value};
use sqlite_items::{Boxed, Items};
use std::alloc::Global;
use std::test::Fail;

const STACK: Ty = Ty::Member(0);

// The specification of stacks

fn first(alloc: Global) -> Result<Items<Expr>, Memory>
    ensures { IfOk result (λ parts. parts ≡ expr.Var 0 ∷ []) }
{
    let mut parts = Items::new(alloc);
    parts.push(Expr::Var(0))?;
    Ok(parts)
}

fn pointer(alloc: Global) -> Result<Expr, Memory>
    ensures { IfOk result (λ e. e ≡ pointer) }
{
    Ok(Expr::Look(0, first(alloc)?))
}

fn two(alloc: Global, op: Op, a: Expr, b: Expr) -> Result<Expr, Memory>
    ensures { IfOk result (λ e. e ≡ expr.Two op a b) }
{
    let left = Boxed::new(alloc, a)?;
    let right = Boxed::new(alloc, b)?;
    Ok(Expr::Two(op, left, right))
}

fn number(n: i64) -> Expr
    ensures { result ≡ expr.Const (value.Int n) }
{
    Expr::Const(Value::Int(n))
}

// The new pointer, one more or one less than the old one.
fn moved(alloc: Global, op: Op) -> Result<Effect, Memory>
    ensures { IfOk result (λ w. w ≡ effect.Change 0 (expr.Var 0 ∷ []) (expr.Two op pointer one)) }
{
    let value = two(alloc, op, pointer(alloc)?, number(1))?;
    Ok(Effect::Change(0, first(alloc)?, value))
}

fn push_effects(alloc: Global) -> Result<Items<Effect>, Memory>
    ensures { IfOk result (λ effects. effects ≡ push_effects) }
{
    let mut place = first(alloc)?;
    place.push(Expr::New(0, first(alloc)?))?;
    let mut effects = Items::new(alloc);
    effects.push(moved(alloc, Op::Add)?)?;
    effects.push(Effect::Change(1, place, Expr::Var(1)))?;
    Ok(effects)
}

fn pop_effects(alloc: Global) -> Result<Items<Effect>, Memory>
    ensures { IfOk result (λ effects. effects ≡ pop_effects) }
{
    let mut place = first(alloc)?;
    place.push(pointer(alloc)?)?;
    let mut effects = Items::new(alloc);
    effects.push(Effect::Answer(Expr::Look(1, place)))?;
    effects.push(moved(alloc, Op::Sub)?)?;
    Ok(effects)
}

fn of_stacks(
    alloc: Global,
    name: &[u8],
    visible: bool,
    formals: Sequence<Formal>,
    exceptions: Sequence<(Name, Expr)>,
    kind: Kind,
) -> Result<Function, Memory>
    ensures { IfOk result (λ f. f ≡ record { name = name.now; visible = visible; formals = formals; exceptions = exceptions; kind = kind; level = expr.Const (value.Level 0) }) }
{
    Ok(Function {
        name: Name::new(alloc, name)?,
        visible,
        formals,
        exceptions,
        kind,
        level: Expr::Const(Value::Level(0)),
    })
}

fn none(alloc: Global) -> Sequence<(Name, Expr)>
    ensures { result ≡ [] }
{
    Sequence::new(Vec::new(alloc))
}

fn stack_and(alloc: Global, name: &[u8]) -> Result<Sequence<Formal>, Memory>
    ensures { IfOk result (λ formals. formals ≡ stack_formal ∷ record { name = name.now; ty = ty.Integer } ∷ []) }
{
    let mut formals = Vec::new(alloc);
    formals.push(formal(alloc, b"s", STACK)?)?;
    formals.push(formal(alloc, name, Ty::Integer)?)?;
    Ok(Sequence::new(formals))
}

fn pointer_function(alloc: Global) -> Result<Function, Memory>
    ensures { IfOk result (λ f. f ≡ pointer_function) }
{
    let kind = Kind::Primitive(Ty::Integer, number(0));
    of_stacks(
        alloc,
        b"ptr",
        false,
        one_formal(alloc, b"s", STACK)?,
        none(alloc),
        kind,
    )
}

fn stack_function(alloc: Global) -> Result<Function, Memory>
    ensures { IfOk result (λ f. f ≡ stack_function) }
{
    let kind = Kind::Primitive(Ty::Integer, Expr::Const(Value::Unknown));
    of_stacks(
        alloc,
        b"stack",
        false,
        stack_and(alloc, b"i")?,
        none(alloc),
        kind,
    )
}

fn push_function(alloc: Global) -> Result<Function, Memory>
    ensures { IfOk result (λ f. f ≡ push_function) }
{
    let kind = Kind::Operation(push_effects(alloc)?);
    of_stacks(
        alloc,
        b"push",
        true,
        stack_and(alloc, b"v")?,
        none(alloc),
        kind,
    )
}

fn empty(alloc: Global) -> Result<Sequence<(Name, Expr)>, Memory>
    ensures { IfOk result (λ exceptions. exceptions ≡ (codes "empty", is_empty) ∷ []) }
{
    let condition = two(alloc, Op::Same, pointer(alloc)?, number(0))?;
    let mut exceptions = Vec::new(alloc);
    exceptions.push((Name::new(alloc, b"empty")?, condition))?;
    Ok(Sequence::new(exceptions))
}

fn pop_function(alloc: Global) -> Result<Function, Memory>
    ensures { IfOk result (λ f. f ≡ pop_function) }
{
    let kind = Kind::Both(Ty::Integer, pop_effects(alloc)?);
    of_stacks(
        alloc,
        b"pop",
        true,
        one_formal(alloc, b"s", STACK)?,
        empty(alloc)?,
        kind,
    )
}

fn functions(alloc: Global) -> Result<Vec<Function>, Memory>
    ensures { IfOk result (λ all. all.items ≡ pointer_function ∷ stack_function ∷ push_function ∷ pop_function ∷ []) }
{
    let mut functions = Vec::new(alloc);
    functions.push(pointer_function(alloc)?)?;
    functions.push(stack_function(alloc)?)?;
    functions.push(push_function(alloc)?)?;
    functions.push(pop_function(alloc)?)?;
    Ok(functions)
}

fn types(alloc: Global) -> Result<Vec<TypeInfo>, Memory>
    ensures { IfOk result (λ types. types.items ≡ designator (codes "stk") ∷ []) }
{
    let mut types = Vec::new(alloc);
    types.push(designator(alloc, b"stk")?)?;
    Ok(types)
}

fn stacks(alloc: Global) -> Result<Spec, Memory>
    ensures { IfOk result (AreOverLowHigh stacks) }
{
    stacks_are_well_formed();
    let name = Name::new(alloc, b"stacks")?;
    let lattice = low_high(alloc)?;
    let levels = two_names(alloc, b"LOW", b"HIGH")?;
    let types = types(alloc)?;
    let params = Vec::new(alloc);
    let assertions = Vec::new(alloc);
    let functions = functions(alloc)?;
    Ok(Spec::assemble(name, lattice, levels, types, params, assertions, functions))
}

// What is listed

fn kinds(alloc: Global, spec: &Spec) -> Result<Vec<(u16, FormulaKind)>, FormulaFault> {
    let list = formulas(alloc, spec)?;
    let mut kinds = Vec::new(alloc);
    for formula in &list {
        if kinds.push((formula.fun, formula.kind)).is_err() {
            return Err(FormulaFault::Memory);
        }
    }
    Ok(kinds)
}

#[test]
fn stacks_have_nine_formulas(rt: HostRuntime) -> Result<(), Fail> {
    let spec = stacks(rt.alloc())?;
    let kinds = kinds(rt.alloc(), &spec)?;
    assert_eq!(rt;
        kinds.as_slice(),
        [
            (2, FormulaKind::Change),
            (2, FormulaKind::ValueReference),
            (2, FormulaKind::Change),
            (2, FormulaKind::TargetReference),
            (3, FormulaKind::ExceptionReference),
            (3, FormulaKind::ResultReference),
            (3, FormulaKind::ResultReference),
            (3, FormulaKind::Change),
            (3, FormulaKind::ValueReference),
        ]
        .as_slice()
    );
    Ok(())
}
