ghost use Rattle.std.specs.Prelude.{◌≡◌, [], ◌∷◌, IfOk, codes, map};
ghost use Rattle.sp_examples.specs.Common.{AreOverLowHigh};
ghost use Rattle.sp_examples.specs.WorkedFiles.{data_function, file, file_functions, file_params, file_types, files, high_at, level_at, no_write, not_below, number, read_function, small, user, write_function};

use sp_core::{
    Effect, Expr, Formal, Function, Instance, Kind, Param, Spec, State, Table, TypeInfo,
};
use sp_examples::{designator, formal, level_param, low_high, one_formal, two_names};
use sp_text::{Memory, Name, Sequence};
use sp_values::{Args, Op, Place, Ty, Value};
use sqlite_items::{Boxed, Items};
use std::alloc::Global;
use std::test::Fail;

const USER: u16 = 0;

const FILE: u16 = 1;

const LOW: Value = Value::Level(0);

const HIGH: Value = Value::Level(1);

fn data_of(k: u16) -> Place {
    Place {
        fun: 0,
        args: Args::new(&[Value::Member(FILE, k)]),
    }
}

#[test]
fn a_state_holds_what_is_put(rt: HostRuntime) -> Result<(), Fail> {
    let mut state = State::new(rt.alloc());
    state.reserve(3)?;
    state.put(&data_of(0), Value::Int(7));
    state.put(&data_of(1), Value::Unknown);
    state.put(&data_of(0), Value::Int(8));
    let copy = state.copy(rt.alloc())?;
    assert_eq!(rt; copy.len(), 2);
    assert_eq!(rt; copy.at(&data_of(0)), Some(Value::Int(8)));
    assert_eq!(rt; copy.at(&data_of(2)), None);
    Ok(())
}

fn level_at(alloc: Global, p: u16, k: u32) -> Result<Expr, Memory>
    ensures { IfOk result (λ e. e ≡ level_at p k) }
{
    let mut arguments = Items::new(alloc);
    arguments.push(Expr::Var(k))?;
    Ok(Expr::Param(p, arguments))
}

fn not_below(alloc: Global, p: u16, j: u32, q: u16, k: u32) -> Result<Expr, Memory>
    ensures { IfOk result (λ e. e ≡ not_below p j q k) }
{
    let low = Boxed::new(alloc, level_at(alloc, p, j)?)?;
    let high = Boxed::new(alloc, level_at(alloc, q, k)?)?;
    let below = Boxed::new(alloc, Expr::Two(Op::LevelLe, low, high))?;
    Ok(Expr::Not(below))
}

fn read_formals(alloc: Global) -> Result<Sequence<Formal>, Memory>
    ensures { IfOk result (λ formals. formals ≡ user ∷ file ∷ []) }
{
    let mut formals = Vec::new(alloc);
    formals.push(formal(alloc, b"u", Ty::Member(USER))?)?;
    formals.push(formal(alloc, b"f", Ty::Member(FILE))?)?;
    Ok(Sequence::new(formals))
}

fn write_formals(alloc: Global) -> Result<Sequence<Formal>, Memory>
    ensures { IfOk result (λ formals. formals ≡ user ∷ file ∷ number ∷ []) }
{
    let mut formals = Vec::new(alloc);
    formals.push(formal(alloc, b"u", Ty::Member(USER))?)?;
    formals.push(formal(alloc, b"f", Ty::Member(FILE))?)?;
    formals.push(formal(alloc, b"x", Ty::Integer)?)?;
    Ok(Sequence::new(formals))
}

fn exception(alloc: Global, name: &[u8], condition: Expr) -> Result<Sequence<(Name, Expr)>, Memory>
    ensures { IfOk result (λ exceptions. exceptions ≡ (name.now, condition) ∷ []) }
{
    let name = Name::new(alloc, name)?;
    let mut exceptions = Vec::new(alloc);
    exceptions.push((name, condition))?;
    Ok(Sequence::new(exceptions))
}

fn read_kind(alloc: Global) -> Result<Kind, Memory>
    ensures { IfOk result (λ kind. kind ≡ read_function.kind) }
{
    let mut arguments = Items::new(alloc);
    arguments.push(Expr::Var(1))?;
    let mut effects = Items::new(alloc);
    effects.push(Effect::Answer(Expr::Look(0, arguments)))?;
    Ok(Kind::Both(Ty::Integer, effects))
}

fn write_kind(alloc: Global) -> Result<Kind, Memory>
    ensures { IfOk result (λ kind. kind ≡ (write_function []).kind) }
{
    let mut arguments = Items::new(alloc);
    arguments.push(Expr::Var(1))?;
    let mut effects = Items::new(alloc);
    effects.push(Effect::Change(0, arguments, Expr::Var(2)))?;
    Ok(Kind::Operation(effects))
}

fn data_function(alloc: Global) -> Result<Function, Memory>
    ensures { IfOk result (λ f. f ≡ data_function) }
{
    Ok(Function {
        name: Name::new(alloc, b"data")?,
        visible: false,
        formals: one_formal(alloc, b"f", Ty::Member(FILE))?,
        exceptions: Sequence::new(Vec::new(alloc)),
        kind: Kind::Primitive(Ty::Integer, Expr::Const(Value::Int(0))),
        level: level_at(alloc, 1, 0)?,
    })
}

fn read_function(alloc: Global) -> Result<Function, Memory>
    ensures { IfOk result (λ f. f ≡ read_function) }
{
    let condition = not_below(alloc, 1, 1, 0, 0)?;
    Ok(Function {
        name: Name::new(alloc, b"read")?,
        visible: true,
        formals: read_formals(alloc)?,
        exceptions: exception(alloc, b"no_read", condition)?,
        kind: read_kind(alloc)?,
        level: level_at(alloc, 0, 0)?,
    })
}

fn write_function(alloc: Global) -> Result<Function, Memory>
    ensures { IfOk result (λ f. f ≡ write_function no_write) }
{
    let condition = not_below(alloc, 0, 0, 1, 1)?;
    Ok(Function {
        name: Name::new(alloc, b"write")?,
        visible: true,
        formals: write_formals(alloc)?,
        exceptions: exception(alloc, b"no_write", condition)?,
        kind: write_kind(alloc)?,
        level: level_at(alloc, 0, 0)?,
    })
}

fn file_functions(alloc: Global) -> Result<Vec<Function>, Memory>
    ensures { IfOk result (λ functions. functions.items ≡ file_functions no_write) }
{
    let mut functions = Vec::new(alloc);
    functions.push(data_function(alloc)?)?;
    functions.push(read_function(alloc)?)?;
    functions.push(write_function(alloc)?)?;
    Ok(functions)
}

fn file_types(alloc: Global) -> Result<Vec<TypeInfo>, Memory>
    ensures { IfOk result (λ types. types.items ≡ file_types) }
{
    let mut types = Vec::new(alloc);
    types.push(designator(alloc, b"user")?)?;
    types.push(designator(alloc, b"file")?)?;
    Ok(types)
}

fn file_params(alloc: Global) -> Result<Vec<Param>, Memory>
    ensures { IfOk result (λ params. params.items ≡ file_params) }
{
    let user = one_formal(alloc, b"u", Ty::Member(USER))?;
    let clr = level_param(alloc, b"clr", user)?;
    let file = one_formal(alloc, b"f", Ty::Member(FILE))?;
    let cls = level_param(alloc, b"cls", file)?;
    let mut params = Vec::new(alloc);
    params.push(clr)?;
    params.push(cls)?;
    Ok(params)
}

fn files(alloc: Global) -> Result<Spec, Memory>
    ensures { IfOk result (AreOverLowHigh files) }
{
    let name = Name::new(alloc, b"files")?;
    let lattice = low_high(alloc)?;
    let levels = two_names(alloc, b"LOW", b"HIGH")?;
    let types = file_types(alloc)?;
    let params = file_params(alloc)?;
    let functions = file_functions(alloc)?;
    let none = Vec::new(alloc);
    Ok(Spec::assemble(name, lattice, levels, types, params, none, functions))
}

fn high_at(alloc: Global, ty: u16, k: u16) -> Result<Table, Memory>
    ensures { IfOk result (λ table. table ≡ high_at ty k) }
{
    let mut table = Table::new(alloc, LOW);
    table.insert(Args::new(&[Value::Member(ty, k)]), HIGH)?;
    Ok(table)
}

fn members(alloc: Global) -> Result<Vec<Vec<Name>>, Memory>
    ensures { IfOk result (λ members. map (λ names. names.items) members.items ≡ small.members) }
{
    let mut members = Vec::new(alloc);
    members.push(two_names(alloc, b"alice", b"bob")?)?;
    members.push(two_names(alloc, b"memo", b"plan")?)?;
    Ok(members)
}

fn small(alloc: Global, spec: &Spec) -> Result<Instance, Memory>
    requires { AreOverLowHigh files spec.now }
    ensures { IfOk result (λ instance. instance ≡ small) }
{
    let members = members(alloc)?;
    let mut tables = Vec::new(alloc);
    tables.push(high_at(alloc, USER, 0)?)?;
    tables.push(high_at(alloc, FILE, 1)?)?;
    Ok(Instance::assemble(spec, members, tables))
}

#[test]
fn an_instance_gives_sizes_values_and_names(rt: HostRuntime) -> Result<(), Fail> {
    let spec = files(rt.alloc())?;
    assert_eq!(rt; spec.level_name(1).bytes(), b"HIGH".as_slice());
    let small = small(rt.alloc(), &spec)?;
    assert_eq!(rt; small.size(USER), 2);
    assert_eq!(rt; small.param(0, &Args::new(&[Value::Member(USER, 0)])), HIGH);
    assert_eq!(rt; small.param(1, &Args::new(&[Value::Member(FILE, 0)])), LOW);
    assert_eq!(rt; small.member(FILE, 0).bytes(), b"memo".as_slice());
    Ok(())
}

#[test]
fn a_copied_level_is_equal(rt: HostRuntime) -> Result<(), Fail> {
    let level = level_at(rt.alloc(), 0, 1)?;
    let copy = level.copy(rt.alloc())?;
    assert!(rt; matches!(&copy, Expr::Param(0, parts) if parts.len() == 1));
    Ok(())
}

// How many formals a copy of the function has.
fn copied_formals(alloc: Global, function: &Function) -> Result<usize, Memory> {
    Ok(function.copy(alloc)?.formals.items().len())
}

#[test]
fn a_copied_function_has_its_formals(rt: HostRuntime) -> Result<(), Fail> {
    let function = data_function(rt.alloc())?;
    assert_eq!(rt; copied_formals(rt.alloc(), &function)?, 1);
    Ok(())
}
