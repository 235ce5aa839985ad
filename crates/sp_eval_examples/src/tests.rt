ghost use Rattle.std.specs.Prelude.{◌≡◌, ◌≤◌, [], ◌∷◌, IfOk, codes, map, pos};
ghost use Rattle.std.specs.List.{range_with_len};
ghost use Rattle.sp_values.specs.declared.value.Ty.TheVariants as ty;
ghost use Rattle.sp_values.specs.declared.value.Value.TheVariants as value;
ghost use Rattle.sp_core.specs.Instances.{IsInstanceOf, filling_of, machine_of};
ghost use Rattle.sp_core.specs.Machine.{IsState, initial_state};
ghost use Rattle.sp_core.specs.Parts.{signature};
ghost use Rattle.sp_core.specs.States.{entry_of, put_at};
ghost use Rattle.sp_core.specs.Tree.{tree};
ghost use Rattle.sp_core.specs.WellFormed.{IsExpression};
ghost use Rattle.sp_core.specs.declared.expr.Expr.TheVariants as expr;
ghost use Rattle.sp_eval.specs.Conditions.{IsRead, IsTypedIn};
ghost use Rattle.sp_examples.specs.Common.{AreOverLowHigh, function};
ghost use Rattle.sp_eval_examples.specs.Clearances.{all_low, base, base_is_below, base_is_high, base_level, clearance, clearances, clr, colour_type, colours, each_is_red, each_is_true, each_user_is_false, eq_function, every, everywhere, excluded_middle, first_is_high, functions, high_for_first, instance_of, le_function, low_is_least, max_function, nobody, none_is_unknown, one_user, pool_function, seen_function, user_type};
ghost use Rattle.sp_examples.specs.Counting.{count_function, count_functions, count_kind, counting};

use sp_core::{Assertion, Expr, Function, Instance, Kind, Param, Spec, State, Table, TypeInfo};
use sp_eval::{
    AssertionFalse, Env, InitialState, Overlay, admissible, eval, eval_over, level, look,
};
use sp_examples::{designator, function, level_param, look_at, low_high, one_formal, two_names};
use sp_text::{Memory, Name, Sequence};
use sp_values::{Args, Invocation, Op, Place, Ty, Value};
use sqlite_items::{Boxed, Items};
use std::alloc::Global;
use std::test::Fail;

const USER: Ty = Ty::Member(0);

const COLOUR: Ty = Ty::Member(1);

const LOW: Value = Value::Level(0);

const MAX: u16 = 0;

const LE: u16 = 1;

const EQ: u16 = 2;

const POOL: u16 = 3;

const SEEN: u16 = 4;

// Expressions

fn not(alloc: Global, a: Expr) -> Result<Expr, Memory>
    ensures { IfOk result (λ e. e ≡ expr.Not a) }
{
    Ok(Expr::Not(Boxed::new(alloc, a)?))
}

fn two(alloc: Global, op: Op, a: Expr, b: Expr) -> Result<Expr, Memory>
    ensures { IfOk result (λ e. e ≡ expr.Two op a b) }
{
    let left = Boxed::new(alloc, a)?;
    let right = Boxed::new(alloc, b)?;
    Ok(Expr::Two(op, left, right))
}

fn every(alloc: Global, ty: Ty, body: Expr) -> Result<Expr, Memory>
    ensures { IfOk result (λ e. e ≡ every ty body) }
{
    Ok(Expr::Every(0, ty, Boxed::new(alloc, body)?))
}

fn base_level(alloc: Global) -> Expr
    ensures { result ≡ base_level }
{
    Expr::Param(1, Items::new(alloc))
}

fn clearance(alloc: Global) -> Result<Expr, Memory>
    ensures { IfOk result (λ e. e ≡ clearance) }
{
    let mut arguments = Items::new(alloc);
    arguments.push(Expr::Var(0))?;
    Ok(Expr::Param(0, arguments))
}

// The parts of the specification of users with clearances

fn types(alloc: Global) -> Result<Vec<TypeInfo>, Memory>
    ensures { IfOk result (λ types. types.items ≡ user_type ∷ colour_type ∷ []) }
{
    let colour = Name::new(alloc, b"colour")?;
    let colours = Sequence::new(two_names(alloc, b"red", b"blue")?);
    let mut types = Vec::new(alloc);
    types.push(designator(alloc, b"user")?)?;
    types.push(TypeInfo {
        name: colour,
        members: Some(colours),
    })?;
    Ok(types)
}

fn params(alloc: Global) -> Result<Vec<Param>, Memory>
    ensures { IfOk result (λ params. params.items ≡ clr ∷ base ∷ []) }
{
    let clr = level_param(alloc, b"clr", one_formal(alloc, b"u", USER)?)?;
    let base = level_param(alloc, b"base", Sequence::new(Vec::new(alloc)))?;
    let mut params = Vec::new(alloc);
    params.push(clr)?;
    params.push(base)?;
    Ok(params)
}

fn assertions(alloc: Global) -> Result<Vec<Assertion>, Memory>
    ensures { IfOk result (λ assertions. assertions.items ≡ base_is_below ∷ []) }
{
    let vars = one_formal(alloc, b"u", USER)?;
    let body = two(alloc, Op::LevelLe, base_level(alloc), clearance(alloc)?)?;
    let mut assertions = Vec::new(alloc);
    assertions.push(Assertion { vars, body })?;
    Ok(assertions)
}

fn plain(alloc: Global, name: &[u8], kind: Kind, level: Expr) -> Result<Function, Memory>
    ensures { IfOk result (λ f. f ≡ function name.now [] kind level) }
{
    function(alloc, name, Sequence::new(Vec::new(alloc)), kind, level)
}

fn max_function(alloc: Global) -> Result<Function, Memory>
    ensures { IfOk result (λ f. f ≡ max_function) }
{
    let greatest = Expr::Const(Value::Int(9_223_372_036_854_775_807));
    let sum = two(alloc, Op::Add, greatest, Expr::Const(Value::Int(1)))?;
    let kind = Kind::Derived(Ty::Integer, sum);
    plain(alloc, b"max", kind, Expr::Const(LOW))
}

fn le_function(alloc: Global) -> Result<Function, Memory>
    ensures { IfOk result (λ f. f ≡ le_function) }
{
    let zero = Expr::Const(Value::Int(0));
    let compared = two(alloc, Op::IntLe, look_at(alloc, MAX), zero)?;
    let kind = Kind::Derived(Ty::Boolean, compared);
    plain(alloc, b"le", kind, Expr::Const(LOW))
}

fn eq_function(alloc: Global) -> Result<Function, Memory>
    ensures { IfOk result (λ f. f ≡ eq_function) }
{
    let compared = two(alloc, Op::Same, look_at(alloc, MAX), look_at(alloc, MAX))?;
    let kind = Kind::Derived(Ty::Boolean, compared);
    plain(alloc, b"eq", kind, Expr::Const(LOW))
}

fn pool_function(alloc: Global) -> Result<Function, Memory>
    ensures { IfOk result (λ f. f ≡ pool_function) }
{
    let kind = Kind::Primitive(Ty::Integer, Expr::Const(Value::Int(0)));
    plain(alloc, b"pool", kind, base_level(alloc))
}

fn seen_function(alloc: Global) -> Result<Function, Memory>
    ensures { IfOk result (λ f. f ≡ seen_function) }
{
    let formals = one_formal(alloc, b"u", USER)?;
    let level = clearance(alloc)?;
    let kind = Kind::Derived(Ty::Integer, look_at(alloc, POOL));
    function(alloc, b"seen", formals, kind, level)
}

fn functions(alloc: Global) -> Result<Vec<Function>, Memory>
    ensures { IfOk result (λ all. all.items ≡ functions) }
{
    let mut all = Vec::new(alloc);
    all.push(max_function(alloc)?)?;
    all.push(le_function(alloc)?)?;
    all.push(eq_function(alloc)?)?;
    all.push(pool_function(alloc)?)?;
    all.push(seen_function(alloc)?)?;
    Ok(all)
}

fn clearances(alloc: Global) -> Result<Spec, Memory>
    ensures { IfOk result (AreOverLowHigh clearances) }
{
    let name = Name::new(alloc, b"clearances")?;
    let lattice = low_high(alloc)?;
    let levels = two_names(alloc, b"LOW", b"HIGH")?;
    let types = types(alloc)?;
    let params = params(alloc)?;
    let assertions = assertions(alloc)?;
    let functions = functions(alloc)?;
    Ok(Spec::assemble(name, lattice, levels, types, params, assertions, functions))
}

// The specification that counts

fn count_kind(alloc: Global, k: u16) -> Result<Kind, Memory>
    ensures { IfOk result (λ kind. kind ≡ count_kind k) }
{
    if k == 0 {
        return Ok(Kind::Primitive(Ty::Integer, Expr::Const(Value::Int(0))));
    }
    let before = look_at(alloc, k - 1);
    let sum = two(alloc, Op::Add, before, Expr::Const(Value::Int(1)))?;
    Ok(Kind::Derived(Ty::Integer, sum))
}

fn count_function(alloc: Global, k: u16) -> Result<Function, Memory>
    requires { k ≤ 16 }
    ensures { IfOk result (λ f. f ≡ count_function k) }
{
    let kind = count_kind(alloc, k)?;
    plain(alloc, &[b'a' + k as u8], kind, Expr::Const(LOW))
}

fn count_functions(alloc: Global) -> Result<Vec<Function>, Memory>
    ensures { IfOk result (λ all. all.items ≡ count_functions 17) }
{
    let mut all = Vec::new(alloc);
    for k in 0..17 {
        all.push(count_function(alloc, k)?)?;
    }
    Ok(all)
}

fn counting(alloc: Global) -> Result<Spec, Memory>
    ensures { IfOk result (AreOverLowHigh counting) }
{
    let name = Name::new(alloc, b"counting")?;
    let lattice = low_high(alloc)?;
    let levels = two_names(alloc, b"LOW", b"HIGH")?;
    let functions = count_functions(alloc)?;
    let types = Vec::new(alloc);
    let params = Vec::new(alloc);
    let assertions = Vec::new(alloc);
    Ok(Spec::assemble(name, lattice, levels, types, params, assertions, functions))
}

// Instances

fn everywhere(alloc: Global, l: u16) -> Table
    ensures { result ≡ everywhere l }
{
    Table::new(alloc, Value::Level(l))
}

fn high_for_first(alloc: Global) -> Result<Table, Memory>
    ensures { IfOk result (λ table. table ≡ high_for_first) }
{
    let mut table = Table::new(alloc, LOW);
    table.insert(Args::new(&[Value::Member(0, 0)]), Value::Level(1))?;
    Ok(table)
}

fn one_user(alloc: Global) -> Result<Vec<Name>, Memory>
    ensures { IfOk result (λ users. users.items ≡ one_user) }
{
    let mut users = Vec::new(alloc);
    users.push(Name::new(alloc, b"alice")?)?;
    Ok(users)
}

fn members(alloc: Global, users: Vec<Name>) -> Result<Vec<Vec<Name>>, Memory>
    ensures { IfOk result (λ members. map (λ names. names.items) members.items ≡ users.items ∷ colours ∷ []) }
{
    let colours = two_names(alloc, b"red", b"blue")?;
    let mut members = Vec::new(alloc);
    members.push(users)?;
    members.push(colours)?;
    Ok(members)
}

fn instance_of(
    alloc: Global,
    spec: &Spec,
    users: Vec<Name>,
    clr: Table,
    base: Table,
) -> Result<Instance, Memory>
    requires { IsInstanceOf spec.now (instance_of users.items clr base) }
    ensures value { IfOk result (λ i. i ≡ instance_of users.items clr base) }
    ensures instance { IfOk result (IsInstanceOf spec.now) }
{
    let members = members(alloc, users)?;
    let mut tables = Vec::new(alloc);
    tables.push(clr)?;
    tables.push(base)?;
    Ok(Instance::assemble(spec, members, tables))
}

fn all_low(alloc: Global, spec: &Spec) -> Result<Instance, Memory>
    requires { AreOverLowHigh clearances spec.now }
    ensures value { IfOk result (λ i. i ≡ all_low) }
    ensures instance { IfOk result (IsInstanceOf spec.now) }
{
    let users = one_user(alloc)?;
    instance_of(
        alloc,
        spec,
        users,
        everywhere(alloc, 0),
        everywhere(alloc, 0),
    )
}

fn first_is_high(alloc: Global, spec: &Spec) -> Result<Instance, Memory>
    requires { AreOverLowHigh clearances spec.now }
    ensures value { IfOk result (λ i. i ≡ first_is_high) }
    ensures instance { IfOk result (IsInstanceOf spec.now) }
{
    let users = one_user(alloc)?;
    let clr = high_for_first(alloc)?;
    instance_of(alloc, spec, users, clr, everywhere(alloc, 0))
}

fn base_is_high(alloc: Global, spec: &Spec) -> Result<Instance, Memory>
    requires { AreOverLowHigh clearances spec.now }
    ensures value { IfOk result (λ i. i ≡ base_is_high) }
    ensures instance { IfOk result (IsInstanceOf spec.now) }
{
    let users = one_user(alloc)?;
    instance_of(
        alloc,
        spec,
        users,
        everywhere(alloc, 0),
        everywhere(alloc, 1),
    )
}

fn nobody(alloc: Global, spec: &Spec) -> Result<Instance, Memory>
    requires { AreOverLowHigh clearances spec.now }
    ensures value { IfOk result (λ i. i ≡ nobody) }
    ensures instance { IfOk result (IsInstanceOf spec.now) }
{
    instance_of(
        alloc,
        spec,
        Vec::new(alloc),
        everywhere(alloc, 0),
        everywhere(alloc, 1),
    )
}

fn no_instance(alloc: Global, spec: &Spec) -> Instance
    requires { AreOverLowHigh counting spec.now }
    ensures { IsInstanceOf spec.now result }
{
    Instance::assemble(spec, Vec::new(alloc), Vec::new(alloc))
}

// Sentences

fn excluded_middle(alloc: Global) -> Result<Expr, Memory>
    ensures { IfOk result (λ e. e ≡ excluded_middle) }
{
    let negated = not(alloc, Expr::Var(0))?;
    let body = two(alloc, Op::Or, Expr::Var(0), negated)?;
    every(alloc, Ty::Boolean, body)
}

fn each_is_true(alloc: Global) -> Result<Expr, Memory>
    ensures { IfOk result (λ e. e ≡ each_is_true) }
{
    every(alloc, Ty::Boolean, Expr::Var(0))
}

fn low_is_least(alloc: Global) -> Result<Expr, Memory>
    ensures { IfOk result (λ e. e ≡ low_is_least) }
{
    let body = two(alloc, Op::LevelLe, Expr::Const(LOW), Expr::Var(0))?;
    every(alloc, Ty::Level, body)
}

fn each_is_red(alloc: Global) -> Result<Expr, Memory>
    ensures { IfOk result (λ e. e ≡ each_is_red) }
{
    let red = Expr::Const(Value::Member(1, 0));
    let body = two(alloc, Op::Same, Expr::Var(0), red)?;
    every(alloc, COLOUR, body)
}

fn none_is_unknown(alloc: Global) -> Result<Expr, Memory>
    ensures { IfOk result (λ e. e ≡ none_is_unknown) }
{
    let unknown = Expr::Const(Value::Unknown);
    let same = two(alloc, Op::Same, Expr::Var(0), unknown)?;
    let body = not(alloc, same)?;
    every(alloc, USER, body)
}

fn each_user_is_false(alloc: Global) -> Result<Expr, Memory>
    ensures { IfOk result (λ e. e ≡ each_user_is_false) }
{
    every(alloc, USER, Expr::Const(Value::Truth(false)))
}

// Evaluation in the initial state

fn truth(alloc: Global, spec: &Spec, inst: &Instance, e: &Expr) -> Value
    requires instance { IsInstanceOf spec.now inst.now }
    requires sentence { IsExpression (signature spec.now) [] (tree e.now) ty.Boolean }
{
    let state = State::new(alloc);
    let none = Env::new(&Args::new(&[]));
    eval(spec, inst, &state, &none, e)
}

fn read(alloc: Global, spec: &Spec, inst: &Instance, fun: u16, args: Args) -> Value
    requires instance { IsInstanceOf spec.now inst.now }
    requires read { IsRead spec.now inst.now fun args }
{
    let state = State::new(alloc);
    look(spec, inst, &state, &Place { fun, args })
}

// A change that gives the pool the value 7.
fn pool_change(alloc: Global) -> Result<State, Memory>
    ensures { IfOk result (λ s. entry_of s.entries ≡ put_at 3 [] (value.Int (pos 7)) initial_state) }
{
    let mut changes = State::new(alloc);
    changes.reserve(1)?;
    let args = Args::new(&[]);
    changes.put(&Place { fun: POOL, args }, Value::Int(7));
    Ok(changes)
}

fn new_pool(alloc: Global) -> Expr
    ensures { result ≡ expr.New 3 [] }
{
    Expr::New(POOL, Items::new(alloc))
}

// The value of an expression over the initial state, and the changes laid over it.
fn over_changes(spec: &Spec, inst: &Instance, changes: &State, e: &Expr) -> Value
    requires instance { IsInstanceOf spec.now inst.now }
    requires changes { IsState (machine_of spec.now (filling_of inst.now)) (entry_of changes.now.entries) }
    requires typed { IsTypedIn spec.now inst.now [] (tree e.now) }
{
    let new = Overlay {
        changes,
        state: &InitialState,
    };
    let none = Env::new(&Args::new(&[]));
    eval_over(spec, inst, &InitialState, &new, &none, e)
}

fn first_user() -> Args
    ensures { result ≡ value.Member 0 0 ∷ [] }
{
    Args::new(&[Value::Member(0, 0)])
}

fn seen_value(alloc: Global, spec: &Spec, inst: &Instance) -> Value
    requires spec { AreOverLowHigh clearances spec.now }
    requires instance { IsInstanceOf spec.now inst.now }
    requires users { inst.now.members ≡ one_user ∷ colours ∷ [] }
{
    read(alloc, spec, inst, SEEN, first_user())
}

fn seen_level(spec: &Spec, inst: &Instance) -> u16
    requires spec { AreOverLowHigh clearances spec.now }
    requires instance { IsInstanceOf spec.now inst.now }
    requires users { inst.now.members ≡ one_user ∷ colours ∷ [] }
{
    let args = first_user();
    level(spec, inst, &Invocation { fun: SEEN, args })
}

// Tests

#[test]
fn a_sum_out_of_range_is_unknown_through_derivations(rt: HostRuntime) -> Result<(), Fail> {
    let alloc = rt.alloc();
    let spec = clearances(alloc)?;
    let inst = nobody(alloc, &spec)?;
    assert_eq!(rt;
        read(alloc, &spec, &inst, MAX, Args::new(&[])),
        Value::Unknown
    );
    assert_eq!(rt;
        read(alloc, &spec, &inst, LE, Args::new(&[])),
        Value::Truth(false)
    );
    assert_eq!(rt;
        read(alloc, &spec, &inst, EQ, Args::new(&[])),
        Value::Truth(true)
    );
    Ok(())
}

#[test]
fn an_instance_that_keeps_the_assertion_is_admissible(rt: HostRuntime) -> Result<(), Fail> {
    let spec = clearances(rt.alloc())?;
    let inst = all_low(rt.alloc(), &spec)?;
    assert_eq!(rt; admissible(&spec, &inst), Ok(()));
    assert_eq!(rt; seen_value(rt.alloc(), &spec, &inst), Value::Int(0));
    assert_eq!(rt; seen_level(&spec, &inst), 0);
    Ok(())
}

#[test]
fn a_level_is_that_of_the_row(rt: HostRuntime) -> Result<(), Fail> {
    let spec = clearances(rt.alloc())?;
    let inst = first_is_high(rt.alloc(), &spec)?;
    assert_eq!(rt; seen_level(&spec, &inst), 1);
    Ok(())
}

#[test]
fn a_base_above_a_clearance_is_not_admissible(rt: HostRuntime) -> Result<(), Fail> {
    let spec = clearances(rt.alloc())?;
    let inst = base_is_high(rt.alloc(), &spec)?;
    assert_eq!(rt; admissible(&spec, &inst), Err(AssertionFalse(1)));
    Ok(())
}

#[test]
fn a_quantifier_ranges_over_both_truth_values(rt: HostRuntime) -> Result<(), Fail> {
    let alloc = rt.alloc();
    let spec = clearances(alloc)?;
    let inst = all_low(alloc, &spec)?;
    let excluded_middle = excluded_middle(alloc)?;
    assert_eq!(rt;
        truth(alloc, &spec, &inst, &excluded_middle),
        Value::Truth(true)
    );
    let each_is_true = each_is_true(alloc)?;
    assert_eq!(rt;
        truth(alloc, &spec, &inst, &each_is_true),
        Value::Truth(false)
    );
    Ok(())
}

#[test]
fn a_quantifier_ranges_over_the_levels(rt: HostRuntime) -> Result<(), Fail> {
    let alloc = rt.alloc();
    let spec = clearances(alloc)?;
    let inst = all_low(alloc, &spec)?;
    let low_is_least = low_is_least(alloc)?;
    assert_eq!(rt;
        truth(alloc, &spec, &inst, &low_is_least),
        Value::Truth(true)
    );
    Ok(())
}

#[test]
fn a_quantifier_ranges_over_the_members_of_an_enumeration(rt: HostRuntime) -> Result<(), Fail> {
    let alloc = rt.alloc();
    let spec = clearances(alloc)?;
    let inst = all_low(alloc, &spec)?;
    let each_is_red = each_is_red(alloc)?;
    assert_eq!(rt;
        truth(alloc, &spec, &inst, &each_is_red),
        Value::Truth(false)
    );
    Ok(())
}

#[test]
fn a_quantifier_ranges_over_proper_values_alone(rt: HostRuntime) -> Result<(), Fail> {
    let alloc = rt.alloc();
    let spec = clearances(alloc)?;
    let inst = all_low(alloc, &spec)?;
    let none_is_unknown = none_is_unknown(alloc)?;
    assert_eq!(rt;
        truth(alloc, &spec, &inst, &none_is_unknown),
        Value::Truth(true)
    );
    Ok(())
}

#[test]
fn nothing_is_asked_of_an_empty_population(rt: HostRuntime) -> Result<(), Fail> {
    let alloc = rt.alloc();
    let spec = clearances(alloc)?;
    let inst = nobody(alloc, &spec)?;
    assert_eq!(rt; admissible(&spec, &inst), Ok(()));
    let each_user_is_false = each_user_is_false(alloc)?;
    assert_eq!(rt;
        truth(alloc, &spec, &inst, &each_user_is_false),
        Value::Truth(true)
    );
    Ok(())
}

#[test]
fn a_chain_of_sixteen_derivations_counts_to_sixteen(rt: HostRuntime) -> Result<(), Fail> {
    let spec = counting(rt.alloc())?;
    let inst = no_instance(rt.alloc(), &spec);
    assert_eq!(rt;
        read(rt.alloc(), &spec, &inst, 16, Args::new(&[])),
        Value::Int(16)
    );
    Ok(())
}

#[test]
fn a_new_value_is_read_from_the_changes_and_an_old_one_is_not(rt: HostRuntime) -> Result<(), Fail> {
    let spec = clearances(rt.alloc())?;
    let inst = nobody(rt.alloc(), &spec)?;
    let changes = pool_change(rt.alloc())?;
    let new = new_pool(rt.alloc());
    assert_eq!(rt; over_changes(&spec, &inst, &changes, &new), Value::Int(7));
    let old = look_at(rt.alloc(), POOL);
    assert_eq!(rt; over_changes(&spec, &inst, &changes, &old), Value::Int(0));
    Ok(())
}
