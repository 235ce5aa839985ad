//! What a lower machine lets see of an upper one at a level.

ghost use Rattle.std.specs.Prelude.{◌≡◌, ◌∷◌, [], IfOk, IfSome};
ghost use Rattle.std.specs.List.{All};
ghost use Rattle.sp_values.specs.declared.value.Value.TheVariants as value;
ghost use Rattle.sp_core.specs.Instances.{IsInstanceOf, filling_of, machine_of};
ghost use Rattle.sp_core.specs.Machine.{IsInvocation};
ghost use Rattle.sp_core.specs.Mappings.{IsMappingTo, IsRow};
ghost use Rattle.sp_core.specs.Parts.{signature};
ghost use Rattle.sp_values.specs.declared.value.Ty.{Ty as TyValue};
ghost use Rattle.sp_eval.specs.Conditions.{IsGiven};
ghost use Rattle.sp_animator.specs.Views.{translated};
ghost use Rattle.sp_mapping_rules.specs.Lower.{AreNamesOf};
ghost use Rattle.sp_mapping_tests.specs.Views.{AreOf};

use crate::texts::{System, elaborate_system, elaborate_text};
use crate::worked::{DOWN, FILES, STORE};
use sp_animator::{animate, view};
use sp_core::{Instance, MapRow, Mapping, Spec, State};
use sp_eval::{Env, eval};
use sp_instance::{make_instance, make_script};
use sp_instance_text::{parse_instance, parse_script};
use sp_lexer::lex;
use sp_scopes::Scopes;
use sp_text::{SpecFault, TextFault};
use sp_tree::{InstanceTree, ScriptTree};
use sp_values::{Args, Invocation, Place, Ty, Value};
use std::alloc::Global;
use std::process::Abort;

/// A member of an upper type, by their numbers.
type Member = (u16, u16);

fn read_instance(alloc: Global, text: &[u8]) -> Result<InstanceTree, TextFault> {
    if text.len() > 1_000_000 {
        return Err(TextFault::Memory);
    }
    let tokens = lex(alloc, text)?;
    parse_instance(alloc, tokens.as_slice(), text.len() as u32)
}

fn read_script(alloc: Global, text: &[u8]) -> Result<ScriptTree, TextFault> {
    if text.len() > 1_000_000 {
        return Err(TextFault::Memory);
    }
    let tokens = lex(alloc, text)?;
    parse_script(alloc, tokens.as_slice(), text.len() as u32)
}

fn instance(alloc: Global, spec: &Spec, text: &[u8]) -> Result<Instance, TextFault>
    ensures { IfOk result (IsInstanceOf spec.now) }
{
    make_instance(alloc, spec, &read_instance(alloc, text)?)
}

fn script(
    alloc: Global,
    spec: &Spec,
    inst: &Instance,
    text: &[u8],
) -> Result<Vec<Invocation>, TextFault>
    requires { IsInstanceOf spec.now inst.now }
    ensures { IfOk result (λ list. All (IsInvocation (machine_of spec.now (filling_of inst.now))) list.items) }
{
    make_script(alloc, spec, inst, &read_script(alloc, text)?)
}

fn after_list(
    alloc: Global,
    spec: &Spec,
    inst: &Instance,
    list: &[Invocation],
) -> Result<State, TextFault>
    requires given { IsInstanceOf spec.now inst.now }
    requires list { All (IsInvocation (machine_of spec.now (filling_of inst.now))) list.now }
    ensures { IfOk result (λ s. IsGiven spec.now inst.now s.entries) }
{
    let mut state = State::new(alloc);
    match animate(alloc, spec, inst, &mut state, list) {
        Ok(_) => Ok(state),
        Err(_) => Err(TextFault::Memory),
    }
}

// The state after the invocations of a script.
fn after(alloc: Global, spec: &Spec, inst: &Instance, text: &[u8]) -> Result<State, TextFault>
    requires { IsInstanceOf spec.now inst.now }
    ensures { IfOk result (λ s. IsGiven spec.now inst.now s.entries) }
{
    let list = script(alloc, spec, inst, text)?;
    after_list(alloc, spec, inst, list.as_slice())
}

/// What is seen at a place.
#[derive(Clone, Copy, Debug, PartialEq, Eq)]
enum Seen {
    Value(Value),
    /// The place is above the level.
    Above,
    /// The row has no such place.
    Nowhere,
}

// The lower member that an upper one becomes, where it is of the type of the row's one formal.
fn lowered(
    lower: &Spec,
    inst: &Instance,
    mapping: &Mapping,
    row: &MapRow,
    member: Member,
) -> Option<Value>
    requires { IsInstanceOf lower.now inst.now }
    ensures same { IfSome result (λ v. v ≡ translated mapping.now.types (value.Member member.0 member.1)) }
    ensures typed { IfSome result (λ v. AreOf lower.now inst.now row.now (v ∷ [])) }
{
    let [formal] = row.formals.items() else {
        return None;
    };
    let ty = *mapping.types.items().get(member.0 as usize)?;
    let declared = (ty as usize) < lower.types().len();
    if declared && formal.ty == Ty::Member(ty) && member.1 < inst.size(ty) {
        Some(Value::Member(ty, member.1))
    } else {
        None
    }
}

// Whether the row's level at these values is at or below a level.
fn is_at(
    lower: &Spec,
    inst: &Instance,
    state: &State,
    row: &MapRow,
    args: &Args,
    level: u16,
) -> bool
    requires given { IsGiven lower.now inst.now state.now.entries }
    requires row { (t : TyValue) × IsRow (signature lower.now) row.now t }
    requires typed { AreOf lower.now inst.now row.now args.now }
{
    let lattice = lower.lattice();
    match eval(lower, inst, state, &Env::new(args), &row.level) {
        Value::Level(at) => {
            at < lattice.count() && level < lattice.count() && lattice.le(at, level)
        }
        _ => false,
    }
}

// What the state lets see, at a level, of the row of this number at a member of an upper type.
fn shown(
    lower: &Spec,
    inst: &Instance,
    state: &State,
    mapping: &Mapping,
    number: usize,
    member: Member,
    level: u16,
) -> Seen
    requires given { IsGiven lower.now inst.now state.now.entries }
    requires mapping { IsMappingTo lower.now mapping.now }
{
    let Some(row) = mapping.functions.items().get(number) else {
        return Seen::Nowhere;
    };
    let Some(value) = lowered(lower, inst, mapping, row, member) else {
        return Seen::Nowhere;
    };
    if !is_at(lower, inst, state, row, &Args::new(&[value]), level) {
        return Seen::Above;
    }
    let place = Place {
        fun: row.upper,
        args: Args::new(&[Value::Member(member.0, member.1)]),
    };
    Seen::Value(view(lower, inst, state, mapping, &place))
}

/// Texts of an upper and a lower system, a mapping between them, and an instance and a script of the lower one.
#[derive(Clone, Copy)]
struct Texts<'a> {
    upper: System<'a>,
    lower: System<'a>,
    mapping: &'a [u8],
    instance: &'a [u8],
    script: &'a [u8],
}

fn seen_in(
    alloc: Global,
    lower: &Spec,
    mapping: &Mapping,
    inst: &Instance,
    texts: &Texts<'_>,
    member: Member,
    level: u16,
) -> Result<Seen, TextFault>
    requires mapping { IsMappingTo lower.now mapping.now }
    requires given { IsInstanceOf lower.now inst.now }
{
    let state = after(alloc, lower, inst, texts.script)?;
    Ok(shown(lower, inst, &state, mapping, 0, member, level))
}

fn seen_by(
    alloc: Global,
    lower: &Spec,
    mapping: &Mapping,
    texts: &Texts<'_>,
    member: Member,
    level: u16,
) -> Result<Seen, TextFault>
    requires { IsMappingTo lower.now mapping.now }
{
    let inst = instance(alloc, lower, texts.instance)?;
    seen_in(alloc, lower, mapping, &inst, texts, member, level)
}

fn seen_between(
    alloc: Global,
    upper: &Spec,
    lower: &Spec,
    scopes: &Scopes,
    texts: &Texts<'_>,
    member: Member,
    level: u16,
) -> Result<Seen, TextFault>
    requires { AreNamesOf lower.now scopes.now }
{
    let mapping = elaborate_text(alloc, upper, lower, scopes, texts.mapping)?;
    seen_by(alloc, lower, &mapping, texts, member, level)
}

fn seen_of(
    alloc: Global,
    upper: &(Spec, Scopes),
    lower: &(Spec, Scopes),
    texts: &Texts<'_>,
    member: Member,
    level: u16,
) -> Result<Seen, SpecFault>
    requires { AreNamesOf lower.now.0 lower.now.1 }
{
    match seen_between(alloc, &upper.0, &lower.0, &lower.1, texts, member, level) {
        Ok(seen) => Ok(seen),
        Err(fault) => Err(SpecFault { file: 0, fault }),
    }
}

fn seen_below(
    alloc: Global,
    upper: &(Spec, Scopes),
    texts: &Texts<'_>,
    member: Member,
    level: u16,
) -> Result<Seen, SpecFault> {
    let lower = elaborate_system(alloc, &texts.lower)?;
    seen_of(alloc, upper, &lower, texts, member, level)
}

// What is seen of the first row after the script.
fn seen_after(
    alloc: Global,
    texts: &Texts<'_>,
    member: Member,
    level: u16,
) -> Result<Seen, SpecFault> {
    let upper = elaborate_system(alloc, &texts.upper)?;
    seen_below(alloc, &upper, texts, member, level)
}

fn shows(rt: &impl Abort, found: Result<Seen, SpecFault>, want: Result<Seen, SpecFault>) {
    assert_eq!(rt; found, want);
}

const WORKED: Texts<'static> = Texts {
    upper: FILES,
    lower: STORE,
    mapping: DOWN,
    instance: b"INSTANCE st POPULATION user = {alice, bob}; POPULATION seg = {s0, s1};
PARAMETER clr: (alice) = HIGH; OTHERWISE LOW; PARAMETER scls: (s1) = HIGH; OTHERWISE LOW;
END_INSTANCE",
    script: b"put(bob, s0, 0, 5); put(alice, s1, 0, 7); put(bob, s0, 1, 9);",
};

// Files are the upper type 1. The cells that are no file are seen nowhere.
#[test]
fn places_at_or_below_a_level_have_their_values(rt: HostRuntime) {
    let alloc = rt.alloc();
    let five = Seen::Value(Value::Int(5));
    let seven = Seen::Value(Value::Int(7));
    let rows = [
        (0, 0, five),
        (0, 1, five),
        (1, 0, Seen::Above),
        (1, 1, seven),
        (2, 1, Seen::Nowhere),
    ];
    for (file, level, wanted) in rows {
        shows(
            &rt,
            seen_after(alloc, &WORKED, (1, file), level),
            Ok(wanted),
        );
    }
    shows(
        &rt,
        seen_after(alloc, &WORKED, (0, 0), 1),
        Ok(Seen::Nowhere),
    );
}

// Lamps of the upper machine, which are those of another type below.
const LAMPS: Texts<'static> = Texts {
    upper: System {
        interface: b"INTERFACE u MODULES u; LATTICE LOW; LEVEL on(c) IS LOW; SAMPLE s; END_INTERFACE",
        module: b"MODULE u TYPES color: {red, blue}; FUNCTIONS
VFUN on(color c) -> BOOLEAN; INITIALLY FALSE; END_MODULE",
    },
    lower: System {
        interface: b"INTERFACE l MODULES l; LATTICE LOW; LEVEL lit() IS LOW; LEVEL light(x) IS LOW;
SAMPLE s; END_INTERFACE",
        module: b"MODULE l TYPES other: {none}; lamp: {left, right}; FUNCTIONS
VFUN lit() -> lamp; INITIALLY ?; OFUN light(lamp x); EFFECTS 'lit() = x; END_MODULE",
    },
    mapping: b"MAPPING m FROM u TO l TYPES color IS lamp; FUNCTIONS on(c) IS c = lit(); END_MAPPING",
    instance: b"INSTANCE s END_INSTANCE",
    script: b"light(right);",
};

#[test]
fn members_become_those_of_the_same_number(rt: HostRuntime) {
    let alloc = rt.alloc();
    let rows = [(0, false), (1, true)];
    for (color, lit) in rows {
        shows(
            &rt,
            seen_after(alloc, &LAMPS, (0, color), 0),
            Ok(Seen::Value(Value::Truth(lit))),
        );
    }
}
