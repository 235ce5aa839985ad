//! Specifications, instances and scripts of texts, and what becomes of their runs.

ghost use Rattle.std.specs.Prelude.{◌<◌, IfOk};
ghost use Rattle.std.specs.List.{All};
ghost use Rattle.sp_core.specs.Instances.{IsInstanceOf, filling_of, machine_of};
ghost use Rattle.sp_core.specs.Machine.{IsInvocation};

use sp_animator::{Compared, StepFault, animate, compare, purge};
use sp_core::{Answer, Instance, Spec, State};
use sp_instance::{make_instance, make_script};
use sp_instance_text::{parse_instance, parse_script};
use sp_interface::parse_interface;
use sp_lexer::lex;
use sp_parser::parse_module;
use sp_text::{TextFault, Token};
use sp_tree::{InstanceTree, InterfaceTree, Module, ScriptTree};
use sp_types::elaborate;
use sp_values::{Invocation, Value};
use std::alloc::Global;

/// An interface of one module, that module, an instance and a script.
#[derive(Clone, Copy)]
pub struct Texts<'a> {
    pub interface: &'a [u8],
    pub module: &'a [u8],
    pub instance: &'a [u8],
    pub script: &'a [u8],
}

/// How a run ends: with the answer of one of its invocations, where it has one, or with the first that is refused.
#[derive(Clone, Copy, Debug, PartialEq, Eq)]
pub enum Ran {
    Answers(Option<Answer>),
    Conflict(usize, u16, Value, Value),
    StateFull(usize),
}

/// How a comparison ends: with both runs, or with the first that is refused, in the purged run or the whole one.
#[derive(Clone, Copy, Debug, PartialEq, Eq)]
pub enum Ended {
    Both(Compared),
    Conflict(bool, usize, Value, Value),
    Refused(bool, usize),
}

fn interface_of(alloc: Global, text: &[u8]) -> Result<InterfaceTree, TextFault> {
    if text.len() > 1_000_000 {
        return Err(TextFault::Memory);
    }
    let tokens = lex(alloc, text)?;
    parse_interface(alloc, tokens.as_slice(), text.len() as u32)
}

fn module_of(alloc: Global, text: &[u8]) -> Result<Module, TextFault> {
    if text.len() > 1_000_000 {
        return Err(TextFault::Memory);
    }
    let tokens = lex(alloc, text)?;
    parse_module(alloc, tokens.as_slice(), text.len() as u32)
}

fn instance_tree(alloc: Global, text: &[u8]) -> Result<InstanceTree, TextFault> {
    if text.len() > 1_000_000 {
        return Err(TextFault::Memory);
    }
    let tokens = lex(alloc, text)?;
    parse_instance(alloc, tokens.as_slice(), text.len() as u32)
}

fn script_tree(alloc: Global, text: &[u8]) -> Result<ScriptTree, TextFault> {
    if text.len() > 1_000_000 {
        return Err(TextFault::Memory);
    }
    let tokens = lex(alloc, text)?;
    parse_script(alloc, tokens.as_slice(), text.len() as u32)
}

fn elaborated(
    alloc: Global,
    interface: &InterfaceTree,
    modules: &[Module],
) -> Result<Spec, TextFault> {
    match elaborate(alloc, interface, modules) {
        Ok((spec, _)) => Ok(spec),
        Err(found) => Err(found.fault),
    }
}

fn elaborated_below(
    alloc: Global,
    interface: &[u8],
    modules: &[Module],
) -> Result<Spec, TextFault> {
    let interface = interface_of(alloc, interface)?;
    elaborated(alloc, &interface, modules)
}

/// The specification of the texts.
fn specification(alloc: Global, texts: &Texts<'_>) -> Result<Spec, TextFault> {
    let mut modules = Vec::new(alloc);
    modules.push(module_of(alloc, texts.module)?)?;
    elaborated_below(alloc, texts.interface, modules.as_slice())
}

/// The instance of the texts.
fn instance(alloc: Global, spec: &Spec, texts: &Texts<'_>) -> Result<Instance, TextFault>
    ensures { IfOk result (IsInstanceOf spec.now) }
{
    make_instance(alloc, spec, &instance_tree(alloc, texts.instance)?)
}

/// The invocations of the script.
fn script(
    alloc: Global,
    spec: &Spec,
    inst: &Instance,
    texts: &Texts<'_>,
) -> Result<Vec<Invocation>, TextFault>
    requires { IsInstanceOf spec.now inst.now }
    ensures { IfOk result (λ list. All (IsInvocation (machine_of spec.now (filling_of inst.now))) list.items) }
{
    make_script(alloc, spec, inst, &script_tree(alloc, texts.script)?)
}

// How a run ended, seen at one of its answers.
fn seen_at(at: usize, answers: &[Answer]) -> Ran {
    Ran::Answers(answers.get(at).copied())
}

fn broken_off(at: usize, fault: &StepFault) -> Result<Ran, TextFault> {
    match fault {
        StepFault::Conflict {
            place,
            first,
            second,
        } => Ok(Ran::Conflict(at, place.fun, *first, *second)),
        StepFault::StateFull => Ok(Ran::StateFull(at)),
        StepFault::Memory => Err(TextFault::Memory),
    }
}

// From here on each function holds one value that has to be dropped, and lends it to the next: the proof of a function that
// holds several grows with their product.

fn run_through(
    alloc: Global,
    spec: &Spec,
    inst: &Instance,
    list: &[Invocation],
    at: usize,
) -> Result<(Ran, u64), TextFault>
    requires instance { IsInstanceOf spec.now inst.now }
    requires invocations { All (IsInvocation (machine_of spec.now (filling_of inst.now))) list.now }
{
    let mut state = State::new(alloc);
    let ended = match animate(alloc, spec, inst, &mut state, list) {
        Ok(answers) => seen_at(at, answers.as_slice()),
        Err(broken) => broken_off(broken.at, &broken.fault)?,
    };
    Ok((ended, state.len()))
}

fn run_over(
    alloc: Global,
    spec: &Spec,
    inst: &Instance,
    texts: &Texts<'_>,
    at: usize,
) -> Result<(Ran, u64), TextFault>
    requires { IsInstanceOf spec.now inst.now }
{
    let list = script(alloc, spec, inst, texts)?;
    run_through(alloc, spec, inst, list.as_slice(), at)
}

fn run_of(
    alloc: Global,
    spec: &Spec,
    texts: &Texts<'_>,
    at: usize,
) -> Result<(Ran, u64), TextFault> {
    let inst = instance(alloc, spec, texts)?;
    run_over(alloc, spec, &inst, texts, at)
}

/// How the script's run from the initial state ends, seen at the invocation of this number, with how many entries the
/// state then has.
pub fn run(alloc: Global, texts: &Texts<'_>, at: usize) -> Result<(Ran, u64), TextFault> {
    let spec = specification(alloc, texts)?;
    run_of(alloc, &spec, texts, at)
}

/// What the invocation of this number answers.
pub fn answer(alloc: Global, texts: &Texts<'_>, at: usize) -> Result<Ran, TextFault> {
    let (ended, _) = run(alloc, texts, at)?;
    Ok(ended)
}

/// How many invocations stay, and the function of the last one.
pub type Kept = (usize, Option<u16>);

fn kept_over(
    alloc: Global,
    spec: &Spec,
    inst: &Instance,
    texts: &Texts<'_>,
    level: u16,
) -> Result<Kept, TextFault>
    requires instance { IsInstanceOf spec.now inst.now }
    requires level { level < spec.now.lattice.count }
{
    let list = script(alloc, spec, inst, texts)?;
    let kept = purge(alloc, spec, inst, level, list.as_slice())?;
    Ok((kept.len(), kept.last().map(|i| i.fun)))
}

fn kept_of(alloc: Global, spec: &Spec, texts: &Texts<'_>, level: u16) -> Result<Kept, TextFault> {
    if level >= spec.lattice().count() {
        return Err(TextFault::Memory);
    }
    let inst = instance(alloc, spec, texts)?;
    kept_over(alloc, spec, &inst, texts, level)
}

/// How many invocations stay at or below the level of this number, and the function of the last one.
pub fn kept(alloc: Global, texts: &Texts<'_>, level: u16) -> Result<Kept, TextFault> {
    let spec = specification(alloc, texts)?;
    kept_of(alloc, &spec, texts, level)
}

fn refused(purged: bool, at: usize, fault: &StepFault) -> Result<Ended, TextFault> {
    match fault {
        StepFault::Conflict { first, second, .. } => {
            Ok(Ended::Conflict(purged, at, *first, *second))
        }
        StepFault::StateFull => Ok(Ended::Refused(purged, at)),
        StepFault::Memory => Err(TextFault::Memory),
    }
}

fn compared_through(
    alloc: Global,
    spec: &Spec,
    inst: &Instance,
    list: &[Invocation],
    level: u16,
) -> Result<Ended, TextFault>
    requires instance { IsInstanceOf spec.now inst.now }
    requires invocations { All (IsInvocation (machine_of spec.now (filling_of inst.now))) list.now }
    requires level { level < spec.now.lattice.count }
{
    let start = State::new(alloc);
    match compare(alloc, spec, inst, &start, level, list) {
        Ok(found) => Ok(Ended::Both(found)),
        Err(found) => refused(found.purged, found.at, &found.fault),
    }
}

fn compared_over(
    alloc: Global,
    spec: &Spec,
    inst: &Instance,
    texts: &Texts<'_>,
    level: u16,
) -> Result<Ended, TextFault>
    requires instance { IsInstanceOf spec.now inst.now }
    requires level { level < spec.now.lattice.count }
{
    let list = script(alloc, spec, inst, texts)?;
    compared_through(alloc, spec, inst, list.as_slice(), level)
}

fn compared_of(
    alloc: Global,
    spec: &Spec,
    texts: &Texts<'_>,
    level: u16,
) -> Result<Ended, TextFault> {
    if level >= spec.lattice().count() {
        return Err(TextFault::Memory);
    }
    let inst = instance(alloc, spec, texts)?;
    compared_over(alloc, spec, &inst, texts, level)
}

/// How the script's run from the initial state compares with that of the list purged at the level of this number.
pub fn compared(alloc: Global, texts: &Texts<'_>, level: u16) -> Result<Ended, TextFault> {
    let spec = specification(alloc, texts)?;
    compared_of(alloc, &spec, texts, level)
}
