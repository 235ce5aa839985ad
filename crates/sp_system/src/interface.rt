//! An interface judged with its modules.

ghost use Rattle.std.specs.Prelude.{◌≡◌, IfOk, option_map};
ghost use Rattle.sp_frame.specs.Steps.{Does};
ghost use Rattle.sp_system.specs.Interfaces as interfaces;
ghost use Rattle.sp_system.specs.Interfaces.{Elaborates, InterfaceJudged, IsFaulty, IsFiled, TellsFiles};

use sp_core::Spec;
use sp_frame::{Refusal, Stop};
use sp_one_spec::one_spec_law;
use sp_ordered::broken_law;
use sp_scopes::Scopes;
use sp_text::{Malformed, Memory, Name, Rule, SpecFault, TextFault, push_text};
use sp_tree::{Ident, InterfaceTree, LatticeTree, Module};
use sp_types::elaborate;
use std::alloc::Global;

/// What an interface stands for: its specification, and all that it declares.
#[derive(Drop)]
pub struct Elaborated {
    pub spec: Spec,
    pub scopes: Scopes,
}

/// What the interface in this file stands for with its modules.
///
/// # Errors
/// `Refused` with the first of what they break, and `Memory`.
#[tactic(auto, using(crate::proofs::Elaborating::filed_after))]
pub fn judge_interface(
    alloc: Global,
    file: &str,
    interface: &InterfaceTree,
    modules: &[Module],
) -> Result<Elaborated, Stop>
    ensures { Does (InterfaceJudged file.now interface.now modules.now) result }
{
    filed(
        alloc,
        file,
        interface,
        elaboration(alloc, interface, modules),
    )
}

// The answer of `elaborate`.
#[tactic(auto, using(crate::proofs::Elaborating::elaborates))]
fn elaboration(
    alloc: Global,
    interface: &InterfaceTree,
    modules: &[Module],
) -> Result<(Spec, Scopes), SpecFault>
    ensures { TellsFiles (Elaborates interface.now modules.now) result }
{
    broken_law();
    one_spec_law();
    let answer = elaborate(alloc, interface, modules);
    if let Ok((spec, _)) = &answer {
        let _ = spec.name();
    }
    answer
}

// The interface, or the refusal for a fault of one of its texts.
fn filed(
    alloc: Global,
    file: &str,
    interface: &InterfaceTree,
    answer: Result<(Spec, Scopes), SpecFault>,
) -> Result<Elaborated, Stop>
    ensures { Does (IsFiled file.now interface.now answer) result }
{
    match answer {
        Ok((spec, scopes)) => Ok(Elaborated { spec, scopes }),
        Err(found) => {
            let name = file_of(alloc, file, interface, found.file)?;
            faulty(alloc, interface, name, found.fault)
        }
    }
}

// The refusal for a fault in the text of this name.
fn faulty(
    alloc: Global,
    interface: &InterfaceTree,
    name: Name,
    fault: TextFault,
) -> Result<Elaborated, Stop>
    ensures { Does (IsFaulty interface.now name fault) result }
{
    match fault {
        TextFault::Malformed(malformed) => {
            let refusal = broken_in(alloc, &interface.lattice, name, malformed)?;
            Err(Stop::Refused(refusal))
        }
        TextFault::Limit(limit) => Err(Stop::Refused(Refusal::Exceeded(name, limit))),
        TextFault::Memory => Err(Stop::Memory),
    }
}

// The file of a text by its number.
fn file_of(
    alloc: Global,
    file: &str,
    interface: &InterfaceTree,
    number: u16,
) -> Result<Name, Memory>
    ensures { IfOk result (λ name. name ≡ interfaces.file_of file.now interface.now number) }
{
    if number == 0 {
        return Name::new(alloc, file.as_bytes());
    }
    module_of(
        alloc,
        interface.modules.items().get(usize::from(number - 1)),
    )
}

// The file of a module, or no name.
fn module_of(alloc: Global, called: Option<&Ident>) -> Result<Name, Memory>
    ensures { IfOk result (λ name. name ≡ interfaces.module_of (option_map (λ x. x.now) called.entry)) }
{
    let mut file = Vec::new(alloc);
    if let Some(called) = called {
        push_text(alloc, &mut file, called.name.bytes())?;
        push_text(alloc, &mut file, b".special")?;
    }
    Name::new(alloc, &file)
}

// The refusal for a rule that is broken in the text of this name.
fn broken_in(
    alloc: Global,
    lattice: &LatticeTree,
    name: Name,
    malformed: Malformed,
) -> Result<Refusal, Memory>
    ensures { IfOk result (λ refusal. refusal ≡ interfaces.broken_in lattice.now name malformed) }
{
    match level_pair(malformed.rule) {
        None => Ok(Refusal::Broken(name, malformed)),
        Some((x, y)) => {
            let first = level_name(alloc, lattice, x)?;
            let second = level_name(alloc, lattice, y)?;
            Ok(Refusal::BrokenOrder(name, malformed, first, second))
        }
    }
}

// The two levels of which a rule of orders speaks.
fn level_pair(rule: Rule) -> Option<(u16, u16)>
    ensures { result ≡ interfaces.level_pair rule }
{
    match rule {
        Rule::Cycle(x, y) | Rule::NoLub(x, y) | Rule::NoGlb(x, y) => Some((x, y)),
        _ => None,
    }
}

// The name of a level of a declared order, by its number.
fn level_name(alloc: Global, lattice: &LatticeTree, number: u16) -> Result<Name, Memory>
    ensures { IfOk result (λ name. name ≡ interfaces.level_name lattice.now number) }
{
    if let LatticeTree::Order(_, names, _) = lattice {
        if let Some(level) = names.items().get(usize::from(number)) {
            return Name::new(alloc, level.name.bytes());
        }
    }
    Name::new(alloc, b"")
}
