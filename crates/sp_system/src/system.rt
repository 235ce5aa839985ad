//! Systems: an interface with its modules and its sample.

ghost use Rattle.std.specs.Prelude.{◌≡◌, IfOk};
ghost use Rattle.std.specs.List.{All};
ghost use Rattle.std.specs.Str.{IsUtf8};
ghost use Rattle.sp_frame.specs.Loads.{Loads};
ghost use Rattle.sp_frame.specs.Steps.{Does};
ghost use Rattle.sp_system.specs.Instances.{InstanceJudged};
ghost use Rattle.sp_system.specs.System as definitions;
ghost use Rattle.sp_system.specs.System.{ModuleRead, ModulesRead, SampleJudged, SampleNamed, SystemJudged, SystemRead};

use crate::instance::judge_instance;
use crate::interface::{Elaborated, judge_interface};
use sp_core::{Instance, Spec};
use sp_frame::{LoadStop, Stop, broken};
use sp_outside::Library;
use sp_sorts::{read_named_tree, read_tree};
use sp_text::{Malformed, Memory, Rule, Sequence, push_text};
use sp_tree::{Ident, InstanceTree, InterfaceTree, Module};
use std::alloc::Global;

/// The texts of a system.
#[derive(Debug, Drop)]
pub struct System {
    pub interface: InterfaceTree,
    /// In the order in which the interface names them.
    pub modules: Sequence<Module>,
    pub sample: InstanceTree,
}

/// The texts of the system of an interface's file.
///
/// # Errors
/// `Refused` where one of them can't be loaded or read, `ReadFault`, and `Memory`.
#[tactic(auto, using(sp_frame::proofs::Connective::loads_after, sp_frame::proofs::Connective::loads_refused, sp_frame::proofs::Connective::loads_gives))]
pub fn load_system<L: Library>(alloc: Global, lib: &mut L, name: &str) -> Result<System, LoadStop>
    ensures { Loads L.told L.faults lib.old lib.new (SystemRead name.now) result }
{
    let interface: InterfaceTree = read_tree(alloc, lib, name)?;
    let modules = modules_of(alloc, lib, &interface)?;
    let sample = read_named_tree(alloc, lib, &interface.sample.name, ".inst")?;
    Ok(System {
        interface,
        modules,
        sample,
    })
}

// The modules that the interface names.
fn modules_of<L: Library>(
    alloc: Global,
    lib: &mut L,
    interface: &InterfaceTree,
) -> Result<Sequence<Module>, LoadStop>
    requires { All (λ m. IsUtf8 m.name) interface.now.modules }
    ensures { Loads L.told L.faults lib.old lib.new (ModulesRead interface.now.modules) result }
{
    load_modules(alloc, lib, interface.modules.items())
}

// The modules of these names, in their order.
#[tactic(auto, using(sp_frame::proofs::Lists::none_loaded), unfolding(crate::specs::System::ModulesRead))]
fn load_modules<L: Library>(
    alloc: Global,
    lib: &mut L,
    names: &[Ident],
) -> Result<Sequence<Module>, LoadStop>
    requires { All (λ m. IsUtf8 m.name) names.now }
    ensures { Loads L.told L.faults lib.old lib.new (ModulesRead names.now) result }
{
    let mut modules = Vec::new(alloc);
    for name in names {
        let module = load_module(alloc, lib, name)?;
        modules.push(module)?;
    }
    Ok(Sequence::new(modules))
}

// The module of this name.
fn load_module<L: Library>(alloc: Global, lib: &mut L, name: &Ident) -> Result<Module, LoadStop>
    requires { IsUtf8 name.now.name }
    ensures { Loads L.told L.faults lib.old lib.new (ModuleRead name.now.name) result }
{
    read_named_tree(alloc, lib, &name.name, ".special")
}

/// What the system of the interface in this file stands for; it breaks no rule, and its sample is admissible.
///
/// # Errors
/// `Refused` where it breaks one, or its sample isn't admissible, and `Memory`.
#[tactic(auto, using(sp_frame::proofs::Connective::does_after, sp_frame::proofs::Connective::does_refused))]
pub fn judge_system(alloc: Global, file: &str, system: &System) -> Result<Elaborated, Stop>
    ensures { Does (SystemJudged file.now system.now) result }
{
    let elaborated = judge_interface(alloc, file, &system.interface, system.modules.items())?;
    let _sample = judge_sample(alloc, &elaborated.spec, system)?;
    Ok(elaborated)
}

// The sample, which has its name and is admissible.
#[tactic(auto, using(sp_frame::proofs::Connective::does_after, sp_frame::proofs::Connective::does_refused))]
fn judge_sample(alloc: Global, spec: &Spec, system: &System) -> Result<Instance, Stop>
    ensures { Does (SampleJudged spec.now system.now) result }
{
    name_sample(alloc, system)?;
    sample_of(alloc, spec, system)
}

// That the sample has the name that the interface calls it by.
fn name_sample(alloc: Global, system: &System) -> Result<(), Stop>
    ensures { Does (SampleNamed system.now) result }
{
    let given = &system.sample.name;
    if given.name == system.interface.sample.name {
        return Ok(());
    }
    let file = sample_file(alloc, system)?;
    let malformed = Malformed {
        span: given.span,
        rule: Rule::WrongName,
    };
    Err(broken(alloc, &file, malformed))
}

// The sample, which is admissible.
fn sample_of(alloc: Global, spec: &Spec, system: &System) -> Result<Instance, Stop>
    ensures { Does (InstanceJudged spec.now (definitions.sample_file system.now) system.now.sample) result }
{
    let file = sample_file(alloc, system)?;
    judge_instance(alloc, spec, &file, &system.sample)
}

// The file of the sample.
fn sample_file(alloc: Global, system: &System) -> Result<Vec<u8>, Memory>
    ensures { IfOk result (λ file. file.items ≡ definitions.sample_file system.now) }
{
    let mut file = Vec::new(alloc);
    push_text(alloc, &mut file, system.interface.sample.name.bytes())?;
    push_text(alloc, &mut file, b".inst")?;
    Ok(file)
}
