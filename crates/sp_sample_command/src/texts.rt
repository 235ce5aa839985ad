//! The texts of a sample, made and read.

ghost use Rattle.std.specs.Prelude.{◌≡◌, ◌≤◌, ◌∷◌, [], IfOk, length};
ghost use Rattle.sp_text.specs.declared.limits.TheConstants.{MOST_FILE_BYTES};
ghost use Rattle.sp_frame.specs.Steps.{Does};
ghost use Rattle.sp_sample.specs.Instance as instance_texts;
ghost use Rattle.sp_sample.specs.Interface as interface_texts;
ghost use Rattle.sp_sample.specs.Module as module_texts;
ghost use Rattle.sp_sorts.specs.Sorts.{instances, interfaces, modules};
ghost use Rattle.sp_sample_command.specs.Texts.{SampleRead, TextRead, instance_file, interface_file, module_file};

use sp_frame::{Stop, read_text};
use sp_sample::{sample_instance, sample_interface, sample_module};
use sp_sorts::{Parse, Reading};
use sp_system::System;
use sp_text::{Memory, Sequence};
use sp_tree::{InstanceTree, InterfaceTree, Module};
use std::alloc::Global;

/// The texts of the sample of that size.
///
/// # Errors
/// `Refused` where one of them has a fault, and `Memory`.
#[tactic(auto, using(sp_frame::proofs::Connective::does_after, sp_frame::proofs::Connective::does_refused), unfolding(crate::specs::Texts::SampleRead))]
pub fn sample_system(alloc: Global, size: u32) -> Result<System, Stop>
    requires { size ≤ 100 }
    ensures { Does (SampleRead size) result }
{
    let interface = read_interface(alloc, size)?;
    let module = read_module(alloc, size)?;
    let sample = read_instance(alloc)?;
    let modules = one_module(alloc, module)?;
    Ok(System {
        interface,
        modules,
        sample,
    })
}

// The interface of that size.
#[tactic(auto, using(sp_sample::proofs::Short::short_interface))]
fn read_interface(alloc: Global, size: u32) -> Result<InterfaceTree, Stop>
    requires { size ≤ 100 }
    ensures { Does (TextRead interfaces interface_file (interface_texts.sample_interface size)) result }
{
    let text = sample_interface(alloc, u64::from(size))?;
    read_as(alloc, "sample.iface", &text)
}

// The module of that size.
#[tactic(auto, using(sp_sample::proofs::Short::short_module))]
fn read_module(alloc: Global, size: u32) -> Result<Module, Stop>
    requires { size ≤ 100 }
    ensures { Does (TextRead modules module_file (module_texts.sample_module size)) result }
{
    let text = sample_module(alloc, u64::from(size))?;
    read_as(alloc, "sample.special", &text)
}

// The instance.
#[tactic(auto, using(sp_sample::proofs::Short::short_instance))]
fn read_instance(alloc: Global) -> Result<InstanceTree, Stop>
    ensures { Does (TextRead instances instance_file instance_texts.sample_instance) result }
{
    let text = sample_instance(alloc)?;
    read_as(alloc, "sample.inst", &text)
}

// The tree that the text of this name is read as.
#[tactic(auto, using(sp_frame::proofs::Connective::does_after, sp_frame::proofs::Connective::does_refused))]
fn read_as<T: Parse>(alloc: Global, name: &str, text: &[u8]) -> Result<T, Stop>
    requires { length text.now ≤ MOST_FILE_BYTES }
    ensures { Does (TextRead T.grammar name.now text.now) result }
{
    let reading: Reading<T> = read_text(alloc, name, text)?;
    Ok(reading.tree)
}

// The module alone.
fn one_module(alloc: Global, tree: Module) -> Result<Sequence<Module>, Memory>
    ensures { IfOk result (λ all. all ≡ tree ∷ []) }
{
    let mut all = Vec::new(alloc);
    all.push(tree)?;
    Ok(Sequence::new(all))
}
