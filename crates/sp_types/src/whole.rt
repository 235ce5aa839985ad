//! The specification of an interface and its modules.

ghost use Rattle.std.specs.Prelude.{◌≡◌, ◌≢◌, Err, List, [], IfOk};
ghost use Rattle.sp_text.specs.declared.fault.SpecFault.{SpecFault as FaultValue};
ghost use Rattle.sp_text.specs.declared.fault.TextFault.TheVariants as fault;
ghost use Rattle.sp_text.specs.declared.violation.FileViolation.{FileViolation};
ghost use Rattle.sp_text.specs.Violations.{JudgesFiles};
ghost use Rattle.sp_lattice.specs.Order.{IsLatticeOrder, IsOrderOf, bottom_level, top_level};
ghost use Rattle.sp_judge.specs.Translation.{AreFine};
ghost use Rattle.sp_scopes.specs.Interfaces.{scopes_broken};
ghost use Rattle.sp_scopes.specs.Scopes.{scopes_of};
ghost use Rattle.sp_order.specs.Orders.{AreEnds, HasLevels, IsLower, level_count};
ghost use Rattle.sp_elaborate.specs.Views.{cores_from};
ghost use Rattle.sp_specification.specs.Broken.{AreBroken, rest_broken};
ghost use Rattle.sp_types.specs.Elaborated.{IsElaborated, IsOrdered};

use crate::rest::judge_rest;
use sp_bodies::view_cores;
use sp_core::{Expr, Spec};
use sp_making::{make_assertions, make_functions, make_params, make_types, tell_numbers_of};
use sp_ordered::{Ordered, order_names};
use sp_scopes::Scopes;
use sp_text::{Memory, Name, SpecFault, TextFault};
use sp_tree::{InterfaceTree, Module};
use sp_well_formed::well_formed_law;
use std::alloc::Global;

fn out_of_memory() -> SpecFault
    ensures { result.fault ≡ fault.Memory }
{
    SpecFault {
        file: 0,
        fault: TextFault::Memory,
    }
}

fn copies(alloc: Global, names: &[Name]) -> Result<Vec<Name>, Memory>
    ensures { IfOk result (λ all. all.items ≡ names.now) }
{
    let mut all = Vec::new(alloc);
    for name in names {
        all.push(Name::new(alloc, name.bytes())?)?;
    }
    Ok(all)
}

// The specification of texts that break nothing.
fn make_spec(
    alloc: Global,
    names: Ordered,
    cores: &[Expr],
    interface: &InterfaceTree,
    modules: &[Module],
) -> Result<(Spec, Scopes), Memory>
    requires names { IsOrdered interface.now modules.now names }
    requires cores { cores.now ≡ cores_from names.scopes (bottom_level names.lattice) (top_level names.lattice) [] names.scopes.definitions }
    requires fine { AreFine cores.now }
    requires nothing { rest_broken interface.now modules.now (bottom_level names.lattice) (top_level names.lattice) ≡ [] }
    ensures { IfOk result (IsElaborated interface.now modules.now) }
{
    let Ordered { scopes, lattice } = names;
    let (bottom, top) = (lattice.bottom(), lattice.top());
    let name = Name::new(alloc, interface.name.name.bytes())?;
    let levels = copies(alloc, scopes.levels())?;
    let types = make_types(alloc, scopes.types())?;
    let params = make_params(alloc, scopes.parameters())?;
    let assertions = make_assertions(alloc, &scopes, bottom, top, cores, modules)?;
    let functions = make_functions(alloc, &scopes, bottom, top, cores, interface, modules)?;
    tell_numbers_of(scopes.definitions(), interface.levels.items(), modules);
    well_formed_law();
    let spec = Spec::assemble(name, lattice, levels, types, params, assertions, functions);
    Ok((spec, scopes))
}

// The same where the texts may break something.
fn elaborate_ordered(
    alloc: Global,
    names: Ordered,
    interface: &InterfaceTree,
    modules: &[Module],
) -> Result<(Spec, Scopes), SpecFault>
    requires { IsOrdered interface.now modules.now names }
    ensures { JudgesFiles (rest_broken interface.now modules.now (bottom_level names.lattice) (top_level names.lattice)) (IsElaborated interface.now modules.now) result }
{
    let ends = (names.lattice.bottom(), names.lattice.top());
    let cores = match view_cores(alloc, &names.scopes, ends.0, ends.1) {
        Ok(cores) => cores,
        Err(_) => return Err(out_of_memory()),
    };
    let found = match judge_rest(alloc, &names.scopes, ends, &cores, interface, modules) {
        Ok(found) => found,
        Err(_) => return Err(out_of_memory()),
    };
    match found {
        Some(found) => return Err(SpecFault::from(found)),
        None => {}
    }
    match make_spec(alloc, names, &cores, interface, modules) {
        Ok(elaborated) => Ok(elaborated),
        Err(_) => Err(out_of_memory()),
    }
}

/// The specification that an interface and its modules stand for, with all that is known of their names. The modules
/// stand in the order of MODULES.
///
/// # Errors
/// The first rule or limit that they break, by pass, file, place and number; `Memory` where the specification can't be
/// stored.
#[tactic(auto, using(crate::proofs::Passes::refused, crate::proofs::Passes::later))]
pub fn elaborate(
    alloc: Global,
    interface: &InterfaceTree,
    modules: &[Module],
) -> Result<(Spec, Scopes), SpecFault>
    ensures judges { (vs : List FileViolation) → AreBroken interface.now modules.now vs → JudgesFiles vs (IsElaborated interface.now modules.now) result }
    ensures found { ((f : FaultValue) → result ≡ Err f → f.fault ≢ fault.Memory) → (vs : List FileViolation) × AreBroken interface.now modules.now vs }
{
    match order_names(alloc, interface, modules) {
        Ok(names) => elaborate_ordered(alloc, names, interface, modules),
        Err(fault) => Err(fault),
    }
}
