//! What an interface breaks by its names, and all of it together with its modules.

ghost use Rattle.std.specs.Prelude.{◌≡◌, ◌≤◌, IfOk, option_copied};
ghost use Rattle.std.specs.List.{flat_map};
ghost use Rattle.sp_text.specs.Violations.{first, first_in_files};
ghost use Rattle.sp_naming.specs.Declarations.{declarations};
ghost use Rattle.sp_naming.specs.Names.{repeated};
ghost use Rattle.sp_scopes.specs.Headers.{asked};
ghost use Rattle.sp_scopes.specs.Interfaces as spec_interfaces;

use crate::headers::past;
use crate::module::{limits_broken, modules_broken};
use sp_naming::{Declaration, Declared, Entity, declare_names, first_repeated};
use sp_text::{
    FileViolation, MOST_LEVELS, MOST_MODULES, Memory, Quantity, Rule, Sequence, Span, Violation,
    breaks, earlier, earlier_in_files, exceeds, in_file,
};
use sp_tree::{Ident, InterfaceTree, LatticeTree, Module};
use std::alloc::Global;

fn is_level(entity: Entity) -> bool
    ensures { result ≡ spec_interfaces.is_level entity }
{
    matches!(entity, Entity::Level(_))
}

fn asked_level(span: Span, found: Option<&Declaration>) -> Option<Violation>
    ensures { result ≡ first (asked spec_interfaces.is_level span (option_copied found.entry)) }
{
    match found {
        None => breaks(span, Rule::UnknownName),
        Some(d) => {
            if is_level(d.entity) {
                None
            } else {
                breaks(span, Rule::WrongKind)
            }
        }
    }
}

fn chain_broken(declared: &Declared, chain: &[Ident]) -> Option<Violation>
    ensures { result ≡ first (flat_map (spec_interfaces.level_rule declared.now) chain.now) }
{
    let mut found = None;
    for x in chain {
        found = earlier(found, asked_level(x.span, declared.named(x.name.bytes())));
    }
    found
}

fn order_broken(declared: &Declared, chains: &[Sequence<Ident>]) -> Option<Violation>
    ensures { result ≡ first (flat_map (flat_map (spec_interfaces.level_rule declared.now)) chains.now) }
{
    let mut found = None;
    for chain in chains {
        found = earlier(found, chain_broken(declared, chain.items()));
    }
    found
}

// The first category with which so many levels, doubled by each, are more than there may be.
fn doubled_past(levels: u32, categories: &[Ident]) -> Option<Violation>
    requires { levels ≤ 256 }
    ensures { result ≡ first (spec_interfaces.doubled_past levels categories.now) }
{
    let mut levels = levels;
    for c in categories {
        levels *= 2;
        if levels > MOST_LEVELS {
            return exceeds(c.span, Quantity::Levels);
        }
    }
    None
}

fn product_past(chain: &[Ident], categories: &[Ident]) -> Option<Violation>
    ensures { result ≡ first (spec_interfaces.product_past chain.now categories.now) }
{
    if chain.len() <= MOST_LEVELS as usize {
        doubled_past(chain.len() as u32, categories)
    } else {
        None
    }
}

fn lattice_broken(
    alloc: Global,
    declared: &Declared,
    lattice: &LatticeTree,
) -> Result<Option<Violation>, Memory>
    ensures { IfOk result (λ found. found ≡ first (spec_interfaces.lattice_broken declared.now lattice.now)) }
{
    match lattice {
        LatticeTree::Order(_, _, chains) => Ok(order_broken(declared, chains.items())),
        LatticeTree::Product(_, chain, categories) => {
            let twice = first_repeated(alloc, categories.items())?;
            Ok(earlier(twice, product_past(chain.items(), categories.items())))
        }
    }
}

fn interface_broken(
    alloc: Global,
    declared: &Declared,
    interface: &InterfaceTree,
) -> Result<Option<Violation>, Memory>
    ensures { IfOk result (λ found. found ≡ first (spec_interfaces.interface_broken declared.now interface.now)) }
{
    let names = interface.modules.items();
    let twice = first_repeated(alloc, names)?;
    let many = past(MOST_MODULES as usize, Quantity::Modules, names);
    let lattice = lattice_broken(alloc, declared, &interface.lattice)?;
    Ok(earlier(twice, earlier(many, lattice)))
}

/// All that an interface and its modules declare, and the first of what their names and headers break.
///
/// # Errors
/// `Memory` where the declarations can't be stored.
pub fn judge_names(
    alloc: Global,
    interface: &InterfaceTree,
    modules: &[Module],
) -> Result<(Declared, Option<FileViolation>), Memory>
    ensures declared { IfOk result (λ made. made.0 ≡ declarations interface.now modules.now) }
    ensures broken { IfOk result (λ made. made.1 ≡ first_in_files (spec_interfaces.scopes_broken interface.now modules.now)) }
{
    let (declared, twice) = declare_names(alloc, interface, modules)?;
    let own = in_file(0, interface_broken(alloc, &declared, interface)?);
    let limits = limits_broken(declared.items());
    let texts = modules_broken(alloc, &declared, interface.modules.items(), modules)?;
    let found = earlier_in_files(
        own,
        earlier_in_files(twice, earlier_in_files(limits, texts)),
    );
    Ok((declared, found))
}
