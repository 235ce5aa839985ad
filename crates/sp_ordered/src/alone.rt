//! An interface with its lattice alone.

ghost use Rattle.std.specs.Prelude.{◌≡◌, IfOk};
ghost use Rattle.sp_specification.specs.Orders as spec;

use sp_text::{Memory, Sequence, Span};
use sp_tree::{Ident, InterfaceTree, LatticeTree};
use std::alloc::Global;

/// Where the lattice's keyword stands.
pub fn keyword(lattice: &LatticeTree) -> Span
    ensures { result ≡ spec.keyword lattice.now }
{
    match lattice {
        LatticeTree::Order(span, _, _) => *span,
        LatticeTree::Product(span, _, _) => *span,
    }
}

fn copy_names(alloc: Global, names: &[Ident]) -> Result<Vec<Ident>, Memory>
    ensures { IfOk result (λ all. all.items ≡ names.now) }
{
    let mut all = Vec::new(alloc);
    for name in names {
        all.push(name.copy(alloc)?)?;
    }
    Ok(all)
}

fn copy_chains(alloc: Global, chains: &[Sequence<Ident>]) -> Result<Vec<Sequence<Ident>>, Memory>
    ensures { IfOk result (λ all. all.items ≡ chains.now) }
{
    let mut all = Vec::new(alloc);
    for chain in chains {
        all.push(Sequence::new(copy_names(alloc, chain.items())?))?;
    }
    Ok(all)
}

fn copy_lattice(alloc: Global, lattice: &LatticeTree) -> Result<LatticeTree, Memory>
    ensures { IfOk result (λ t. t ≡ lattice.now) }
{
    match lattice {
        LatticeTree::Order(span, names, chains) => {
            let names = copy_names(alloc, names.items())?;
            let chains = copy_chains(alloc, chains.items())?;
            Ok(LatticeTree::Order(*span, Sequence::new(names), Sequence::new(chains)))
        }
        LatticeTree::Product(span, chain, categories) => {
            let chain = copy_names(alloc, chain.items())?;
            let categories = copy_names(alloc, categories.items())?;
            Ok(LatticeTree::Product(*span, Sequence::new(chain), Sequence::new(categories)))
        }
    }
}

/// The interface with its lattice alone, without modules and levels of functions.
///
/// # Errors
/// `Memory` where it can't be copied.
pub fn alone(alloc: Global, interface: &InterfaceTree) -> Result<InterfaceTree, Memory>
    ensures { IfOk result (λ i. i ≡ spec.alone interface.now) }
{
    let name = interface.name.copy(alloc)?;
    let lattice = copy_lattice(alloc, &interface.lattice)?;
    let sample = interface.sample.copy(alloc)?;
    Ok(InterfaceTree {
        name,
        modules: Sequence::new(Vec::new(alloc)),
        lattice,
        levels: Sequence::new(Vec::new(alloc)),
        sample,
    })
}
