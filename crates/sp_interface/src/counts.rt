//! Limits of trees: how many modules an interface has, and how many interfaces a hierarchy.

ghost use Rattle.std.specs.Prelude.{◌≡◌, ◌≤◌, ◌-◌, ◌∷◌, vec_len, IfOk, List, MatchOption, Some, slice_get};
ghost use Rattle.sp_text.specs.declared.fault.Quantity.TheVariants as quantities;
ghost use Rattle.sp_tree.specs.declared.names.Ident.{Ident as ContractIdent};
ghost use Rattle.sp_interface.specs.Counts.{first_mentions, over_interfaces, over_modules};

use sp_text::{Limit, MOST_INTERFACES, MOST_MODULES, Memory, Name, Quantity, Span};
use sp_tree::{HierarchyTree, Ident, InterfaceTree};
use sqlite_items::at;
use std::alloc::Global;

/// The limit of modules, at the first one over the number.
pub fn module_over(tree: &InterfaceTree) -> Option<Limit>
    ensures { result ≡ over_modules tree.now }
{
    match at(tree.modules.items(), MOST_MODULES as usize) {
        Some(module) => Some(Limit {
            span: module.span,
            quantity: Quantity::Modules,
        }),
        None => None,
    }
}

/// Counts the interface, unless it is among those that are counted. Where it is the first over the number, its place.
fn count(alloc: Global, counted: &mut Vec<Name>, interface: &Ident) -> Result<Option<Span>, Memory>
    requires room { vec_len counted.old ≤ MOST_INTERFACES }
    ensures within { vec_len counted.new ≤ MOST_INTERFACES }
    ensures over { (rest : List ContractIdent) → IfOk result (λ found. MatchOption found
        (slice_get (first_mentions counted.old.items (interface.now ∷ rest)) (MOST_INTERFACES - vec_len counted.old)
        ≡ slice_get (first_mentions counted.new.items rest) (MOST_INTERFACES - vec_len counted.new))
        (λ span. slice_get (first_mentions counted.old.items (interface.now ∷ rest)) (MOST_INTERFACES - vec_len counted.old) ≡ Some span)) }
{
    if counted.contains(&interface.name) {
        return Ok(None);
    }
    if counted.len() >= MOST_INTERFACES as usize {
        return Ok(Some(interface.span));
    }
    counted.push(Name::new(alloc, interface.name.bytes())?)?;
    Ok(None)
}

/// The limit of interfaces, at the first mention of the first one over the number.
pub fn interface_over(alloc: Global, tree: &HierarchyTree) -> Result<Option<Limit>, Memory>
    ensures { IfOk result (λ limit. limit ≡ over_interfaces tree.now) }
{
    let mut counted = Vec::new(alloc);
    for row in tree.rows.items() {
        if let Some(span) = count(alloc, &mut counted, &row.0)? {
            return Ok(Some(too_many(span)));
        }
        if let Some(span) = count(alloc, &mut counted, &row.1)? {
            return Ok(Some(too_many(span)));
        }
    }
    Ok(None)
}

fn too_many(span: Span) -> Limit
    ensures { result ≡ record { span = span; quantity = quantities.Interfaces } }
{
    Limit {
        span,
        quantity: Quantity::Interfaces,
    }
}
