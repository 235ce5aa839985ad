//! The mappings of a hierarchy, judged.

ghost use Rattle.std.specs.Prelude.{◌≡◌, ◌<◌, IfOk, IfSome, None, Some, length};
ghost use Rattle.std.specs.List.{All};
ghost use Rattle.sp_frame.specs.Steps.{Does, Tells};
ghost use Rattle.sp_hierarchy.specs.Judged as definitions;
ghost use Rattle.sp_hierarchy.specs.Judged.{HasNames, IsMappedTo, MadeBetween, MappingJudged, MappingMade, MappingNamed, MappingsJudged, Placed};
ghost use Rattle.sp_sorts.specs.Sorts.{mapping_file};

use crate::members::{Member, demand_name, named_file};
use crate::texts::RowMapping;
use sp_core::Mapping;
use sp_frame::{Stop, broken, judged};
use sp_mapping::elaborate_mapping;
use sp_text::{Malformed, Name, Rule, Sequence, TextFault};
use sp_tree::{Ident, MappingTree};
use std::alloc::Global;

/// A mapping of a hierarchy, with the place of its lower interface.
#[derive(Drop)]
pub struct Mapped {
    pub lower: usize,
    pub mapping: Mapping,
}

/// What the mappings stand for, in their order.
///
/// # Errors
/// `Refused` with the first of what they break, and `Memory`.
pub fn judge_mappings(
    alloc: Global,
    members: &[Member],
    rows: &[RowMapping],
) -> Result<Sequence<Mapped>, Stop>
    requires { All HasNames members.now }
    ensures does { Does (MappingsJudged members.now rows.now) result }
    ensures mapped { IfOk result (All (IsMappedTo members.now)) }
{
    let mut mappings = Vec::new(alloc);
    for row in rows {
        let mapped = judge_mapping(alloc, members, row)?;
        mappings.push(mapped)?;
    }
    Ok(Sequence::new(mappings))
}

// What the mapping of a row stands for.
#[tactic(auto, using(sp_frame::proofs::Connective::does_after, sp_frame::proofs::Connective::does_refused))]
fn judge_mapping(alloc: Global, members: &[Member], row: &RowMapping) -> Result<Mapped, Stop>
    requires { All HasNames members.now }
    ensures does { Does (MappingJudged members.now row.now) result }
    ensures mapped { IfOk result (IsMappedTo members.now) }
{
    name_mapping(alloc, row)?;
    let upper = place(alloc, members, row, &row.tree.upper)?;
    let lower = place(alloc, members, row, &row.tree.lower)?;
    let mapping = mapping_in(alloc, members, row, upper, lower)?;
    Ok(Mapped { lower, mapping })
}

// That the names in the mapping are those of its row.
#[tactic(auto, using(sp_frame::proofs::Connective::does_after, sp_frame::proofs::Connective::does_refused))]
fn name_mapping(alloc: Global, row: &RowMapping) -> Result<(), Stop>
    ensures { Does (MappingNamed row.now) result }
{
    demand_name(alloc, &row.name, b".map", &row.tree.name, &row.name)?;
    demand_name(alloc, &row.name, b".map", &row.tree.upper, &row.upper)?;
    demand_name(alloc, &row.name, b".map", &row.tree.lower, &row.lower)
}

// The place of an interface that the mapping names.
fn place(
    alloc: Global,
    members: &[Member],
    row: &RowMapping,
    interface: &Ident,
) -> Result<usize, Stop>
    ensures does { Does (Placed members.now (mapping_file row.now.name) interface.now) result }
    ensures within { IfOk result (λ k. k < length members.now) }
{
    match place_of(members, &interface.name) {
        Some(found) => Ok(found),
        None => Err(unknown(alloc, row, interface)),
    }
}

// Why the work stops where the mapping names an interface that isn't one of the hierarchy.
fn unknown(alloc: Global, row: &RowMapping, interface: &Ident) -> Stop
    ensures { Does (λ out. out ≡ definitions.placed (mapping_file row.now.name) interface.now None) (Err result) }
{
    let malformed = Malformed {
        span: interface.span,
        rule: Rule::UnknownName,
    };
    match named_file(alloc, &row.name, b".map") {
        Ok(file) => broken(alloc, &file, malformed),
        Err(_) => Stop::Memory,
    }
}

// The place of the interface of this name.
fn place_of(members: &[Member], name: &Name) -> Option<usize>
    ensures place { result ≡ definitions.place_of members.now name.now }
    ensures within { IfSome result (λ k. k < length members.now) }
{
    members.iter().position(|member| member.name == *name)
}

// What the mapping between the interfaces at these places stands for.
#[tactic(auto, using(sp_frame::proofs::Connective::judged_after))]
fn mapping_in(
    alloc: Global,
    members: &[Member],
    row: &RowMapping,
    upper: usize,
    lower: usize,
) -> Result<Mapping, Stop>
    requires names { All HasNames members.now }
    requires upper { upper < length members.now }
    requires lower { lower < length members.now }
    ensures { Does (MappingMade members.now row.now upper lower) result }
{
    let file = named_file(alloc, &row.name, b".map")?;
    judged(
        alloc,
        &file,
        mapping_between(alloc, &members[upper], &members[lower], &row.tree),
    )
}

// What the mapping between two interfaces stands for.
#[tactic(auto, using(crate::proofs::Meant::tells_meant))]
fn mapping_between(
    alloc: Global,
    upper: &Member,
    lower: &Member,
    tree: &MappingTree,
) -> Result<Mapping, TextFault>
    requires { HasNames lower.now }
    ensures { Tells (MadeBetween (Some upper.now) (Some lower.now) tree.now) result }
{
    elaborate_mapping(
        alloc,
        &upper.elaborated.spec,
        &lower.elaborated.spec,
        &lower.elaborated.scopes,
        tree,
    )
}
