//! The reports of an interface and of a mapping.

ghost use Rattle.std.specs.Prelude.{◌≡◌, ◌≤◌, ◌++◌, List, IfOk, OnOk, length, map};
ghost use Rattle.sp_text.specs.declared.limits.TheConstants.{MOST_FORMULAS};
ghost use Rattle.sp_core.specs.Mappings.{IsMappingTo};
ghost use Rattle.sp_formulas.specs.Formulas.{formula_as};
ghost use Rattle.sp_formulas.specs.Typed.{AreTypedFormulas};
ghost use Rattle.sp_map_formulas.specs.Listed.{IsMapListed};
ghost use Rattle.sp_report.specs.Headings.{interface_line};
ghost use Rattle.sp_frame.specs.Endings.{Printing};
ghost use Rattle.sp_frame.specs.Steps.{Does, Gives};
ghost use Rattle.sp_frame.specs.Uncertified.{spells};
ghost use Rattle.sp_formula_list.specs.Listed.{as_formulas};
ghost use Rattle.sp_hierarchy.specs.Judged.{IsMappedTo};
ghost use Rattle.sp_hierarchy_command.specs.Hierarchy.{MapFormulasListed, MappedAnswered, MappingAnswered, MemberAnswered, OwnedAnswered, mapping_line, owned_answer};

use sp_core::{Mapping, Spec};
use sp_deciding::{Decision, decide_all, open_count, push_decisions, push_proved, push_refused};
use sp_formula_laws::tell_typed;
use sp_formula_list::{listed, refused};
use sp_frame::{Printed, Stop, Verdict};
use sp_hierarchy::{Mapped, Member};
use sp_map_formulas::{map_formulas, tell_map_typed};
use sp_report::print_interface;
use sp_sequent::Formula;
use sp_text::{Memory, Name, Sequence, push_text};
use std::alloc::Global;

/// The report of an interface.
///
/// # Errors
/// `Refused` where a step is refused, and `Memory`.
pub fn member_answered(alloc: Global, member: &Member) -> Result<Printed, Stop>
    ensures { Does (Printing spells (MemberAnswered member.now)) result }
{
    let spec = &member.elaborated.spec;
    tell_typed(spec);
    let formulas = listed(alloc, spec, Some(&member.name))?;
    let line = interface_heading(alloc, spec)?;
    owned_answered(alloc, &member.name, line, spec, formulas.items())
}

// The line that names an interface.
fn interface_heading(alloc: Global, spec: &Spec) -> Result<Vec<u8>, Memory>
    ensures { IfOk result (λ line. line.items ≡ interface_line spec.now) }
{
    let mut line = Vec::new(alloc);
    print_interface(alloc, spec, &mut line)?;
    Ok(line)
}

/// The report of a mapping between these interfaces, over the specification of its lower one.
///
/// # Errors
/// `Refused` where a step is refused, and `Memory`.
pub fn mapped_answered(alloc: Global, members: &[Member], mapped: &Mapped) -> Result<Printed, Stop>
    requires { IsMappedTo members.now mapped.now }
    ensures { Does (Printing spells (MappedAnswered members.now mapped.now)) result }
{
    let lower = &members[mapped.lower];
    mapping_answered(alloc, &lower.elaborated.spec, &mapped.mapping)
}

// The report of a mapping to this specification.
fn mapping_answered(alloc: Global, spec: &Spec, mapping: &Mapping) -> Result<Printed, Stop>
    requires { IsMappingTo spec.now mapping.now }
    ensures { Does (Printing spells (MappingAnswered spec.now mapping.now)) result }
{
    tell_map_typed(spec, mapping);
    let formulas = map_listed(alloc, spec, mapping)?;
    let line = mapping_heading(alloc, mapping)?;
    owned_answered(alloc, &mapping.name, line, spec, formulas.items())
}

// The flow formulas of a mapping to this specification.
#[tactic(auto, using(crate::proofs::Few::few_mapped))]
fn map_listed(alloc: Global, spec: &Spec, mapping: &Mapping) -> Result<Sequence<Formula>, Stop>
    requires { IsMappingTo spec.now mapping.now }
    ensures does { Does (MapFormulasListed spec.now mapping.now) (as_formulas result) }
    ensures listed { IfOk result (IsMapListed spec.now mapping.now) }
    ensures few { IfOk result (λ all. length all ≤ MOST_FORMULAS) }
{
    match map_formulas(alloc, spec, mapping) {
        Ok(all) => Ok(Sequence::new(all)),
        Err(fault) => Err(refused(alloc, fault, Some(&mapping.name))),
    }
}

// The line that names a mapping.
fn mapping_heading(alloc: Global, mapping: &Mapping) -> Result<Vec<u8>, Memory>
    ensures { IfOk result (λ line. line.items ≡ mapping_line mapping.now) }
{
    let mut line = Vec::new(alloc);
    push_text(alloc, &mut line, b"MAPPING ")?;
    push_text(alloc, &mut line, mapping.name.bytes())?;
    push_text(alloc, &mut line, b"\n")?;
    Ok(line)
}

// The report of formulas over a specification, behind the line that names their owner.
#[tactic(auto, using(sp_frame::proofs::Connective::prints_after, sp_frame::proofs::Connective::prints_refused))]
fn owned_answered(
    alloc: Global,
    owner: &Name,
    line: Vec<u8>,
    spec: &Spec,
    made: &[Formula],
) -> Result<Printed, Stop>
    requires typed { AreTypedFormulas spec.now (map formula_as made.now) }
    requires few { length made.now ≤ MOST_FORMULAS }
    ensures { Does (Printing spells (OwnedAnswered owner.now line.items spec.now (map formula_as made.now))) result }
{
    let decisions = decide_all(alloc, spec, made, Some(owner))?;
    told(alloc, line, spec, made, decisions.items())
}

// The lines behind that one, the last of which tells whether all formulas are proved.
fn told(
    alloc: Global,
    line: Vec<u8>,
    spec: &Spec,
    made: &[Formula],
    decisions: &[Decision],
) -> Result<Printed, Stop>
    requires typed { AreTypedFormulas spec.now (map formula_as made.now) }
    ensures { Does (Printing spells (Gives (owned_answer line.items spec.now (map formula_as made.now) decisions.now))) result }
{
    let mut bytes = line;
    push_decisions(alloc, &mut bytes, spec, made, decisions)?;
    let open = open_count(decisions);
    if open > 0 {
        push_refused(alloc, &mut bytes, open, made.len())?;
        return Ok(Printed {
            bytes,
            verdict: Verdict::Refused,
        });
    }
    push_proved(alloc, &mut bytes, made.len())?;
    Ok(Printed {
        bytes,
        verdict: Verdict::Ok,
    })
}
