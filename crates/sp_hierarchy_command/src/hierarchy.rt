//! `hierarchy`: whether each flow formula of the interfaces of a hierarchy is proved, and each of the mappings between them.

ghost use Rattle.std.specs.Prelude.{◌≡◌, ◌++◌, IfOk, List, OnOk, map};
ghost use Rattle.std.specs.List.{All, list_all};
ghost use Rattle.sp_frame.specs.Endings.{Printing};
ghost use Rattle.sp_frame.specs.Loads.{Loads};
ghost use Rattle.sp_frame.specs.Steps.{Does, Each};
ghost use Rattle.sp_frame.specs.Uncertified.{spells};
ghost use Rattle.sp_hierarchy.specs.Judged.{IsMappedTo};
ghost use Rattle.sp_hierarchy.specs.Texts.{IsTextName};
ghost use Rattle.sp_hierarchy_command.specs.Hierarchy as definitions;
ghost use Rattle.sp_hierarchy_command.specs.Hierarchy.{HierarchyAnswered, HierarchyDone, HierarchyWork, MappedAnswered, MemberAnswered, texts_of, whole_answer};
ghost use Rattle.sp_hierarchy_command.specs.Reports.{as_lines, lines_of};

use crate::parts::{mapped_answered, member_answered};
use sp_frame::{LoadStop, Printed, Stop, Verdict, as_loading};
use sp_hierarchy::{Hierarchy, HierarchyTexts, Mapped, Member, judge_hierarchy, load_hierarchy};
use sp_outside::Library;
use sp_text::{Memory, Sequence, push_text};
use std::alloc::Global;

/// The lines of `hierarchy`.
///
/// # Errors
/// `Refused` where a step is refused, `ReadFault`, and `Memory`.
#[tactic(auto, using(sp_frame::proofs::Connective::prints_last, sp_frame::proofs::Connective::prints_unread), unfolding(crate::specs::Hierarchy::HierarchyDone))]
pub fn hierarchy_command<L: Library>(
    alloc: Global,
    lib: &mut L,
    file: &str,
) -> Result<Printed, LoadStop>
    ensures { Loads L.told L.faults lib.old lib.new (λ files. Printing spells (HierarchyDone file.now files)) result }
{
    let texts = load_hierarchy(alloc, lib, file)?;
    as_loading(hierarchy_work(alloc, file, &texts))
}

// The work over the texts.
#[tactic(auto, using(sp_frame::proofs::Connective::prints_after, sp_frame::proofs::Connective::prints_refused))]
fn hierarchy_work(alloc: Global, file: &str, texts: &HierarchyTexts) -> Result<Printed, Stop>
    requires { All IsTextName texts.now.interfaces }
    ensures { Does (Printing spells (HierarchyWork file.now texts.now)) result }
{
    let hierarchy = judge_hierarchy(alloc, file, texts)?;
    hierarchy_answered(alloc, &hierarchy)
}

// The work over what the texts stand for.
#[tactic(auto, using(sp_frame::proofs::Connective::prints_refused))]
fn hierarchy_answered(alloc: Global, hierarchy: &Hierarchy) -> Result<Printed, Stop>
    requires { All (IsMappedTo hierarchy.now.members) hierarchy.now.mappings }
    ensures { Does (Printing spells (HierarchyAnswered hierarchy.now)) result }
{
    let interfaces = interfaces_answered(alloc, hierarchy)?;
    let mappings = mappings_answered(alloc, hierarchy)?;
    let report = whole(alloc, interfaces.items(), mappings.items())?;
    Ok(report)
}

// The reports of the interfaces, in their order.
fn interfaces_answered(alloc: Global, hierarchy: &Hierarchy) -> Result<Sequence<Printed>, Stop>
    ensures { Does (Each MemberAnswered hierarchy.now.members) (as_lines result) }
{
    answer_members(alloc, hierarchy.members.items())
}

fn answer_members(alloc: Global, members: &[Member]) -> Result<Sequence<Printed>, Stop>
    ensures { Does (Each MemberAnswered members.now) (as_lines result) }
{
    let mut reports = Vec::new(alloc);
    for member in members {
        let report = member_answered(alloc, member)?;
        reports.push(report)?;
    }
    Ok(Sequence::new(reports))
}

// The reports of the mappings, in their order.
fn mappings_answered(alloc: Global, hierarchy: &Hierarchy) -> Result<Sequence<Printed>, Stop>
    requires { All (IsMappedTo hierarchy.now.members) hierarchy.now.mappings }
    ensures { Does (Each (MappedAnswered hierarchy.now.members) hierarchy.now.mappings) (as_lines result) }
{
    answer_mappings(alloc, hierarchy.members.items(), hierarchy.mappings.items())
}

fn answer_mappings(
    alloc: Global,
    members: &[Member],
    mappings: &[Mapped],
) -> Result<Sequence<Printed>, Stop>
    requires { All (IsMappedTo members.now) mappings.now }
    ensures { Does (Each (MappedAnswered members.now) mappings.now) (as_lines result) }
{
    let mut reports = Vec::new(alloc);
    for mapped in mappings {
        let report = mapped_answered(alloc, members, mapped)?;
        reports.push(report)?;
    }
    Ok(Sequence::new(reports))
}

// The reports one behind the other, and what follows of all.
fn whole(alloc: Global, interfaces: &[Printed], mappings: &[Printed]) -> Result<Printed, Memory>
    ensures { IfOk result (λ report. lines_of report ≡ whole_answer (map lines_of interfaces.now ++ map lines_of mappings.now)) }
{
    let accepted = both_accept(interfaces, mappings);
    let mut bytes = Vec::new(alloc);
    push_reports(alloc, &mut bytes, interfaces)?;
    push_reports(alloc, &mut bytes, mappings)?;
    push_text(alloc, &mut bytes, whole_line(accepted))?;
    Ok(Printed {
        bytes,
        verdict: whole_verdict(accepted),
    })
}

// Appends the reports, one behind the other.
fn push_reports(alloc: Global, out: &mut Vec<u8>, reports: &[Printed]) -> Result<(), Memory>
    ensures { OnOk result (out.new.items ≡ out.old.items ++ texts_of (map lines_of reports.now)) }
{
    for report in reports {
        push_text(alloc, out, &report.bytes)?;
    }
    Ok(())
}

// Whether each of these reports accepts.
#[tactic(auto, using(crate::proofs::Printing::both_are))]
fn both_accept(interfaces: &[Printed], mappings: &[Printed]) -> bool
    ensures { result ≡ definitions.all_accept (map lines_of interfaces.now ++ map lines_of mappings.now) }
{
    all_accept(interfaces) && all_accept(mappings)
}

// Whether each of these does.
fn all_accept(reports: &[Printed]) -> bool
    ensures { result ≡ list_all (λ r. definitions.is_accepting r.verdict) reports.now }
{
    reports.iter().all(|report| is_accepting(report.verdict))
}

fn is_accepting(verdict: Verdict) -> bool
    ensures { result ≡ definitions.is_accepting verdict }
{
    matches!(verdict, Verdict::Ok)
}

// The last line.
fn whole_line(accepted: bool) -> &'static [u8]
    ensures { result.now ≡ definitions.whole_line accepted }
{
    if accepted {
        b"HIERARCHY ACCEPTED\n"
    } else {
        b"HIERARCHY REFUSED\n"
    }
}

fn whole_verdict(accepted: bool) -> Verdict
    ensures { result ≡ definitions.whole_verdict accepted }
{
    if accepted {
        Verdict::Ok
    } else {
        Verdict::Refused
    }
}
