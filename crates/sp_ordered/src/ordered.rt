//! The names of an interface and its modules, with the lattice of its levels.

ghost use Rattle.std.specs.Prelude.{◌≡◌, ◌≢◌, [], ◌++◌, Err, List, IfOk, IfSome, Some};
ghost use Rattle.sp_text.specs.Violations.{JudgesFiles, NamesInFile, first_in_files};
ghost use Rattle.sp_text.specs.Violations as violations;
ghost use Rattle.sp_text.specs.declared.fault.SpecFault.{SpecFault as FaultValue};
ghost use Rattle.sp_text.specs.declared.fault.TextFault.TheVariants as fault;
ghost use Rattle.sp_text.specs.declared.violation.FileViolation.{FileViolation as FileValue};
ghost use Rattle.sp_text.specs.declared.violation.Violation.{Violation as Value};
ghost use Rattle.sp_lattice.specs.Order.{IsLatticeOrder, IsOrderOf, bottom_level, top_level};
ghost use Rattle.sp_scopes.specs.Scopes.{scopes_of};
ghost use Rattle.sp_order.specs.Orders.{AreEnds, HasLevels, IsLower, KeepsLattice, level_count};
ghost use Rattle.sp_tree.specs.declared.interface.InterfaceTree.{InterfaceTree as InterfaceValue};
ghost use Rattle.sp_ordered.specs.Judgements.{IsTold};
ghost use Rattle.sp_specification.specs.Orders as spec;
ghost use Rattle.sp_specification.specs.Orders.{IsOrderJudged, headers_broken};

use crate::alone::keyword;
use crate::judging::{Judgement, judge_order};
use sp_lattice::Lattice;
use sp_scopes::Scopes;
use sp_text::{
    FileViolation, Limit, Malformed, Requirement, Rule, Span, SpecFault, TextFault, Violation,
    breaks, earlier_in_files, in_file,
};
use sp_tree::{InterfaceTree, Module};
use std::alloc::Global;

/// The names of an interface and its modules, with the lattice of its levels.
#[derive(Drop)]
pub struct Ordered {
    pub scopes: Scopes,
    pub lattice: Lattice,
}

fn out_of_memory() -> SpecFault
    ensures { result.fault ≡ fault.Memory }
{
    SpecFault {
        file: 0,
        fault: TextFault::Memory,
    }
}

// The violation that a fault names, unless memory lacked.
fn violation_of(refused: SpecFault) -> Option<FileViolation>
    ensures { (vs : List FileValue) → NamesInFile vs refused.file refused.fault → IfSome result (λ v. Some v ≡ first_in_files vs) }
{
    let (span, broken) = match refused.fault {
        TextFault::Malformed(Malformed { span, rule }) => (span, Requirement::Rule(rule)),
        TextFault::Limit(Limit { span, quantity }) => (span, Requirement::Limit(quantity)),
        TextFault::Memory => return None,
    };
    Some(FileViolation {
        file: refused.file,
        violation: Violation { span, broken },
    })
}

// The fault that names what is found.
fn fault_of(found: Option<FileViolation>) -> SpecFault
    ensures { (vs : List FileValue) → found ≡ first_in_files vs → NamesInFile vs result.file result.fault }
{
    match found {
        None => out_of_memory(),
        Some(found) => SpecFault::from(found),
    }
}

// The earlier of a fault and a rule that the order breaks at its keyword.
fn earlier_fault(refused: SpecFault, place: Span, rule: Rule) -> SpecFault
    ensures { (vs : List FileValue) → NamesInFile vs refused.file refused.fault
        → NamesInFile (vs ++ violations.in_file 0 (violations.breaks place rule)) result.file result.fault }
{
    match violation_of(refused) {
        None => out_of_memory(),
        Some(found) => {
            let order = in_file(0, breaks(place, rule));
            fault_of(earlier_in_files(Some(found), order))
        }
    }
}

// The earlier of a fault and what is told of the order.
fn earliest_fault(refused: SpecFault, order: &Judgement, place: Span) -> SpecFault
    ensures { (i : InterfaceValue) (vs : List FileValue) (o : List Value) → IsTold i order.now → place ≡ spec.keyword i.lattice → IsOrderJudged i o
        → NamesInFile vs refused.file refused.fault → NamesInFile (vs ++ violations.in_file 0 o) result.file result.fault }
{
    match order {
        Judgement::Flawed(rule) => earlier_fault(refused, place, *rule),
        Judgement::Kept(_) => refused,
        Judgement::Unjudged => refused,
    }
}

/// The names of an interface and its modules, which stand in the order of MODULES, and the lattice of its levels.
///
/// # Errors
/// The first rule or limit that names, headers and the order of the levels break; `Memory` where they can't be
/// stored, and where there is no level, which no text leaves out.
pub fn order_names(
    alloc: Global,
    interface: &InterfaceTree,
    modules: &[Module],
) -> Result<Ordered, SpecFault>
    ensures judged { (o : List Value) → IsOrderJudged interface.now o
        → JudgesFiles (headers_broken interface.now modules.now o) (λ r. r.scopes ≡ scopes_of interface.now modules.now) result }
    ensures order { IfOk result (λ r. IsOrderOf (level_count r.scopes) (IsLower r.scopes.order) r.lattice) }
    ensures lattice { IfOk result (λ r. IsLatticeOrder r.lattice) }
    ensures levels { IfOk result (λ r. HasLevels r.scopes) }
    ensures ends { IfOk result (λ r. AreEnds r.scopes (bottom_level r.lattice) (top_level r.lattice)) }
    ensures kept { IfOk result (λ r. KeepsLattice r.scopes) }
    ensures fine { IfOk result (λ r. IsOrderJudged interface.now []) }
    ensures found { ((f : FaultValue) → result ≡ Err f → f.fault ≢ fault.Memory) → (o : List Value) × IsOrderJudged interface.now o }
{
    let order = match judge_order(alloc, interface) {
        Ok(order) => order,
        Err(_) => return Err(out_of_memory()),
    };
    let place = keyword(&interface.lattice);
    match Scopes::declare(alloc, interface, modules) {
        Ok(scopes) => match order {
            Judgement::Kept(lattice) => Ok(Ordered { scopes, lattice }),
            Judgement::Flawed(rule) => Err(SpecFault {
                file: 0,
                fault: TextFault::Malformed(Malformed { span: place, rule }),
            }),
            Judgement::Unjudged => unreachable!(),
        },
        Err(refused) => Err(earliest_fault(refused, &order, place)),
    }
}
