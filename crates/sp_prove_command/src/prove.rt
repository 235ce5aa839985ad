//! `prove`: certificates of an interface, or the report of `check`.

ghost use Rattle.std.specs.Prelude.{◌≡◌, ◌<◌, ◌≤◌, ◌++◌, IfOk, length, map};
ghost use Rattle.sp_text.specs.declared.limits.TheConstants.{MOST_FORMULAS};
ghost use Rattle.sp_cert.specs.Spelling.{spelling};
ghost use Rattle.sp_cert.specs.Tree.{tree};
ghost use Rattle.sp_cert.specs.Within.{IsFile};
ghost use Rattle.sp_formulas.specs.Formulas.{formula_as, formulas};
ghost use Rattle.sp_formulas.specs.Typed.{AreTypedFormulas};
ghost use Rattle.sp_frame.specs.Endings.{Printing};
ghost use Rattle.sp_frame.specs.Loads.{Loads};
ghost use Rattle.sp_frame.specs.Steps.{Does, Gives};
ghost use Rattle.sp_report.specs.Headings.{interface_line};
ghost use Rattle.sp_deciding.specs.Verdicts.{all_lines, last_line};
ghost use Rattle.sp_prove_command.specs.Certificates.{AreCertificates, second_format};
ghost use Rattle.sp_prove_command.specs.Kept.{AreKept};
ghost use Rattle.sp_prove_command.specs.Prove.{ProveAnswered, ProveDone, ProveWork, prove_answer};

use crate::proving::{Proofs, prove_all};
use sp_cert::{Cert, CertFile, write_cert};
use sp_core::Spec;
use sp_deciding::{Decision, open_count, push_decisions, push_refused};
use sp_formula_laws::tell_typed;
use sp_formula_list::listed;
use sp_frame::{LoadStop, Printed, Stop, Verdict, as_loading};
use sp_outside::Library;
use sp_report::print_interface;
use sp_sequent::Formula;
use sp_system::{Elaborated, System, judge_system, load_system};
use sp_text::Memory;
use sp_unwinding::{Accepted, accept};
use std::alloc::Global;

/// The certificates of an interface, or the lines of `check`.
///
/// # Errors
/// `Refused` where a step is refused, `ReadFault`, and `Memory`.
#[tactic(auto, using(sp_frame::proofs::Connective::prints_last, sp_frame::proofs::Connective::prints_unread), unfolding(crate::specs::Prove::ProveDone))]
pub fn prove_command<L: Library>(
    alloc: Global,
    lib: &mut L,
    interface: &str,
) -> Result<Printed, LoadStop>
    ensures { Loads L.told L.faults lib.old lib.new (λ files. Printing AreCertificates (ProveDone interface.now files)) result }
{
    let system = load_system(alloc, lib, interface)?;
    as_loading(prove_work(alloc, interface, &system))
}

// The work over the texts.
#[tactic(auto, using(sp_frame::proofs::Connective::prints_after, sp_frame::proofs::Connective::prints_refused))]
fn prove_work(alloc: Global, interface: &str, system: &System) -> Result<Printed, Stop>
    ensures { Does (Printing AreCertificates (ProveWork interface.now system.now)) result }
{
    let elaborated = judge_system(alloc, interface, system)?;
    let Elaborated { spec, scopes: _ } = elaborated;
    answered(alloc, spec)
}

// The work over the specification.
fn answered(alloc: Global, spec: Spec) -> Result<Printed, Stop>
    ensures { Does (Printing AreCertificates (ProveAnswered spec)) result }
{
    tell_typed(&spec);
    let formulas = listed(alloc, &spec, None)?;
    let proofs = prove_all(alloc, &spec, formulas.items())?;
    told(alloc, spec, formulas.items(), proofs)
}

// The certificates where no formula is open, and else the lines.
fn told(alloc: Global, spec: Spec, made: &[Formula], proofs: Proofs) -> Result<Printed, Stop>
    requires listed { map formula_as made.now ≡ formulas spec }
    requires typed { AreTypedFormulas spec (map formula_as made.now) }
    requires few { length made.now ≤ MOST_FORMULAS }
    requires kept { AreKept spec (map formula_as made.now) proofs.decisions.items (map tree proofs.certs.items) }
    ensures { Does (Printing AreCertificates (Gives (prove_answer spec (map formula_as made.now) proofs.decisions.items))) result }
{
    let Proofs { decisions, certs } = proofs;
    let open = open_count(&decisions);
    if open > 0 {
        return Ok(refused(alloc, &spec, made, &decisions, open)?);
    }
    let accepted = accept(spec, made);
    Ok(proved(alloc, &accepted, certs)?)
}

// The lines of `check`, of which the last tells that so many formulas are unproved.
fn refused(
    alloc: Global,
    spec: &Spec,
    made: &[Formula],
    decisions: &[Decision],
    unproved: usize,
) -> Result<Printed, Memory>
    requires some { 0 < unproved }
    requires typed { AreTypedFormulas spec.now (map formula_as made.now) }
    ensures bytes { IfOk result (λ report. report.bytes.items ≡ interface_line spec.now ++ all_lines spec.now 1 (map formula_as made.now) decisions.now ++ last_line (length made.now) unproved) }
    ensures verdict { IfOk result (λ report. report.verdict ≡ Verdict.Refused) }
{
    let mut bytes = Vec::new(alloc);
    print_interface(alloc, spec, &mut bytes)?;
    push_decisions(alloc, &mut bytes, spec, made, decisions)?;
    push_refused(alloc, &mut bytes, unproved, made.len())?;
    Ok(Printed {
        bytes,
        verdict: Verdict::Refused,
    })
}

// The certificates as a file. Whoever prints them has an accepted specification.
fn proved(alloc: Global, _accepted: &Accepted, certs: Vec<Cert>) -> Result<Printed, Memory>
    requires { IsFile 64 (second_format (map tree certs.items)) }
    ensures bytes { IfOk result (λ report. report.bytes.items ≡ spelling (second_format (map tree certs.items))) }
    ensures verdict { IfOk result (λ report. report.verdict ≡ Verdict.Ok) }
{
    let mut bytes = Vec::new(alloc);
    let file = CertFile { format: 2, certs };
    write_cert(alloc, &file, &mut bytes)?;
    Ok(Printed {
        bytes,
        verdict: Verdict::Ok,
    })
}
