//! `verify`: whether each flow formula of an interface has a certificate that checks.

ghost use Rattle.std.specs.Prelude.{◌≡◌, map};
ghost use Rattle.sp_cert.specs.Tree.{file_of, tree};
ghost use Rattle.sp_formulas.specs.Formulas.{formula_as, formulas};
ghost use Rattle.sp_frame.specs.Endings.{Printing};
ghost use Rattle.sp_frame.specs.Loads.{Loads};
ghost use Rattle.sp_frame.specs.Steps.{Does, Gives};
ghost use Rattle.sp_frame.specs.Uncertified.{spells};
ghost use Rattle.sp_frame.specs.declared.refusal.Verdict.TheVariants as verdict;
ghost use Rattle.sp_verify_command.specs.Judged.{extra_line, file_verdict, judgement_lines, judgements};
ghost use Rattle.sp_verify_command.specs.Verify.{VerifyAnswered, VerifyDone, VerifyWork, verify_answer};

use crate::judging::{Judgement, accepts, extra_count, judge_all, refused_count};
use crate::printed::{push_extra, push_judgements, push_refused};
use crate::reading::{Texts, load_texts};
use sp_cert::{Cert, CertFile};
use sp_core::Spec;
use sp_deciding::push_accepted;
use sp_formula_laws::tell_typed;
use sp_formula_list::listed;
use sp_frame::{LoadStop, Printed, Stop, Verdict, as_loading};
use sp_outside::Library;
use sp_report::print_interface;
use sp_sequent::Formula;
use sp_system::{Elaborated, judge_system};
use sp_unwinding::accept;
use sp_verdicts::certified_are_closed;
use std::alloc::Global;

/// The lines of `verify`.
///
/// # Errors
/// `Refused` where a step is refused, `ReadFault`, and `Memory`.
#[tactic(auto, using(sp_frame::proofs::Connective::prints_last, sp_frame::proofs::Connective::prints_unread), unfolding(crate::specs::Verify::VerifyDone))]
pub fn verify_command<L: Library>(
    alloc: Global,
    lib: &mut L,
    interface: &str,
    certificates: &str,
) -> Result<Printed, LoadStop>
    ensures { Loads L.told L.faults lib.old lib.new (λ files. Printing spells (VerifyDone interface.now certificates.now files)) result }
{
    let texts = load_texts(alloc, lib, interface, certificates)?;
    as_loading(verify_work(alloc, interface, &texts))
}

// The work over the texts.
#[tactic(auto, using(sp_frame::proofs::Connective::prints_after, sp_frame::proofs::Connective::prints_refused))]
fn verify_work(alloc: Global, interface: &str, texts: &Texts) -> Result<Printed, Stop>
    ensures { Does (Printing spells (VerifyWork interface.now texts.now)) result }
{
    let elaborated = judge_system(alloc, interface, &texts.system)?;
    let Elaborated { spec, scopes: _ } = elaborated;
    answered(alloc, spec, texts.certificates.file())
}

// The work over the specification.
fn answered(alloc: Global, spec: Spec, file: &CertFile) -> Result<Printed, Stop>
    ensures { Does (Printing spells (VerifyAnswered spec (file_of file.now).trees)) result }
{
    tell_typed(&spec);
    let formulas = listed(alloc, &spec, None)?;
    let certs = file.certs.as_slice();
    let judgements = judge_all(alloc, &spec, formulas.items(), certs)?;
    told(alloc, spec, formulas.items(), certs, judgements.items())
}

/// The lines, the last of which tells whether each formula has a certificate that checks.
pub fn told(
    alloc: Global,
    spec: Spec,
    made: &[Formula],
    certs: &[Cert],
    all: &[Judgement],
) -> Result<Printed, Stop>
    requires listed { map formula_as made.now ≡ formulas spec }
    requires judged { all.now ≡ judgements spec (map formula_as made.now) (map tree certs.now) }
    ensures { Does (Printing spells (Gives (verify_answer spec (map formula_as made.now) (map tree certs.now)))) result }
{
    let refused = refused_count(all);
    let extra = extra_count(made, certs);
    let mut bytes = Vec::new(alloc);
    print_interface(alloc, &spec, &mut bytes)?;
    push_judgements(alloc, &mut bytes, made, all)?;
    push_extra(alloc, &mut bytes, extra)?;
    if accepts(refused, extra) {
        certified_are_closed();
        let accepted = accept(spec, made);
        push_accepted(alloc, &mut bytes, &accepted, made.len())?;
        return Ok(Printed {
            bytes,
            verdict: Verdict::Ok,
        });
    }
    push_refused(alloc, &mut bytes, refused, made.len())?;
    Ok(Printed {
        bytes,
        verdict: Verdict::Refused,
    })
}
