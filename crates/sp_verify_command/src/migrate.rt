//! `migrate`: the certificates of a file that `verify` accepts, in the second format.

ghost use Rattle.std.specs.Prelude.{◌≡◌, ◌++◌, IfOk, OnOk, map};
ghost use Rattle.sp_cert.specs.Spelling.{spelling};
ghost use Rattle.sp_cert.specs.Tree.{file_of, tree};
ghost use Rattle.sp_cert.specs.Within.{IsFile};
ghost use Rattle.sp_formulas.specs.Formulas.{formula_as, formulas};
ghost use Rattle.sp_formulas.specs.Typed.{AreTypedFormulas};
ghost use Rattle.sp_frame.specs.Endings.{Printing};
ghost use Rattle.sp_frame.specs.Loads.{Loads};
ghost use Rattle.sp_frame.specs.Steps.{Does, Gives};
ghost use Rattle.sp_frame.specs.Uncertified.{spells};
ghost use Rattle.sp_frame.specs.declared.refusal.Verdict.TheVariants as verdict;
ghost use Rattle.sp_text.specs.declared.limits.TheConstants.{MOST_CERTIFICATE_DEPTH};
ghost use Rattle.sp_verify_command.specs.Judged.{file_verdict, judgements};
ghost use Rattle.sp_verify_command.specs.Migrate.{MigrateAnswered, MigrateDone, MigrateWork, migrate_answer, migrated};

use crate::judging::{Judgement, accepts, extra_count, judge_all, refused_count};
use crate::lifting::lift_all;
use crate::reading::{Texts, load_texts};
use crate::verify::told;
use sp_cert::{Cert, CertFile, write_cert};
use sp_checker::{first_format_is_plain, lifted_is_spelled};
use sp_core::Spec;
use sp_formula_laws::tell_typed;
use sp_formula_list::listed;
use sp_frame::{LoadStop, Printed, Stop, Verdict, as_loading};
use sp_outside::Library;
use sp_sequent::Formula;
use sp_system::{Elaborated, judge_system};
use sp_text::Memory;
use std::alloc::Global;

/// The text of the migrated certificates, or the lines of `verify` where that doesn't accept them.
///
/// # Errors
/// `Refused` where a step is refused, `ReadFault`, and `Memory`.
#[tactic(auto, using(sp_frame::proofs::Connective::prints_last, sp_frame::proofs::Connective::prints_unread), unfolding(crate::specs::Migrate::MigrateDone))]
pub fn migrate_command<L: Library>(
    alloc: Global,
    lib: &mut L,
    interface: &str,
    certificates: &str,
) -> Result<Printed, LoadStop>
    ensures { Loads L.told L.faults lib.old lib.new (λ files. Printing spells (MigrateDone interface.now certificates.now files)) result }
{
    let texts = load_texts(alloc, lib, interface, certificates)?;
    as_loading(migrate_work(alloc, interface, &texts))
}

// The work over the texts.
#[tactic(auto, using(sp_frame::proofs::Connective::prints_after, sp_frame::proofs::Connective::prints_refused))]
fn migrate_work(alloc: Global, interface: &str, texts: &Texts) -> Result<Printed, Stop>
    ensures { Does (Printing spells (MigrateWork interface.now texts.now)) result }
{
    let elaborated = judge_system(alloc, interface, &texts.system)?;
    let Elaborated { spec, scopes: _ } = elaborated;
    answered(alloc, spec, texts.certificates.file())
}

// The work over the specification.
fn answered(alloc: Global, spec: Spec, file: &CertFile) -> Result<Printed, Stop>
    requires spelled { IsFile MOST_CERTIFICATE_DEPTH (file_of file.now) }
    ensures { Does (Printing spells (MigrateAnswered spec (file_of file.now))) result }
{
    tell_typed(&spec);
    let formulas = listed(alloc, &spec, None)?;
    let judgements = judge_all(alloc, &spec, formulas.items(), file.certs.as_slice())?;
    migrated(alloc, spec, formulas.items(), file, judgements.items())
}

// The text of the migrated file where each formula has a certificate that checks and none is too many, else the lines that
// tell it.
fn migrated(
    alloc: Global,
    spec: Spec,
    made: &[Formula],
    file: &CertFile,
    all: &[Judgement],
) -> Result<Printed, Stop>
    requires spelled { IsFile MOST_CERTIFICATE_DEPTH (file_of file.now) }
    requires listed { map formula_as made.now ≡ formulas spec }
    requires typed { AreTypedFormulas spec (map formula_as made.now) }
    requires judged { all.now ≡ judgements spec (map formula_as made.now) (file_of file.now).trees }
    ensures { Does (Printing spells (Gives (migrate_answer spec (map formula_as made.now) (file_of file.now)))) result }
{
    let certs = file.certs.as_slice();
    if accepts(refused_count(all), extra_count(made, certs)) {
        let bytes = rewritten(alloc, &spec, made, file)?;
        return Ok(Printed {
            bytes,
            verdict: Verdict::Ok,
        });
    }
    told(alloc, spec, made, certs, all)
}

// The text of the file in the second format. Each formula has a certificate that checks, and none is too many.
fn rewritten(
    alloc: Global,
    spec: &Spec,
    made: &[Formula],
    file: &CertFile,
) -> Result<Vec<u8>, Memory>
    requires spelled { IsFile MOST_CERTIFICATE_DEPTH (file_of file.now) }
    requires typed { AreTypedFormulas spec.now (map formula_as made.now) }
    requires accepted { file_verdict spec.now (map formula_as made.now) (file_of file.now).trees ≡ verdict.Ok }
    ensures { IfOk result (λ bytes. bytes.items ≡ spelling (migrated spec.now (map formula_as made.now) (file_of file.now))) }
{
    let mut bytes = Vec::new(alloc);
    if file.format == 2 {
        write_cert(alloc, file, &mut bytes)?;
        return Ok(bytes);
    }
    first_format_is_plain();
    lifted_is_spelled();
    let certs = lift_all(alloc, spec, made, file.certs.as_slice())?;
    write_cert(alloc, &CertFile { format: 2, certs }, &mut bytes)?;
    Ok(bytes)
}
