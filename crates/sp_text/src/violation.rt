//! What judging a text finds: rules and limits that are broken, and the first of them.

ghost use Rattle.std.specs.Prelude.{◌≡◌, ◌++◌, List};
ghost use Rattle.sp_text.specs.Firsts.{behind, earliest_by};
ghost use Rattle.sp_text.specs.Violations as violations;
ghost use Rattle.sp_text.specs.Violations.{first, first_in_files};
ghost use Rattle.sp_text.specs.declared.violation.Violation.{Violation as Value};
ghost use Rattle.sp_text.specs.declared.violation.FileViolation.{FileViolation as FileValue};

use crate::fault::{Limit, Malformed, Quantity, Rule, Span, SpecFault, TextFault};

/// What a text may break: a rule, or the greatest value of a quantity.
#[derive(Clone, Copy, Debug, PartialEq, Eq)]
pub enum Requirement {
    Rule(Rule),
    Limit(Quantity),
}

/// A rule or a limit that a text breaks, with its place.
#[derive(Clone, Copy, Debug, PartialEq, Eq)]
pub struct Violation {
    pub span: Span,
    pub broken: Requirement,
}

/// A violation in one of several texts, which `file` counts from 0 in their order.
#[derive(Clone, Copy, Debug, PartialEq, Eq)]
pub struct FileViolation {
    pub file: u16,
    pub violation: Violation,
}

impl Requirement {
    /// By which what is broken at one place is ordered: the number of the rule, or 100 and more for a limit.
    pub fn number(self) -> u8
        ensures { result ≡ violations.number_of self }
    {
        match self {
            Requirement::Rule(rule) => rule.number(),
            Requirement::Limit(quantity) => 100 + quantity.number(),
        }
    }
}

impl Violation {
    /// Whether it stands before `other`: by its start, then by its number.
    pub fn is_sooner(self, other: Violation) -> bool
        ensures { result ≡ violations.sooner self other }
    {
        let (here, there) = (self.span.start, other.span.start);
        here < there || (here == there && self.broken.number() < other.broken.number())
    }
}

impl FileViolation {
    /// Whether it stands before `other`: by its file, its start, then its number.
    pub fn is_sooner(self, other: FileViolation) -> bool
        ensures { result ≡ violations.sooner_in_files self other }
    {
        self.file < other.file
            || (self.file == other.file && self.violation.is_sooner(other.violation))
    }
}

/// The rule is broken there.
pub fn breaks(span: Span, rule: Rule) -> Option<Violation>
    ensures { result ≡ first (violations.breaks span rule) }
{
    Some(Violation {
        span,
        broken: Requirement::Rule(rule),
    })
}

/// The quantity exceeds its greatest value there.
pub fn exceeds(span: Span, quantity: Quantity) -> Option<Violation>
    ensures { result ≡ first (violations.exceeds span quantity) }
{
    Some(Violation {
        span,
        broken: Requirement::Limit(quantity),
    })
}

/// The first of two lists, from the first of each.
pub fn earlier(one: Option<Violation>, other: Option<Violation>) -> Option<Violation>
    ensures { (xs : List Value) (ys : List Value) → one ≡ first xs → other ≡ first ys → result ≡ first (xs ++ ys) }
{
    sooner_of(one, other)
}

// The sooner of two that may be there.
fn sooner_of(one: Option<Violation>, other: Option<Violation>) -> Option<Violation>
    ensures { result ≡ earliest_by violations.sooner one other }
{
    match (one, other) {
        (Some(one), Some(other)) => Some(if other.is_sooner(one) { other } else { one }),
        (Some(one), None) => Some(one),
        (None, other) => other,
    }
}

/// What the parts break, or where they break nothing, what the whole breaks.
pub fn otherwise(inner: Option<Violation>, own: Option<Violation>) -> Option<Violation>
    ensures { (xs : List Value) (ys : List Value) → inner ≡ first xs → own ≡ first ys → result ≡ first (behind xs ys) }
{
    match inner {
        Some(found) => Some(found),
        None => own,
    }
}

/// The first violation of a file's text, as one of several texts.
#[tactic(auto, using(crate::proofs::Firsts::first_in_file))]
pub fn in_file(file: u16, found: Option<Violation>) -> Option<FileViolation>
    ensures { (xs : List Value) → found ≡ first xs → result ≡ first_in_files (violations.in_file file xs) }
{
    match found {
        Some(violation) => Some(FileViolation { file, violation }),
        None => None,
    }
}

/// The first of two lists over several files, from the first of each.
pub fn earlier_in_files(
    one: Option<FileViolation>,
    other: Option<FileViolation>,
) -> Option<FileViolation>
    ensures { (xs : List FileValue) (ys : List FileValue) → one ≡ first_in_files xs → other ≡ first_in_files ys
        → result ≡ first_in_files (xs ++ ys) }
{
    sooner_in_files_of(one, other)
}

// The sooner of two that may be there.
fn sooner_in_files_of(
    one: Option<FileViolation>,
    other: Option<FileViolation>,
) -> Option<FileViolation>
    ensures { result ≡ earliest_by violations.sooner_in_files one other }
{
    match (one, other) {
        (Some(one), Some(other)) => Some(if other.is_sooner(one) { other } else { one }),
        (Some(one), None) => Some(one),
        (None, other) => other,
    }
}

/// What an earlier pass finds, or where it finds nothing, what a later one finds.
pub fn otherwise_in_files(
    pass: Option<FileViolation>,
    later: Option<FileViolation>,
) -> Option<FileViolation>
    ensures { (xs : List FileValue) (ys : List FileValue) → pass ≡ first_in_files xs → later ≡ first_in_files ys
        → result ≡ first_in_files (behind xs ys) }
{
    match pass {
        Some(found) => Some(found),
        None => later,
    }
}

impl From<Violation> for TextFault {
    ghost use Rattle.std.specs.Prelude.{◌≡◌};
    ghost use Rattle.sp_text.specs.Violations.{fault_of};

    ghost from_gives = { λ v f. f ≡ fault_of v };

    fn from(violation: Violation) -> TextFault {
        let span = violation.span;
        match violation.broken {
            Requirement::Rule(rule) => TextFault::Malformed(Malformed { span, rule }),
            Requirement::Limit(quantity) => TextFault::Limit(Limit { span, quantity }),
        }
    }
}

impl From<FileViolation> for SpecFault {
    ghost use Rattle.std.specs.Prelude.{◌≡◌};
    ghost use Rattle.sp_text.specs.Violations.{spec_fault_of};

    ghost from_gives = { λ v f. f ≡ spec_fault_of v };

    fn from(found: FileViolation) -> SpecFault {
        SpecFault {
            file: found.file,
            fault: TextFault::from(found.violation),
        }
    }
}
