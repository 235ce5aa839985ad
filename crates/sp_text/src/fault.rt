use std::alloc::{AllocError, AllocFailed};

/// Memory was refused.
#[derive(Clone, Copy, Debug, PartialEq, Eq)]
pub struct Memory;

/// The bytes of a text from `start` on and before `end`, counted from 0.
#[derive(Clone, Copy, Debug, PartialEq, Eq)]
pub struct Span {
    pub start: u32,
    pub end: u32,
}

/// A rule of texts or of specifications, named as it is printed.
///
/// The first thirty are the rules of well-formedness, in the order in which they count where two stand at one place.
/// Those that speak of two levels carry their numbers.
#[derive(Clone, Copy, Debug, PartialEq, Eq)]
pub enum Rule {
    WrongName,
    TwiceDeclared,
    UnknownName,
    WrongKind,
    Cycle(u16, u16),
    NoLub(u16, u16),
    NoGlb(u16, u16),
    WrongCount,
    WrongType,
    NotFinite,
    Cyclic,
    ReadsState,
    LevelReadsState,
    LevelQuantifies,
    NoLevel,
    NewValueMisplaced,
    NotDetermining,
    TargetNotInjective,
    NewValueOnRight,
    NewValueInGuard,
    ResultMissing,
    ResultTwice,
    NoPopulation,
    NoTable,
    NotInPopulation,
    NotProper,
    NotVisible,
    LatticeDiffers,
    NoMapping,
    NewValueCycle,
    BadByte,
    OpenComment,
    NumberTooLarge,
    Unexpected,
    BadLine,
}

/// A rule broken at a place of a text.
#[derive(Clone, Copy, Debug, PartialEq, Eq)]
pub struct Malformed {
    pub span: Span,
    pub rule: Rule,
}

/// A quantity that has a greatest value, named as it is printed.
#[derive(Clone, Copy, Debug, PartialEq, Eq)]
pub enum Quantity {
    FileBytes,
    Tokens,
    Modules,
    Interfaces,
    Types,
    Members,
    Population,
    Parameters,
    Definitions,
    Functions,
    Assertions,
    Arguments,
    Exceptions,
    Changes,
    Height,
    EffectNesting,
    BoundVariables,
    Quantifiers,
    DerivationDepth,
    ExpressionNodes,
    FunctionNodes,
    Levels,
    Formulas,
    AssertionInstances,
    FormulaNodes,
    Terms,
    Atoms,
    Invocations,
    ChangedPlaces,
    CertificateDepth,
}

/// A quantity that exceeds its greatest value at a place of a text.
#[derive(Clone, Copy, Debug, PartialEq, Eq)]
pub struct Limit {
    pub span: Span,
    pub quantity: Quantity,
}

/// Why a text wasn't read.
#[derive(Clone, Copy, Debug, PartialEq, Eq)]
pub enum TextFault {
    Malformed(Malformed),
    Limit(Limit),
    Memory,
}

/// A fault in one of several texts, which `file` counts from 0 in their order.
#[derive(Clone, Copy, Debug, PartialEq, Eq)]
pub struct SpecFault {
    pub file: u16,
    pub fault: TextFault,
}

impl From<AllocError> for Memory {
    fn from(_refused: AllocError) -> Memory {
        Memory
    }
}

impl<T: Drop> From<AllocFailed<T>> for Memory {
    fn from(_refused: AllocFailed<T>) -> Memory {
        Memory
    }
}

impl From<AllocError> for TextFault {
    ghost use Rattle.std.specs.Prelude.{◌≡◌};
    ghost use Rattle.sp_text.specs.declared.fault.TextFault.TheVariants as fault;

    ghost from_gives = { λ _ f. f ≡ fault.Memory };

    fn from(_refused: AllocError) -> TextFault {
        TextFault::Memory
    }
}

impl<T: Drop> From<AllocFailed<T>> for TextFault {
    ghost use Rattle.std.specs.Prelude.{◌≡◌};
    ghost use Rattle.sp_text.specs.declared.fault.TextFault.TheVariants as fault;

    ghost from_gives = { λ _ f. f ≡ fault.Memory };

    fn from(_refused: AllocFailed<T>) -> TextFault {
        TextFault::Memory
    }
}

impl From<Memory> for TextFault {
    ghost use Rattle.std.specs.Prelude.{◌≡◌};
    ghost use Rattle.sp_text.specs.declared.fault.TextFault.TheVariants as fault;

    ghost from_gives = { λ _ f. f ≡ fault.Memory };

    fn from(_refused: Memory) -> TextFault {
        TextFault::Memory
    }
}
