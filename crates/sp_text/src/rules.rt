//! The printed names of the rules, and their order at one place.

ghost use Rattle.std.specs.Prelude.{◌≡◌};
ghost use Rattle.sp_text.specs.Rules.{rule_name, rule_number};

use crate::fault::Rule;

impl Rule {
    /// Its name, as it is printed; the two levels of which some rules speak are no part of it.
    pub fn name(self) -> &'static str
        ensures { result.now ≡ rule_name self }
    {
        match self {
            Rule::WrongName => "WrongName",
            Rule::TwiceDeclared => "TwiceDeclared",
            Rule::UnknownName => "UnknownName",
            Rule::WrongKind => "WrongKind",
            Rule::Cycle(..) => "Cycle",
            Rule::NoLub(..) => "NoLub",
            Rule::NoGlb(..) => "NoGlb",
            Rule::WrongCount => "WrongCount",
            Rule::WrongType => "WrongType",
            Rule::NotFinite => "NotFinite",
            Rule::Cyclic => "Cyclic",
            Rule::ReadsState => "ReadsState",
            Rule::LevelReadsState => "LevelReadsState",
            Rule::LevelQuantifies => "LevelQuantifies",
            Rule::NoLevel => "NoLevel",
            Rule::NewValueMisplaced => "NewValueMisplaced",
            Rule::NotDetermining => "NotDetermining",
            Rule::TargetNotInjective => "TargetNotInjective",
            Rule::NewValueOnRight => "NewValueOnRight",
            Rule::NewValueInGuard => "NewValueInGuard",
            Rule::ResultMissing => "ResultMissing",
            Rule::ResultTwice => "ResultTwice",
            Rule::NoPopulation => "NoPopulation",
            Rule::NoTable => "NoTable",
            Rule::NotInPopulation => "NotInPopulation",
            Rule::NotProper => "NotProper",
            Rule::NotVisible => "NotVisible",
            Rule::LatticeDiffers => "LatticeDiffers",
            Rule::NoMapping => "NoMapping",
            Rule::NewValueCycle => "NewValueCycle",
            Rule::BadByte => "BadByte",
            Rule::OpenComment => "OpenComment",
            Rule::NumberTooLarge => "NumberTooLarge",
            Rule::Unexpected => "Unexpected",
            Rule::BadLine => "BadLine",
        }
    }

    /// Its number, by which the rules broken at one place are ordered.
    pub fn number(self) -> u8
        ensures { result ≡ rule_number self }
    {
        match self {
            Rule::WrongName => 1,
            Rule::TwiceDeclared => 2,
            Rule::UnknownName => 3,
            Rule::WrongKind => 4,
            Rule::Cycle(..) => 5,
            Rule::NoLub(..) => 6,
            Rule::NoGlb(..) => 7,
            Rule::WrongCount => 8,
            Rule::WrongType => 9,
            Rule::NotFinite => 10,
            Rule::Cyclic => 11,
            Rule::ReadsState => 12,
            Rule::LevelReadsState => 13,
            Rule::LevelQuantifies => 14,
            Rule::NoLevel => 15,
            Rule::NewValueMisplaced => 16,
            Rule::NotDetermining => 17,
            Rule::TargetNotInjective => 18,
            Rule::NewValueOnRight => 19,
            Rule::NewValueInGuard => 20,
            Rule::ResultMissing => 21,
            Rule::ResultTwice => 22,
            Rule::NoPopulation => 23,
            Rule::NoTable => 24,
            Rule::NotInPopulation => 25,
            Rule::NotProper => 26,
            Rule::NotVisible => 27,
            Rule::LatticeDiffers => 28,
            Rule::NoMapping => 29,
            Rule::NewValueCycle => 30,
            Rule::BadByte => 31,
            Rule::OpenComment => 32,
            Rule::NumberTooLarge => 33,
            Rule::Unexpected => 34,
            Rule::BadLine => 35,
        }
    }
}
