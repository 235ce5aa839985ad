ghost use Rattle.std.specs.Prelude.{◌≡◌};
ghost use Rattle.sp_rules.specs.Table.{rule_of};

/// Terms i and j are equal, or i is a level below that of j, or the same.
#[derive(Clone, Copy, PartialEq, Eq, Debug)]
pub enum Fact {
    Eq(u32, u32),
    Le(u32, u32),
}

/// A fact, the number of the rule by which it follows, and the further terms p and q that this rule uses; 0 where it uses
/// none.
#[derive(Clone, Copy, PartialEq, Eq, Debug)]
pub struct Step {
    pub fact: Fact,
    pub rule: u8,
    pub p: u32,
    pub q: u32,
}

/// What a step lacks.
#[derive(Clone, Copy, PartialEq, Eq, Debug)]
pub enum Lack {
    /// One of its numbers is no term.
    Number,
    /// It doesn't have the form of its rule.
    Form,
    /// Its first premise that isn't there; of two of which one is enough, the first.
    Fact(Fact),
}

/// A rule by its name.
#[derive(Clone, Copy, PartialEq, Eq, Debug)]
pub enum Rule {
    K1,
    K2,
    K3,
    K4,
    K5,
    K6,
    K7,
    K8,
    K9,
    K10,
    K11,
    K12,
    K13,
    K14,
    K15,
    K16,
    K17,
    K18,
    K19,
    K20,
    K21,
    K22,
    K23,
}

/// The premises of a step.
#[derive(Clone, Copy, PartialEq, Eq, Debug)]
pub enum Needs {
    Nothing,
    One(Fact),
    Both(Fact, Fact),
    Either(Fact, Fact),
    /// That each argument of the first term equals that of the second term in the same place.
    Arguments(u32, u32),
}

/// The rule of a number, if there is one.
#[inline(always)]
pub fn rule_numbered(number: u8) -> Option<Rule>
    ensures { result ≡ rule_of number }
{
    match number {
        1 => Some(Rule::K1),
        2 => Some(Rule::K2),
        3 => Some(Rule::K3),
        4 => Some(Rule::K4),
        5 => Some(Rule::K5),
        6 => Some(Rule::K6),
        7 => Some(Rule::K7),
        8 => Some(Rule::K8),
        9 => Some(Rule::K9),
        10 => Some(Rule::K10),
        11 => Some(Rule::K11),
        12 => Some(Rule::K12),
        13 => Some(Rule::K13),
        14 => Some(Rule::K14),
        15 => Some(Rule::K15),
        16 => Some(Rule::K16),
        17 => Some(Rule::K17),
        18 => Some(Rule::K18),
        19 => Some(Rule::K19),
        20 => Some(Rule::K20),
        21 => Some(Rule::K21),
        22 => Some(Rule::K22),
        23 => Some(Rule::K23),
        _ => None,
    }
}
