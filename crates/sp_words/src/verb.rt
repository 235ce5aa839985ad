ghost use Rattle.std.specs.Prelude.{◌≡◌};
ghost use Rattle.sp_words.specs.Verb.{name_of, verb_of};

/// The first word of a command.
#[derive(Clone, Copy, Debug, PartialEq, Eq)]
pub enum Verb {
    Check,
    Formulas,
    Prove,
    Verify,
    Migrate,
    Run,
    Compare,
    Hierarchy,
    Sample,
}

impl Verb {
    /// The verb that a word is, if any.
    pub fn named(word: &str) -> Option<Verb>
        ensures { result ≡ verb_of word.now }
    {
        if word == "check" {
            return Some(Verb::Check);
        }
        if word == "formulas" {
            return Some(Verb::Formulas);
        }
        if word == "prove" {
            return Some(Verb::Prove);
        }
        if word == "verify" {
            return Some(Verb::Verify);
        }
        if word == "migrate" {
            return Some(Verb::Migrate);
        }
        if word == "run" {
            return Some(Verb::Run);
        }
        if word == "compare" {
            return Some(Verb::Compare);
        }
        if word == "hierarchy" {
            return Some(Verb::Hierarchy);
        }
        if word == "sample" {
            return Some(Verb::Sample);
        }
        None
    }
}
