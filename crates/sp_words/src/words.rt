ghost use Rattle.std.specs.Prelude.{◌≡◌, None, Some, IfOk, IsErrOf, option_map};
ghost use Rattle.std.specs.List.{list_all};
ghost use Rattle.clap.specs.Words.{subcommand_rows_of};
ghost use Rattle.sp_words.specs.Given.{command_given, given_of};
ghost use Rattle.sp_words.specs.Meant.{command_meant};
ghost use Rattle.sp_words.specs.Verb.{arguments_of};
ghost use Rattle.sp_words.specs.Words.{IsSized, command_of, is_no_line_feed, is_plain, texts_of};

use crate::Verb;
use crate::parse::{arguments, value_of};
use crate::size::size_of;
use clap::ArgMatches;
use std::alloc::Global;

/// A command with its words.
#[derive(Clone, Copy, Debug)]
pub enum Command<'a> {
    /// The verdict of each formula.
    Check {
        interface: &'a str,
    },
    /// The list of formulas.
    Formulas {
        interface: &'a str,
    },
    /// The certificates.
    Prove {
        interface: &'a str,
    },
    /// The verdict of each certificate.
    Verify {
        interface: &'a str,
        certificates: &'a str,
    },
    /// The certificates in the second format.
    Migrate {
        interface: &'a str,
        certificates: &'a str,
    },
    /// The answers of a script.
    Run {
        interface: &'a str,
        instance: &'a str,
        script: &'a str,
    },
    /// A run beside the run of what a level sees.
    Compare {
        interface: &'a str,
        instance: &'a str,
        script: &'a str,
        level: &'a str,
    },
    /// The verdicts of all interfaces and mappings of a hierarchy.
    Hierarchy {
        hierarchy: &'a str,
    },
    /// The verdict of a sample of that size.
    Sample {
        size: u32,
    },
}

/// Why words are no command.
#[derive(Clone, Copy, Debug, PartialEq, Eq)]
pub enum WordsFault {
    /// They are no form of a command.
    Words,
    /// `clap` wants memory.
    Memory,
}

/// The command that the words are.
pub fn read_words<'a>(alloc: Global, words: &'a [String]) -> Result<Command<'a>, WordsFault>
    ensures command { IfOk result (λ command. command_of (texts_of words.entry.now) ≡ Some (command_meant command)) }
    ensures refused { IsErrOf result WordsFault.Words → command_of (texts_of words.entry.now) ≡ None }
    ensures sized { IfOk result (λ command. IsSized (command_meant command)) }
{
    let [first, ..] = words else {
        return Err(WordsFault::Words);
    };
    if !are_plain(&words[1..]) {
        return Err(WordsFault::Words);
    }
    let Some(verb) = Verb::named(first.as_str()) else {
        return Err(WordsFault::Words);
    };
    let matches = arguments(alloc, verb, words)?;
    match command_in(verb, &matches) {
        Some(command) => Ok(command),
        None => Err(WordsFault::Words),
    }
}

// The command of a verb with the words that its arguments are given.
fn command_in<'a>(verb: Verb, matches: &ArgMatches<'a>) -> Option<Command<'a>>
    ensures { option_map command_meant result ≡ command_given verb (given_of (arguments_of verb) (subcommand_rows_of matches.now)) }
{
    match verb {
        Verb::Check => Some(Command::Check {
            interface: value_of(matches, "I")?,
        }),
        Verb::Formulas => Some(Command::Formulas {
            interface: value_of(matches, "I")?,
        }),
        Verb::Prove => Some(Command::Prove {
            interface: value_of(matches, "I")?,
        }),
        Verb::Verify => Some(Command::Verify {
            interface: value_of(matches, "I")?,
            certificates: value_of(matches, "CERT")?,
        }),
        Verb::Migrate => Some(Command::Migrate {
            interface: value_of(matches, "I")?,
            certificates: value_of(matches, "CERT")?,
        }),
        Verb::Run => Some(Command::Run {
            interface: value_of(matches, "I")?,
            instance: value_of(matches, "INST")?,
            script: value_of(matches, "SCRIPT")?,
        }),
        Verb::Compare => Some(Command::Compare {
            interface: value_of(matches, "I")?,
            instance: value_of(matches, "INST")?,
            script: value_of(matches, "SCRIPT")?,
            level: value_of(matches, "LEVEL")?,
        }),
        Verb::Hierarchy => Some(Command::Hierarchy {
            hierarchy: value_of(matches, "H")?,
        }),
        Verb::Sample => Some(Command::Sample {
            size: size_of(value_of(matches, "N")?)?,
        }),
    }
}

fn are_plain(words: &[String]) -> bool
    ensures { result ≡ list_all is_plain (texts_of words.now) }
{
    for word in words {
        if !is_plain_word(word.as_str()) {
            return false;
        }
    }
    true
}

fn is_plain_word(word: &str) -> bool
    ensures { result ≡ is_plain word.now }
{
    match word.as_bytes() {
        [] => false,
        [first, ..] => *first != b'-' && is_one_line(word.as_bytes()),
    }
}

fn is_one_line(bytes: &[u8]) -> bool
    ensures { result ≡ list_all is_no_line_feed bytes.now }
{
    bytes.iter().all(|b| *b != b'\n')
}
