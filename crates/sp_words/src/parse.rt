ghost use Rattle.std.specs.Prelude.{◌≡◌, ◌≢◌, [], ◌∷◌, ◌+◌, Some, true, false, map, drop, length, IfOk, IsErrOf, option_and_then, option_map};
ghost use Rattle.std.specs.List.{list_all};
ghost use Rattle.clap.specs.declared.builder.command.Command.TheViews.{out-Command as fields_of};
ghost use Rattle.clap.specs.Words.{app_of, fault_of, first_of, subcommand_of, subcommand_rows_of};
ghost use Rattle.sp_words.specs.App.{certificates_app, four_words, interfaces_app, named_word, one_word, scripts_app, special_app, three_words, two_words};
ghost use Rattle.sp_words.specs.Given.{given_of};
ghost use Rattle.sp_words.specs.Verb.{arguments_of, name_of};
ghost use Rattle.sp_words.specs.Words.{is_plain, texts_of};

use crate::{Verb, WordsFault};
use clap::error::ErrorKind;
use clap::{Arg, ArgMatches, Command};
use std::alloc::{AllocError, Global};

// A command with one argument.
fn of_one<'a>(alloc: Global, verb: &'a str, name: &'a str) -> Result<Command<'a>, AllocError>
    ensures app { IfOk result (λ command. app_of command ≡ named_word name.entry.now verb.entry.now) }
    ensures local { IfOk result (λ command. (fields_of command).has_globals ≡ false) }
{
    Command::new(alloc, verb).arg(Arg::new(alloc, name).required(true))
}

// A command over an interface.
fn of_interface<'a>(alloc: Global, verb: &'a str) -> Result<Command<'a>, AllocError>
    ensures app { IfOk result (λ command. app_of command ≡ one_word verb.entry.now) }
    ensures local { IfOk result (λ command. (fields_of command).has_globals ≡ false) }
{
    of_one(alloc, verb, "I")
}

// A command over an interface and certificates.
fn of_certificates<'a>(alloc: Global, verb: &'a str) -> Result<Command<'a>, AllocError>
    ensures app { IfOk result (λ command. app_of command ≡ two_words verb.entry.now) }
    ensures local { IfOk result (λ command. (fields_of command).has_globals ≡ false) }
{
    of_interface(alloc, verb)?.arg(Arg::new(alloc, "CERT").required(true))
}

// A command over an interface, an instance and a script.
fn of_script<'a>(alloc: Global, verb: &'a str) -> Result<Command<'a>, AllocError>
    ensures app { IfOk result (λ command. app_of command ≡ three_words verb.entry.now) }
    ensures local { IfOk result (λ command. (fields_of command).has_globals ≡ false) }
{
    of_interface(alloc, verb)?
        .arg(Arg::new(alloc, "INST").required(true))?
        .arg(Arg::new(alloc, "SCRIPT").required(true))
}

// The same, and a level.
fn of_level<'a>(alloc: Global, verb: &'a str) -> Result<Command<'a>, AllocError>
    ensures app { IfOk result (λ command. app_of command ≡ four_words verb.entry.now) }
    ensures local { IfOk result (λ command. (fields_of command).has_globals ≡ false) }
{
    of_script(alloc, verb)?.arg(Arg::new(alloc, "LEVEL").required(true))
}

// The commands over an interface alone.
fn with_interfaces<'a>(alloc: Global) -> Result<Command<'a>, AllocError>
    ensures { IfOk result (λ command. app_of command ≡ interfaces_app) }
{
    Command::new(alloc, "special")
        .no_binary_name(true)
        .subcommand(of_interface(alloc, "check")?)?
        .subcommand(of_interface(alloc, "formulas")?)?
        .subcommand(of_interface(alloc, "prove")?)
}

// These, and those over certificates.
fn with_certificates<'a>(alloc: Global) -> Result<Command<'a>, AllocError>
    ensures { IfOk result (λ command. app_of command ≡ certificates_app) }
{
    with_interfaces(alloc)?
        .subcommand(of_certificates(alloc, "verify")?)?
        .subcommand(of_certificates(alloc, "migrate")?)
}

// These, and those over scripts.
fn with_scripts<'a>(alloc: Global) -> Result<Command<'a>, AllocError>
    ensures { IfOk result (λ command. app_of command ≡ scripts_app) }
{
    with_certificates(alloc)?
        .subcommand(of_script(alloc, "run")?)?
        .subcommand(of_level(alloc, "compare")?)
}

// What the program takes.
fn special_command<'a>(alloc: Global) -> Result<Command<'a>, AllocError>
    ensures { IfOk result (λ command. app_of command ≡ special_app) }
{
    with_scripts(alloc)?
        .subcommand(of_one(alloc, "hierarchy", "H")?)?
        .subcommand(of_one(alloc, "sample", "N")?)
}

// What `clap` finds in the words.
fn parse<'a>(alloc: Global, words: &'a [String]) -> Result<ArgMatches<'a>, WordsFault>
    ensures taken { IfOk result (λ _. fault_of special_app (texts_of words.now) ≡ []) }
    ensures matches { IfOk result (λ m. subcommand_rows_of m ≡ subcommand_of special_app (texts_of words.now)) }
    ensures refused { IsErrOf result WordsFault.Words → fault_of special_app (texts_of words.now) ≢ [] }
{
    let Ok(command) = special_command(alloc) else {
        return Err(WordsFault::Memory);
    };
    match command.try_get_matches_from(words) {
        Ok(matches) => Ok(matches),
        Err(error) => match error.kind() {
            ErrorKind::OutOfMemory => Err(WordsFault::Memory),
            _ => Err(WordsFault::Words),
        },
    }
}

/// What `clap` finds in a verb and plain words: each argument of the verb is given its word.
pub fn arguments<'a>(
    alloc: Global,
    verb: Verb,
    words: &'a [String],
) -> Result<ArgMatches<'a>, WordsFault>
    requires verb { (rest : _) × (texts_of words.now ≡ name_of verb ∷ rest) × (list_all is_plain rest ≡ true) }
    ensures given { IfOk result (λ m. given_of (arguments_of verb) (subcommand_rows_of m) ≡ map Some (drop 1 (texts_of words.entry.now))) }
    ensures refused { IsErrOf result WordsFault.Words → length (texts_of words.entry.now) ≢ length (arguments_of verb) + 1 }
{
    parse(alloc, words)
}

/// The word that an argument is given, if any.
pub fn value_of<'a>(matches: &ArgMatches<'a>, name: &str) -> Option<&'a str>
    ensures { option_map (λ s. s.now) result ≡ option_and_then (λ p. first_of name.now p.1) (subcommand_rows_of matches.now) }
{
    let (_, inner) = matches.subcommand()?;
    inner.get_str(name)
}
