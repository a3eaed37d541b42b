// Reads the words of the command line.
ghost use Rattle.std.specs.Prelude.{◌≡◌, [], IfOk, IfErr, MatchOption, Some};
ghost use Rattle.std.specs.Prelude.{codes, map, string_bytes};
ghost use Rattle.clap.specs.Words.{fault_of, found_of, kind_of, one_of, rows_of};
ghost use Rattle.clap.specs.Words.{subcommand_of, subcommand_rows_of};
ghost use Rattle.clap.specs.declared.error.kind.ErrorKind.TheVariants as kind;
ghost use Rattle.ff_words.specs.CommandLine.{flatflash};
ghost use Rattle.ff_words.specs.Words.{AreRefused, AskFor, HasNoNumber, HasNumber};
ghost use Rattle.ff_words.specs.Words.{IsEntered, IsNoCommand};

use crate::asked::{BadWords, Command};
use crate::parser::parser;
use clap::error::ErrorKind;
use clap::{ArgMatches, Error};
use std::alloc::Global;

/// Reads the words of the command line, of which the first is the program's name. What they mean
/// is what `clap` states of a command with the three subcommands. `Usage` comes where `clap`
/// refuses the words.
pub fn command(alloc: Global, words: &[String]) -> Result<Command, BadWords>
    ensures ok { IfOk result (AskFor (map string_bytes words.now)) }
    ensures refused { IfErr result (λ cause. cause ≡ BadWords.Usage
        → AreRefused (map string_bytes words.now)) }
{
    match matched(alloc, words) {
        Ok(matches) => asked(&matches).ok_or(BadWords::Usage),
        Err(cause) => Err(cause),
    }
}

fn matched<'a>(alloc: Global, words: &'a [String]) -> Result<ArgMatches<'a>, BadWords>
    ensures accepted { IfOk result (λ m.
        fault_of flatflash (map string_bytes words.entry.now) ≡ []) }
    ensures rows { IfOk result (λ m.
        subcommand_rows_of m ≡ subcommand_of flatflash (map string_bytes words.entry.now)) }
    ensures refused { IfErr result (λ cause. cause ≡ BadWords.Usage
        → AreRefused (map string_bytes words.entry.now)) }
{
    let Ok(parser) = parser(alloc) else {
        return Err(BadWords::NoMemory);
    };
    match parser.try_get_matches_from(words) {
        Ok(matches) => Ok(matches),
        Err(error) => Err(refusal_of(&error)),
    }
}

fn refusal_of(error: &Error) -> BadWords
    ensures { result ≡ BadWords.Usage → kind_of error.now ≡ kind.OutOfMemory → ⊥ }
{
    if error.kind() == ErrorKind::OutOfMemory {
        BadWords::NoMemory
    } else {
        BadWords::Usage
    }
}

fn asked(matches: &ArgMatches<'_>) -> Option<Command>
    ensures { MatchOption result (IsNoCommand (subcommand_rows_of matches.now))
        (IsEntered (subcommand_rows_of matches.now)) }
{
    match matches.subcommand() {
        Some((name, inner)) => entered(name, inner),
        None => None,
    }
}

fn entered(name: &str, matches: &ArgMatches<'_>) -> Option<Command>
    ensures { MatchOption result (IsNoCommand (Some (name.now, rows_of (found_of matches.now))))
        (IsEntered (Some (name.now, rows_of (found_of matches.now)))) }
{
    if name == "schedule" {
        Some(Command::Schedule)
    } else if name == "threads" {
        Some(Command::Threads)
    } else if name == "load" {
        load(matches)
    } else {
        None
    }
}

fn load(matches: &ArgMatches<'_>) -> Option<Command>
    ensures { MatchOption result (IsNoCommand (Some (codes "load", rows_of (found_of matches.now))))
        (IsEntered (Some (codes "load", rows_of (found_of matches.now)))) }
{
    match number(matches) {
        Some(number) => Some(Command::Load(number)),
        None => None,
    }
}

fn number(matches: &ArgMatches<'_>) -> Option<u32>
    ensures { MatchOption result (HasNoNumber (one_of (codes "N") (rows_of (found_of matches.now))))
        (HasNumber (one_of (codes "N") (rows_of (found_of matches.now)))) }
{
    matches.get_one::<u32>("N")
}
