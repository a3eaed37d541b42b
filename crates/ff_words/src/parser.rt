// The program's command line, told to `clap`.
ghost use Rattle.std.specs.Prelude.{◌≡◌, IfOk};
ghost use Rattle.clap.specs.Words.{App, app_of, with_subcommand};
ghost use Rattle.ff_words.specs.CommandLine.{IsToldAs, flatflash, load_app, named};

use clap::{Arg, ArgAction, Command};
use std::alloc::{AllocError, Global};

/// The program's command line.
pub(crate) fn parser<'a>(alloc: Global) -> Result<Command<'a>, AllocError>
    ensures { IfOk result (λ parser. app_of parser ≡ flatflash) }
{
    let schedule = with(named(alloc), Command::new(alloc, "schedule"))?;
    let threads = with(schedule, Command::new(alloc, "threads"))?;
    with_load(alloc, threads)
}

// The program's name.
fn named<'a>(alloc: Global) -> Command<'a>
    ensures { IsToldAs result named }
{
    Command::new(alloc, "flatflash")
        .disable_help_flag(true)
        .disable_help_subcommand(true)
        .subcommand_required(true)
}

// The command `load`, with its number.
fn load<'a>(alloc: Global) -> Result<Command<'a>, AllocError>
    ensures { IfOk result (λ load. IsToldAs load load_app) }
{
    let number = Arg::new(alloc, "N")
        .required(true)
        .action(ArgAction::Set)
        .value_parser(clap::value_parser!(u32));
    Command::new(alloc, "load").arg(number)
}

// A command with `load` below it.
fn with_load<'a>(alloc: Global, above: Command<'a>) -> Result<Command<'a>, AllocError>
    ensures { (a : App) → IsToldAs above.entry a
        → IfOk result (λ all. IsToldAs all (with_subcommand a load_app.top)) }
{
    match load(alloc) {
        Ok(load) => with(above, load),
        Err(error) => {
            drop(above);
            Err(error)
        }
    }
}

// A command with one more below it.
fn with<'a>(above: Command<'a>, below: Command<'a>) -> Result<Command<'a>, AllocError>
    ensures { (a b : App) → IsToldAs above.entry a → IsToldAs below.entry b
        → IfOk result (λ all. IsToldAs all (with_subcommand a b.top)) }
{
    above.subcommand(below)
}
