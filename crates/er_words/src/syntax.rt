//! The command as `clap` reads it: one simple command, whose values are any texts.

ghost use Rattle.std.specs.Prelude.{◌≡◌, IfOk, codes, false};
ghost use Rattle.clap.specs.Words.{app_of, rule_of, with_rule};
ghost use Rattle.er_words.specs.Words.{syntax, with_counts, with_mode, with_places};
ghost use Rattle.er_words.specs.Words.{json_flag, value_option};

use clap::{Arg, ArgAction, Command};
use std::alloc::{AllocError, Global};

/// A word for the mode, and the options of all modes.
pub(crate) fn syntax<'a>(alloc: Global) -> Result<Command<'a>, AllocError>
    ensures { IfOk result (λ c. app_of c ≡ syntax) }
{
    let command = with_places(alloc)?;
    command.arg(json_flag(alloc))
}

/// The same without the flag.
fn with_places<'a>(alloc: Global) -> Result<Command<'a>, AllocError>
    ensures { IfOk result (λ c. app_of c ≡ with_places) }
{
    let command = with_race(alloc)?;
    let command = with_option(alloc, command, "from")?;
    with_option(alloc, command, "to")
}

/// The same without the options that name two actions.
fn with_race<'a>(alloc: Global) -> Result<Command<'a>, AllocError>
    ensures { IfOk result (λ c.
        app_of c ≡ with_rule with_counts (value_option (codes "race"))) }
{
    let command = with_counts(alloc)?;
    with_option(alloc, command, "race")
}

/// The same without the options that name a place in the trace.
fn with_counts<'a>(alloc: Global) -> Result<Command<'a>, AllocError>
    ensures { IfOk result (λ c. app_of c ≡ with_counts) }
{
    let command = with_mode(alloc)?;
    let command = with_option(alloc, command, "shards")?;
    with_option(alloc, command, "number")
}

/// A word for the mode alone.
fn with_mode<'a>(alloc: Global) -> Result<Command<'a>, AllocError>
    ensures { IfOk result (λ c. app_of c ≡ with_mode) }
{
    Command::new(alloc, "er_cli").arg(Arg::new(alloc, "mode"))
}

/// The command with one more option that has a value.
fn with_option<'a>(
    alloc: Global,
    command: Command<'a>,
    name: &'a str,
) -> Result<Command<'a>, AllocError>
    ensures { IfOk result (λ c.
        app_of c ≡ with_rule (app_of command.entry) (value_option name.entry.now)) }
{
    command.arg(value_option(alloc, name))
}

/// An option with a value.
fn value_option<'a>(alloc: Global, name: &'a str) -> Arg<'a>
    ensures rule { rule_of result ≡ value_option name.entry.now }
    ensures local { result.global ≡ false }
{
    Arg::new(alloc, name).long(name)
}

/// The flag `--json`.
fn json_flag<'a>(alloc: Global) -> Arg<'a>
    ensures rule { rule_of result ≡ json_flag }
    ensures local { result.global ≡ false }
{
    Arg::new(alloc, "json")
        .long("json")
        .action(ArgAction::SetTrue)
}
