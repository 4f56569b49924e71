//! The table of modes: which options belong to a mode, and which it requires.

ghost use Rattle.std.specs.Prelude.{◌≡◌, ℕ, IfOk, Ok, codes};
ghost use Rattle.er_text.specs.Number.{IsNumber};
ghost use Rattle.er_words.specs.Words.{HasShards, IsCommand, IsNumberGiven, IsRaceGiven, IsShardsGiven};
ghost use Rattle.er_words.specs.Words.{given_of, text_of, word_of};

use crate::commands::{Command, Input, WordsFault};
use er_gen::Generator;
use er_text::read_number;

/// The most shards.
const MOST_SHARDS: u32 = 64;

/// The greatest number that a race can have.
const LAST_RACE: u32 = 262_144;

/// What is given of the options.
#[derive(Clone, Copy)]
pub(crate) struct Options<'a> {
    pub(crate) number: Option<&'a str>,
    pub(crate) race: Option<&'a str>,
    pub(crate) from: Option<&'a str>,
    pub(crate) to: Option<&'a str>,
    pub(crate) shards: Option<&'a str>,
    pub(crate) json: bool,
}

/// The command of a mode and what is given of the options.
pub(crate) fn command_of(mode: &str, options: Options) -> Result<Command, WordsFault>
    ensures asked { IfOk result (IsCommand mode.now (given_of options.entry)) }
    ensures exact { (c : Command) → IsCommand mode.now (given_of options.entry) c → result ≡ Ok c }
{
    match mode {
        "check" => check(Input::Text, options),
        "jsonl" => check(Input::Json, options),
        "gen" => generate(options),
        "schedule" => schedule(options),
        "explain" => explain(options),
        _ => Err(WordsFault::Usage),
    }
}

/// `--shards` and `--json` belong to it, whatever the input.
fn check(input: Input, options: Options) -> Result<Command, WordsFault>
    ensures asked { IfOk result (IsCommand (word_of input) (given_of options.entry)) }
    ensures exact { (c : Command) → IsCommand (word_of input) (given_of options.entry) c
        → result ≡ Ok c }
{
    match options {
        Options {
            number: None,
            race: None,
            from: None,
            to: None,
            shards: _,
            json,
        } => Ok(Command::Check { json, input }),
        _ => Err(WordsFault::Usage),
    }
}

/// `--shards` belongs to it, and it requires `--number`.
fn generate(options: Options) -> Result<Command, WordsFault>
    ensures asked { IfOk result (IsCommand (codes "gen") (given_of options.entry)) }
    ensures exact { (c : Command) → IsCommand (codes "gen") (given_of options.entry) c
        → result ≡ Ok c }
{
    match options {
        Options {
            number: Some(word),
            race: None,
            from: None,
            to: None,
            shards: _,
            json: false,
        } => {
            let number = number_of(word)?;
            Ok(Command::Gen { number })
        }
        _ => Err(WordsFault::Usage),
    }
}

/// `--shards` belongs to it, and it requires `--race`.
fn schedule(options: Options) -> Result<Command, WordsFault>
    ensures asked { IfOk result (IsCommand (codes "schedule") (given_of options.entry)) }
    ensures exact { (c : Command) → IsCommand (codes "schedule") (given_of options.entry) c
        → result ≡ Ok c }
{
    match options {
        Options {
            number: None,
            race: Some(word),
            from: None,
            to: None,
            shards: _,
            json: false,
        } => {
            let race = race_of(word)?;
            Ok(Command::Schedule { race })
        }
        _ => Err(WordsFault::Usage),
    }
}

/// It requires `--from` and `--to`, and no other option belongs to it.
fn explain(options: Options) -> Result<Command, WordsFault>
    ensures asked { IfOk result (IsCommand (codes "explain") (given_of options.entry)) }
    ensures exact { (c : Command) → IsCommand (codes "explain") (given_of options.entry) c
        → result ≡ Ok c }
{
    match options {
        Options {
            number: None,
            race: None,
            from: Some(first),
            to: Some(last),
            shards: None,
            json: false,
        } => {
            let from = value_of(first)?;
            let to = value_of(last)?;
            Ok(Command::Explain { from, to })
        }
        _ => Err(WordsFault::Usage),
    }
}

/// The value of `--number`.
fn number_of(word: &str) -> Result<u32, WordsFault>
    ensures read { IfOk result (IsNumberGiven word.now) }
    ensures exact { (n : ℕ) → IsNumberGiven word.now n → result ≡ Ok n }
{
    let number = value_of(word)?;
    if !Generator::has_trace(number) {
        return Err(WordsFault::Usage);
    }
    Ok(number)
}

/// The value of `--race`.
fn race_of(word: &str) -> Result<u32, WordsFault>
    ensures read { IfOk result (IsRaceGiven word.now) }
    ensures exact { (n : ℕ) → IsRaceGiven word.now n → result ≡ Ok n }
{
    let race = value_of(word)?;
    if race < 1 || race > LAST_RACE {
        return Err(WordsFault::Usage);
    }
    Ok(race)
}

/// The number of shards: 1 where none is given.
pub(crate) fn shards_of(word: Option<&str>) -> Result<u32, WordsFault>
    ensures read { IfOk result (HasShards (text_of word.entry)) }
    ensures exact { (n : ℕ) → HasShards (text_of word.entry) n → result ≡ Ok n }
{
    let Some(word) = word else {
        return Ok(1);
    };
    shards_given(word)
}

/// The value of `--shards`.
fn shards_given(word: &str) -> Result<u32, WordsFault>
    ensures read { IfOk result (IsShardsGiven word.now) }
    ensures exact { (n : ℕ) → IsShardsGiven word.now n → result ≡ Ok n }
{
    let shards = value_of(word)?;
    if shards < 1 || shards > MOST_SHARDS {
        return Err(WordsFault::Usage);
    }
    Ok(shards)
}

/// The value of an option that may be any number.
fn value_of(word: &str) -> Result<u32, WordsFault>
    ensures read { IfOk result (IsNumber word.now) }
    ensures exact { (n : ℕ) → IsNumber word.now n → result ≡ Ok n }
{
    match read_number(word.as_bytes()) {
        Ok(number) => Ok(number),
        Err(_) => Err(WordsFault::Usage),
    }
}
