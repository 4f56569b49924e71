//! From the words that a user gives to what they ask for.

ghost use Rattle.std.specs.Prelude.{◌≡◌, ◌⊎◌, ◌∷◌, IfOk, Err, Ok, codes, map, string_bytes};
ghost use Rattle.clap.specs.Words.{first_of, found_of, rows_of};
ghost use Rattle.er_words.specs.Words.{Asks, AsksBy, IsAsked, given_in, given_of, text_of};
ghost use Rattle.er_words.specs.Words.{mode_word, wants_json};

use crate::commands::{Asked, WordsFault};
use crate::modes::{Options, command_of, shards_of};
use crate::syntax::syntax;
use clap::ArgMatches;
use clap::error::ErrorKind;
use std::alloc::{AllocError, Global};

/// What the words behind the program's own name ask for.
pub fn read_words(alloc: Global, words: &[String]) -> Result<Asked, WordsFault>
    ensures asked { IfOk result (Asks (map string_bytes words.now)) }
    ensures exact { (c : Asked) → Asks (map string_bytes words.now) c
        → (result ≡ Ok c) ⊎ (result ≡ Err WordsFault.NoMemory) }
{
    let Ok(line) = line_of(alloc, words) else {
        return Err(WordsFault::NoMemory);
    };
    read_line(alloc, line.as_slice())
}

/// The program's name, and the words behind it.
fn line_of<'a>(alloc: Global, words: &'a [String]) -> Result<Vec<&'a str>, AllocError>
    ensures { IfOk result (λ line. map (λ w. w.now) line.items
        ≡ codes "er_cli" ∷ map string_bytes words.now) }
{
    let mut line = Vec::new(alloc);
    line.push("er_cli")?;
    for word in words {
        line.push(word.as_str())?;
    }
    Ok(line)
}

/// What a line asks for.
fn read_line<'a>(alloc: Global, line: &'a [&'a str]) -> Result<Asked, WordsFault>
    ensures asked { IfOk result (AsksBy (map (λ w. w.now) line.entry.now)) }
    ensures exact { (c : Asked) → AsksBy (map (λ w. w.now) line.entry.now) c
        → (result ≡ Ok c) ⊎ (result ≡ Err WordsFault.NoMemory) }
{
    let Ok(syntax) = syntax(alloc) else {
        return Err(WordsFault::NoMemory);
    };
    match syntax.try_get_matches_from(line) {
        Ok(matches) => found(&matches),
        Err(fault) => {
            if fault.kind() == ErrorKind::OutOfMemory {
                Err(WordsFault::NoMemory)
            } else {
                Err(WordsFault::Usage)
            }
        }
    }
}

/// What the matches ask for.
fn found(matches: &ArgMatches) -> Result<Asked, WordsFault>
    ensures asked { IfOk result (IsAsked (rows_of (found_of matches.now))) }
    ensures exact { (c : Asked) → IsAsked (rows_of (found_of matches.now)) c → result ≡ Ok c }
{
    let mode = mode_given(matches);
    let options = options_given(matches);
    let command = command_of(mode, options)?;
    let shards = shards_of(options.shards)?;
    Ok(Asked { command, shards })
}

/// The word for the mode. Where there is none, it is `check`.
#[tactic(auto, using(crate::proofs::FoundLemmas::word_read))]
fn mode_given<'a>(matches: &ArgMatches<'a>) -> &'a str
    ensures { result.now ≡ mode_word (rows_of (found_of matches.now)) }
{
    matches.get_str("mode").unwrap_or("check")
}

/// What is given of the options.
fn options_given<'a>(matches: &ArgMatches<'a>) -> Options<'a>
    ensures { given_of result ≡ given_in (rows_of (found_of matches.now)) }
{
    Options {
        number: value_given(matches, "number"),
        race: value_given(matches, "race"),
        from: value_given(matches, "from"),
        to: value_given(matches, "to"),
        shards: value_given(matches, "shards"),
        json: json_given(matches),
    }
}

/// The value of an option, where it is given.
#[tactic(auto, using(crate::proofs::FoundLemmas::option_read))]
fn value_given<'a>(matches: &ArgMatches<'a>, name: &str) -> Option<&'a str>
    ensures { text_of result ≡ first_of name.now (rows_of (found_of matches.now)) }
{
    matches.get_str(name)
}

/// Whether `--json` is given.
fn json_given(matches: &ArgMatches) -> bool
    ensures { result ≡ wants_json (rows_of (found_of matches.now)) }
{
    matches.get_one::<bool>("json").unwrap_or(false)
}
