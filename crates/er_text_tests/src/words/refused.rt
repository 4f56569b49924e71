//! Words that are not accepted.

use crate::words::reading::read;
use er_words::{WordsFault, read_words};
use std::test::Fail;

static REFUSED: [&str; 66] = [
    "check check",
    "check gen",
    "nonsense",
    "Check",
    "chec",
    "checks",
    "gEn",
    "check --number 5",
    "--number 5",
    "--number 5 --json",
    "gen",
    "gen --json",
    "gen --number",
    "gen --number 0",
    "gen --number 1501",
    "gen --number 4294967297",
    "gen --number 08",
    "gen --number +8",
    "gen --number -8",
    "gen --number 8.0",
    "gen --number=",
    "gen --number five",
    "gen --number 5 6",
    "gen --number 5 --json",
    "gen --number 5 --number 5",
    "gen --number 5 --number 6",
    "--json --json",
    "--json=true",
    "-j",
    "--jso",
    "check --race 1",
    "json",
    "jsonlines",
    "jsonl check",
    "jsonl --number 5",
    "jsonl --race 1",
    "check --from 0 --to 1",
    "gen --number 5 --race 1",
    "schedule",
    "schedule --race",
    "schedule --race 0",
    "schedule --race 262145",
    "schedule --race 01",
    "schedule --race 1 --race 1",
    "schedule --race 1 --json",
    "schedule --race 1 --number 5",
    "schedule --race 1 --from 0",
    "schedule --race 1 --shards 0",
    "explain",
    "explain --from 0",
    "explain --to 0",
    "explain --from 0 --to",
    "explain --from 0 --to 4294967296",
    "explain --from 00 --to 1",
    "explain --from 0 --to 1 --to 1",
    "explain --from 0 --to 1 --json",
    "explain --from 0 --to 1 --race 1",
    "explain --from 0 --to 1 --shards 1",
    "explains --from 0 --to 1",
    "--shards",
    "--shards 8 --shards 8",
    "--shards 0",
    "--shards 65",
    "--shards 08",
    "--help",
    "--version",
];

#[test]
fn usage(rt: HostRuntime) -> Result<(), Fail> {
    for line in &REFUSED {
        let command = read(rt.alloc(), line)?;
        assert_eq!(rt; command, Err(WordsFault::Usage));
    }
    Ok(())
}

#[test]
fn an_empty_word(rt: HostRuntime) -> Result<(), Fail> {
    let alloc = rt.alloc();
    let words = vec![in alloc; String::new(alloc)]?;
    assert_eq!(rt; read_words(alloc, &words), Err(WordsFault::Usage));
    Ok(())
}
