//! Words that are accepted, and what they ask for.

use crate::words::reading::read;
use er_words::{Asked, Command, Input};
use std::test::Fail;

static CHECKS: [(&str, bool); 6] = [
    ("", false),
    ("check", false),
    ("-- check", false),
    ("--json", true),
    ("check --json", true),
    ("--json check", true),
];

static LINES: [(&str, bool); 4] = [
    ("jsonl", false),
    ("jsonl --json", true),
    ("--json -- jsonl", true),
    ("--json jsonl", true),
];

static NUMBERS: [(&str, u32); 6] = [
    ("gen --number 1", 1),
    ("gen --number 5", 5),
    ("--number 5 gen", 5),
    ("gen --number=42", 42),
    ("gen --number 1499", 1499),
    ("gen --number 1500", 1500),
];

static RACES: [(&str, u32); 4] = [
    ("schedule --race 1", 1),
    ("--race 7 schedule", 7),
    ("schedule --race=42", 42),
    ("schedule --race 262144", 262_144),
];

static PAIRS: [(&str, u32, u32); 4] = [
    ("explain --from 0 --to 3", 0, 3),
    ("--to 3 explain --from 12", 12, 3),
    ("explain --from=2 --to=2", 2, 2),
    ("explain --from 4294967295 --to 0", 4_294_967_295, 0),
];

static SHARDS: [(&str, u32); 5] = [
    ("--shards 1", 1),
    ("check --shards 64", 64),
    ("--shards 8 gen --number 5", 8),
    ("jsonl --shards 2 --json", 2),
    ("schedule --race 1 --shards 3", 3),
];

#[test]
fn checks(rt: HostRuntime) -> Result<(), Fail> {
    for (line, json) in &CHECKS {
        let command = Command::Check {
            json: *json,
            input: Input::Text,
        };
        assert_eq!(rt; read(rt.alloc(), line)?, Ok(Asked { command, shards: 1 }));
    }
    Ok(())
}

#[test]
fn lines(rt: HostRuntime) -> Result<(), Fail> {
    for (line, json) in &LINES {
        let command = Command::Check {
            json: *json,
            input: Input::Json,
        };
        assert_eq!(rt; read(rt.alloc(), line)?, Ok(Asked { command, shards: 1 }));
    }
    Ok(())
}

#[test]
fn numbers(rt: HostRuntime) -> Result<(), Fail> {
    for (line, number) in &NUMBERS {
        let command = Command::Gen { number: *number };
        assert_eq!(rt; read(rt.alloc(), line)?, Ok(Asked { command, shards: 1 }));
    }
    Ok(())
}

#[test]
fn races(rt: HostRuntime) -> Result<(), Fail> {
    for (line, race) in &RACES {
        let command = Command::Schedule { race: *race };
        assert_eq!(rt; read(rt.alloc(), line)?, Ok(Asked { command, shards: 1 }));
    }
    Ok(())
}

#[test]
fn pairs(rt: HostRuntime) -> Result<(), Fail> {
    for (line, from, to) in &PAIRS {
        let command = Command::Explain {
            from: *from,
            to: *to,
        };
        assert_eq!(rt; read(rt.alloc(), line)?, Ok(Asked { command, shards: 1 }));
    }
    Ok(())
}

#[test]
fn shards(rt: HostRuntime) -> Result<(), Fail> {
    for (line, shards) in &SHARDS {
        let asked = read(rt.alloc(), line)?;
        assert!(rt; matches!(asked, Ok(Asked { shards: found, .. }) if found == *shards));
    }
    Ok(())
}
