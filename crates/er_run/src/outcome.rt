//! What `run` returns.

use er_text::Cause;

/// How a run ended.
#[derive(Clone, Copy, Debug, PartialEq, Eq)]
pub enum Outcome {
    /// The trace is legal, and has no race.
    Clean,
    /// The trace is legal, and has races.
    Races,
    /// The arguments are not accepted.
    Usage,
    /// The first illegal line, and its first cause.
    Refused { line: u32, cause: Cause },
    /// A read failed.
    ReadFault,
    /// A write failed.
    WriteFault,
    /// An allocation failed.
    NoMemory,
}

impl Outcome {
    ghost use Rattle.std.specs.Prelude.{◌≡◌, option_map};
    ghost use Rattle.er_run.specs.Status.{status_of, line_of};

    /// The exit status of the program.
    pub fn status(&self) -> u8
        ensures { result ≡ status_of self.now }
    {
        match self {
            Outcome::Clean => 0,
            Outcome::Races => 1,
            Outcome::Usage => 2,
            Outcome::Refused { .. } => 3,
            Outcome::ReadFault => 4,
            Outcome::WriteFault => 5,
            Outcome::NoMemory => 6,
        }
    }

    /// The line on standard error, if the outcome has one.
    pub fn line(&self) -> Option<&'static str>
        ensures { option_map (λ text. text.now) result ≡ line_of self.now }
    {
        match self {
            Outcome::Usage => Some(
                "usage: er_cli [check|gen|schedule|explain|jsonl] [--shards N] [--json] [--number N] [--race N] [--from N] [--to N]",
            ),
            Outcome::ReadFault => Some("er_cli: input could not be read"),
            Outcome::WriteFault => Some("er_cli: output could not be written"),
            Outcome::NoMemory => Some("er_cli: out of memory"),
            _ => None,
        }
    }
}
