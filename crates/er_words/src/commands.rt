//! What a user's words ask for.

/// How the lines of the input are written.
#[derive(Clone, Copy, Debug, PartialEq, Eq)]
pub enum Input {
    /// As text.
    Text,
    /// As JSON.
    Json,
}

/// What the words ask for.
#[derive(Clone, Copy, Debug, PartialEq, Eq)]
pub enum Command {
    /// The races of the trace that is read, told as lines of text or as JSON.
    Check { json: bool, input: Input },
    /// The counts of the generated trace of this number.
    Gen { number: u32 },
    /// Two orders of the actions for the race of this number, from 1.
    Schedule { race: u32 },
    /// Why a path leads from one action to another.
    Explain { from: u32, to: u32 },
}

/// What the words ask for, and into how many shards its work is split.
#[derive(Clone, Copy, Debug, PartialEq, Eq)]
pub struct Asked {
    pub command: Command,
    pub shards: u32,
}

/// Why the words give no command.
#[derive(Clone, Copy, Debug, PartialEq, Eq)]
pub enum WordsFault {
    /// The words are not accepted.
    Usage,
    /// Memory ran out.
    NoMemory,
}
