//! Why a line or a trace was not read.

ghost use Rattle.std.specs.Prelude.{◌≡◌};

use er_io::NoMemory;
use er_text::Cause;
use thiserror::Error;

/// Why a line gave no record.
#[derive(Clone, Copy, Debug, PartialEq, Eq, Error)]
pub enum LineFault {
    #[error("no record is spelled so")]
    BadRecord,
    #[error("out of memory")]
    NoMemory,
}

impl From<NoMemory> for LineFault {
    ghost use Rattle.er_trace.specs.declared.fault.LineFault.TheVariants as faults;

    ghost from_gives = { λ _ fault. fault ≡ faults.NoMemory };

    fn from(_: NoMemory) -> LineFault {
        LineFault::NoMemory
    }
}

/// Why a trace was not read to its end.
#[derive(Clone, Copy, Debug, PartialEq, Eq, Error)]
pub enum FeedFault {
    #[error("line {line}: {}", .cause.name())]
    Refused { line: u32, cause: Cause },
    #[error("out of memory")]
    NoMemory,
}
