//! Where a line begins.

ghost use Rattle.std.specs.Prelude.{◌≡◌, ◌+◌, ◌≤◌, IfSome, IfNone};
ghost use Rattle.er_lines.specs.Marks.{number_at, records_at, version_at, IsOpen, IsClosed};

use er_text::Cause;
use er_trace::trace::MOST_LINES;
use er_trace::version::Version;

/// Where a line begins: at the start, behind the first line of a version and so many records, or
/// behind the last line.
#[derive(Clone, Copy, Debug, PartialEq, Eq)]
pub enum Mark {
    Start,
    After(Version, u32),
    Ended(Version, u32),
}

impl Mark {
    ghost use Rattle.er_trace.specs.Trace.{most_lines};

    /// The number of the line.
    pub fn number(self) -> u32
        requires { number_at self ≤ most_lines + 1 }
        ensures { result ≡ number_at self }
    {
        match self {
            Mark::Start => 1,
            Mark::After(_, records) => records + 2,
            Mark::Ended(_, records) => records + 3,
        }
    }

    /// How many records stand before it.
    pub fn records(self) -> u32
        ensures { result ≡ records_at self }
    {
        match self {
            Mark::Start => 0,
            Mark::After(_, records) => records,
            Mark::Ended(_, records) => records,
        }
    }

    /// The version that the first line gave.
    pub fn version(self) -> Option<Version>
        ensures { result ≡ version_at self }
    {
        match self {
            Mark::Start => None,
            Mark::After(version, _) => Some(version),
            Mark::Ended(version, _) => Some(version),
        }
    }

    /// Why no byte may stand there.
    pub fn closed(self) -> Option<Cause>
        ensures closed { IfSome result (λ c. IsClosed self c) }
        ensures open { IfNone result (IsOpen self) }
    {
        match self {
            Mark::Start => None,
            Mark::After(_, records) => {
                if records > MOST_LINES - 2 {
                    Some(Cause::TooManyLines)
                } else {
                    None
                }
            }
            Mark::Ended(_, _) => Some(Cause::AfterEnd),
        }
    }
}
