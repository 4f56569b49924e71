//! The versions of the trace format.

ghost use Rattle.std.specs.Prelude.{◌≡◌};
ghost use Rattle.er_trace.specs.Versions.{has_tasks};

/// The version that the first line of a trace gives.
#[derive(Clone, Copy, Debug, PartialEq, Eq)]
pub enum Version {
    One,
    Two,
    Three,
}

impl Version {
    /// Whether it has the records of messages, animation callbacks and jobs.
    pub fn has_tasks(self) -> bool
        ensures { result ≡ has_tasks self }
    {
        match self {
            Version::One => false,
            Version::Two => false,
            Version::Three => true,
        }
    }
}
