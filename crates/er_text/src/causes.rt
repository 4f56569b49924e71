//! Why a trace is refused.

ghost use Rattle.std.specs.Prelude.{◌≡◌};
ghost use Rattle.er_text.specs.Cause.{cause_name};

/// The cause of a refusal.
#[derive(Clone, Copy, Debug, PartialEq, Eq)]
pub enum Cause {
    BadHeader,
    LongLine,
    BadRecord,
    NoEnd,
    AfterEnd,
    TooManyLines,
    Unknown,
    Again,
    NotScript,
    Misplaced,
    OutOfOrder,
    TooManyActions,
    TooDeep,
    TooManyAccesses,
    TooManyPairs,
    TooManyRaces,
    TooManyClasses,
    NoRace,
    NoAction,
}

impl Cause {
    pub fn name(self) -> &'static str
        ensures { result.now ≡ cause_name self }
    {
        match self {
            Cause::BadHeader => "bad-header",
            Cause::LongLine => "long-line",
            Cause::BadRecord => "bad-record",
            Cause::NoEnd => "no-end",
            Cause::AfterEnd => "after-end",
            Cause::TooManyLines => "too-many-lines",
            Cause::Unknown => "unknown",
            Cause::Again => "again",
            Cause::NotScript => "not-script",
            Cause::Misplaced => "misplaced",
            Cause::OutOfOrder => "out-of-order",
            Cause::TooManyActions => "too-many-actions",
            Cause::TooDeep => "too-deep",
            Cause::TooManyAccesses => "too-many-accesses",
            Cause::TooManyPairs => "too-many-pairs",
            Cause::TooManyRaces => "too-many-races",
            Cause::TooManyClasses => "too-many-classes",
            Cause::NoRace => "no-race",
            Cause::NoAction => "no-action",
        }
    }
}
