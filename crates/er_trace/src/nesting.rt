//! Where a record may stand, by the open dispatches or by the running action, and so whether it
//! begins an action.

ghost use Rattle.std.specs.Prelude.{◌≡◌};
ghost use Rattle.er_trace.specs.Signature.{nesting};

use crate::record::Record;

/// Where a record may stand.
#[derive(Clone, Copy, Debug, PartialEq, Eq)]
pub enum Nesting {
    /// In the running action: it is a note, and begins none. All others begin one.
    Note,
    /// Where no dispatch is open: the first piece of an event.
    Alone,
    /// Where no inline dispatch is open: the first piece of a job.
    OutsideInline,
    /// In an action that may call: the begin of an inline dispatch.
    Called,
    /// Where this dispatch is on top and its close has not begun: a handler, or the close.
    Under(u32),
    /// Where this dispatch is on top and its close has begun: a further piece of an event.
    Behind(u32),
}

impl Record {
    /// Where it may stand.
    pub fn nesting(&self) -> Nesting
        ensures { result ≡ nesting self.now }
    {
        match self {
            Record::Parse { .. } => Nesting::Alone,
            Record::ParseFrame { .. } => Nesting::Alone,
            Record::Exec { .. } => Nesting::Alone,
            Record::Timer { .. } => Nesting::Alone,
            Record::Tick { .. } => Nesting::Alone,
            Record::Dcl { .. } => Nesting::Alone,
            Record::Load { .. } => Nesting::Alone,
            Record::Eload { .. } => Nesting::Alone,
            Record::Fire { .. } => Nesting::Alone,
            Record::Wfire { .. } => Nesting::Alone,
            Record::Reply { .. } => Nesting::Alone,
            Record::Message { .. } => Nesting::Alone,
            Record::Anim { .. } => Nesting::Alone,
            Record::Job { .. } => Nesting::OutsideInline,
            Record::Inline { .. } => Nesting::Called,
            Record::Run { dispatch, .. } => Nesting::Under(*dispatch),
            Record::Close { dispatch } => Nesting::Under(*dispatch),
            Record::Back { dispatch } => Nesting::Behind(*dispatch),
            Record::New { .. } => Nesting::Note,
            Record::NewFrame { .. } => Nesting::Note,
            Record::On { .. } => Nesting::Note,
            Record::Set { .. } => Nesting::Note,
            Record::Every { .. } => Nesting::Note,
            Record::Send { .. } => Nesting::Note,
            Record::Post { .. } => Nesting::Note,
            Record::Ask { .. } => Nesting::Note,
            Record::Queue { .. } => Nesting::Note,
            Record::Access { .. } => Nesting::Note,
        }
    }
}
