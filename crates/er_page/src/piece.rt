//! What the pieces of events are: the actions that have begun.

ghost use Rattle.std.specs.Prelude.{◌≡◌, ◌<◌, ◌^◌, length};
ghost use Rattle.er_history.specs.History.{begins};

use er_numbers::Numbers;
use er_trace::nesting::Nesting;
use er_trace::record::Record;

/// What an event is.
#[derive(Clone, Copy, Debug, PartialEq, Eq)]
pub enum Begun {
    /// A parse step.
    Parse,
    /// The run of a script element.
    Exec,
    /// The callback of a timeout.
    Timer,
    /// One callback of an interval.
    Tick,
    /// The begin of a dispatch.
    Begin,
    /// A handler of a dispatch.
    Handler,
    /// The close of a dispatch.
    Close,
    /// The event of a message.
    Message,
    /// An animation callback.
    Anim,
    /// A job.
    Job,
}

/// The event that a piece is of, what that is, and the begin of the dispatch that it is a handler
/// or the close of.
#[derive(Clone, Copy)]
pub(crate) struct Start {
    pub(crate) event: u32,
    pub(crate) begun: Begun,
    pub(crate) serves: Option<u32>,
}

/// A piece: the record that began it, and its event.
#[derive(Drop)]
pub(crate) struct Piece {
    pub(crate) begin: Record,
    pub(crate) start: Start,
}

/// All pieces, oldest first, and under each event its latest piece.
pub(crate) struct Pieces {
    pub(crate) list: Vec<Piece>,
    pub(crate) latest: Numbers<u32>,
    ghost few: { length list.items < 2 ^ 32 },
}

impl Drop for Pieces {
    fn drop(self) {
        let Pieces { list: _, latest: _ } = self;
    }
}

/// Whether the record begins an action. Each other record is a note, which stands in the
/// running one.
pub fn begins(rec: &Record) -> bool
    ensures { result ≡ begins rec.now }
{
    match rec.nesting() {
        Nesting::Note => false,
        Nesting::Alone => true,
        Nesting::OutsideInline => true,
        Nesting::Called => true,
        Nesting::Under(_) => true,
        Nesting::Behind(_) => true,
    }
}
