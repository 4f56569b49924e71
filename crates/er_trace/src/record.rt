//! The records of a trace. One record is one line.

ghost use Rattle.std.specs.Prelude.{◌≡◌, IfOk};
ghost use Rattle.er_trace.specs.Spelling.{kind_word, new_kind_word, mode_word};

use crate::name::Name;
use er_io::NoMemory;

/// The kind of an element that the parser made.
#[derive(Clone, Copy, Debug, PartialEq, Eq)]
pub enum Kind {
    /// Any element that is not one of the others.
    Plain,
    /// A script in the page, which the parser runs before it goes on.
    Inline,
    /// A script from elsewhere, for which the parser waits.
    Sync,
    /// A script that runs once the document is parsed.
    Defer,
    /// A script that runs when it has come.
    Async,
    /// An image.
    Image,
}

impl Kind {
    /// How it is spelled.
    pub fn word(self) -> &'static str
        ensures { result.now ≡ kind_word self }
    {
        match self {
            Kind::Plain => "plain",
            Kind::Inline => "inline",
            Kind::Sync => "sync",
            Kind::Defer => "defer",
            Kind::Async => "async",
            Kind::Image => "image",
        }
    }
}

/// The kind of an element that a script made.
#[derive(Clone, Copy, Debug, PartialEq, Eq)]
pub enum NewKind {
    Plain,
    Async,
    Image,
}

impl NewKind {
    /// How it is spelled.
    pub fn word(self) -> &'static str
        ensures { result.now ≡ new_kind_word self }
    {
        match self {
            NewKind::Plain => "plain",
            NewKind::Async => "async",
            NewKind::Image => "image",
        }
    }
}

impl From<NewKind> for Kind {
    ghost use Rattle.er_trace.specs.Kinds.{kind_of};

    ghost from_gives = { λ made kind. kind ≡ kind_of made };

    fn from(made: NewKind) -> Kind {
        match made {
            NewKind::Plain => Kind::Plain,
            NewKind::Async => Kind::Async,
            NewKind::Image => Kind::Image,
        }
    }
}

/// Whether an access reads or writes.
#[derive(Clone, Copy, Debug, PartialEq, Eq)]
pub enum Mode {
    R,
    W,
}

impl Mode {
    /// How it is spelled.
    pub fn word(self) -> &'static str
        ensures { result.now ≡ mode_word self }
    {
        match self {
            Mode::R => "r",
            Mode::W => "w",
        }
    }
}

/// A logical location. Its number declares nothing and needs no declaration.
#[derive(Clone, PartialEq, Eq, Hash, Drop)]
pub enum Loc {
    /// A variable of an object.
    Var(u32, Name),
    /// The look-up of an element in a document.
    Elem(u32, Name),
    /// The slot of an event handler of an element.
    Slot(u32, Name),
}

/// A record. Documents, elements, handlers, timeouts, intervals, requests, dispatches, messages,
/// animation callbacks and jobs are numbered apart from each other.
#[derive(Clone, Drop)]
pub enum Record {
    /// A parse step that makes an element.
    Parse {
        doc: u32,
        element: u32,
        kind: Kind,
    },
    /// A parse step that makes a frame element, and declares the document in it.
    ParseFrame {
        doc: u32,
        element: u32,
        inner: u32,
    },
    /// The run of a script element.
    Exec {
        element: u32,
    },
    /// The callback of a timeout.
    Timer {
        timeout: u32,
    },
    /// One callback of an interval.
    Tick {
        interval: u32,
    },
    /// The begin of DOMContentLoaded of a document.
    Dcl {
        dispatch: u32,
        doc: u32,
    },
    /// The begin of load of the window of a document.
    Load {
        dispatch: u32,
        doc: u32,
    },
    /// The begin of the first load event of an element.
    Eload {
        dispatch: u32,
        element: u32,
    },
    /// The begin of a dispatch at an element.
    Fire {
        dispatch: u32,
        element: u32,
        name: Name,
    },
    /// The begin of a dispatch at the window of a document.
    Wfire {
        dispatch: u32,
        doc: u32,
        name: Name,
    },
    /// The begin of a reply event of a request.
    Reply {
        dispatch: u32,
        request: u32,
    },
    /// The begin of a dispatch at an element that a script called synchronously.
    Inline {
        dispatch: u32,
        element: u32,
        name: Name,
    },
    /// A handler runs in a group of a dispatch.
    Run {
        dispatch: u32,
        group: u32,
        handler: u32,
    },
    /// The close of a dispatch.
    Close {
        dispatch: u32,
    },
    /// The event goes on that an inline dispatch suspended.
    Back {
        dispatch: u32,
    },
    /// Makes an element.
    New {
        doc: u32,
        element: u32,
        kind: NewKind,
    },
    /// Makes a frame element, and declares the document in it.
    NewFrame {
        doc: u32,
        element: u32,
        inner: u32,
    },
    /// Registers a handler.
    On {
        handler: u32,
    },
    /// Sets a timeout. The delay is in any unit, one for the whole trace.
    Set {
        timeout: u32,
        delay: u32,
    },
    /// Sets an interval. The delay is in the same unit.
    Every {
        interval: u32,
        delay: u32,
    },
    /// Sends a request.
    Send {
        request: u32,
    },
    /// Posts a message.
    Post {
        message: u32,
    },
    /// Asks for an animation callback.
    Ask {
        anim: u32,
    },
    /// Queues a job.
    Queue {
        job: u32,
    },
    /// Begins the event of a message.
    Message {
        message: u32,
    },
    /// Begins an animation callback.
    Anim {
        anim: u32,
    },
    /// Begins a job.
    Job {
        job: u32,
    },
    /// Reads or writes a location.
    Access {
        mode: Mode,
        loc: Loc,
    },
}

impl Loc {
    /// An equal location.
    pub fn copy(&self) -> Result<Loc, NoMemory>
        ensures { IfOk result (λ loc. loc ≡ self.now) }
    {
        Ok(self.clone()?)
    }
}

impl Record {
    /// An equal record.
    pub fn copy(&self) -> Result<Record, NoMemory>
        ensures { IfOk result (λ copied. copied ≡ self.now) }
    {
        Ok(self.clone()?)
    }
}
