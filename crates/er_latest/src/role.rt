//! What an event is, as far as the look-ups of what came last ask.

ghost use Rattle.std.specs.Prelude.{◌≡◌, ℕ};
ghost use Rattle.er_latest.specs.Roles.{said_by, step_of, blocking_of, deferred_of, script_of, tick_of, reply_of, async_of, static_of, handler_of, dispatch_of, element_of, window_of, named};

use er_trace::name::Name;

/// What an event is, as far as look-ups ask. One event has one role.
#[derive(Clone, Copy)]
pub enum Role<'a> {
    /// Nothing that is looked up.
    Other,
    /// A parse step of the document.
    Step { doc: u32 },
    /// The run of a script of the document for which the parser waits.
    Blocking { doc: u32 },
    /// The run of this deferred script of the document.
    Deferred { doc: u32, element: u32 },
    /// The run of a static script of kind async of the document.
    Async { doc: u32 },
    /// A callback of the interval.
    Tick { interval: u32 },
    /// A handler of the dispatch, in the group.
    Handler { dispatch: u32, group: u32 },
    /// The close of a reply of the request.
    Reply { request: u32 },
    /// The close of the first load event of a static element of the document that is not plain.
    StaticLoad { doc: u32 },
    /// The close of a dispatch of this type at the element, begun by `fire` or `inline`.
    AtElement { element: u32, name: &'a Name },
    /// The close of a dispatch of this type at the window of the document, begun by `wfire`.
    AtWindow { doc: u32, name: &'a Name },
}

// Under which number, pair or name each table keeps the event of a role.
impl Role<'_> {
    pub(crate) fn step(&self) -> Option<u32>
        ensures { result ≡ step_of (said_by self.now) }
    {
        match self {
            Role::Step { doc } => Some(*doc),
            _ => None,
        }
    }

    pub(crate) fn blocking(&self) -> Option<u32>
        ensures { result ≡ blocking_of (said_by self.now) }
    {
        match self {
            Role::Blocking { doc } => Some(*doc),
            _ => None,
        }
    }

    pub(crate) fn deferred(&self) -> Option<u32>
        ensures { result ≡ deferred_of (said_by self.now) }
    {
        match self {
            Role::Deferred { doc, .. } => Some(*doc),
            _ => None,
        }
    }

    /// The deferred script.
    pub(crate) fn script(&self) -> u32
        ensures { result ≡ script_of (said_by self.now) }
    {
        match self {
            Role::Deferred { element, .. } => *element,
            _ => 0,
        }
    }

    pub(crate) fn tick(&self) -> Option<u32>
        ensures { result ≡ tick_of (said_by self.now) }
    {
        match self {
            Role::Tick { interval } => Some(*interval),
            _ => None,
        }
    }

    pub(crate) fn reply(&self) -> Option<u32>
        ensures { result ≡ reply_of (said_by self.now) }
    {
        match self {
            Role::Reply { request } => Some(*request),
            _ => None,
        }
    }

    pub(crate) fn async_run(&self) -> Option<u32>
        ensures { result ≡ async_of (said_by self.now) }
    {
        match self {
            Role::Async { doc } => Some(*doc),
            _ => None,
        }
    }

    pub(crate) fn static_load(&self) -> Option<u32>
        ensures { result ≡ static_of (said_by self.now) }
    {
        match self {
            Role::StaticLoad { doc } => Some(*doc),
            _ => None,
        }
    }

    /// The dispatch and the group.
    pub(crate) fn handler(&self) -> Option<(u32, u32)>
        ensures { result ≡ handler_of (said_by self.now) }
    {
        match self {
            Role::Handler { dispatch, group } => Some((*dispatch, *group)),
            _ => None,
        }
    }

    /// The dispatch of a handler.
    pub(crate) fn dispatch(&self) -> Option<u32>
        ensures { result ≡ dispatch_of (said_by self.now) }
    {
        match self {
            Role::Handler { dispatch, .. } => Some(*dispatch),
            _ => None,
        }
    }
}

impl<'a> Role<'a> {
    /// The element and the type.
    pub(crate) fn at_element(&self) -> Option<(u32, &'a Name)>
        ensures { named result ≡ element_of (said_by self.now) }
    {
        match self {
            Role::AtElement { element, name } => Some((*element, *name)),
            _ => None,
        }
    }

    /// The document and the type.
    pub(crate) fn at_window(&self) -> Option<(u32, &'a Name)>
        ensures { named result ≡ window_of (said_by self.now) }
    {
        match self {
            Role::AtWindow { doc, name } => Some((*doc, *name)),
            _ => None,
        }
    }
}
