//! What an event is, as far as rules ask.

use er_claims::claimed::Element;
use er_trace::name::Name;

/// What a dispatch delivers, with what made its target.
#[derive(Clone, Copy)]
pub(crate) enum Delivery<'a> {
    DclOf {
        doc: u32,
        maker: Option<u32>,
    },
    LoadOf {
        doc: u32,
        maker: Option<u32>,
    },
    EloadOf {
        element: u32,
        made: Option<Element>,
    },
    FireAt {
        element: u32,
        name: &'a Name,
        maker: Option<u32>,
    },
    InlineAt {
        element: u32,
        name: &'a Name,
        maker: Option<u32>,
    },
    WindowFire {
        doc: u32,
        name: &'a Name,
        maker: Option<u32>,
    },
    ReplyOf {
        request: u32,
        maker: Option<u32>,
    },
}

/// A dispatch, and the action that is its begin.
#[derive(Clone, Copy)]
pub(crate) struct Dispatch<'a> {
    pub(crate) number: u32,
    pub(crate) begin: u32,
    pub(crate) delivers: Delivery<'a>,
}

/// What an event is. What set a timeout or declared a task is asked of the page, and under which
/// dispatch a job began.
#[derive(Clone, Copy)]
pub(crate) enum What<'a> {
    ParseStep {
        doc: u32,
        maker: Option<u32>,
    },
    ScriptRun {
        element: u32,
        made: Option<Element>,
    },
    TimeoutRun {
        timeout: u32,
    },
    TickRun {
        interval: u32,
        maker: Option<u32>,
    },
    BeginOf {
        dispatch: Dispatch<'a>,
    },
    HandlerOf {
        dispatch: Dispatch<'a>,
        group: u32,
        handler: u32,
        maker: Option<u32>,
    },
    CloseOf {
        dispatch: Dispatch<'a>,
    },
    MessageRun {
        message: u32,
    },
    AnimRun {
        anim: u32,
    },
    JobRun {
        job: u32,
        event: u32,
    },
    Unnamed,
}

/// An event has the number of its first piece.
#[derive(Clone, Copy)]
pub(crate) struct Event<'a> {
    pub(crate) number: u32,
    pub(crate) what: What<'a>,
}
