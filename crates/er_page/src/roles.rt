//! The role of an event, as far as the look-ups of what came last ask. It is told by the record
//! that began the event; for a close, by the record that began its dispatch.

ghost use Rattle.std.specs.Prelude.{◌≡◌, List, option_map};
ghost use Rattle.er_trace.specs.declared.record.Record.{Record};
ghost use Rattle.er_claims.specs.Claimed.{ClaimedAre, element_of};
ghost use Rattle.er_latest.specs.Roles as latest;
ghost use Rattle.er_latest.specs.Roles.{said_by};
ghost use Rattle.er_page.specs.Roles.{role_by, close_by, first_in, begin_in, read};

use crate::piece::{Pieces, Start};
use er_claims::claimed::{Claimed, Element, Form};
use er_latest::role::Role;
use er_trace::record::{Kind, Record};

/// The record that began the event of a piece that this record begins.
pub(crate) fn first_of<'a>(pieces: &'a Pieces, rec: &'a Record, start: Start) -> &'a Record
    ensures { result.now ≡ first_in pieces.now.list.items rec.now start }
{
    match pieces.list.get(start.event as usize) {
        Some(piece) => &piece.begin,
        None => rec,
    }
}

/// The record that began the dispatch that the event serves.
pub(crate) fn served_of<'a>(pieces: &'a Pieces, start: Start) -> Option<&'a Record>
    ensures { read result ≡ begin_in pieces.now.list.items start.serves }
{
    let begin = start.serves?;
    pieces.begin(begin)
}

/// The role of an event that this record began, which serves the dispatch that the other record
/// began, if one.
pub(crate) fn role_by<'a>(
    claimed: &Claimed,
    first: &'a Record,
    served: Option<&'a Record>,
) -> Role<'a>
    ensures { (h : List Record) → ClaimedAre claimed.now h
        → said_by result ≡ role_by h first.now (read served.entry) }
{
    match first {
        Record::Parse { doc, .. } => Role::Step { doc: *doc },
        Record::ParseFrame { doc, .. } => Role::Step { doc: *doc },
        Record::Exec { element } => script_role(*element, claimed.element(*element)),
        Record::Tick { interval } => Role::Tick {
            interval: *interval,
        },
        Record::Run {
            dispatch,
            group,
            ..
        } => Role::Handler {
            dispatch: *dispatch,
            group: *group,
        },
        Record::Close { .. } => match served {
            Some(begin) => close_by(claimed, begin),
            None => Role::Other,
        },
        _ => Role::Other,
    }
}

/// The role of the close of a dispatch that this record began.
fn close_by<'a>(claimed: &Claimed, begin: &'a Record) -> Role<'a>
    ensures { (h : List Record) → ClaimedAre claimed.now h → said_by result ≡ close_by h begin.now }
{
    match begin {
        Record::Eload { element, .. } => load_role(claimed.element(*element)),
        Record::Fire { element, name, .. } => Role::AtElement {
            element: *element,
            name,
        },
        Record::Inline { element, name, .. } => Role::AtElement {
            element: *element,
            name,
        },
        Record::Wfire { doc, name, .. } => Role::AtWindow { doc: *doc, name },
        Record::Reply { request, .. } => Role::Reply { request: *request },
        _ => Role::Other,
    }
}

/// The role of the run of a script. That of one that a script made has none.
fn script_role<'a>(element: u32, made: Option<Element>) -> Role<'a>
    ensures { said_by result ≡ latest.script_role element (option_map element_of made) }
{
    let Some(made) = made else {
        return Role::Other;
    };
    if !made.is_static {
        return Role::Other;
    }
    match made.form {
        Form::Kinded(Kind::Inline) => Role::Blocking { doc: made.doc },
        Form::Kinded(Kind::Sync) => Role::Blocking { doc: made.doc },
        Form::Kinded(Kind::Defer) => Role::Deferred {
            doc: made.doc,
            element,
        },
        Form::Kinded(Kind::Async) => Role::Async { doc: made.doc },
        _ => Role::Other,
    }
}

/// The role of the close of the first load event of an element.
fn load_role<'a>(made: Option<Element>) -> Role<'a>
    ensures { said_by result ≡ latest.load_role (option_map element_of made) }
{
    let Some(made) = made else {
        return Role::Other;
    };
    if !made.is_static {
        return Role::Other;
    }
    match made.form {
        Form::Kinded(Kind::Plain) => Role::Other,
        _ => Role::StaticLoad { doc: made.doc },
    }
}
