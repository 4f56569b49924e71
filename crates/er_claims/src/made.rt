//! The element or the timeout that a record makes, and how it is noted.

ghost use Rattle.std.specs.Prelude.{◌≡◌, ℕ, List, ◌∷◌, is_some};
ghost use Rattle.er_numbers.specs.Numbers.{found, HasRoomWhere};
ghost use Rattle.er_trace.specs.declared.record.Record.{Record};
ghost use Rattle.er_history.specs.History as history;
ghost use Rattle.er_history.specs.Naming.{declares_element, sets_timeout};
ghost use Rattle.er_history.specs.Noted.{is_number, noted_in};
ghost use Rattle.er_history.specs.Taken.{IsNow, KeepsEach, Takes};
ghost use Rattle.er_claims.specs.Claimed.{ElementsAre, TimeoutsAre, ElementGiven, SettingGiven, HasRank, IsRankedByPlace};

use crate::claimed::{Element, Form, Timeout};
use er_history::firsts::{Now, note_pair};
use er_numbers::Numbers;
use er_trace::record::{Kind, NewKind, Record};

/// Notes the element that the record makes.
pub(crate) fn note_element(table: &mut Numbers<Element>, rec: &Record, now: Now)
    requires room { HasRoomWhere table.old (λ k. declares_element k rec.now) }
    ensures { Takes ElementsAre (found table.old) (found table.new) rec.now now }
{
    let pair = element_in(rec, now);
    note_pair(table, pair);
}

/// Notes the timeout that the record sets.
pub(crate) fn note_timeout(table: &mut Numbers<Timeout>, rec: &Record, now: Now)
    requires room { HasRoomWhere table.old (λ k. sets_timeout k rec.now) }
    ensures set { Takes TimeoutsAre (found table.old) (found table.new) rec.now now }
    ensures kept { KeepsEach (found table.old) (found table.new) }
    ensures ranked { (h : List Record)
        → IsRankedByPlace (found table.old) (table.old.count) h
        → IsNow h rec.now now
        → IsRankedByPlace (found table.new) (table.new.count) (rec.now ∷ h) }
{
    let pair = timeout_in(rec, now, table.count());
    note_pair(table, pair);
}

/// The number of the element that a record makes.
pub(crate) fn made_in(rec: &Record) -> Option<u32>
    ensures { (k : ℕ) → is_number k result ≡ declares_element k rec.now }
{
    match rec {
        Record::Parse { element, .. } => Some(*element),
        Record::ParseFrame { element, .. } => Some(*element),
        Record::New { element, .. } => Some(*element),
        Record::NewFrame { element, .. } => Some(*element),
        _ => None,
    }
}

/// The number of the timeout that a record sets.
pub(crate) fn set_in(rec: &Record) -> Option<u32>
    ensures { (k : ℕ) → is_number k result ≡ sets_timeout k rec.now }
{
    match rec {
        Record::Set { timeout, .. } => Some(*timeout),
        _ => None,
    }
}

/// The element that a record makes where this action runs.
fn element_in(rec: &Record, now: Now) -> Option<(u32, Element)>
    ensures made { (a : history.Action) → now.action ≡ a.number → now.event ≡ a.event.number
        → ElementGiven result rec.now a }
    ensures known { (k : ℕ) → is_some (noted_in k result) ≡ declares_element k rec.now }
{
    match rec {
        Record::Parse { doc, element, kind } => {
            Some((*element, made(*doc, Form::Kinded(*kind), true, now)))
        }
        Record::ParseFrame {
            doc,
            element,
            inner,
        } => Some((*element, made(*doc, Form::Framing(*inner), true, now))),
        Record::New { doc, element, kind } => {
            Some((
                *element,
                made(*doc, Form::Kinded(kind_of(*kind)), false, now),
            ))
        }
        Record::NewFrame {
            doc,
            element,
            inner,
        } => Some((*element, made(*doc, Form::Framing(*inner), false, now))),
        _ => None,
    }
}

/// The timeout that a record sets where this action runs, and so many timeouts were set before.
fn timeout_in(rec: &Record, now: Now, rank: usize) -> Option<(u32, Timeout)>
    ensures set { (a : history.Action) → now.action ≡ a.number → now.event ≡ a.event.number
        → SettingGiven result rec.now a }
    ensures ranked { HasRank result rank }
    ensures known { (k : ℕ) → is_some (noted_in k result) ≡ sets_timeout k rec.now }
{
    match rec {
        Record::Set { timeout, delay } => Some((
            *timeout,
            Timeout {
                delay: *delay,
                maker: now.event,
                piece: now.action,
                rank,
            },
        )),
        _ => None,
    }
}

fn made(doc: u32, form: Form, is_static: bool, now: Now) -> Element
    ensures { result ≡ record {
      doc = doc;
      form = form;
      is_static = is_static;
      maker = now.event;
      piece = now.action;
    } }
{
    Element {
        doc,
        form,
        is_static,
        maker: now.event,
        piece: now.action,
    }
}

/// The kind that a script gives a new element.
fn kind_of(kind: NewKind) -> Kind
    ensures { result ≡ history.kind_of kind }
{
    match kind {
        NewKind::Plain => Kind::Plain,
        NewKind::Async => Kind::Async,
        NewKind::Image => Kind::Image,
    }
}
