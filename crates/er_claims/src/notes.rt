//! What a record declares, starts or finishes, table by table.

ghost use Rattle.std.specs.Prelude.{◌≡◌, ℕ, is_some};
ghost use Rattle.er_numbers.specs.Numbers.{found, HasRoomWhere};
ghost use Rattle.er_history.specs.History.{declares_document, declares_handler, declares_interval, declares_request};
ghost use Rattle.er_history.specs.Naming.{runs_script, fires_timeout, begins_dispatch, is_dcl, is_load, is_eload};
ghost use Rattle.er_history.specs.LookUps.{closes_dispatch, makes_frame, begins_dcl, begins_load, begins_eload};
ghost use Rattle.er_history.specs.Found.{MakersAre, FirstsAre};
ghost use Rattle.er_history.specs.Noted.{noted_in, is_number};
ghost use Rattle.er_history.specs.Taken.{Takes, TakesAny};

use er_history::firsts::{Now, note_first, note_maker};
use er_numbers::Numbers;
use er_trace::record::Record;

/// Notes the document that the record declares.
pub(crate) fn note_document(table: &mut Numbers<u32>, rec: &Record, now: Now)
    requires room { HasRoomWhere table.old (λ k. declares_document k rec.now) }
    ensures { Takes (MakersAre declares_document)
        (found table.old) (found table.new) rec.now now }
{
    note_maker(table, document_in(rec), now.event);
}

/// The document that it declares.
pub(crate) fn document_in(rec: &Record) -> Option<u32>
    ensures { (k : ℕ) → is_number k result ≡ declares_document k rec.now }
{
    match rec {
        Record::ParseFrame { inner, .. } => Some(*inner),
        Record::NewFrame { inner, .. } => Some(*inner),
        _ => None,
    }
}

/// Notes the handler that it registers.
pub(crate) fn note_handler(table: &mut Numbers<u32>, rec: &Record, now: Now)
    requires room { HasRoomWhere table.old (λ k. declares_handler k rec.now) }
    ensures { Takes (MakersAre declares_handler)
        (found table.old) (found table.new) rec.now now }
{
    note_maker(table, handler_in(rec), now.event);
}

/// The handler that it registers.
pub(crate) fn handler_in(rec: &Record) -> Option<u32>
    ensures { (k : ℕ) → is_number k result ≡ declares_handler k rec.now }
{
    match rec {
        Record::On { handler } => Some(*handler),
        _ => None,
    }
}

/// Notes the interval that it sets.
pub(crate) fn note_interval(table: &mut Numbers<u32>, rec: &Record, now: Now)
    requires room { HasRoomWhere table.old (λ k. declares_interval k rec.now) }
    ensures { Takes (MakersAre declares_interval)
        (found table.old) (found table.new) rec.now now }
{
    note_maker(table, interval_in(rec), now.event);
}

/// The interval that it sets.
pub(crate) fn interval_in(rec: &Record) -> Option<u32>
    ensures { (k : ℕ) → is_number k result ≡ declares_interval k rec.now }
{
    match rec {
        Record::Every { interval, .. } => Some(*interval),
        _ => None,
    }
}

/// Notes the request that it sends.
pub(crate) fn note_request(table: &mut Numbers<u32>, rec: &Record, now: Now)
    requires room { HasRoomWhere table.old (λ k. declares_request k rec.now) }
    ensures { Takes (MakersAre declares_request)
        (found table.old) (found table.new) rec.now now }
{
    note_maker(table, request_in(rec), now.event);
}

/// The request that it sends.
pub(crate) fn request_in(rec: &Record) -> Option<u32>
    ensures { (k : ℕ) → is_number k result ≡ declares_request k rec.now }
{
    match rec {
        Record::Send { request } => Some(*request),
        _ => None,
    }
}

/// Notes the run of a script that it begins.
pub(crate) fn note_run(table: &mut Numbers<u32>, rec: &Record, now: Now)
    requires room { HasRoomWhere table.old (λ k. runs_script k rec.now) }
    ensures { Takes (MakersAre runs_script)
        (found table.old) (found table.new) rec.now now }
{
    note_maker(table, run_in(rec), now.event);
}

/// The script element that it runs.
pub(crate) fn run_in(rec: &Record) -> Option<u32>
    ensures { (k : ℕ) → is_number k result ≡ runs_script k rec.now }
{
    match rec {
        Record::Exec { element } => Some(*element),
        _ => None,
    }
}

/// Notes the callback of a timeout that it begins.
pub(crate) fn note_callback(table: &mut Numbers<u32>, rec: &Record, now: Now)
    requires room { HasRoomWhere table.old (λ k. fires_timeout k rec.now) }
    ensures { Takes (MakersAre fires_timeout)
        (found table.old) (found table.new) rec.now now }
{
    note_maker(table, callback_in(rec), now.event);
}

/// The timeout whose callback it begins.
pub(crate) fn callback_in(rec: &Record) -> Option<u32>
    ensures { (k : ℕ) → is_number k result ≡ fires_timeout k rec.now }
{
    match rec {
        Record::Timer { timeout } => Some(*timeout),
        _ => None,
    }
}

/// Notes the begin of a dispatch.
pub(crate) fn note_begin(table: &mut Numbers<u32>, rec: &Record, now: Now)
    requires room { HasRoomWhere table.old (λ k. begins_dispatch k rec.now) }
    ensures { Takes (MakersAre begins_dispatch)
        (found table.old) (found table.new) rec.now now }
{
    note_maker(table, begun_in(rec), now.event);
}

/// The dispatch that begins.
pub(crate) fn begun_in(rec: &Record) -> Option<u32>
    ensures { (k : ℕ) → is_number k result ≡ begins_dispatch k rec.now }
{
    match rec {
        Record::Dcl { dispatch, .. } => Some(*dispatch),
        Record::Load { dispatch, .. } => Some(*dispatch),
        Record::Eload { dispatch, .. } => Some(*dispatch),
        Record::Fire { dispatch, .. } => Some(*dispatch),
        Record::Wfire { dispatch, .. } => Some(*dispatch),
        Record::Reply { dispatch, .. } => Some(*dispatch),
        Record::Inline { dispatch, .. } => Some(*dispatch),
        _ => None,
    }
}

/// Notes the close of a dispatch.
pub(crate) fn note_close(table: &mut Numbers<u32>, rec: &Record, now: Now)
    requires room { HasRoomWhere table.old (λ k. closes_dispatch k rec.now) }
    ensures { Takes (MakersAre closes_dispatch)
        (found table.old) (found table.new) rec.now now }
{
    note_maker(table, closed_in(rec), now.event);
}

/// The dispatch whose close begins.
pub(crate) fn closed_in(rec: &Record) -> Option<u32>
    ensures { (k : ℕ) → is_number k result ≡ closes_dispatch k rec.now }
{
    match rec {
        Record::Close { dispatch } => Some(*dispatch),
        _ => None,
    }
}

/// Notes the frame element of a document that it declares.
pub(crate) fn note_frame(table: &mut Numbers<u32>, rec: &Record)
    requires room { HasRoomWhere table.old (λ k. declares_document k rec.now) }
    ensures { TakesAny (FirstsAre declares_document makes_frame)
        (found table.old) (found table.new) rec.now }
{
    note_first(table, frame_in(rec));
}

/// A document, and the frame element that it is made with.
fn frame_in(rec: &Record) -> Option<(u32, u32)>
    ensures gives { (k : ℕ) → noted_in k result ≡ makes_frame k rec.now }
    ensures tells { (k : ℕ) → is_some (noted_in k result) ≡ declares_document k rec.now }
{
    match rec {
        Record::ParseFrame { element, inner, .. } => Some((*inner, *element)),
        Record::NewFrame { element, inner, .. } => Some((*inner, *element)),
        _ => None,
    }
}

/// Notes the dispatch of DOMContentLoaded of a document that it begins.
pub(crate) fn note_dcl(table: &mut Numbers<u32>, rec: &Record)
    requires room { HasRoomWhere table.old (λ k. is_dcl k rec.now) }
    ensures { TakesAny (FirstsAre is_dcl begins_dcl)
        (found table.old) (found table.new) rec.now }
{
    note_first(table, dcl_in(rec));
}

/// A document, and its dispatch of DOMContentLoaded.
pub(crate) fn dcl_in(rec: &Record) -> Option<(u32, u32)>
    ensures gives { (k : ℕ) → noted_in k result ≡ begins_dcl k rec.now }
    ensures tells { (k : ℕ) → is_some (noted_in k result) ≡ is_dcl k rec.now }
{
    match rec {
        Record::Dcl { dispatch, doc } => Some((*doc, *dispatch)),
        _ => None,
    }
}

/// Notes the dispatch of load of a document that it begins.
pub(crate) fn note_load(table: &mut Numbers<u32>, rec: &Record)
    requires room { HasRoomWhere table.old (λ k. is_load k rec.now) }
    ensures { TakesAny (FirstsAre is_load begins_load)
        (found table.old) (found table.new) rec.now }
{
    note_first(table, load_in(rec));
}

/// A document, and its dispatch of load.
pub(crate) fn load_in(rec: &Record) -> Option<(u32, u32)>
    ensures gives { (k : ℕ) → noted_in k result ≡ begins_load k rec.now }
    ensures tells { (k : ℕ) → is_some (noted_in k result) ≡ is_load k rec.now }
{
    match rec {
        Record::Load { dispatch, doc } => Some((*doc, *dispatch)),
        _ => None,
    }
}

/// Notes the dispatch of an element's first load event that it begins.
pub(crate) fn note_eload(table: &mut Numbers<u32>, rec: &Record)
    requires room { HasRoomWhere table.old (λ k. is_eload k rec.now) }
    ensures { TakesAny (FirstsAre is_eload begins_eload)
        (found table.old) (found table.new) rec.now }
{
    note_first(table, eload_in(rec));
}

/// An element, and its dispatch of the first load event.
pub(crate) fn eload_in(rec: &Record) -> Option<(u32, u32)>
    ensures gives { (k : ℕ) → noted_in k result ≡ begins_eload k rec.now }
    ensures tells { (k : ℕ) → is_some (noted_in k result) ≡ is_eload k rec.now }
{
    match rec {
        Record::Eload { dispatch, element } => Some((*element, *dispatch)),
        _ => None,
    }
}

/// The number under which a pair is noted.
pub(crate) fn number_of(pair: Option<(u32, u32)>) -> Option<u32>
    ensures { (k : ℕ) → is_number k result ≡ is_some (noted_in k pair) }
{
    match pair {
        Some((number, _)) => Some(number),
        None => None,
    }
}
