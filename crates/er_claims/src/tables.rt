//! The tables of what the records have declared, started and finished, and how they take
//! one record more.

ghost use Rattle.std.specs.Prelude.{◌≡◌, ℕ, [], OnOk};
ghost use Rattle.er_numbers.specs.Numbers.{found, HasRoomWhere};
ghost use Rattle.er_history.specs.Noted.{is_number};
ghost use Rattle.er_history.specs.Taken.{StillStands, KeepsEach, Takes};
ghost use Rattle.er_claims.specs.Fired.{timer_found};
ghost use Rattle.er_claims.specs.Fired as says;
ghost use Rattle.er_claims.specs.Claimed.{TablesAre, HaveRoomFor};

use crate::claimed::{Element, SetTimeout, Timeout};
use crate::made::{made_in, note_element, note_timeout, set_in};
use crate::notes::{
    begun_in, callback_in, closed_in, dcl_in, document_in, eload_in, handler_in, interval_in,
    load_in, note_begin, note_callback, note_close, note_dcl, note_document, note_eload,
    note_frame, note_handler, note_interval, note_load, note_request, note_run, number_of,
    request_in, run_in,
};
use er_history::firsts::{Now, make_room};
use er_io::NoMemory;
use er_numbers::Numbers;
use er_trace::record::Record;
use std::alloc::Global;

/// What was noted first under each number.
pub(crate) struct Tables {
    pub(crate) elements: Numbers<Element>,
    pub(crate) timeouts: Numbers<Timeout>,
    /// The maker of each document but document 0.
    pub(crate) documents: Numbers<u32>,
    pub(crate) handlers: Numbers<u32>,
    pub(crate) intervals: Numbers<u32>,
    pub(crate) requests: Numbers<u32>,
    /// The event of the run of each script element.
    pub(crate) runs: Numbers<u32>,
    /// The event of the callback of each timeout.
    pub(crate) callbacks: Numbers<u32>,
    /// The begin of each dispatch.
    pub(crate) begins: Numbers<u32>,
    /// The close of each dispatch.
    pub(crate) closes: Numbers<u32>,
    /// The frame element of each document.
    pub(crate) frames: Numbers<u32>,
    /// The dispatch of DOMContentLoaded of each document.
    pub(crate) dcls: Numbers<u32>,
    /// The dispatch of load of each document.
    pub(crate) loads: Numbers<u32>,
    /// The dispatch of the first load event of each element.
    pub(crate) eloads: Numbers<u32>,
}

impl Drop for Tables {
    fn drop(self) {
        let Tables {
            elements,
            timeouts,
            documents,
            handlers,
            intervals,
            requests,
            runs,
            callbacks,
            begins,
            closes,
            frames,
            dcls,
            loads,
            eloads,
        } = self;
        let_go(elements);
        let_go(timeouts);
        let_go(documents);
        let_go(handlers);
        let_go(intervals);
        let_go(requests);
        let_go(runs);
        let_go(callbacks);
        let_go(begins);
        let_go(closes);
        let_go(frames);
        let_go(dcls);
        let_go(loads);
        let_go(eloads);
    }
}

/// Lets a table go, by a call: the ends of fourteen tables written out in a row take long to prove.
fn let_go<V: Drop>(_: Numbers<V>) {}

impl Tables {
    /// Nothing is claimed yet. It takes no memory.
    pub(crate) fn new(alloc: Global) -> Self
        ensures { TablesAre result [] }
    {
        Tables {
            elements: Numbers::new(alloc),
            timeouts: Numbers::new(alloc),
            documents: Numbers::new(alloc),
            handlers: Numbers::new(alloc),
            intervals: Numbers::new(alloc),
            requests: Numbers::new(alloc),
            runs: Numbers::new(alloc),
            callbacks: Numbers::new(alloc),
            begins: Numbers::new(alloc),
            closes: Numbers::new(alloc),
            frames: Numbers::new(alloc),
            dcls: Numbers::new(alloc),
            loads: Numbers::new(alloc),
            eloads: Numbers::new(alloc),
        }
    }

    /// Makes room for what the record declares, starts or finishes.
    pub(crate) fn make_room(&mut self, rec: &Record) -> Result<(), NoMemory>
        ensures kept { StillStands TablesAre self.old self.new }
        ensures timeouts { (k : ℕ) → found self.new.timeouts k ≡ found self.old.timeouts k }
        ensures room { OnOk result (HaveRoomFor self.new rec.now) }
    {
        make_room(&mut self.elements, made_in(rec))?;
        make_room(&mut self.timeouts, set_in(rec))?;
        make_rooms(
            &mut self.documents,
            document_in(rec),
            &mut self.handlers,
            handler_in(rec),
            &mut self.intervals,
            interval_in(rec),
            &mut self.requests,
            request_in(rec),
        )?;
        make_rooms(
            &mut self.runs,
            run_in(rec),
            &mut self.callbacks,
            callback_in(rec),
            &mut self.begins,
            begun_in(rec),
            &mut self.closes,
            closed_in(rec),
        )?;
        make_rooms(
            &mut self.frames,
            document_in(rec),
            &mut self.dcls,
            number_of(dcl_in(rec)),
            &mut self.loads,
            number_of(load_in(rec)),
            &mut self.eloads,
            number_of(eload_in(rec)),
        )?;
        Ok(())
    }

    /// Takes a record, after which this action runs.
    pub(crate) fn take(&mut self, rec: &Record, now: Now)
        requires room { HaveRoomFor self.old rec.now }
        ensures taken { Takes TablesAre self.old self.new rec.now now }
        ensures kept { KeepsEach (found self.old.timeouts) (found self.new.timeouts) }
    {
        note_element(&mut self.elements, rec, now);
        note_timeout(&mut self.timeouts, rec, now);
        note_document(&mut self.documents, rec, now);
        note_handler(&mut self.handlers, rec, now);
        note_interval(&mut self.intervals, rec, now);
        note_request(&mut self.requests, rec, now);
        note_run(&mut self.runs, rec, now);
        note_callback(&mut self.callbacks, rec, now);
        note_begin(&mut self.begins, rec, now);
        note_close(&mut self.closes, rec, now);
        note_frame(&mut self.frames, rec);
        note_dcl(&mut self.dcls, rec);
        note_load(&mut self.loads, rec);
        note_eload(&mut self.eloads, rec);
    }

    /// The timeout whose callback the record begins.
    pub(crate) fn timer_in(&self, rec: &Record) -> Option<SetTimeout>
        ensures { result ≡ timer_found (found self.now.timeouts) rec.now }
    {
        let Record::Timer { timeout } = rec else {
            return None;
        };
        let set = self.timeouts.find(*timeout)?;
        Some(numbered(*timeout, set))
    }
}

/// Makes room in each of four tables for the number beside it, if there is one.
fn make_rooms(
    first: &mut Numbers<u32>,
    in_first: Option<u32>,
    second: &mut Numbers<u32>,
    in_second: Option<u32>,
    third: &mut Numbers<u32>,
    in_third: Option<u32>,
    fourth: &mut Numbers<u32>,
    in_fourth: Option<u32>,
) -> Result<(), NoMemory>
    ensures first { (k : ℕ) → found first.new k ≡ found first.old k }
    ensures second { (k : ℕ) → found second.new k ≡ found second.old k }
    ensures third { (k : ℕ) → found third.new k ≡ found third.old k }
    ensures fourth { (k : ℕ) → found fourth.new k ≡ found fourth.old k }
    ensures room { OnOk result (HasRoomWhere first.new (λ k. is_number k in_first)
        × HasRoomWhere second.new (λ k. is_number k in_second)
        × HasRoomWhere third.new (λ k. is_number k in_third)
        × HasRoomWhere fourth.new (λ k. is_number k in_fourth)) }
{
    make_room(first, in_first)?;
    make_room(second, in_second)?;
    make_room(third, in_third)?;
    make_room(fourth, in_fourth)
}

/// The timeout with its number.
pub(crate) fn numbered(timeout: u32, set: Timeout) -> SetTimeout
    ensures { result ≡ says.numbered timeout set }
{
    SetTimeout {
        timeout,
        delay: set.delay,
        maker: set.maker,
        piece: set.piece,
        rank: set.rank,
    }
}
