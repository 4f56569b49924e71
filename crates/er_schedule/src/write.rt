//! Writes the two orders of a race.

ghost use Rattle.std.specs.Prelude.{◌≡◌, ◌≤◌, ◌++◌, ℕ, List, codes, length, OnOk, OnErr};
ghost use Rattle.er_io.specs.Ends.{Gets, GetsPart, Puts};
ghost use Rattle.er_syntax.specs.Buffered.{CountsFaults, HoldsRest};
ghost use Rattle.er_report.specs.Fragments.{both_at};
ghost use Rattle.er_syntax.specs.Lines.{count_line};
ghost use Rattle.er_schedule.specs.Text.{opening_line, end_line, order_lines, schedules_of, schedule_text, AreOrders, AreSomeOrders};

use crate::Schedules;
use er_access::Table;
use er_io::{Failed, Sink, WriteFault, put_all};
use er_races::Race;
use er_report::RaceLine;
use er_syntax::tokens::put_count;
use er_syntax::{Buffer, Text, flush, put_text};

/// Writes the race of this number, from 1, and its two orders. It takes no memory.
pub fn write_schedules<K: Sink>(
    sink: &mut K,
    table: &Table,
    races: &[Race],
    number: u32,
    orders: &Schedules,
) -> Result<(), WriteFault>
    requires first { 1 ≤ number }
    requires within { number ≤ length races.now }
    requires orders { ∥ AreSomeOrders table.now races.now number orders.now ∥₁ }
    ensures { (lists : List (List ℕ)) → AreOrders lists table.now races.now number orders.now
        → Puts K.got K.faults sink.old (schedule_text lists table.now number) sink.new result }
{
    let race = races[number as usize - 1];
    let first = table.access(race.first);
    let second = table.access(race.second);
    let line = RaceLine {
        number: number as u64,
        first,
        second,
        loc: table.location(first.location),
    };
    put_schedules(sink, &line, orders)?;
    Ok(())
}

/// The same through a buffer.
#[tactic(auto, using(er_io::proofs::Puts::composes))]
fn put_schedules<K: Sink>(
    sink: &mut K,
    race: &RaceLine<'_>,
    orders: &Schedules,
) -> Result<(), Failed>
    ensures whole { OnOk result (Gets (K.got sink.old)
        (schedules_of race.now.number
        (both_at race.now.first race.now.second race.now.loc.now) orders.now)
        (K.got sink.new)) }
    ensures part { OnErr result (GetsPart (K.got sink.old)
        (schedules_of race.now.number
        (both_at race.now.first race.now.second race.now.loc.now) orders.now)
        (K.got sink.new)) }
    ensures counts { CountsFaults K.faults sink.old sink.new result }
{
    let mut buffer = Buffer::new();
    put_text(sink, &mut buffer, &Opening)?;
    put_text(sink, &mut buffer, race)?;
    put_order(sink, &mut buffer, "first", orders.first())?;
    put_order(sink, &mut buffer, "second", orders.second())?;
    put_text(sink, &mut buffer, &End)?;
    flush(sink, &mut buffer)
}

/// Puts a line for each action of an order into the buffer.
fn put_order<K: Sink>(
    sink: &mut K,
    buffer: &mut Buffer,
    word: &str,
    order: &[u32],
) -> Result<(), Failed>
    ensures whole { OnOk result (HoldsRest (K.got sink.old)
        (buffer.old ++ order_lines word.now order.now) (K.got sink.new) buffer.new) }
    ensures part { OnErr result (GetsPart (K.got sink.old)
        (buffer.old ++ order_lines word.now order.now) (K.got sink.new)) }
    ensures counts { CountsFaults K.faults sink.old sink.new result }
{
    for k in 0..order.len() {
        let number = order[k];
        put_text(sink, buffer, &OrderLine { word, number })?;
    }
    Ok(())
}

/// The first line.
#[derive(Drop)]
struct Opening;

impl Text for Opening {
    ghost text = { λ _. opening_line };

    fn put<K: Sink>(&self, sink: &mut K) -> Result<(), Failed> {
        put_count(sink, "schedules", 1)
    }
}

/// The line of an action of an order.
#[derive(Drop)]
struct OrderLine<'a> {
    word: &'a str,
    number: u32,
}

impl<'a> Text for OrderLine<'a> {
    ghost text = { λ line. count_line line.word.now line.number };

    fn put<K: Sink>(&self, sink: &mut K) -> Result<(), Failed> {
        put_count(sink, self.word, self.number as u64)
    }
}

/// The last line.
#[derive(Drop)]
struct End;

impl Text for End {
    ghost text = { λ _. end_line };

    fn put<K: Sink>(&self, sink: &mut K) -> Result<(), Failed> {
        put_all(sink, b"end\n")
    }
}
