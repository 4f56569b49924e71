//! Writes the text that is due: of what was found of a legal trace, or a refusal, in the command's
//! format.

ghost use Rattle.std.specs.Prelude.{◌≡◌, ◌≢◌, ◌≤◌, List};
ghost use Rattle.er_io.specs.Ends.{Puts};
ghost use Rattle.er_trace.specs.declared.record.Record.{Record};
ghost use Rattle.er_trace.specs.declared.version.Version.{Version};
ghost use Rattle.er_run.specs.Answer.{outcome_of, outcome_for};
ghost use Rattle.er_run.specs.Promise.{Counts};
ghost use Rattle.er_run.specs.Report.{report, json_report, summary, schedule, is_json, text_for, refusal_for};
ghost use Rattle.er_run.specs.Session.{IsSessionOf};
ghost use Rattle.er_run.specs.Accepted.{EndsAs, IsFound, IsJudged, IsJudgement, IsListed, IsOrdered, AreOrdersOf};
ghost use Rattle.er_run.specs.Accepted.{FailedAs, RefusedAs, ReportsOf};

use crate::findings::{Found, Judged, Listing};
use crate::outcome::Outcome;
use crate::session::Session;
use er_explain::write_steps;
use er_io::{Sink, WriteFault};
use er_json::{write_json_refusal, write_json_report};
use er_races::Race;
use er_report::{write_refusal, write_report, write_summary};
use er_schedule::{Schedules, write_schedules};
use er_text::Cause;
use er_trace::fault::FeedFault;
use er_words::Command;

/// Writes the text that is due for an accepted trace.
pub(crate) fn tell<K: Sink>(judged: &Judged, sink: &mut K) -> Outcome
    requires { IsJudgement judged.now }
    ensures reported { (asked : Command) (h : List Record)
        → IsJudged asked judged.now.session judged.now.found h
        → ReportsOf asked judged.now.session.graph.version h
        (text_for judged.now.session.graph.version asked h) result
        (K.got sink.old) (K.got sink.new) }
    ensures no_memory { result ≢ Outcome.NoMemory }
    ensures faults { Counts Outcome.WriteFault result (K.faults sink.old) (K.faults sink.new) }
{
    let written = put_found(judged, sink);
    ends_as(outcome_found(&judged.found), written)
}

/// The outcome of a run that writes what was found.
fn outcome_found(found: &Found) -> Outcome
    ensures { (asked : Command) (v : Version) (h : List Record) → IsFound asked v found.now h
        → result ≡ outcome_for asked v h }
{
    match found {
        Found::Line(listing) => outcome_of(&listing.races),
        Found::Report(listing) => outcome_of(&listing.races),
        Found::Summary { number: _, listing } => outcome_of(&listing.races),
        Found::Orders { .. } => Outcome::Races,
        Found::Steps { .. } => Outcome::Clean,
    }
}

/// Writes the text of what was found.
fn put_found<K: Sink>(judged: &Judged, sink: &mut K) -> Result<(), WriteFault>
    requires { IsJudgement judged.now }
    ensures { (asked : Command) (h : List Record)
        → IsJudged asked judged.now.session judged.now.found h
        → Puts K.got K.faults sink.old (text_for judged.now.session.graph.version asked h)
        sink.new result }
{
    let session = &judged.session;
    match &judged.found {
        Found::Line(listing) => put_line(session, listing, sink),
        Found::Report(listing) => put_report(session, listing, sink),
        Found::Summary { number, listing } => put_summary(*number, session, listing, sink),
        Found::Orders {
            race,
            races,
            orders,
        } => put_orders(*race, session, races, orders, sink),
        Found::Steps { from, to, steps } => write_steps(sink, *from, *to, steps),
    }
}

/// The outcome of a run that wrote the text of this outcome, or failed to.
fn ends_as(due: Outcome, written: Result<(), WriteFault>) -> Outcome
    ensures { EndsAs due written result }
{
    match written {
        Ok(()) => due,
        Err(WriteFault) => Outcome::WriteFault,
    }
}

/// The outcome of a trace with these races.
fn outcome_of(races: &[Race]) -> Outcome
    ensures { result ≡ outcome_of races.now }
{
    match races {
        [] => Outcome::Clean,
        [_, ..] => Outcome::Races,
    }
}

/// Writes the report as a line of JSON.
fn put_line<K: Sink>(session: &Session, listing: &Listing, sink: &mut K) -> Result<(), WriteFault>
    requires { IsListed session.now listing.now }
    ensures { (h : List Record) → IsSessionOf session.now h
        → Puts K.got K.faults sink.old (json_report session.now.graph.version h) sink.new result }
{
    write_json_report(
        sink,
        &session.kept,
        session.graph.clocks(),
        &listing.races,
        &listing.groups,
    )
}

/// Writes the report.
fn put_report<K: Sink>(session: &Session, listing: &Listing, sink: &mut K) -> Result<(), WriteFault>
    requires { IsListed session.now listing.now }
    ensures { (h : List Record) → IsSessionOf session.now h
        → Puts K.got K.faults sink.old (report session.now.graph.version h) sink.new result }
{
    write_report(
        sink,
        &session.kept,
        session.graph.clocks(),
        &listing.races,
        &listing.groups,
    )
}

/// Writes the summary of a trace of so many rounds.
fn put_summary<K: Sink>(
    number: u32,
    session: &Session,
    listing: &Listing,
    sink: &mut K,
) -> Result<(), WriteFault>
    requires { IsListed session.now listing.now }
    ensures { (h : List Record) → IsSessionOf session.now h
        → Puts K.got K.faults sink.old (summary session.now.graph.version number h)
        sink.new result }
{
    write_summary(
        sink,
        number,
        &session.kept,
        session.graph.clocks(),
        &listing.races,
        &listing.groups,
    )
}

/// Writes the two orders for the race of this number.
fn put_orders<K: Sink>(
    race: u32,
    session: &Session,
    races: &[Race],
    orders: &Schedules,
    sink: &mut K,
) -> Result<(), WriteFault>
    requires { IsOrdered session.now race races.now orders.now }
    ensures { (h : List Record) → IsSessionOf session.now h
        → AreOrdersOf session.now.graph.version race races.now orders.now h
        → Puts K.got K.faults sink.old (schedule session.now.graph.version race h) sink.new result }
{
    write_schedules(sink, &session.kept, races, race, orders)
}

/// Writes the refusal, if the fault is one.
pub(crate) fn tell_fault<K: Sink>(asked: Command, fault: FeedFault, sink: &mut K) -> Outcome
    ensures failed { FailedAs asked fault result (K.got sink.old) (K.got sink.new) }
    ensures kept { result ≡ Outcome.NoMemory → sink.new ≡ sink.old }
    ensures faults { Counts Outcome.WriteFault result (K.faults sink.old) (K.faults sink.new) }
{
    match fault {
        FeedFault::Refused { line, cause } => refuse(asked, line, cause, sink),
        FeedFault::NoMemory => Outcome::NoMemory,
    }
}

/// Writes a refusal in the command's format.
fn refuse<K: Sink>(asked: Command, line: u32, cause: Cause, sink: &mut K) -> Outcome
    ensures refused { RefusedAs line cause (refusal_for asked line cause) result
        (K.got sink.old) (K.got sink.new) }
    ensures no_memory { result ≢ Outcome.NoMemory }
    ensures faults { Counts Outcome.WriteFault result (K.faults sink.old) (K.faults sink.new) }
{
    let written = put_refusal(asked, line, cause, sink);
    ends_as(Outcome::Refused { line, cause }, written)
}

/// Writes the line of a refusal.
fn put_refusal<K: Sink>(
    asked: Command,
    line: u32,
    cause: Cause,
    sink: &mut K,
) -> Result<(), WriteFault>
    ensures { Puts K.got K.faults sink.old (refusal_for asked line cause) sink.new result }
{
    if is_json(asked) {
        write_json_refusal(sink, line, cause)
    } else {
        write_refusal(sink, line, cause)
    }
}

/// Whether the command requests a line of JSON.
fn is_json(asked: Command) -> bool
    ensures { result ≡ is_json asked }
{
    match asked {
        Command::Check { json, input: _ } => json,
        Command::Gen { .. } => false,
        Command::Schedule { .. } => false,
        Command::Explain { .. } => false,
    }
}
