//! The end of a trace: its limits, and what the command requests of its records.

ghost use Rattle.std.specs.Prelude.{◌≡◌, ◌<◌, ◌≤◌, ◌^◌, List, OnOk, IfOk, IfErr, length};
ghost use Rattle.er_trace.specs.declared.record.Record.{Record};
ghost use Rattle.er_trace.specs.declared.version.Version.{Version};
ghost use Rattle.er_trace.specs.Limits.{most_shards};
ghost use Rattle.er_words.specs.declared.commands.Input.{Input};
ghost use Rattle.er_run.specs.Legal.{end_cause_for, end_cause, schedule_cause, explain_cause};
ghost use Rattle.er_run.specs.Meters.{HaveRoom, Rise};
ghost use Rattle.er_run.specs.Session.{IsSessionOf};
ghost use Rattle.er_run.specs.Accepted.{IsAskable, IsReportable, AreListed, AreGrouped, AreOrdersOf, IsListing, IsFound, IsJudged};
ghost use Rattle.er_run.specs.Accepted.{IsCompared, IsTested, IsComparedFor, IsTestedFor, IsEndFault, IsListFault};

use crate::findings::{Found, Listing};
use crate::meters::Meters;
use crate::session::Session;
use er_clocks::Meter;
use er_cover::{CoverFault, Groups};
use er_explain::explain;
use er_io::NoMemory;
use er_races::{ListFault, Race};
use er_schedule::{Schedules, make_schedules};
use er_shard::{Gate, Work, group_shards, list_shards};
use er_text::Cause;
use er_trace::fault::FeedFault;
use er_words::Command;
use std::alloc::Global;

/// The most candidate pairs of a trace.
const MOST_PAIRS: u64 = 16_777_216;

/// Finds what the command requests, unless the `end` line after the records is refused.
pub(crate) fn found_within<R: Gate + Sync>(
    work: &Work<'_, R>,
    command: Command,
    session: &Session,
    meters: &mut Meters,
) -> Result<Found, FeedFault>
    requires asked { IsAskable work.now.shards command }
    requires some { IsReportable session.now }
    requires room { HaveRoom meters.old }
    ensures found { IfOk result (λ found. (h : List Record) → IsSessionOf session.now h
        → IsJudged command session.now found h) }
    ensures compared { OnOk result
        (IsComparedFor command session.now meters.old.compares meters.new.compares) }
    ensures tested { OnOk result
        (IsTestedFor command session.now meters.old.tests meters.new.tests) }
    ensures refused { IfErr result (λ fault. (h : List Record) → IsSessionOf session.now h
        → IsEndFault (end_cause_for command session.now.graph.version h) h fault) }
    ensures rise { Rise meters.old meters.new }
{
    match command {
        Command::Check { json, input: _ } => {
            match listing_within(work, session, meters) {
                Ok(listing) => Ok(for_text(json, listing)),
                Err(fault) => Err(fault),
            }
        }
        Command::Gen { number } => {
            match listing_within(work, session, meters) {
                Ok(listing) => Ok(Found::Summary { number, listing }),
                Err(fault) => Err(fault),
            }
        }
        Command::Schedule { race } => orders_within(work, session, race, &mut meters.compares),
        Command::Explain { from, to } => steps_within(work.alloc, session, from, to),
    }
}

/// The races for a line of JSON, or for a report.
fn for_text(json: bool, listing: Listing) -> Found
    ensures { (input : Input) (v : Version) (h : List Record) → IsListing v listing h
        → IsFound (Command.Check json input) v result h }
{
    if json {
        Found::Line(listing)
    } else {
        Found::Report(listing)
    }
}

/// Lists the races and groups them, unless they or the pairs or the classes are over their limit.
fn listing_within<R: Gate + Sync>(
    work: &Work<'_, R>,
    session: &Session,
    meters: &mut Meters,
) -> Result<Listing, FeedFault>
    requires split { (1 ≤ work.now.shards) × (work.now.shards ≤ most_shards) }
    requires some { IsReportable session.now }
    requires room { HaveRoom meters.old }
    ensures listed { IfOk result (λ listing. (h : List Record) → IsSessionOf session.now h
        → IsListing session.now.graph.version listing h) }
    ensures compared { OnOk result
        (IsCompared session.now meters.old.compares meters.new.compares) }
    ensures tested { OnOk result (IsTested session.now meters.old.tests meters.new.tests) }
    ensures refused { IfErr result (λ fault. (h : List Record) → IsSessionOf session.now h
        → IsEndFault (end_cause session.now.graph.version h) h fault) }
    ensures rise { Rise meters.old meters.new }
{
    let races = match races_within(work, session, &mut meters.compares) {
        Ok(races) => races,
        Err(fault) => return Err(fault),
    };
    match groups_within(work, session, races.as_slice(), &mut meters.tests) {
        Ok(groups) => Ok(Listing { races, groups }),
        Err(fault) => Err(fault),
    }
}

/// The two orders for the race of this number, unless there is none, or the races or the pairs are
/// over their limit.
fn orders_within<R: Gate + Sync>(
    work: &Work<'_, R>,
    session: &Session,
    race: u32,
    compares: &mut Meter,
) -> Result<Found, FeedFault>
    requires split { (1 ≤ work.now.shards) × (work.now.shards ≤ most_shards) }
    requires first { 1 ≤ race }
    requires some { IsReportable session.now }
    requires room { compares.old < 2 ^ 60 }
    ensures found { IfOk result (λ found. (h : List Record) → IsSessionOf session.now h
        → IsJudged (Command.Schedule race) session.now found h) }
    ensures compared { OnOk result (IsCompared session.now compares.old compares.new) }
    ensures refused { IfErr result (λ fault. (h : List Record) → IsSessionOf session.now h
        → IsEndFault (schedule_cause race session.now.graph.version h) h fault) }
    ensures rises { compares.old ≤ compares.new }
{
    let races = match races_within(work, session, compares) {
        Ok(races) => races,
        Err(fault) => return Err(fault),
    };
    if race as usize > races.len() {
        return Err(FeedFault::Refused {
            line: session.next_line(),
            cause: Cause::NoRace,
        });
    }
    match orders_of(work.alloc, session, races.as_slice(), race) {
        Ok(orders) => Ok(Found::Orders {
            race,
            races,
            orders,
        }),
        Err(NoMemory) => Err(FeedFault::NoMemory),
    }
}

/// The two orders for the race of this number.
fn orders_of(
    alloc: Global,
    session: &Session,
    races: &[Race],
    race: u32,
) -> Result<Schedules, NoMemory>
    requires first { 1 ≤ race }
    requires within { race ≤ length races.now }
    requires some { IsReportable session.now }
    requires listed { (h : List Record) → IsSessionOf session.now h
        → AreListed session.now.graph.version races.now h }
    ensures { IfOk result (λ orders. (h : List Record) → IsSessionOf session.now h
        → AreOrdersOf session.now.graph.version race races.now orders h) }
{
    let found = races[race as usize - 1];
    let first = session.kept.access(found.first);
    let second = session.kept.access(found.second);
    make_schedules(alloc, session.graph.clocks(), first.action, second.action)
}

/// The steps from one action to another, unless one of the two is no action.
fn steps_within(alloc: Global, session: &Session, from: u32, to: u32) -> Result<Found, FeedFault>
    requires some { IsReportable session.now }
    ensures found { IfOk result (λ found. (h : List Record) → IsSessionOf session.now h
        → IsJudged (Command.Explain from to) session.now found h) }
    ensures refused { IfErr result (λ fault. (h : List Record) → IsSessionOf session.now h
        → IsEndFault (explain_cause from to h) h fault) }
{
    let actions = session.graph.page().actions();
    if from >= actions || to >= actions {
        return Err(FeedFault::Refused {
            line: session.next_line(),
            cause: Cause::NoAction,
        });
    }
    match explain(alloc, &session.graph, from, to) {
        Ok(steps) => Ok(Found::Steps { from, to, steps }),
        Err(NoMemory) => Err(FeedFault::NoMemory),
    }
}

/// Lists the races, unless the pairs or the races are over their limit.
fn races_within<R: Gate + Sync>(
    work: &Work<'_, R>,
    session: &Session,
    compares: &mut Meter,
) -> Result<Vec<Race>, FeedFault>
    requires split { (1 ≤ work.now.shards) × (work.now.shards ≤ most_shards) }
    requires some { IsReportable session.now }
    requires room { compares.old < 2 ^ 60 }
    ensures listed { IfOk result (λ races. (h : List Record) → IsSessionOf session.now h
        → AreListed session.now.graph.version races.items h) }
    ensures compared { OnOk result (IsCompared session.now compares.old compares.new) }
    ensures refused { IfErr result (λ fault. (h : List Record) → IsSessionOf session.now h
        → IsListFault session.now.graph.version h fault) }
    ensures rises { compares.old ≤ compares.new }
{
    let line = session.next_line();
    if session.kept.pairs() > MOST_PAIRS {
        return Err(FeedFault::Refused {
            line,
            cause: Cause::TooManyPairs,
        });
    }
    match list_shards(work, &session.kept, session.graph.clocks(), compares) {
        Ok(races) => Ok(races),
        Err(ListFault::TooManyRaces) => Err(FeedFault::Refused {
            line,
            cause: Cause::TooManyRaces,
        }),
        Err(ListFault::NoMemory) => Err(FeedFault::NoMemory),
    }
}

/// Groups the races, unless the classes are over their limit.
fn groups_within<R: Gate + Sync>(
    work: &Work<'_, R>,
    session: &Session,
    races: &[Race],
    tests: &mut Meter,
) -> Result<Groups, FeedFault>
    requires split { (1 ≤ work.now.shards) × (work.now.shards ≤ most_shards) }
    requires some { IsReportable session.now }
    requires listed { (h : List Record) → IsSessionOf session.now h
        → AreListed session.now.graph.version races.now h }
    requires room { tests.old < 2 ^ 60 }
    ensures grouped { IfOk result (λ groups. (h : List Record) → IsSessionOf session.now h
        → AreGrouped session.now.graph.version groups h) }
    ensures tested { OnOk result (IsTested session.now tests.old tests.new) }
    ensures refused { IfErr result (λ fault. (h : List Record) → IsSessionOf session.now h
        → IsEndFault (end_cause session.now.graph.version h) h fault) }
    ensures rises { tests.old ≤ tests.new }
{
    match group_shards(work, races, &session.kept, session.graph.clocks(), tests) {
        Ok(groups) => Ok(groups),
        Err(CoverFault::TooManyClasses) => Err(FeedFault::Refused {
            line: session.next_line(),
            cause: Cause::TooManyClasses,
        }),
        Err(CoverFault::NoMemory) => Err(FeedFault::NoMemory),
    }
}
