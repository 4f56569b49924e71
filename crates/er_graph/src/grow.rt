//! How the parts of a graph grow by a record.

ghost use Rattle.std.specs.Prelude.{◌≡◌, ◌∷◌, List, true, false, None, OnOk, OnErr};
ghost use Rattle.er_trace.specs.Versions.{has_record};
ghost use Rattle.er_history.specs.History as history;
ghost use Rattle.er_graph.specs.Accepted.{Accepted, cause_now, IsTold, AreTimed, IsNext};
ghost use Rattle.er_graph.specs.Next.{ComesNow, TimedMore};

use crate::again::follows_peer;
use crate::order::sources;
use er_clocks::Clocks;
use er_io::NoMemory;
use er_page::page::Page;
use er_page::piece::begins;
use er_trace::record::Record;
use er_trace::version::Version;
use std::alloc::Global;

/// Takes a record against which there is no cause. After `NoMemory` the clocks may have
/// one action more.
pub(crate) fn grow(
    version: Version,
    page: &mut Page,
    clocks: &mut Clocks,
    lines: &mut Vec<u32>,
    line: u32,
    rec: &Record,
) -> Result<(), NoMemory>
    requires next { ∥ IsNext version page.old clocks.old lines.old.items rec.now ∥₁ }
    requires of_version { has_record version rec.now ≡ true }
    ensures told { OnOk result ((accepted : List Accepted)
        → IsTold version page.old lines.old.items accepted
        → cause_now version accepted rec.now ≡ None
        → IsTold version page.new lines.new.items
        (record { line = line; read = rec.now } ∷ accepted)) }
    ensures timed { OnOk result ((accepted : List Accepted)
        → IsTold version page.old lines.old.items accepted → AreTimed version clocks.old accepted
        → cause_now version accepted rec.now ≡ None
        → AreTimed version clocks.new (record { line = line; read = rec.now } ∷ accepted)) }
    ensures kept { OnErr result ((accepted : List Accepted)
        → IsTold version page.old lines.old.items accepted
        → IsTold version page.new lines.new.items accepted) }
{
    if begins(rec) {
        return begin(version, page, clocks, lines, line, rec);
    }
    page.apply(rec)
}

/// Takes a record that begins an action.
fn begin(
    version: Version,
    page: &mut Page,
    clocks: &mut Clocks,
    lines: &mut Vec<u32>,
    line: u32,
    rec: &Record,
) -> Result<(), NoMemory>
    requires next { ∥ IsNext version page.old clocks.old lines.old.items rec.now ∥₁ }
    requires of_version { has_record version rec.now ≡ true }
    requires begins { history.begins rec.now ≡ true }
    ensures told { OnOk result ((accepted : List Accepted)
        → IsTold version page.old lines.old.items accepted
        → cause_now version accepted rec.now ≡ None
        → IsTold version page.new lines.new.items
        (record { line = line; read = rec.now } ∷ accepted)) }
    ensures timed { OnOk result ((accepted : List Accepted)
        → IsTold version page.old lines.old.items accepted → AreTimed version clocks.old accepted
        → cause_now version accepted rec.now ≡ None
        → AreTimed version clocks.new (record { line = line; read = rec.now } ∷ accepted)) }
    ensures kept { OnErr result ((accepted : List Accepted)
        → IsTold version page.old lines.old.items accepted
        → IsTold version page.new lines.new.items accepted) }
{
    let alloc = *lines.allocator();
    let Ok(()) = lines.reserve(1) else {
        return Err(NoMemory);
    };
    let _number = push(alloc, version, page, clocks, rec)?;
    page.apply(rec)?;
    let Ok(()) = lines.push(line) else {
        unreachable!()
    };
    Ok(())
}

/// Adds the action that the record begins to the clocks. Where a handler runs behind another of its
/// group and one event registered both, the same actions come before it, and are not gone through.
fn push(
    alloc: Global,
    version: Version,
    page: &Page,
    clocks: &mut Clocks,
    rec: &Record,
) -> Result<u32, NoMemory>
    requires now { ∥ ComesNow version page.now clocks.old rec.now ∥₁ }
    requires begins { history.begins rec.now ≡ true }
    ensures { OnOk result (TimedMore version page.now clocks.old rec.now clocks.new) }
{
    if follows_peer(page, rec) {
        return clocks.push_again();
    }
    let sources = sources(alloc, page, clocks, version, rec)?;
    clocks.push(sources.as_slice())
}
