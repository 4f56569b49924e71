//! Records handed straight to a graph, and what its clocks and its rules answer.
//!
//! A record is forgotten where its end would come: its name lies in place, so that nothing is lost,
//! and the proof of the end of a record takes as long as ten of these functions.

ghost use Rattle.std.specs.Prelude.{◌≡◌, true, false, OnOk};
ghost use Rattle.er_trace.specs.Versions.{has_record};

use er_clocks::{Meter, Paths};
use er_graph::Graph;
use er_io::NoMemory;
use er_rules::{parse, script};
use er_syntax::parse::parse_record;
use er_text::Cause;
use er_trace::fault::{FeedFault, LineFault};
use er_trace::record::Record;
use er_trace::version::Version;
use smallvec::SmallVec;
use std::alloc::Global;
use std::mem::forget;
use std::process::Abort;

/// Lines that are handed in, each with its number and the cause against it, and what
/// holds behind them.
struct Row {
    lines: &'static [(u32, &'static str, Option<Cause>)],
    /// The actions with their lines.
    lines_of: &'static [(u32, Option<u32>)],
    /// Whether a path leads from the first action to the second.
    paths: &'static [(u32, u32, Option<bool>)],
    /// Actions with their chains, their places there and the sources of their links.
    clocks: &'static [(u32, u32, u32, &'static [u16])],
    /// Next records, and what the rules of parsing and of scripts answer.
    next: &'static [Next],
}

/// A next record, and what the rules of parsing and of scripts answer.
struct Next {
    text: &'static str,
    /// The pieces that the rules of parsing hand.
    of_parsing: &'static [u32],
    /// The pieces that the rules of scripts hand.
    of_scripts: &'static [u32],
    /// Whether the rules of scripts hold the record back. Those of parsing hold none back.
    is_late: bool,
}

static ROWS: [Row; 2] = [
    // a blocking script after a later parse step, and a parse step behind that refusal
    Row {
        lines: &[
            (7, "parse 0 1 sync", None), // 0
            (20, "parse 0 2 plain", None), // 1
            (40, "exec 1", Some(Cause::OutOfOrder)),
            (41, "parse 0 3 plain", None), // 2
        ],
        lines_of: &[(0, Some(7)), (1, Some(20)), (2, Some(41)), (3, None)],
        paths: &[
            (0, 1, Some(true)),
            (0, 2, Some(true)),
            (1, 0, Some(false)),
            (0, 3, None),
        ],
        clocks: &[(0, 0, 0, &[]), (1, 0, 1, &[0]), (2, 0, 2, &[1])],
        next: &[
            Next {
                text: "parse 0 4 plain",
                of_parsing: &[2],
                of_scripts: &[],
                is_late: false,
            },
            Next {
                text: "exec 1",
                of_parsing: &[],
                of_scripts: &[0],
                is_late: true,
            },
        ],
    },
    // an async script and a deferred one
    Row {
        lines: &[
            (2, "parse 0 1 async", None), // 0
            (3, "parse 0 2 defer", None), // 1
            (4, "exec 1", None), // 2
        ],
        lines_of: &[(0, Some(2)), (1, Some(3)), (2, Some(4)), (3, None)],
        paths: &[(0, 1, Some(true)), (0, 2, Some(true)), (1, 2, Some(false))],
        clocks: &[(0, 0, 0, &[]), (1, 0, 1, &[0]), (2, 1, 0, &[0])],
        next: &[Next {
            text: "exec 2",
            of_parsing: &[],
            of_scripts: &[1, 1],
            is_late: false,
        }],
    },
];

/// Hands in the record, and answers with which number and cause it was refused.
fn hand_record(
    graph: &mut Graph,
    line: u32,
    rec: &Record,
) -> Result<Option<(u32, Cause)>, LineFault>
    requires whole { graph.old.has_failed ≡ false }
    requires of_version { has_record graph.old.version rec.now ≡ true }
    ensures { OnOk result (graph.new.has_failed ≡ false) }
{
    match graph.accept(line, rec) {
        Ok(()) => Ok(None),
        Err(FeedFault::Refused { line, cause }) => Ok(Some((line, cause))),
        Err(FeedFault::NoMemory) => Err(LineFault::NoMemory),
    }
}

/// Hands in the line, and answers with which number and cause it was refused.
pub(crate) fn hand(
    graph: &mut Graph,
    alloc: Global,
    line: u32,
    text: &str,
) -> Result<Option<(u32, Cause)>, LineFault>
    requires whole { graph.old.has_failed ≡ false }
    ensures { OnOk result (graph.new.has_failed ≡ false) }
{
    let rec = parse_record(alloc, graph.version(), text.as_bytes())?;
    let answer = hand_record(graph, line, &rec);
    forget(rec);
    answer
}

/// Hands in each line. A refusal names the line that was handed in.
fn hand_each(
    rt: &impl Abort,
    graph: &mut Graph,
    alloc: Global,
    lines: &[(u32, &str, Option<Cause>)],
) -> Result<(), LineFault>
    requires whole { graph.old.has_failed ≡ false }
    ensures { OnOk result (graph.new.has_failed ≡ false) }
{
    for (line, text, cause) in lines {
        let refused = hand(graph, alloc, *line, text)?;
        assert!(rt; refused == cause.map(|cause| (*line, cause)), "{text}");
    }
    Ok(())
}

/// The line of the action, if it has begun.
fn line_of(graph: &Graph, action: u32) -> Option<u32> {
    if action >= graph.page().actions() {
        return None;
    }
    Some(graph.line_of(action))
}

/// Whether a path leads from action i to action j, if both have begun.
fn path(graph: &Graph, i: u32, j: u32) -> Option<bool> {
    let clocks = graph.clocks();
    let count = clocks.len();
    if i >= count {
        return None;
    }
    if j >= count {
        return None;
    }
    let mut meter = Meter::new();
    Some(clocks.before(i, j, &mut meter))
}

/// Whether the action is at this place of the chain, with these links.
fn has_clock(graph: &Graph, action: u32, chain: u32, place: u32, links: &[u16]) -> bool {
    let clocks = graph.clocks();
    if action >= clocks.len() {
        return false;
    }
    let entry = clocks.entry(action, chain);
    clocks.chain_of(action) == chain
        && clocks.place_of(action) == place
        && entry == place.saturating_add(1)
        && clocks.links_of(action) == links
}

/// Whether the rules of parsing hand these pieces to the action of a next record.
fn is_handed_by_parsing(graph: &Graph, alloc: Global, rec: &Record, due: &[u32]) -> bool {
    let mut found = SmallVec::new(alloc);
    let done = parse::predecessors::predecessors(graph.page(), rec, &mut found);
    done.is_ok() & (found.as_slice() == due)
}

/// Whether the rules of scripts hand these pieces to the action of a next record.
fn is_handed_by_scripts(graph: &Graph, alloc: Global, rec: &Record, due: &[u32]) -> bool {
    let mut found = SmallVec::new(alloc);
    let done = script::predecessors::predecessors(graph.page(), rec, &mut found);
    done.is_ok() & (found.as_slice() == due)
}

/// Whether the rules of scripts alone hold a next record back, or none do.
fn is_held_back(graph: &Graph, rec: &Record, due: bool) -> bool {
    let page = graph.page();
    !parse::against::against(page, rec) & (script::against::against(page, rec) == due)
}

/// Whether these rules answer what is due.
fn is_answered(graph: &Graph, alloc: Global, rec: &Record, due: &Next) -> bool {
    is_handed_by_parsing(graph, alloc, rec, due.of_parsing)
        & is_handed_by_scripts(graph, alloc, rec, due.of_scripts)
        & is_held_back(graph, rec, due.is_late)
}

/// What the graph answers.
fn ask_graph(rt: &impl Abort, graph: &Graph, row: &Row) {
    for (action, due) in row.lines_of {
        assert!(rt; line_of(graph, *action) == *due, "{action}");
    }
    for (i, j, due) in row.paths {
        assert!(rt; path(graph, *i, *j) == *due, "{i} {j}");
    }
    for (action, chain, place, links) in row.clocks {
        assert!(rt;
            has_clock(graph, *action, *chain, *place, links),
            "{action}"
        );
    }
}

/// Whether these rules answer what is due for the record that the line spells.
fn is_line_answered(graph: &Graph, alloc: Global, due: &Next) -> Result<bool, LineFault> {
    let rec = parse_record(alloc, graph.version(), due.text.as_bytes())?;
    let answered = is_answered(graph, alloc, &rec, due);
    forget(rec);
    Ok(answered)
}

/// Hands in the lines of the row, and asks the rest.
fn go_through(rt: &impl Abort, graph: &mut Graph, alloc: Global, row: &Row)
    requires whole { graph.old.has_failed ≡ false }
{
    let handed = hand_each(rt, graph, alloc, row.lines);
    assert!(rt; handed.is_ok());
    ask_graph(rt, graph, row);
    for due in row.next {
        let answered = is_line_answered(graph, alloc, due);
        assert!(rt; answered == Ok(true), "{}", due.text);
    }
}

/// Lets the graph go. The proof of that is long, and a caller that goes through this
/// needs none of its own.
pub(crate) fn let_go(_graph: Graph) {}

/// Goes through the row with a new graph.
fn judge(rt: &impl Abort, alloc: Global, row: &Row) -> Result<(), NoMemory> {
    let mut graph = Graph::new(alloc, Version::One)?;
    go_through(rt, &mut graph, alloc, row);
    let_go(graph);
    Ok(())
}

#[test]
fn rows(rt: HostRuntime) {
    for row in &ROWS {
        assert!(rt; judge(&rt, rt.alloc(), row).is_ok());
    }
}
