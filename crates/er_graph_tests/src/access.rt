//! Whose an access is.

ghost use Rattle.std.specs.Prelude.{◌≡◌, true};
ghost use Rattle.er_trace.specs.Versions.{has_record};

use crate::graph::let_go;
use er_graph::Graph;
use er_io::NoMemory;
use er_syntax::parse::parse_record;
use er_text::Cause;
use er_trace::fault::{FeedFault, LineFault};
use er_trace::record::Record;
use er_trace::version::Version;
use std::alloc::Global;
use std::mem::forget;
use std::process::Abort;

/// Hands in the record. An access behind it is of this action; where memory ran out, none
/// is accepted.
fn begin(rt: &impl Abort, graph: &mut Graph, line: u32, rec: &Record, action: u32)
    requires of_version { has_record graph.old.version rec.now ≡ true }
{
    let due = graph.accept(line, rec).map(|_| action);
    assert!(rt; graph.accept_access(line) == due);
}

/// Hands in the line.
fn begin_line(
    rt: &impl Abort,
    graph: &mut Graph,
    alloc: Global,
    line: u32,
    text: &str,
    action: u32,
) -> Result<(), LineFault> {
    let rec = parse_record(alloc, graph.version(), text.as_bytes())?;
    begin(rt, graph, line, &rec, action);
    forget(rec);
    Ok(())
}

/// Asks before the first action and behind each of two.
fn go_through(rt: &impl Abort, graph: &mut Graph, alloc: Global) -> Result<(), LineFault> {
    let misplaced = FeedFault::Refused {
        line: 2,
        cause: Cause::Misplaced,
    };
    assert!(rt; graph.accept_access(2) == Err(misplaced));
    begin_line(rt, graph, alloc, 2, "parse 0 1 plain", 0)?;
    begin_line(rt, graph, alloc, 3, "parse 0 2 plain", 1)?;
    assert!(rt; graph.accept_access(4) == Ok(1));
    Ok(())
}

/// Goes through a new graph.
fn judge(rt: &impl Abort, alloc: Global) -> Result<(), NoMemory> {
    let mut graph = Graph::new(alloc, Version::One)?;
    let done = go_through(rt, &mut graph, alloc);
    let_go(graph);
    assert!(rt; done.is_ok());
    Ok(())
}

#[test]
fn accesses(rt: HostRuntime) {
    assert!(rt; judge(&rt, rt.alloc()).is_ok());
}
