//! Worked traces: why two of their actions are ordered, and two orders of two that are not.

ghost use Rattle.std.specs.Prelude.{◌≡◌, false, OnOk};

use er_clocks::{Clocks, Meter, Paths};
use er_explain::{explain, rule_of, write_steps};
use er_graph::Graph;
use er_io::NoMemory;
use er_io_system::MemorySink;
use er_schedule::{check_schedule, make_schedules};
use er_syntax::parse::parse_record;
use er_trace::fault::{FeedFault, LineFault};
use er_trace::version::Version;
use std::alloc::Global;
use std::test::Fail;

/// A version, records one a line, two of their actions, and the text of the explanation.
struct Row {
    version: Version,
    lines: &'static [&'static str],
    from: u32,
    to: u32,
    text: &'static str,
}

/// A script sets two timeouts, which fire in their order.
const TIMEOUTS_IN_ORDER: &[&str] = &[
    "parse 0 1 inline",
    "exec 1",
    "set 1 0",
    "set 2 10",
    "timer 1",
    "w var 0 x",
    "timer 2",
    "r var 0 x",
];

/// And in the other.
const TIMEOUTS_OUT_OF_ORDER: &[&str] = &[
    "parse 0 1 inline",
    "exec 1",
    "set 1 10",
    "set 2 0",
    "timer 2",
    "w var 0 x",
    "timer 1",
    "r var 0 x",
];

const EXPLAINED: &[Row] = &[
    Row {
        version: Version::One,
        lines: TIMEOUTS_IN_ORDER,
        from: 0,
        to: 3,
        text: "explain 0 3\nstep 0 1 3\nstep 1 2 18\nstep 2 3 19\nend\n",
    },
    Row {
        version: Version::One,
        lines: &[
            "parse 0 1 inline",
            "exec 1",
            "w var 0 x",
            "on 7",
            "new 0 2 plain",
            "inline 1 2 click",
            "run 1 0 7",
            "r var 0 x",
            "close 1",
            "back 1",
            "w var 0 x",
        ],
        from: 1,
        to: 5,
        text: "explain 1 5\nstep 1 2 14\nstep 2 3 16\nstep 3 4 16\nstep 4 5 22\nend\n",
    },
    Row {
        version: Version::One,
        lines: TIMEOUTS_OUT_OF_ORDER,
        from: 2,
        to: 3,
        text: "explain 2 3\nunordered\nend\n",
    },
    Row {
        version: Version::One,
        lines: &[
            "parse 0 1 plain",
            "parse 0 2 sync",
            "exec 2",
            "w var 0 app",
            "parse 0 3 defer",
            "parse 0 4 async",
            "parse 0 5 frame 1",
            "parse 0 6 frame 2",
            "parse 1 7 plain",
            "exec 4",
            "r var 0 app",
            "w var 0 count",
            "parse 2 8 inline",
            "exec 8",
            "w var 2 ready",
            "parse 0 9 plain",
            "w elem 0 buy",
            "exec 3",
            "r elem 0 buy",
            "on 1",
            "w slot 9 click",
            "send 1",
            "on 2",
            "every 1 50",
            "dcl 1 0",
            "close 1",
            "dcl 2 1",
            "close 2",
            "load 3 1",
            "close 3",
            "eload 4 5",
            "close 4",
            "dcl 5 2",
            "close 5",
            "load 6 2",
            "close 6",
            "eload 7 6",
            "close 7",
            "tick 1",
            "r var 0 count",
            "reply 8 1",
            "run 8 0 2",
            "w var 0 count",
            "close 8",
            "load 9 0",
            "close 9",
            "fire 10 9 click",
            "r slot 9 click",
            "run 10 0 1",
            "r var 0 count",
            "close 10",
            "tick 1",
            "r var 0 count",
        ],
        from: 12,
        to: 35,
        text: "explain 12 35\nstep 12 34 15\nstep 34 35 16\nend\n",
    },
    Row {
        version: Version::One,
        lines: &[
            "parse 0 1 inline",
            "exec 1",
            "set 1 0",
            "set 2 10",
            "timer 1",
            "set 3 10",
            "timer 2",
            "w var 0 x",
            "timer 3",
            "r var 0 x",
        ],
        from: 3,
        to: 4,
        text: "explain 3 4\nunordered\nend\n",
    },
    Row {
        version: Version::Two,
        lines: &[
            "parse 0 1 inline",
            "exec 1",
            "set 1 0",
            "set 2 10",
            "timer 1",
            "set 3 10",
            "timer 2",
            "w var 0 x",
            "timer 3",
            "r var 0 x",
        ],
        from: 3,
        to: 4,
        text: "explain 3 4\nstep 3 4 19\nend\n",
    },
];

/// Two actions of the timeouts in order, and the least rule that makes an edge between
/// them, if one does.
const RULES: &[(u32, u32, Option<u32>)] = &[
    (0, 1, Some(3)),
    (1, 2, Some(18)),
    (1, 3, Some(18)),
    (2, 3, Some(19)),
    (0, 2, None),
    (2, 2, None),
    (3, 2, None),
];

/// Each of two timeouts sets one more.
const TWO_PAIRS: &[&str] = &[
    "parse 0 1 inline",
    "exec 1",
    "set 1 10",
    "set 2 0",
    "timer 2",
    "w var 0 x",
    "set 3 0",
    "timer 3",
    "w var 0 f",
    "timer 1",
    "r var 0 f",
    "set 4 0",
    "timer 4",
    "r var 0 x",
];

/// Hands in the record of the line, and answers whether it was accepted.
fn hand(graph: &mut Graph, alloc: Global, line: u32, text: &str) -> Result<bool, LineFault>
    requires whole { graph.old.has_failed ≡ false }
    ensures { OnOk result (graph.new.has_failed ≡ false) }
{
    let rec = parse_record(alloc, graph.version(), text.as_bytes())?;
    match graph.accept(line, &rec) {
        Ok(()) => Ok(true),
        Err(FeedFault::Refused { .. }) => Ok(false),
        Err(FeedFault::NoMemory) => Err(LineFault::NoMemory),
    }
}

/// Hands in the records of all lines.
fn hand_all(graph: &mut Graph, alloc: Global, lines: &[&str]) -> Result<bool, LineFault>
    requires whole { graph.old.has_failed ≡ false }
    ensures { OnOk result (graph.new.has_failed ≡ false) }
{
    let mut number = 2;
    let mut accepted = true;
    for text in lines {
        if !hand(graph, alloc, number, *text)? {
            accepted = false;
        }
        number = number.saturating_add(1);
    }
    Ok(accepted)
}

/// Writes why the actions are ordered, if both have begun.
fn write(
    alloc: Global,
    graph: &Graph,
    from: u32,
    to: u32,
    sink: &mut MemorySink,
) -> Result<bool, NoMemory>
    requires whole { graph.now.has_failed ≡ false }
{
    let count = graph.page().actions();
    if from >= count {
        return Ok(false);
    }
    if to >= count {
        return Ok(false);
    }
    let steps = explain(alloc, graph, from, to)?;
    Ok(write_steps(sink, from, to, &steps).is_ok())
}

/// Whether the orders of the two actions are these, and each is one for them and none for
/// the other.
fn has_orders(
    alloc: Global,
    clocks: &Clocks,
    i: u32,
    j: u32,
    first: &[u32],
    second: &[u32],
) -> Result<bool, NoMemory> {
    if i >= j {
        return Ok(false);
    }
    if j >= clocks.len() {
        return Ok(false);
    }
    let mut meter = Meter::new();
    if clocks.before(i, j, &mut meter) {
        return Ok(false);
    }
    let orders = make_schedules(alloc, clocks, i, j)?;
    let is_first = check_schedule(alloc, clocks, first, i, j)?;
    let is_second = check_schedule(alloc, clocks, second, j, i)?;
    let is_other = check_schedule(alloc, clocks, second, i, j)?;
    Ok(orders.first() == first && orders.second() == second && is_first && is_second && !is_other)
}

/// Whether the order is one in which i stands directly before j.
fn is_order(
    alloc: Global,
    clocks: &Clocks,
    order: &[u32],
    i: u32,
    j: u32,
) -> Result<bool, NoMemory> {
    if i >= clocks.len() {
        return Ok(false);
    }
    if j >= clocks.len() {
        return Ok(false);
    }
    check_schedule(alloc, clocks, order, i, j)
}

/// Whether the two orders of two timeouts are told, and none of three other lists is one of the
/// first: the other order, one that breaks an edge, one that lacks an action.
fn tells_orders(alloc: Global, clocks: &Clocks) -> Result<bool, NoMemory> {
    let both = has_orders(alloc, clocks, 2, 3, &[0, 1, 2, 3], &[0, 1, 3, 2])?;
    let turned = is_order(alloc, clocks, &[0, 1, 3, 2], 2, 3)?;
    let broken = is_order(alloc, clocks, &[1, 0, 2, 3], 2, 3)?;
    let short = is_order(alloc, clocks, &[0, 1, 2], 2, 3)?;
    Ok(both & !turned & !broken & !short)
}

/// The rule of the edge, if both actions have begun.
fn rule_between(graph: &Graph, from: u32, to: u32) -> Option<u32> {
    let count = graph.page().actions();
    if from >= count {
        return None;
    }
    if to >= count {
        return None;
    }
    rule_of(graph, from, to)
}

fn has_rules(graph: &Graph) -> bool {
    for (from, to, rule) in RULES {
        if rule_between(graph, *from, *to) != *rule {
            return false;
        }
    }
    true
}

fn let_go(_: Graph) {}

#[test]
fn explained(rt: HostRuntime) -> Result<(), Fail> {
    let alloc = rt.alloc();
    for row in EXPLAINED {
        let mut graph = Graph::new(alloc, row.version)?;
        let accepted = hand_all(&mut graph, alloc, row.lines)?;
        let mut sink = MemorySink::new(alloc, 4096, 4096, Vec::new(alloc))?;
        let written = write(alloc, &graph, row.from, row.to, &mut sink)?;
        let is_right = accepted && written && sink.bytes() == row.text.as_bytes();
        let_go(graph);
        assert!(rt; is_right, "{}", row.text);
    }
    Ok(())
}

#[test]
fn ordered(rt: HostRuntime) -> Result<(), Fail> {
    let alloc = rt.alloc();
    let mut graph = Graph::new(alloc, Version::One)?;
    let accepted = hand_all(&mut graph, alloc, TWO_PAIRS)?;
    let right = has_orders(
        alloc,
        graph.clocks(),
        2,
        5,
        &[0, 1, 4, 2, 5, 3],
        &[0, 1, 4, 5, 2, 3],
    )?;
    let_go(graph);
    assert!(rt; accepted, "all are accepted");
    assert!(rt; right, "both orders");
    Ok(())
}

#[test]
fn checked(rt: HostRuntime) -> Result<(), Fail> {
    let alloc = rt.alloc();
    let mut graph = Graph::new(alloc, Version::One)?;
    let accepted = hand_all(&mut graph, alloc, TIMEOUTS_OUT_OF_ORDER)?;
    let right = tells_orders(alloc, graph.clocks())?;
    let_go(graph);
    assert!(rt; accepted, "all are accepted");
    assert!(rt; right, "both orders, and none of the others");
    Ok(())
}

#[test]
fn ruled(rt: HostRuntime) -> Result<(), Fail> {
    let alloc = rt.alloc();
    let mut graph = Graph::new(alloc, Version::One)?;
    let accepted = hand_all(&mut graph, alloc, TIMEOUTS_IN_ORDER)?;
    let right = has_rules(&graph);
    let_go(graph);
    assert!(rt; accepted, "all are accepted");
    assert!(rt; right, "the rule of each edge");
    Ok(())
}
