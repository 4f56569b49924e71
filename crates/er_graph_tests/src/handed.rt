//! How many numbers each family of rules hands for each record of a load.

ghost use Rattle.std.specs.Prelude.{◌≡◌, false};
ghost use Rattle.er_page.specs.Page.{IsSomePage};

use crate::graph::{hand, let_go};
use er_graph::Graph;
use er_io::NoMemory;
use er_page::page::Page;
use er_path_rules::{task, timer};
use er_rules::{dispatch, load, parse, request, script};
use er_syntax::parse::parse_record;
use er_trace::fault::LineFault;
use er_trace::record::Record;
use er_trace::version::Version;
use smallvec::SmallVec;
use std::alloc::Global;
use std::mem::forget;
use std::process::Abort;

/// The records of the realistic load, the most numbers that may be handed for each, and how many
/// are: of parsing, scripts, loads, timers, requests and dispatches.
pub(crate) static NUMBERS: [(&str, [usize; 6], [usize; 6]); 53] = [
    ("parse 0 1 plain", [2, 1, 0, 0, 0, 0], [0, 0, 0, 0, 0, 0]),
    ("parse 0 2 sync", [2, 1, 0, 0, 0, 0], [1, 0, 0, 0, 0, 0]),
    ("exec 2", [0, 4, 0, 0, 0, 0], [0, 1, 0, 0, 0, 0]),
    ("w var 0 app", [0, 0, 0, 0, 0, 0], [0, 0, 0, 0, 0, 0]),
    ("parse 0 3 defer", [2, 1, 0, 0, 0, 0], [1, 1, 0, 0, 0, 0]),
    ("parse 0 4 async", [2, 1, 0, 0, 0, 0], [1, 1, 0, 0, 0, 0]),
    ("parse 0 5 frame 1", [2, 1, 0, 0, 0, 0], [1, 1, 0, 0, 0, 0]),
    ("parse 0 6 frame 2", [2, 1, 0, 0, 0, 0], [1, 1, 0, 0, 0, 0]),
    ("parse 1 7 plain", [2, 1, 0, 0, 0, 0], [1, 0, 0, 0, 0, 0]),
    ("exec 4", [0, 4, 0, 0, 0, 0], [0, 1, 0, 0, 0, 0]),
    ("r var 0 app", [0, 0, 0, 0, 0, 0], [0, 0, 0, 0, 0, 0]),
    ("w var 0 count", [0, 0, 0, 0, 0, 0], [0, 0, 0, 0, 0, 0]),
    ("parse 2 8 inline", [2, 1, 0, 0, 0, 0], [1, 0, 0, 0, 0, 0]),
    ("exec 8", [0, 4, 0, 0, 0, 0], [0, 1, 0, 0, 0, 0]),
    ("w var 2 ready", [0, 0, 0, 0, 0, 0], [0, 0, 0, 0, 0, 0]),
    ("parse 0 9 plain", [2, 1, 0, 0, 0, 0], [1, 1, 0, 0, 0, 0]),
    ("w elem 0 buy", [0, 0, 0, 0, 0, 0], [0, 0, 0, 0, 0, 0]),
    ("exec 3", [0, 4, 0, 0, 0, 0], [0, 3, 0, 0, 0, 0]),
    ("r elem 0 buy", [0, 0, 0, 0, 0, 0], [0, 0, 0, 0, 0, 0]),
    ("on 1", [0, 0, 0, 0, 0, 0], [0, 0, 0, 0, 0, 0]),
    ("w slot 9 click", [0, 0, 0, 0, 0, 0], [0, 0, 0, 0, 0, 0]),
    ("send 1", [0, 0, 0, 0, 0, 0], [0, 0, 0, 0, 0, 0]),
    ("on 2", [0, 0, 0, 0, 0, 0], [0, 0, 0, 0, 0, 0]),
    ("every 1 50", [0, 0, 0, 0, 0, 0], [0, 0, 0, 0, 0, 0]),
    ("dcl 1 0", [0, 0, 3, 0, 0, 1], [0, 0, 3, 0, 0, 0]),
    ("close 1", [0, 0, 0, 0, 0, 1], [0, 0, 0, 0, 0, 1]),
    ("dcl 2 1", [0, 0, 3, 0, 0, 1], [0, 0, 1, 0, 0, 1]),
    ("close 2", [0, 0, 0, 0, 0, 1], [0, 0, 0, 0, 0, 1]),
    ("load 3 1", [0, 0, 4, 0, 0, 1], [0, 0, 2, 0, 0, 1]),
    ("close 3", [0, 0, 0, 0, 0, 1], [0, 0, 0, 0, 0, 1]),
    ("eload 4 5", [0, 0, 3, 0, 0, 0], [0, 0, 2, 0, 0, 0]),
    ("close 4", [0, 0, 0, 0, 0, 1], [0, 0, 0, 0, 0, 1]),
    ("dcl 5 2", [0, 0, 3, 0, 0, 1], [0, 0, 2, 0, 0, 1]),
    ("close 5", [0, 0, 0, 0, 0, 1], [0, 0, 0, 0, 0, 1]),
    ("load 6 2", [0, 0, 4, 0, 0, 1], [0, 0, 3, 0, 0, 1]),
    ("close 6", [0, 0, 0, 0, 0, 1], [0, 0, 0, 0, 0, 1]),
    ("eload 7 6", [0, 0, 3, 0, 0, 0], [0, 0, 2, 0, 0, 0]),
    ("close 7", [0, 0, 0, 0, 0, 1], [0, 0, 0, 0, 0, 1]),
    ("tick 1", [0, 0, 0, 2, 0, 0], [0, 0, 0, 1, 0, 0]),
    ("r var 0 count", [0, 0, 0, 0, 0, 0], [0, 0, 0, 0, 0, 0]),
    ("reply 8 1", [0, 0, 0, 0, 2, 0], [0, 0, 0, 0, 1, 0]),
    ("run 8 0 2", [0, 0, 0, 0, 0, 2], [0, 0, 0, 0, 0, 2]),
    ("w var 0 count", [0, 0, 0, 0, 0, 0], [0, 0, 0, 0, 0, 0]),
    ("close 8", [0, 0, 0, 0, 0, 1], [0, 0, 0, 0, 0, 1]),
    ("load 9 0", [0, 0, 7, 0, 0, 1], [0, 0, 7, 0, 0, 0]),
    ("close 9", [0, 0, 0, 0, 0, 1], [0, 0, 0, 0, 0, 1]),
    ("fire 10 9 click", [0, 0, 0, 0, 0, 2], [0, 0, 0, 0, 0, 1]),
    ("r slot 9 click", [0, 0, 0, 0, 0, 0], [0, 0, 0, 0, 0, 0]),
    ("run 10 0 1", [0, 0, 0, 0, 0, 2], [0, 0, 0, 0, 0, 2]),
    ("r var 0 count", [0, 0, 0, 0, 0, 0], [0, 0, 0, 0, 0, 0]),
    ("close 10", [0, 0, 0, 0, 0, 1], [0, 0, 0, 0, 0, 1]),
    ("tick 1", [0, 0, 0, 2, 0, 0], [0, 0, 0, 2, 0, 0]),
    ("r var 0 count", [0, 0, 0, 0, 0, 0], [0, 0, 0, 0, 0, 0]),
];

/// Records of version 3, the most numbers that the rules of tasks may hand for each, and
/// how many they do.
static OF_TASKS: [(&str, usize, usize); 25] = [
    ("parse 0 1 plain", 0, 0), // 0
    ("post 1", 0, 0),
    ("post 2", 0, 0),
    ("ask 1", 0, 0),
    ("ask 2", 0, 0),
    ("queue 1", 0, 0),
    ("queue 2", 0, 0),
    ("set 1 0", 0, 0),
    ("every 1 5", 0, 0),
    ("on 7", 0, 0),
    ("job 1", 1, 1), // 1
    ("queue 3", 0, 0),
    ("job 2", 2, 2), // 2
    ("message 2", 3, 2), // 3
    ("message 1", 3, 2), // 4
    ("anim 1", 3, 2), // 5
    ("anim 2", 4, 3), // 6
    ("timer 1", 2, 1), // 7
    ("tick 1", 2, 1), // 8
    ("fire 1 1 click", 0, 0), // 9
    ("run 1 0 7", 0, 0), // 10
    ("queue 4", 0, 0),
    ("job 4", 3, 2), // 11
    ("job 3", 3, 2), // 12
    ("close 1", 2, 2), // 13
];

/// How many numbers the rules of parsing hand for the record.
fn steps(page: &Page, rec: &Record, alloc: Global) -> Result<usize, NoMemory>
    requires some { ∥ IsSomePage page.now ∥₁ }
{
    let mut out = SmallVec::new(alloc);
    let done = parse::predecessors::predecessors(page, rec, &mut out);
    done.and(Ok(out.len()))
}

fn runs(page: &Page, rec: &Record, alloc: Global) -> Result<usize, NoMemory>
    requires some { ∥ IsSomePage page.now ∥₁ }
{
    let mut out = SmallVec::new(alloc);
    let done = script::predecessors::predecessors(page, rec, &mut out);
    done.and(Ok(out.len()))
}

fn loads(page: &Page, rec: &Record, alloc: Global) -> Result<usize, NoMemory>
    requires some { ∥ IsSomePage page.now ∥₁ }
{
    let mut out = SmallVec::new(alloc);
    let done = load::predecessors::predecessors(page, rec, &mut out);
    done.and(Ok(out.len()))
}

fn replies(page: &Page, rec: &Record, alloc: Global) -> Result<usize, NoMemory>
    requires some { ∥ IsSomePage page.now ∥₁ }
{
    let mut out = SmallVec::new(alloc);
    let done = request::predecessors::predecessors(page, rec, &mut out);
    done.and(Ok(out.len()))
}

fn dispatches(page: &Page, rec: &Record, alloc: Global) -> Result<usize, NoMemory>
    requires some { ∥ IsSomePage page.now ∥₁ }
{
    let mut out = SmallVec::new(alloc);
    let done = dispatch::predecessors::predecessors(page, rec, &mut out);
    done.and(Ok(out.len()))
}

/// How many numbers the rules of timers hand, which ask the clocks too.
fn timers(graph: &Graph, rec: &Record, alloc: Global) -> Result<usize, NoMemory>
    requires whole { graph.now.has_failed ≡ false }
{
    let mut out = SmallVec::new(alloc);
    let done = timer::predecessors::predecessors(
        graph.page(),
        graph.clocks(),
        graph.version(),
        rec,
        &mut out,
    );
    done.and(Ok(out.len()))
}

/// How many numbers the rules of tasks hand, which are of version 3 alone.
fn tasks(graph: &Graph, rec: &Record, alloc: Global) -> Result<usize, NoMemory>
    requires whole { graph.now.has_failed ≡ false }
{
    let mut out = SmallVec::new(alloc);
    let done = match graph.version() {
        Version::One | Version::Two => Ok(()),
        Version::Three => {
            task::predecessors::predecessors(graph.page(), graph.clocks(), rec, &mut out)
        }
    };
    done.and(Ok(out.len()))
}

/// How many numbers the other six groups hand for the record.
fn handed(graph: &Graph, rec: &Record, alloc: Global) -> Result<[usize; 6], NoMemory>
    requires whole { graph.now.has_failed ≡ false }
{
    let page = graph.page();
    Ok([
        steps(page, rec, alloc)?,
        runs(page, rec, alloc)?,
        loads(page, rec, alloc)?,
        timers(graph, rec, alloc)?,
        replies(page, rec, alloc)?,
        dispatches(page, rec, alloc)?,
    ])
}

/// How many numbers they hand for the next line.
fn handed_next(graph: &Graph, alloc: Global, text: &str) -> Result<[usize; 6], LineFault>
    requires whole { graph.now.has_failed ≡ false }
{
    let rec = parse_record(alloc, graph.version(), text.as_bytes())?;
    let counts = handed(graph, &rec, alloc);
    forget(rec);
    Ok(counts?)
}

/// How many numbers were handed in all, where each record gets no more than it may.
fn add_up(rt: &impl Abort, graph: &mut Graph, alloc: Global) -> Result<usize, LineFault>
    requires whole { graph.old.has_failed ≡ false }
{
    let mut sum: usize = 0;
    for (text, most, due) in &NUMBERS {
        let counts = handed_next(graph, alloc, text)?;
        assert!(rt; counts == *due, "{text}");
        for (count, most) in counts.iter().zip(most.iter()) {
            assert!(rt; count <= most, "{text}");
            sum = sum.saturating_add(*count);
        }
        let refused = hand(graph, alloc, 2, text)?;
        assert!(rt; refused.is_none(), "{text}");
    }
    Ok(sum)
}

/// How many numbers the rules of tasks hand for the next line.
fn tasks_next(graph: &Graph, alloc: Global, text: &str) -> Result<usize, LineFault>
    requires whole { graph.now.has_failed ≡ false }
{
    let rec = parse_record(alloc, graph.version(), text.as_bytes())?;
    let count = tasks(graph, &rec, alloc);
    forget(rec);
    Ok(count?)
}

/// Goes through the records of tasks, where each gets no more than it may.
fn go_through_tasks(rt: &impl Abort, graph: &mut Graph, alloc: Global) -> Result<(), LineFault>
    requires whole { graph.old.has_failed ≡ false }
{
    for (text, most, due) in &OF_TASKS {
        let count = tasks_next(graph, alloc, text)?;
        assert!(rt; (count == *due) & (count <= *most), "{text}");
        let refused = hand(graph, alloc, 2, text)?;
        assert!(rt; refused.is_none(), "{text}");
    }
    Ok(())
}

/// How many links there are behind them.
fn links_of_tasks(rt: &impl Abort, alloc: Global) -> Result<u64, LineFault> {
    let mut graph = Graph::new(alloc, Version::Three)?;
    let done = go_through_tasks(rt, &mut graph, alloc);
    let links = graph.clocks().link_count();
    let_go(graph);
    done?;
    Ok(links)
}

/// How many numbers were handed in all, and how many links there are.
fn sum_and_links(rt: &impl Abort, alloc: Global) -> Result<(usize, u64), LineFault> {
    let mut graph = Graph::new(alloc, Version::One)?;
    let sum = add_up(rt, &mut graph, alloc);
    let links = graph.clocks().link_count();
    let_go(graph);
    Ok((sum?, links))
}

/// Each link was handed, no number beyond the most, and just those that are due.
#[test]
fn realistic_load(rt: HostRuntime) {
    assert!(rt; sum_and_links(&rt, rt.alloc()) == Ok((64, 40)));
}

#[test]
fn load_of_tasks(rt: HostRuntime) {
    assert!(rt; links_of_tasks(&rt, rt.alloc()) == Ok(15));
}
