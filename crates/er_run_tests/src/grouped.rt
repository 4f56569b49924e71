//! The races of the realistic load, grouped by two shards that are held at the gate.

ghost use Rattle.std.specs.Prelude.{◌≡◌, ◌≤◌, true, length};
ghost use Rattle.er_trace.specs.Versions.{has_record};

use crate::gates::Holding;
use crate::realistic::TRACE;
use er_access::Table;
use er_clocks::{Clocks, Meter, Paths};
use er_cover::{CoverFault, Groups};
use er_graph::Graph;
use er_races::list;
use er_shard::{Gate, Work, group_shards};
use er_syntax::parse::parse_record;
use er_trace::fault::LineFault;
use er_trace::record::Record;
use er_trace::version::Version;
use std::alloc::Global;
use std::marker::Model;
use std::mem::forget;
use std::process::Abort;
use std::test::Fail;
use std::thread::Threads;

/// The records of the load: all its lines but the first and the last.
const RECORDS: usize = 53;

/// The kept accesses, the line that comes next, and the action of the last access.
struct Kept {
    table: Table,
    line: u32,
    action: u32,
}

impl Drop for Kept {
    fn drop(self) {
        let Kept {
            table: _,
            line: _,
            action: _,
        } = self;
    }
}

impl Model for Kept {
    ghost use Rattle.std.specs.Prelude.{List, All, ◌<◌, ◌≤◌};
    ghost use Rattle.er_access.specs.Kept.{Kept};

    ghost Value = { List Kept };

    ghost view = { λ k. k.table };

    ghost invariant = { λ k.
        All (λ x. x.line < k.line) k.table × All (λ x. x.action ≤ k.action) k.table };
}

impl Kept {
    fn new(alloc: Global) -> Self {
        Kept {
            table: Table::new(alloc),
            line: 2,
            action: 0,
        }
    }

    /// Keeps what the record of the next line accesses. Out of memory stands for an action that has
    /// gone by, too.
    fn keep(&mut self, action: u32, rec: &Record) -> Result<(), LineFault> {
        if action < self.action || self.line == u32::MAX {
            return Err(LineFault::NoMemory);
        }
        let line = self.line;
        self.line += 1;
        self.action = action;
        let Record::Access { mode, loc } = rec else {
            return Ok(());
        };
        match self.table.add(line, action, *mode, loc) {
            Ok(_) => Ok(()),
            Err(_) => Err(LineFault::NoMemory),
        }
    }

    /// The group that each race names, found by two shards.
    fn names<R: Gate + Sync>(
        &self,
        rt: &R,
        alloc: Global,
        clocks: &Clocks,
    ) -> Result<Vec<u32>, CoverFault> {
        if self.table.pairs() > 16_777_216 || clocks.len() <= self.action {
            return Err(CoverFault::NoMemory);
        }
        let mut compares = Meter::new();
        let Ok(races) = list(alloc, &self.table, clocks, &mut compares) else {
            return Err(CoverFault::NoMemory);
        };
        if races.len() > 262_144 {
            return Err(CoverFault::NoMemory);
        }
        let mut tests = Meter::new();
        let work = Work {
            rt,
            alloc,
            shards: 2,
        };
        match group_shards(&work, &races, &self.table, clocks, &mut tests) {
            Ok(groups) => names_of(alloc, &groups, races.len() as u32),
            Err(fault) => Err(fault),
        }
    }
}

fn names_of(alloc: Global, groups: &Groups, races: u32) -> Result<Vec<u32>, CoverFault>
    requires { races ≤ length groups.now.names }
{
    let mut names = Vec::new(alloc);
    for race in 0..races {
        let Ok(()) = names.push(groups.names(race)) else {
            return Err(CoverFault::NoMemory);
        };
    }
    Ok(names)
}

/// Takes the record of the next line.
fn take(graph: &mut Graph, kept: &mut Kept, alloc: Global, text: &str) -> Result<(), LineFault> {
    let rec = parse_record(alloc, graph.version(), text.as_bytes())?;
    let taken = take_record(graph, kept, &rec);
    forget(rec);
    taken
}

fn take_record(graph: &mut Graph, kept: &mut Kept, rec: &Record) -> Result<(), LineFault>
    requires { has_record graph.old.version rec.now ≡ true }
{
    if graph.accept(kept.line, rec).is_err() {
        return Err(LineFault::NoMemory);
    }
    match graph.page().running() {
        Some(action) => kept.keep(action, rec),
        None => Err(LineFault::NoMemory),
    }
}

/// Takes all records of the load.
fn take_all(graph: &mut Graph, kept: &mut Kept, alloc: Global) -> Result<(), LineFault> {
    for text in TRACE.lines().skip(1).take(RECORDS) {
        take(graph, kept, alloc, text)?;
    }
    Ok(())
}

/// Each of two shards waits for the other, whichever is held: they run side by side.
fn two_shards(
    rt: &(impl Abort + Threads + Sync),
    alloc: Global,
    graph: &mut Graph,
) -> Result<(), LineFault> {
    let mut kept = Kept::new(alloc);
    take_all(graph, &mut kept, alloc)?;
    for held in [0, 1] {
        let gate = Holding::new(rt, held);
        let names = kept.names(&gate, alloc, graph.clocks());
        assert!(rt; is_due(names), "{held}");
        assert!(rt; gate.saw_both(), "{held}");
    }
    Ok(())
}

/// Whether these are the groups of the load.
fn is_due(names: Result<Vec<u32>, CoverFault>) -> bool {
    match names {
        Ok(names) => names.as_slice() == [0, 1, 2, 0, 3, 4, 5, 6].as_slice(),
        Err(_) => false,
    }
}

/// Ends a graph in a function of its own.
fn let_go(_graph: Graph) {}

#[test]
fn two_shards_at_once(rt: HostRuntime) -> Result<(), Fail> {
    let mut graph = Graph::new(rt.alloc(), Version::One)?;
    let done = two_shards(&rt, rt.alloc(), &mut graph);
    let_go(graph);
    done?;
    Ok(())
}
