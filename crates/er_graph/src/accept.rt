//! How records are accepted, and what the graph answers.

ghost use Rattle.std.specs.Prelude.{◌≡◌, ◌<◌, List, [], ◌∷◌, true, Some, None, slice_get, OnOk, OnErr, IfOk, IfErr};
ghost use Rattle.er_trace.specs.declared.record.Record.TheVariants.{Access};
ghost use Rattle.er_trace.specs.declared.record.Mode.{Mode};
ghost use Rattle.er_trace.specs.declared.record.Loc.{Loc};
ghost use Rattle.er_trace.specs.Versions.{has_record};
ghost use Rattle.er_page.specs.Accepted.{result_of};
ghost use Rattle.er_page.specs.Page.{IsPage};
ghost use Rattle.er_graph.specs.Accepted.{Accepted, records, lines_of, cause_now, AreTimed, IsNext};
ghost use Rattle.er_graph.specs.Graph.{IsListed, IsGraph, HasBegun, HasFailed, IsAccessOf, IsFault};

use crate::graph::Graph;
use crate::grow::grow;
use crate::order::is_late;
use er_clocks::Clocks;
use er_io::NoMemory;
use er_page::page::Page;
use er_text::Cause;
use er_trace::fault::FeedFault;
use er_trace::record::Record;
use er_trace::version::Version;
use std::alloc::Global;

impl Graph {
    /// No record yet, in this version.
    pub fn new(alloc: Global, version: Version) -> Result<Graph, NoMemory>
        ensures graph { IfOk result (λ graph. IsGraph graph []) }
        ensures version { IfOk result (λ graph. graph.version ≡ version) }
    {
        Ok(Graph {
            version,
            page: Page::new(alloc)?,
            clocks: Clocks::new(alloc),
            lines: Vec::new(alloc),
            has_failed: false,
        })
    }

    /// Accepts the next record, which stands in this line, or answers the first cause against it.
    ///
    /// The version has the record. Naming and nesting are asked first, then order, then room. After
    /// `NoMemory` every later call answers `NoMemory`.
    pub fn accept(&mut self, line: u32, rec: &Record) -> Result<(), FeedFault>
        requires of_version { has_record self.old.version rec.now ≡ true }
        ensures accepted { OnOk result ((accepted : List Accepted) → IsGraph self.old accepted
            → (cause_now self.old.version accepted rec.now ≡ None)
            × IsGraph self.new (record { line = line; read = rec.now } ∷ accepted)) }
        ensures refused { IfErr result (λ fault. IsFault fault line rec.now self.old self.new) }
        ensures failed { HasFailed self.old → result ≡ Err (FeedFault.NoMemory) }
        ensures version { self.new.version ≡ self.old.version }
    {
        if let Record::Access { .. } = rec {
            // An access changes neither page, clocks, lines nor the mark.
            return match self.accept_access(line) {
                Ok(_) => Ok(()),
                Err(fault) => Err(fault),
            };
        } else if self.has_failed {
            return Err(FeedFault::NoMemory);
        }
        if let Err(cause) = self.check(rec) {
            return Err(FeedFault::Refused { line, cause });
        }
        let Ok(()) = self.take(line, rec) else {
            return Err(FeedFault::NoMemory);
        };
        Ok(())
    }

    /// What `accept` answers of any access in this line, with the running action, whose
    /// access it is. An access changes nothing: it uses and claims no number, no rule
    /// orders it, and it needs no room.
    pub fn accept_access(&self, line: u32) -> Result<u32, FeedFault>
        ensures accepted { IfOk result
            (λ action. (accepted : List Accepted) (mode : Mode) (loc : Loc)
            → IsGraph self.now accepted
            → IsAccessOf self.now accepted line action (Access mode loc)) }
        ensures refused { IfErr result (λ fault. (mode : Mode) (loc : Loc)
            → IsFault fault line (Access mode loc) self.now self.now) }
        ensures failed { HasFailed self.now → result ≡ Err (FeedFault.NoMemory) }
    {
        if self.has_failed {
            return Err(FeedFault::NoMemory);
        }
        let Some(action) = self.page.running() else {
            return Err(FeedFault::Refused {
                line,
                cause: Cause::Misplaced,
            });
        };
        Ok(action)
    }

    /// The version by whose rules the records are ordered.
    pub fn version(&self) -> Version
        ensures { result ≡ self.now.version }
    {
        self.version
    }

    /// The page of the accepted records.
    pub fn page(&self) -> &Page
        ensures { (accepted : List Accepted) → IsListed self.now accepted
            → IsPage result.now (records accepted) }
    {
        &self.page
    }

    /// The line that was handed in with the record that began the action.
    pub fn line_of(&self, action: u32) -> u32
        requires begun { ∥ HasBegun self.now action ∥₁ }
        ensures { (accepted : List Accepted) → IsListed self.now accepted
            → slice_get (lines_of accepted) action ≡ Some result }
    {
        self.lines[action as usize]
    }

    /// The clocks of the actions: which paths lead between them, their chains and their links.
    pub fn clocks(&self) -> &Clocks
        ensures { (accepted : List Accepted) → IsGraph self.now accepted
            → AreTimed self.now.version result.now accepted }
    {
        &self.clocks
    }

    /// The first cause against the record, if there is one.
    fn check(&self, rec: &Record) -> Result<(), Cause>
        ensures { (accepted : List Accepted) → IsListed self.now accepted
            → result ≡ result_of (cause_now self.now.version accepted rec.now) }
    {
        if let Err(cause) = self.page.check(rec) {
            return Err(cause);
        }
        if is_late(&self.page, rec) {
            return Err(Cause::OutOfOrder);
        }
        self.page.room(rec)
    }

    /// Takes a record that `check` accepts. The graph is marked as failed first, so that it stays
    /// so where memory runs out.
    fn take(&mut self, line: u32, rec: &Record) -> Result<(), NoMemory>
        requires next { ∥ IsNext self.old.version self.old.page self.old.clocks
            self.old.lines.items rec.now ∥₁ }
        requires of_version { has_record self.old.version rec.now ≡ true }
        ensures taken { OnOk result ((accepted : List Accepted) → IsGraph self.old accepted
            → cause_now self.old.version accepted rec.now ≡ None
            → IsGraph self.new (record { line = line; read = rec.now } ∷ accepted)) }
        ensures failed { OnErr result (HasFailed self.new) }
        ensures version { self.new.version ≡ self.old.version }
        ensures kept { OnErr result
            ((accepted : List Accepted) → IsListed self.old accepted → IsListed self.new accepted) }
    {
        self.has_failed = true;
        grow(
            self.version,
            &mut self.page,
            &mut self.clocks,
            &mut self.lines,
            line,
            rec,
        )?;
        self.has_failed = false;
        Ok(())
    }
}
