//! What the accepted records say and access, and which record comes next.

ghost use Rattle.std.specs.Prelude.{◌≡◌, true, ◌+◌, ◌<◌, ◌≤◌, All, List, [], ◌∷◌, ◌++◌, reverse, length, OnOk, IfOk, IfErr};
ghost use Rattle.std.specs.List.{list_all};
ghost use Rattle.er_trace.specs.declared.record.Record.{Record};
ghost use Rattle.er_trace.specs.declared.record.Record.TheVariants.{Access};
ghost use Rattle.er_trace.specs.Trace.{most_lines};
ghost use Rattle.er_trace.specs.Versions.{has_record};
ghost use Rattle.er_access.specs.Kept.{access_of, with_access};
ghost use Rattle.er_run.specs.Session.{IsSessionOf, IsSession, IsFaultAfter, IsFaultOf, HasTaken, GoesOnIn, version_of, version_or_first, AreKept, IsFaultOfRoom};

use er_access::{AddFault, Table};
use er_gen::Generator;
use er_graph::Graph;
use er_io::NoMemory;
use er_text::Cause;
use er_trace::fault::FeedFault;
use er_trace::record::{Loc, Mode, Record};
use er_trace::version::Version;
use std::alloc::Global;

/// What the accepted records say, which of their accesses are kept, and how many records they are.
pub(crate) struct Session {
    pub(crate) graph: Graph,
    pub(crate) kept: Table,
    pub(crate) records: u32,
}

impl Drop for Session {
    fn drop(self) {
        let Session {
            graph: _,
            kept: _,
            records: _,
        } = self;
    }
}

/// Takes the records of a generated trace, in version 1, to the first that is refused. Each is
/// taken before the next is made.
pub(crate) fn take_trace(alloc: Global, generator: &mut Generator) -> Result<Session, FeedFault>
    requires room { length generator.old ≤ most_lines }
    requires of_version { list_all (has_record Version.One) generator.old ≡ true }
    ensures stands { IfOk result (λ session. IsSessionOf session (reverse generator.old)) }
    ensures version { IfOk result (λ session. session.graph.version ≡ Version.One) }
    ensures refused { IfErr result (λ fault. IsFaultOf Version.One generator.old fault) }
{
    let Ok(mut session) = Session::new(alloc, Version::One) else {
        return Err(FeedFault::NoMemory);
    };
    match session.take_generated(generator) {
        Ok(()) => Ok(session),
        Err(fault) => Err(fault),
    }
}

impl Session {
    /// No record yet, in this version.
    pub(crate) fn new(alloc: Global, version: Version) -> Result<Self, NoMemory>
        ensures stands { IfOk result (λ session. IsSessionOf session []) }
        ensures version { IfOk result (λ session. session.graph.version ≡ version) }
    {
        Ok(Session {
            graph: Graph::new(alloc, version)?,
            kept: Table::new(alloc),
            records: 0,
        })
    }

    /// The number of the line after those of its records.
    pub(crate) fn next_line(&self) -> u32
        requires { self.now.records ≤ most_lines }
        ensures { result ≡ self.now.records + 2 }
    {
        self.records + 2
    }

    /// Takes the records one after the other, to the first that is refused. They are of its
    /// version. After an error it represents no list.
    pub(crate) fn take_all(&mut self, records: &[Record]) -> Result<(), FeedFault>
        requires some { IsSession self.old }
        requires room { self.old.records + length records.now ≤ most_lines }
        requires of_version { list_all (has_record self.old.graph.version) records.now ≡ true }
        ensures taken { OnOk result ((earlier : List Record)
            → IsSessionOf self.old (reverse earlier)
            → IsSessionOf self.new (reverse (earlier ++ records.now))) }
        ensures refused { IfErr result (λ fault. (earlier : List Record)
            → IsSessionOf self.old (reverse earlier)
            → IsFaultOf self.old.graph.version (earlier ++ records.now) fault) }
        ensures version { self.new.graph.version ≡ self.old.graph.version }
    {
        for at in 0..records.len() {
            if let Err(fault) = self.take(&records[at]) {
                return Err(fault);
            }
        }
        Ok(())
    }

    /// Takes the records that the generator gives, one after the other, to the first that is
    /// refused. They are of its version. After an error it represents no list.
    fn take_generated(&mut self, generator: &mut Generator) -> Result<(), FeedFault>
        requires some { IsSession self.old }
        requires room { self.old.records + length generator.old ≤ most_lines }
        requires of_version { list_all (has_record self.old.graph.version) generator.old ≡ true }
        ensures taken { OnOk result ((earlier : List Record)
            → IsSessionOf self.old (reverse earlier)
            → IsSessionOf self.new (reverse (earlier ++ generator.old))) }
        ensures refused { IfErr result (λ fault. (earlier : List Record)
            → IsSessionOf self.old (reverse earlier)
            → IsFaultOf self.old.graph.version (earlier ++ generator.old) fault) }
        ensures version { self.new.graph.version ≡ self.old.graph.version }
    {
        loop {
            match generator.next() {
                Ok(Some(rec)) => {
                    if let Err(fault) = self.take_given(rec) {
                        return Err(fault);
                    }
                }
                Ok(None) => return Ok(()),
                Err(NoMemory) => return Err(FeedFault::NoMemory),
            }
        }
    }

    /// Takes a record that ends here, as `take` does.
    fn take_given(&mut self, rec: Record) -> Result<(), FeedFault>
        requires some { IsSession self.old }
        requires room { self.old.records < most_lines }
        requires of_version { has_record self.old.graph.version rec ≡ true }
        ensures taken { OnOk result ((h : List Record) → IsSessionOf self.old h
            → IsSessionOf self.new (rec ∷ h)) }
        ensures refused { IfErr result (λ fault. (h : List Record) → IsSessionOf self.old h
            → IsFaultAfter self.old.graph.version h rec fault) }
        ensures version { self.new.graph.version ≡ self.old.graph.version }
    {
        self.take(&rec)
    }

    /// Takes the next record, or returns why it is not accepted. The limit on accesses is checked
    /// last. After an error it represents no list: the graph can have taken the record.
    pub(crate) fn take(&mut self, rec: &Record) -> Result<(), FeedFault>
        requires some { IsSession self.old }
        requires room { self.old.records < most_lines }
        requires of_version { has_record self.old.graph.version rec.now ≡ true }
        ensures taken { OnOk result ((h : List Record) → IsSessionOf self.old h
            → IsSessionOf self.new (rec.now ∷ h)) }
        ensures refused { IfErr result (λ fault. (h : List Record) → IsSessionOf self.old h
            → IsFaultAfter self.old.graph.version h rec.now fault) }
        ensures version { self.new.graph.version ≡ self.old.graph.version }
    {
        let line = self.next_line();
        if let Record::Access { mode, loc } = rec {
            return self.take_access(line, *mode, loc);
        }
        if let Err(fault) = self.graph.accept(line, rec) {
            return Err(fault);
        }
        self.records += 1;
        Ok(())
    }

    /// Takes the access of this line, as `take` does.
    fn take_access(&mut self, line: u32, mode: Mode, loc: &Loc) -> Result<(), FeedFault>
        requires some { IsSession self.old }
        requires room { self.old.records < most_lines }
        requires line { line ≡ self.old.records + 2 }
        ensures taken { OnOk result ((h : List Record) → IsSessionOf self.old h
            → IsSessionOf self.new (Access mode loc.now ∷ h)) }
        ensures refused { IfErr result (λ fault. (h : List Record) → IsSessionOf self.old h
            → IsFaultAfter self.old.graph.version h (Access mode loc.now) fault) }
        ensures version { self.new.graph.version ≡ self.old.graph.version }
    {
        match self.graph.accept_access(line) {
            Ok(action) => {
                self.records += 1;
                keep_access(&mut self.kept, line, action, mode, loc)
            }
            Err(fault) => Err(fault),
        }
    }
}

/// Makes the session once the first line gave a version.
pub(crate) fn begin(
    alloc: Global,
    session: &mut Option<Session>,
    given: Option<Version>,
) -> Result<(), NoMemory>
    requires { GoesOnIn session.old given }
    ensures taken { OnOk result
        ((h : List Record) → HasTaken session.old h → HasTaken session.new h) }
    ensures version { OnOk result (version_of session.new ≡ given) }
{
    let Some(version) = given else {
        return Ok(());
    };
    if session.is_none() {
        *session = Some(Session::new(alloc, version)?);
    }
    Ok(())
}

/// The session; if none was made, one of no records.
pub(crate) fn or_empty(alloc: Global, session: Option<Session>) -> Result<Session, NoMemory>
    ensures stands { IfOk result (λ made. (h : List Record) → HasTaken session h
        → IsSessionOf made h) }
    ensures version { IfOk result (λ made. made.graph.version ≡ version_or_first session) }
{
    match session {
        Some(session) => Ok(session),
        None => Session::new(alloc, Version::One),
    }
}

/// Keeps an access of this action, unless it repeats one.
fn keep_access(
    kept: &mut Table,
    line: u32,
    action: u32,
    mode: Mode,
    loc: &Loc,
) -> Result<(), FeedFault>
    requires lines { All (λ x. x.line < line) kept.old }
    requires actions { All (λ x. x.action ≤ action) kept.old }
    ensures kept { OnOk result (AreKept kept.old
        (with_access (access_of line action mode loc.now) kept.old) kept.new) }
    ensures refused { IfErr result (λ fault.
        IsFaultOfRoom fault (access_of line action mode loc.now) kept.old) }
{
    match kept.add(line, action, mode, loc) {
        Ok(_) => Ok(()),
        Err(AddFault::Full) => Err(FeedFault::Refused {
            line,
            cause: Cause::TooManyAccesses,
        }),
        Err(AddFault::NoMemory) => Err(FeedFault::NoMemory),
    }
}
