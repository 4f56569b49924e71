//! Reading a trace that comes in chunks.

ghost use Rattle.std.specs.Prelude.{◌≤◌, ◌+◌, length};
ghost use Rattle.er_trace.specs.Trace.{most_lines};
ghost use Rattle.er_lines.specs.Marks.{number_at};

use crate::cut::{Next, next_of};
use crate::format::Lines;
use crate::line::read_line;
use crate::mark::Mark;
use er_text::Cause;
use er_trace::fault::FeedFault;
use er_trace::record::Record;
use er_trace::trace::MOST_LINES;
use er_trace::version::Version;
use std::alloc::Global;
use std::marker::PhantomData;

/// Reads a trace that comes in chunks of any length. It keeps the bytes of the line that is not at
/// its end yet, where that line begins, and the fault that it has answered.
#[derive(Drop)]
pub struct LineFeed<L: Lines> {
    line: Vec<u8>,
    mark: Mark,
    fault: Option<FeedFault>,
    lines: PhantomData<L>,
    ghost few: { number_at mark ≤ most_lines + 1 },
    ghost short: { length line.items ≤ L.format.most },
}

impl<L: Lines> LineFeed<L> {
    ghost use Rattle.std.specs.Prelude.{◌<◌, ◌≡◌, ◌≢◌, ◌⊎◌, ◌↔◌, ℕ, List, [], ◌++◌, Ok, Err, Some, None, OnOk, IfOk, IfSome, IsTrue};
    ghost use Rattle.std.specs.Result.{result_err};
    ghost use Rattle.er_text.specs.declared.causes.Cause.{Cause};
    ghost use Rattle.er_text.specs.declared.causes.Cause.TheVariants.{NoEnd};
    ghost use Rattle.er_trace.specs.declared.record.Record.{Record};
    ghost use Rattle.er_trace.specs.declared.version.Version.{Version};
    ghost use Rattle.er_lines.specs.Lines.{Place, line_number, Refuses, IsTrace, IsTraceOf, BeginsWith, ReadsUntil};
    ghost use Rattle.er_lines.specs.Feed.{Stands, IsFed, IsFedUntil, IsFedPart};
    ghost use Rattle.er_lines.specs.Marks.{IsOpen};
    ghost use Rattle.er_lines.specs.Steps.{Leads, LeadsPart, Took, IsLine, IsBadLine, IsFrontAt};

    /// Nothing was fed yet.
    pub fn new(alloc: Global) -> LineFeed<L>
        ensures stands { Stands L.format result.mark result.line.items result.fault [] [] }
        ensures going { result.fault ≡ None }
    {
        LineFeed {
            line: Vec::new(alloc),
            mark: Mark::Start,
            fault: None,
            lines: PhantomData,
        }
    }

    /// Reads the next bytes, and appends the records of the lines that came to their ends. A
    /// refusal is the first cause of a line, other than `no-end`, of all bytes so far. What was
    /// refused once, or found no memory, stays so.
    pub fn feed(&mut self, chunk: &[u8], out: &mut Vec<Record>) -> Result<(), FeedFault>
        ensures fed { result ≢ Err FeedFault.NoMemory → (bytes : List ℕ) (earlier : List Record)
            → Stands L.format self.old.mark self.old.line.items self.old.fault bytes earlier
            → IsFed L.format self.new.mark self.new.line.items self.new.fault
            (bytes ++ chunk.now) earlier out.old.items out.new.items }
        ensures refused { (n : ℕ) (c : Cause) → result ≡ Err (FeedFault.Refused n c)
            → (bytes : List ℕ) (earlier : List Record)
            → Stands L.format self.old.mark self.old.line.items self.old.fault bytes earlier
            → IsFedUntil L.format (bytes ++ chunk.now) n c earlier out.old.items out.new.items }
        ensures refuses { (bytes : List ℕ) (earlier : List Record) (place : Place) (c : Cause)
            → Stands L.format self.old.mark self.old.line.items self.old.fault bytes earlier
            → Refuses L.format (bytes ++ chunk.now) place c → c ≢ NoEnd
            → (result ≡ Err (FeedFault.Refused (line_number place) c))
            ⊎ (result ≡ Err FeedFault.NoMemory) }
        ensures no_memory { result ≡ Err FeedFault.NoMemory
            → (bytes : List ℕ) (earlier : List Record)
            → Stands L.format self.old.mark self.old.line.items self.old.fault bytes earlier
            → IsFedPart L.format (bytes ++ chunk.now) earlier out.old.items out.new.items }
        ensures answered { self.new.fault ≡ result_err result }
        ensures again { (fault : FeedFault) → self.old.fault ≡ Some fault
            → (result ≡ Err fault) × (self.new ≡ self.old) × (out.new.items ≡ out.old.items) }
    {
        if let Some(fault) = self.fault {
            return Err(fault);
        }
        let result = self.take_chunk(chunk, out);
        self.fault = result.err();
        result
    }

    /// Reads the next bytes.
    #[tactic(auto, using(crate::proofs::FeedLaws::takes))]
    fn take_chunk(&mut self, chunk: &[u8], out: &mut Vec<Record>) -> Result<(), FeedFault>
        ensures read { OnOk result (Leads L.format self.old.mark self.old.line.items chunk.now
            self.new.mark self.new.line.items None out.old.items out.new.items) }
        ensures refused { (n : ℕ) (c : Cause) → result ≡ Err (FeedFault.Refused n c)
            → Leads L.format self.old.mark self.old.line.items chunk.now
            self.new.mark self.new.line.items (Some (FeedFault.Refused n c))
            out.old.items out.new.items }
        ensures no_memory { result ≡ Err FeedFault.NoMemory → LeadsPart L.format self.old.mark
            self.old.line.items chunk.now out.old.items out.new.items }
        ensures fault { self.new.fault ≡ self.old.fault }
    {
        let mut rest = chunk;
        while !rest.is_empty() {
            match self.take_next(rest, out) {
                Ok(left) => rest = left,
                Err(fault) => return Err(fault),
            }
        }
        Ok(())
    }

    /// Takes the next bytes of one line, and answers those after it. Most lines stand whole in
    /// their chunk, and the format may read them without their ends being looked for first.
    fn take_next<'a>(
        &mut self,
        chunk: &'a [u8],
        out: &mut Vec<Record>,
    ) -> Result<&'a [u8], FeedFault>
        requires { 0 < length chunk.now }
        ensures read { IfOk result (λ left. Took L.format self.old.mark self.old.line.items
            chunk.now self.new.mark self.new.line.items left.now out.old.items out.new.items) }
        ensures less { IfOk result (λ left. length left.now < length chunk.now) }
        ensures refused { (n : ℕ) (c : Cause) → result ≡ Err (FeedFault.Refused n c)
            → Leads L.format self.old.mark self.old.line.items chunk.now
            self.new.mark self.new.line.items (Some (FeedFault.Refused n c))
            out.old.items out.new.items }
        ensures no_memory { result ≡ Err FeedFault.NoMemory → out.new.items ≡ out.old.items }
        ensures fault { self.new.fault ≡ self.old.fault }
    {
        let Some((next, found, left)) = self.front_record(chunk) else {
            return self.take_front(chunk, out);
        };
        let Ok(()) = out.push(found) else {
            return Err(FeedFault::NoMemory);
        };
        self.mark = next;
        Ok(left)
    }

    /// What the format reads at the front, where nothing of the line came before: the mark behind
    /// it, the record, and the bytes that are left. `None` says nothing.
    fn front_record<'a>(&self, chunk: &'a [u8]) -> Option<(Mark, Record, &'a [u8])>
        ensures { IfSome result (λ all. IsFrontAt L.format self.now.mark self.now.line.items
            chunk.now all.0 all.1 all.2.now) }
    {
        if !self.line.is_empty() {
            return None;
        }
        let Mark::After(version, records) = self.mark else {
            return None;
        };
        if records > MOST_LINES - 2 {
            return None;
        }
        let (found, left) = L::front(*self.line.allocator(), version, chunk)?;
        Some((Mark::After(version, records + 1), found, left))
    }

    /// Takes the next bytes of one line, of any kind.
    fn take_front<'a>(
        &mut self,
        chunk: &'a [u8],
        out: &mut Vec<Record>,
    ) -> Result<&'a [u8], FeedFault>
        requires { 0 < length chunk.now }
        ensures read { IfOk result (λ left. Took L.format self.old.mark self.old.line.items
            chunk.now self.new.mark self.new.line.items left.now out.old.items out.new.items) }
        ensures less { IfOk result (λ left. length left.now < length chunk.now) }
        ensures refused { (n : ℕ) (c : Cause) → result ≡ Err (FeedFault.Refused n c)
            → Leads L.format self.old.mark self.old.line.items chunk.now
            self.new.mark self.new.line.items (Some (FeedFault.Refused n c))
            out.old.items out.new.items }
        ensures no_memory { result ≡ Err FeedFault.NoMemory → out.new.items ≡ out.old.items }
        ensures fault { self.new.fault ≡ self.old.fault }
    {
        if let Some(cause) = self.mark.closed() {
            return Err(self.refusal(cause));
        }
        match next_of(L::MOST, self.line.len(), chunk) {
            Next::Ends(front, later) => {
                if let Err(fault) = self.end_line(front, out) {
                    return Err(fault);
                }
                Ok(later)
            }
            Next::GoesOn => {
                let Ok(()) = self.line.extend_from_slice(chunk) else {
                    return Err(FeedFault::NoMemory);
                };
                Ok(&[])
            }
            Next::TooLong => Err(self.refusal(Cause::LongLine)),
        }
    }

    /// Reads the line whose last bytes these are. One that lies whole in them is not copied.
    fn end_line(&mut self, front: &[u8], out: &mut Vec<Record>) -> Result<(), FeedFault>
        requires open { IsOpen self.old.mark }
        requires room { length self.old.line.items + length front.now ≤ L.format.most }
        ensures read { OnOk result ((came : List Record)
            × IsLine L.format self.old.mark (self.old.line.items ++ front.now) self.new.mark came
            × (out.new.items ≡ out.old.items ++ came)) }
        ensures none { OnOk result (self.new.line.items ≡ []) }
        ensures refused { (n : ℕ) (c : Cause) → result ≡ Err (FeedFault.Refused n c)
            → (n ≡ number_at self.old.mark)
            × IsBadLine L.format self.old.mark (self.old.line.items ++ front.now) c
            × (self.new.mark ≡ self.old.mark) × (out.new.items ≡ out.old.items) }
        ensures no_memory { result ≡ Err FeedFault.NoMemory → out.new.items ≡ out.old.items }
        ensures fault { self.new.fault ≡ self.old.fault }
    {
        let alloc = *self.line.allocator();
        if self.line.is_empty() {
            match read_line::<L>(alloc, self.mark, front, out) {
                Ok(next) => self.mark = next,
                Err(fault) => return Err(fault),
            }
            return Ok(());
        }
        let Ok(()) = self.line.extend_from_slice(front) else {
            return Err(FeedFault::NoMemory);
        };
        match read_line::<L>(alloc, self.mark, self.line.as_slice(), out) {
            Ok(next) => self.mark = next,
            Err(fault) => return Err(fault),
        }
        self.line.clear();
        Ok(())
    }

    fn refusal(&self, cause: Cause) -> FeedFault
        ensures { result ≡ FeedFault.Refused (number_at self.now.mark) cause }
    {
        FeedFault::Refused {
            line: self.mark.number(),
            cause,
        }
    }

    /// The answer for an input that ends here: `no-end`, unless the last line was read.
    pub fn finish(&self) -> Result<(), FeedFault>
        ensures whole { OnOk result ((bytes : List ℕ) (records : List Record)
            → Stands L.format self.now.mark self.now.line.items self.now.fault bytes records
            → IsTraceOf L.format bytes records) }
        ensures refused { (n : ℕ) (c : Cause) → result ≡ Err (FeedFault.Refused n c)
            → (bytes : List ℕ) (records : List Record)
            → Stands L.format self.now.mark self.now.line.items self.now.fault bytes records
            → ReadsUntil L.format bytes n c records }
        ensures accepts { (version : Version) (bytes : List ℕ) (list records : List Record)
            → IsTrace L.format version bytes list
            → Stands L.format self.now.mark self.now.line.items self.now.fault bytes records
            → result ≡ Ok tt }
        ensures refuses { (bytes : List ℕ) (records : List Record) (place : Place) (c : Cause)
            → Stands L.format self.now.mark self.now.line.items self.now.fault bytes records
            → Refuses L.format bytes place c
            → result ≡ Err (FeedFault.Refused (line_number place) c) }
        ensures answered { (fault : FeedFault) → self.now.fault ≡ Some fault → result ≡ Err fault }
        ensures no_memory { result ≡ Err FeedFault.NoMemory
            → self.now.fault ≡ Some FeedFault.NoMemory }
    {
        if let Some(answered) = self.fault {
            return Err(answered);
        }
        match self.mark {
            Mark::Ended(_, _) => Ok(()),
            _ => Err(self.refusal(Cause::NoEnd)),
        }
    }

    /// Whether the last line was read, where no call has answered a fault.
    pub fn ended(&self) -> bool
        ensures { (bytes : List ℕ) (records : List Record)
            → Stands L.format self.now.mark self.now.line.items self.now.fault bytes records
            → self.now.fault ≡ None → IsTrue result ↔ IsTraceOf L.format bytes records }
    {
        match self.mark {
            Mark::Ended(_, _) => true,
            _ => false,
        }
    }

    /// The version that the first line gave, where it was read and is a header.
    pub fn version(&self) -> Option<Version>
        ensures given { (version : Version) → result ≡ Some version
            → (bytes : List ℕ) (records : List Record)
            → Stands L.format self.now.mark self.now.line.items self.now.fault bytes records
            → BeginsWith L.format version bytes }
        ensures none { result ≡ None → (bytes : List ℕ) (records : List Record)
            → Stands L.format self.now.mark self.now.line.items self.now.fault bytes records
            → (version : Version) → ¬ BeginsWith L.format version bytes }
    {
        self.mark.version()
    }

    /// The number of the records of the lines so far.
    pub fn records(&self) -> u32
        ensures { (bytes : List ℕ) (records : List Record)
            → Stands L.format self.now.mark self.now.line.items self.now.fault bytes records
            → result ≡ length records }
    {
        self.mark.records()
    }
}
