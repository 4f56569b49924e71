//! A page that reads lines.

ghost use Rattle.std.specs.Prelude.{◌≡◌, List, [], Ok, Err, IfOk, OnErr};
ghost use Rattle.er_trace.specs.declared.record.Record.{Record};
ghost use Rattle.er_trace.specs.declared.version.Version.TheVariants.{Three};
ghost use Rattle.er_trace.specs.Spelling.{spelling};
ghost use Rattle.er_trace.specs.Versions.{IsRecordOf};
ghost use Rattle.er_page.specs.Page.{IsPage, IsSomePage};
ghost use Rattle.er_page_tests.specs.Lines.{HasTaken};

use er_io::NoMemory;
use er_page::page::Page;
use er_syntax::parse::parse_record;
use er_text::Cause;
use er_trace::fault::LineFault;
use er_trace::record::Record;
use er_trace::version::Version;
use std::alloc::Global;

/// A page that stands for some list of records.
pub struct Reading {
    pub page: Page,
    ghost some: { ∥ IsSomePage page ∥₁ },
}

impl Drop for Reading {
    fn drop(self) {
        let Reading { page: _ } = self;
    }
}

impl Reading {
    /// The page of the empty list.
    #[tactic(auto, using(er_page::proofs::PageLemmas::first_page))]
    pub fn new(alloc: Global) -> Result<Reading, NoMemory>
        ensures { IfOk result (λ reading. IsPage reading.page []) }
    {
        let page = Page::new(alloc)?;
        Ok(Reading { page })
    }

    /// Takes the record of version 3 that the line spells, or answers the first cause against it.
    pub fn read(&mut self, alloc: Global, line: &str) -> Result<Option<Cause>, LineFault>
        ensures taken { IfOk result (λ cause. (x : Record) → IsRecordOf Three x
            → line.now ≡ spelling x → (h : List Record) → IsPage self.old.page h
            → HasTaken self.new.page x cause h) }
        ensures bad { result ≡ Err LineFault.BadRecord → (x : Record) → IsRecordOf Three x
            → line.now ≡ spelling x → ⊥ }
        ensures kept { OnErr result
            ((h : List Record) → IsPage self.old.page h → IsPage self.new.page h) }
    {
        let rec = parse_record(alloc, Version::Three, line.as_bytes())?;
        match self.take(&rec) {
            Ok(cause) => Ok(cause),
            Err(NoMemory) => Err(LineFault::NoMemory),
        }
    }

    /// Takes the record, or answers the first cause against it.
    #[tactic(auto, using(crate::proofs::TakenLemmas::takes))]
    pub fn take(&mut self, rec: &Record) -> Result<Option<Cause>, NoMemory>
        ensures taken { IfOk result (λ cause. (h : List Record) → IsPage self.old.page h
            → HasTaken self.new.page rec.now cause h) }
        ensures kept { OnErr result
            ((h : List Record) → IsPage self.old.page h → IsPage self.new.page h) }
    {
        if let Err(cause) = self.page.check(rec) {
            return Ok(Some(cause));
        }
        if let Err(cause) = self.page.room(rec) {
            return Ok(Some(cause));
        }
        self.page.apply(rec)?;
        Ok(None)
    }
}
