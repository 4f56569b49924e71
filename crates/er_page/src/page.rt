//! The page that a list of accepted records stands for: which record may come next, and
//! how it is taken.
//!
//! What a rule may ask of a page stands in `look_ups`, whose head lists the look-ups by what they
//! are asked of.

ghost use Rattle.std.specs.Prelude.{◌≡◌, List, [], ◌∷◌, Some, None, IfOk, OnOk, OnErr};
ghost use Rattle.er_trace.specs.declared.record.Record.{Record};
ghost use Rattle.er_history.specs.History.{told};
ghost use Rattle.er_history.specs.Naming.{again, misplaced, naming, room, too_many_actions, too_deep, unknown};
ghost use Rattle.er_page.specs.Accepted.{result_of};
ghost use Rattle.er_claims.specs.Claimed.{HasRoomFor};
ghost use Rattle.er_tasks.specs.Tasks.{HaveRoomIfTask};
ghost use Rattle.er_page.specs.Page.{IsPage, IsNext, IsNextOf, Answers};
ghost use Rattle.er_page.specs.Pieces.{about_start, about_begun};

use crate::piece::{Pieces, Start, begins};
use crate::roles::{first_of, role_by, served_of};
use crate::stack::Stack;
use crate::starts::start_of;
use crate::within::{Within, job_dispatch};
use er_claims::claimed::Claimed;
use er_history::firsts::Now;
use er_io::NoMemory;
use er_latest::latest::Latest;
use er_tasks::forms::is_of_task;
use er_tasks::tasks::Tasks;
use er_text::Cause;
use er_trace::nesting::Nesting;
use er_trace::record::Record;
use std::alloc::Global;

/// How many actions may begin.
const MOST_ACTIONS: usize = 32_768;

/// How many inline dispatches the stack may hold.
const MOST_INLINE: u32 = 256;

/// What a list of accepted records declares, has run and has on the stack.
pub struct Page {
    pub(crate) claimed: Claimed,
    pub(crate) tasks: Tasks,
    pub(crate) stack: Stack,
    pub(crate) pieces: Pieces,
    pub(crate) latest: Latest,
    pub(crate) within: Within,
}

impl Drop for Page {
    fn drop(self) {
        let Page {
            claimed: _,
            tasks: _,
            stack: _,
            pieces: _,
            latest: _,
            within: _,
        } = self;
    }
}

impl Page {
    /// The page of the empty list.
    pub fn new(alloc: Global) -> Result<Page, NoMemory>
        ensures { IfOk result (λ page. IsPage page []) }
    {
        Ok(Page {
            claimed: Claimed::new(alloc),
            tasks: Tasks::new(alloc),
            stack: Stack::new(alloc),
            pieces: Pieces::new(alloc),
            latest: Latest::new(alloc),
            within: Within::new(alloc),
        })
    }

    /// Whether naming and nesting accept the record, or else the first cause against it.
    /// It takes no memory.
    pub fn check(&self, rec: &Record) -> Result<(), Cause>
        ensures { Answers self.now (λ h. result_of (naming h rec.now)) result }
    {
        if self.is_unknown(rec) {
            return Err(Cause::Unknown);
        }
        if self.is_again(rec) {
            return Err(Cause::Again);
        }
        if self.claimed.is_not_script(rec) {
            return Err(Cause::NotScript);
        }
        if self.is_misplaced(rec) {
            return Err(Cause::Misplaced);
        }
        Ok(())
    }

    /// Whether the record stays within the limits of actions and of inline dispatches on the stack,
    /// or else the first that it would pass. It takes no memory.
    pub fn room(&self, rec: &Record) -> Result<(), Cause>
        ensures { Answers self.now (λ h. result_of (room h rec.now)) result }
    {
        if self.is_over(rec) {
            return Err(Cause::TooManyActions);
        }
        if self.is_too_deep(rec) {
            return Err(Cause::TooDeep);
        }
        Ok(())
    }

    /// Takes the next record, which `check` and `room` accept. After `NoMemory` the page stands for
    /// what it did.
    pub fn apply(&mut self, rec: &Record) -> Result<(), NoMemory>
        requires next { ∥ IsNext self.old rec.now ∥₁ }
        ensures taken { OnOk result ((h : List Record) → IsPage self.old h → naming h rec.now ≡ None
            → room h rec.now ≡ None → IsPage self.new (rec.now ∷ h)) }
        ensures kept { OnErr result ((h : List Record) → IsPage self.old h → IsPage self.new h) }
    {
        self.make_room(rec)?;
        match start_of(&self.stack, &self.pieces, rec) {
            Some(start) => self.begin(rec, start),
            None => {
                self.note(rec);
                Ok(())
            }
        }
    }

    /// Makes room for what the record declares, starts or finishes. The tasks are asked for room
    /// only where the record is one's.
    #[tactic(auto, using(crate::proofs::TakenLemmas::with_room))]
    fn make_room(&mut self, rec: &Record) -> Result<(), NoMemory>
        ensures kept { (h : List Record) → IsPage self.old h → IsPage self.new h }
        ensures claimed { OnOk result (HasRoomFor self.new.claimed rec.now) }
        ensures tasks { OnOk result (HaveRoomIfTask self.new.tasks rec.now) }
    {
        self.claimed.make_room(rec)?;
        if is_of_task(rec) {
            self.tasks.make_room(rec)?;
        }
        Ok(())
    }

    /// Takes a record that begins a piece of this event. All that grows is made to grow first.
    fn begin(&mut self, rec: &Record, start: Start) -> Result<(), NoMemory>
        requires next { ∥ IsNext self.old rec.now ∥₁ }
        requires claimed { HasRoomFor self.old.claimed rec.now }
        requires tasks { HaveRoomIfTask self.old.tasks rec.now }
        ensures taken { OnOk result ((h : List Record) → IsPage self.old h → IsNextOf h rec.now
            → Some (about_start start) ≡ about_begun h rec.now → IsPage self.new (rec.now ∷ h)) }
        ensures kept { OnErr result ((h : List Record) → IsPage self.old h → IsPage self.new h) }
    {
        let begin = rec.copy()?;
        let action = self.pieces.count();
        let event = start.event;
        self.pieces.make_room(event)?;
        self.stack.make_room()?;
        let first = first_of(&self.pieces, rec, start);
        let role = role_by(&self.claimed, first, served_of(&self.pieces, start));
        self.latest.make_room(&role)?;
        let dispatch = job_dispatch(&self.stack, rec);
        self.within.make_room(dispatch)?;
        self.latest.take(&role, Now { action, event });
        self.claimed.take(rec, Now { action, event });
        self.tasks.take(rec, Now { action, event });
        self.stack.take(rec, action);
        self.pieces.take(begin, start);
        self.within.take(dispatch, action);
        Ok(())
    }

    /// Takes a note, which stands in the running action.
    fn note(&mut self, rec: &Record)
        requires claimed { HasRoomFor self.old.claimed rec.now }
        requires tasks { HaveRoomIfTask self.old.tasks rec.now }
        ensures { (h : List Record) → IsPage self.old h → IsNextOf h rec.now
            → None ≡ about_begun h rec.now → IsPage self.new (rec.now ∷ h) }
    {
        if let Some(now) = self.pieces.now() {
            self.claimed.take(rec, now);
            self.tasks.take(rec, now);
        }
    }

    /// Whether the record uses a number that no earlier record declared.
    fn is_unknown(&self, rec: &Record) -> bool
        ensures { Answers self.now (λ h. unknown h rec.now) result }
    {
        self.claimed.is_unknown(rec) | self.tasks.is_unknown(rec)
    }

    /// Whether it declares or starts what was declared or started before.
    fn is_again(&self, rec: &Record) -> bool
        ensures { Answers self.now (λ h. again h rec.now) result }
    {
        self.claimed.is_again(rec) | self.tasks.is_again(rec)
    }

    /// Whether the record begins an action that is one too many.
    fn is_over(&self, rec: &Record) -> bool
        ensures { Answers self.now (λ h. too_many_actions (told h) rec.now) result }
    {
        begins(rec) && self.pieces.list.len() >= MOST_ACTIONS
    }

    /// Whether the record begins an inline dispatch that is one too many on the stack.
    fn is_too_deep(&self, rec: &Record) -> bool
        ensures { Answers self.now (λ h. too_deep (told h) rec.now) result }
    {
        match rec.nesting() {
            Nesting::Called => self.stack.depth() >= MOST_INLINE,
            Nesting::Note => false,
            Nesting::Alone => false,
            Nesting::OutsideInline => false,
            Nesting::Under(_) => false,
            Nesting::Behind(_) => false,
        }
    }

    /// Whether the record is not allowed at this point of the nesting.
    fn is_misplaced(&self, rec: &Record) -> bool
        ensures { Answers self.now (λ h. misplaced (told h) rec.now) result }
    {
        match rec.nesting() {
            Nesting::Note => self.pieces.list.is_empty(),
            Nesting::Alone => !self.stack.is_empty(),
            Nesting::OutsideInline => self.stack.has_inline(),
            Nesting::Called => !self.pieces.may_call(),
            Nesting::Under(dispatch) => !self.stack.is_top(false, dispatch),
            Nesting::Behind(dispatch) => !self.stack.is_top(true, dispatch),
        }
    }
}
