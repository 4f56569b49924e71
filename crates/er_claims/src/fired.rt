//! Which timeouts have fired, all and by the events that set them.

ghost use Rattle.std.specs.Prelude.{◌≡◌, ℕ, List, [], ◌∷◌, ◌++◌, Option, Some, None, IsSome, IfSome, OnOk, map, nat_eq};
ghost use Rattle.std.specs.List.{All};
ghost use Rattle.indexmap.specs.IndexMap.{get};
ghost use Rattle.er_trace.specs.declared.record.Record.{Record};
ghost use Rattle.er_history.specs.LookUps as says;
ghost use Rattle.er_claims.specs.declared.claimed.Timeout.{Timeout};
ghost use Rattle.er_claims.specs.Fired.{AreCounted, FiredAre, AreFound, HasPlace, ListHasPlace, HasPlaceFor, IsFound, number_of, numbers_at, sets, sets_at, timeouts_at, timer_listed, timers_of};

use crate::claimed::{FiredTimeout, SetTimeout};
use crate::counted::counted;
use er_io::NoMemory;
use indexmap::IndexMap;
use std::alloc::Global;

/// Timeouts in order of firing: their numbers, and beside them what was set of each.
pub(crate) struct Firings {
    pub(crate) numbers: Vec<u32>,
    pub(crate) timeouts: Vec<FiredTimeout>,
}

impl Drop for Firings {
    fn drop(self) {
        let Firings {
            numbers: _,
            timeouts: _,
        } = self;
    }
}

impl Firings {
    fn new(alloc: Global) -> Self
        ensures numbers { result.numbers.items ≡ [] }
        ensures timeouts { result.timeouts.items ≡ [] }
    {
        Firings {
            numbers: Vec::new(alloc),
            timeouts: Vec::new(alloc),
        }
    }

    /// Makes room for one more.
    fn make_room(&mut self) -> Result<(), NoMemory>
        ensures numbers { self.new.numbers.items ≡ self.old.numbers.items }
        ensures timeouts { self.new.timeouts.items ≡ self.old.timeouts.items }
        ensures room { OnOk result (HasPlace self.new) }
    {
        self.numbers.reserve(1)?;
        self.timeouts.reserve(1)?;
        Ok(())
    }

    fn push(&mut self, fired: SetTimeout)
        requires room { HasPlace self.old }
        ensures numbers { self.new.numbers.items ≡ self.old.numbers.items ++ fired.timeout ∷ [] }
        ensures timeouts { sets self.new.timeouts.items
            ≡ sets self.old.timeouts.items ++ fired ∷ [] }
        ensures counted { AreCounted self.old.timeouts.items → AreCounted self.new.timeouts.items }
    {
        let timeout = counted(&self.timeouts, fired);
        let Ok(()) = self.numbers.push(fired.timeout) else {
            unreachable!()
        };
        let Ok(()) = self.timeouts.push(timeout) else {
            unreachable!()
        };
    }
}

/// The timeouts that have fired, in order of firing: all of them, and by the event that set them.
pub(crate) struct Fired {
    pub(crate) all: Firings,
    pub(crate) lists: IndexMap<u32, Firings>,
    pub(crate) alloc: Global,
}

impl Drop for Fired {
    fn drop(self) {
        let Fired {
            all: _,
            lists: _,
            alloc: _,
        } = self;
    }
}

impl Fired {
    /// None has fired. It takes no memory.
    pub(crate) fn new(alloc: Global) -> Self
        ensures fired { FiredAre result [] }
        ensures found { (found : ℕ → Option Timeout) → AreFound found result }
    {
        Fired {
            all: Firings::new(alloc),
            lists: IndexMap::new(alloc),
            alloc,
        }
    }

    /// All timeouts that have fired, in order of firing.
    pub(crate) fn all(&self) -> &[u32]
        ensures { (h : List Record) → FiredAre self.now h → result.now ≡ says.fired h }
    {
        self.all.numbers.as_slice()
    }

    /// The timeouts set in the event that have fired, in order of firing.
    pub(crate) fn with(&self, event: u32) -> &[u32]
        ensures { (h : List Record) → FiredAre self.now h → result.now ≡ says.fired_with h event }
    {
        match self.lists.get(&event) {
            Some(list) => list.numbers.as_slice(),
            None => &[],
        }
    }

    /// What was set of all that have fired.
    pub(crate) fn all_timeouts(&self) -> &[FiredTimeout]
        ensures numbers { (h : List Record) → FiredAre self.now h
            → map number_of (sets result.now) ≡ says.fired h }
        ensures found { (found : ℕ → Option Timeout) → AreFound found self.now
            → All (IsFound found) (sets result.now) }
        ensures counted { (found : ℕ → Option Timeout) → AreFound found self.now
            → AreCounted result.now }
    {
        self.all.timeouts.as_slice()
    }

    /// What was set of those that the event set and that have fired.
    pub(crate) fn timeouts_with(&self, event: u32) -> &[FiredTimeout]
        ensures numbers { (h : List Record) → FiredAre self.now h
            → map number_of (sets result.now) ≡ says.fired_with h event }
        ensures found { (found : ℕ → Option Timeout) → AreFound found self.now
            → All (IsFound found) (sets result.now) }
        ensures counted { (found : ℕ → Option Timeout) → AreFound found self.now
            → AreCounted result.now }
    {
        match self.lists.get(&event) {
            Some(list) => list.timeouts.as_slice(),
            None => &[],
        }
    }

    /// Makes room for a timeout that fires, if there is one.
    pub(crate) fn make_room(&mut self, timer: Option<SetTimeout>) -> Result<(), NoMemory>
        ensures kept { (h : List Record) → FiredAre self.old h → FiredAre self.new h }
        ensures found { (found : ℕ → Option Timeout) → AreFound found self.old
            → AreFound found self.new }
        ensures room { OnOk result (HasPlaceFor self.new timer) }
    {
        let Some(timeout) = timer else {
            return Ok(());
        };
        self.all.make_room()?;
        self.make_list(timeout.maker)?;
        self.make_place(timeout.maker)
    }

    /// Takes a timeout that fires, if there is one.
    pub(crate) fn take(&mut self, timer: Option<SetTimeout>)
        requires room { HasPlaceFor self.old timer }
        ensures fired { (h : List Record) (x : Record)
            → FiredAre self.old h
            → timer_listed timer ≡ says.fires h x
            → ((u : ℕ) → map number_of (timers_of u timer) ≡ says.fires_of h u x)
            → FiredAre self.new (x ∷ h) }
        ensures found { (found : ℕ → Option Timeout)
            → AreFound found self.old
            → IfSome timer (IsFound found)
            → AreFound found self.new }
    {
        if let Some(timeout) = timer {
            self.all.push(timeout);
            self.put(timeout);
        }
    }

    /// Gives the event a list, if it has none.
    fn make_list(&mut self, event: u32) -> Result<(), NoMemory>
        ensures numbers { (u : ℕ) → numbers_at self.new u ≡ numbers_at self.old u }
        ensures timeouts { (u : ℕ) → timeouts_at self.new u ≡ timeouts_at self.old u }
        ensures others { self.new.all ≡ self.old.all }
        ensures there { OnOk result (IsSome (get nat_eq self.new.lists event)) }
    {
        if self.lists.contains_key(&event) {
            return Ok(());
        }
        self.lists.insert(event, Firings::new(self.alloc))?;
        Ok(())
    }

    /// Makes room in the event's list.
    fn make_place(&mut self, event: u32) -> Result<(), NoMemory>
        requires there { IsSome (get nat_eq self.old.lists event) }
        ensures numbers { (u : ℕ) → numbers_at self.new u ≡ numbers_at self.old u }
        ensures timeouts { (u : ℕ) → timeouts_at self.new u ≡ timeouts_at self.old u }
        ensures others { self.new.all ≡ self.old.all }
        ensures room { OnOk result (ListHasPlace self.new event) }
    {
        let Some(list) = self.lists.get_mut(&event) else {
            unreachable!()
        };
        list.make_room()
    }

    /// Puts it into the list of the event that set it.
    fn put(&mut self, timeout: SetTimeout)
        requires room { ListHasPlace self.old timeout.maker }
        ensures numbers { (u : ℕ) → numbers_at self.new u
            ≡ numbers_at self.old u ++ map number_of (timers_of u (Some timeout)) }
        ensures timeouts { (u : ℕ) → sets_at self.new u
            ≡ sets_at self.old u ++ timers_of u (Some timeout) }
        ensures counted { (u : ℕ) → AreCounted (timeouts_at self.old u)
            → AreCounted (timeouts_at self.new u) }
        ensures others { self.new.all ≡ self.old.all }
    {
        let Some(list) = self.lists.get_mut(&timeout.maker) else {
            unreachable!()
        };
        list.push(timeout);
    }
}
