//! Messages, animation callbacks or jobs: what declared them, and those whose events have begun.

ghost use Rattle.std.specs.Prelude.{◌≡◌, ℕ, ◌<◌, Bool, List, [], ◌∷◌, ◌++◌, Option, Some, IsSome, IfSome, is_some, option_map, map, OnOk};
ghost use Rattle.std.specs.List.{list_any};
ghost use Rattle.er_numbers.specs.Numbers.{found, HasRoomWhere};
ghost use Rattle.er_trace.specs.declared.record.Record.{Record};
ghost use Rattle.er_history.specs.History.{told, running, actions_after, Action};
ghost use Rattle.er_history.specs.LookUps.{before};
ghost use Rattle.er_history.specs.Tasks as says;
ghost use Rattle.er_history.specs.Tasks.{TaskKind, declares_task, starts_task};
ghost use Rattle.er_history.specs.Found.{MakersAre};
ghost use Rattle.er_history.specs.Noted.{is_number, noted_in};
ghost use Rattle.er_history.specs.Taken.{IsNow, StillStands, KeepsEach};
ghost use Rattle.er_tasks.specs.declared.tasks.Task.{Task};
ghost use Rattle.er_tasks.specs.Begun.{AreBegun, HasPlace, task_number};
ghost use Rattle.er_tasks.specs.Tasks.{HaveRoomOf, IsNoted, IsStarted, TaskGiven, TaskTableIs, TasksAreRanked, TasksDeclared, numbers_in, task_of, task_rank, with_task};

use crate::begun::{Begun, Started, run_to};
use crate::tasks::{BegunTask, Task};
use er_history::firsts::{Now, make_room, note_maker, note_pair};
use er_io::NoMemory;
use er_numbers::Numbers;
use std::alloc::Global;

/// The tasks of one kind.
pub(crate) struct TaskTable {
    /// What declared each.
    pub(crate) declared: Numbers<Task>,
    /// The event of each.
    pub(crate) started: Numbers<u32>,
    /// Those whose events have begun, listed by their numbers.
    pub(crate) begun: Begun,
}

impl Drop for TaskTable {
    fn drop(self) {
        let TaskTable {
            declared: _,
            started: _,
            begun: _,
        } = self;
    }
}

impl TaskTable {
    /// No task yet. It takes no memory.
    pub(crate) fn new(alloc: Global) -> Self
        ensures { (kind : TaskKind) → TaskTableIs kind result [] }
    {
        TaskTable {
            declared: Numbers::new(alloc),
            started: Numbers::new(alloc),
            begun: Begun::new(alloc),
        }
    }

    /// Makes room for the one task, and for the event of the other, if there are such.
    pub(crate) fn make_room(
        &mut self,
        posted: Option<u32>,
        begun: Option<u32>,
    ) -> Result<(), NoMemory>
        ensures kept { (kind : TaskKind) → StillStands (TaskTableIs kind) self.old self.new }
        ensures declared { (k : ℕ) → found self.new.declared k
            ≡ found self.old.declared k }
        ensures started { (k : ℕ) → found self.new.started k ≡ found self.old.started k }
        ensures room { OnOk result (HaveRoomOf self.new posted begun) }
    {
        make_room(&mut self.declared, posted)?;
        make_room(&mut self.started, begun)?;
        self.begun.make_room()
    }

    /// Takes a record that declares the one task and begins the event of the other, if there are
    /// such. It answers the task whose event it begins, where one is declared.
    pub(crate) fn take(
        &mut self,
        posted: Option<u32>,
        begun: Option<u32>,
        now: Now,
    ) -> Option<Started>
        requires room { HaveRoomOf self.old posted begun }
        ensures taken { (kind : TaskKind) (h : List Record) (x : Record)
            → IsNoted kind x posted begun → TaskTableIs kind self.old h → IsNow h x now
            → TaskTableIs kind self.new (x ∷ h) }
        ensures declared { KeepsEach (found self.old.declared) (found self.new.declared) }
        ensures started { KeepsEach (found self.old.started) (found self.new.started) }
        ensures answers { option_map task_of result
            ≡ with_task (found self.old.declared) begun }
        ensures found { IfSome result
            (IsStarted (found self.new.declared) (found self.new.started)) }
    {
        let made = self.made(begun);
        note_task(&mut self.declared, posted, now);
        note_event(&mut self.started, begun, now.event);
        self.begin(made)
    }

    /// The task of a number, with the number.
    fn made(&self, number: Option<u32>) -> Option<(u32, Task)>
        ensures { result ≡ with_task (found self.now.declared) number }
    {
        let number = number?;
        let task = self.declared.find(number)?;
        Some((number, task))
    }

    /// Puts a task whose event began to the others.
    fn begin(&mut self, made: Option<(u32, Task)>) -> Option<Started>
        requires room { HasPlace self.old.begun }
        requires there { IfSome made (λ p. IsSome (found self.old.started p.0)) }
        requires made { IfSome made (λ p. found self.old.declared p.0 ≡ Some p.1) }
        ensures declared { self.new.declared ≡ self.old.declared }
        ensures started { self.new.started ≡ self.old.started }
        ensures listed { self.new.begun.listed.items
            ≡ self.old.begun.listed.items ++ numbers_in made }
        ensures numbers { map task_number self.new.begun.tasks.items
            ≡ map task_number self.old.begun.tasks.items ++ numbers_in made }
        ensures begun { AreBegun (found self.old.declared) (found self.old.started)
            self.old.begun.tasks.items
            → AreBegun (found self.old.declared) (found self.old.started)
            self.new.begun.tasks.items }
        ensures answers { option_map task_of result ≡ made }
        ensures found { IfSome result
            (IsStarted (found self.old.declared) (found self.old.started)) }
    {
        let (number, task) = made?;
        let Some(event) = self.started.find(number) else {
            unreachable!()
        };
        let run = run_to(self.begun.tasks.as_slice(), task);
        let begun = BegunTask {
            number,
            event,
            task,
            run,
        };
        self.begun.push(number, begun);
        Some(Started {
            number,
            event,
            task,
        })
    }

    /// The event that queued, posted or asked for a task.
    pub(crate) fn maker(&self, number: Option<u32>) -> Option<u32>
        ensures { result ≡ option_map (λ (p : ℕ × Task). p.1.maker)
            (with_task (found self.now.declared) number) }
    {
        let (_, task) = self.made(number)?;
        Some(task.maker)
    }

    /// What declared the task.
    pub(crate) fn task(&self, number: u32) -> Option<Task>
        ensures { result ≡ found self.now.declared number }
    {
        self.declared.find(number)
    }

    /// Whether it is declared.
    pub(crate) fn has(&self, number: u32) -> bool
        ensures { (kind : TaskKind) (h : List Record) → TaskTableIs kind self.now h
            → result ≡ list_any (declares_task kind number) h }
    {
        self.declared.has(number)
    }

    /// Whether its event has begun.
    pub(crate) fn has_begun(&self, number: u32) -> bool
        ensures { (kind : TaskKind) (h : List Record) → TaskTableIs kind self.now h
            → result ≡ list_any (starts_task kind number) h }
    {
        self.started.has(number)
    }

    /// The piece that declared it.
    pub(crate) fn piece(&self, number: u32) -> Option<u32>
        ensures { (kind : TaskKind) (h : List Record) → TaskTableIs kind self.now h
            → result ≡ says.task_piece kind h number }
    {
        let task = self.declared.find(number)?;
        Some(task.piece)
    }

    /// Its event.
    pub(crate) fn event(&self, number: u32) -> Option<u32>
        ensures { (kind : TaskKind) (h : List Record) → TaskTableIs kind self.now h
            → result ≡ says.task_event kind h number }
    {
        self.started.find(number)
    }

    /// Whether both are declared, the first in an earlier record.
    pub(crate) fn is_before(&self, first: u32, second: u32) -> bool
        ensures { (kind : TaskKind) (h : List Record) → TaskTableIs kind self.now h
            → result ≡ before (says.task_place kind h first) (says.task_place kind h second) }
    {
        match (self.rank(first), self.rank(second)) {
            (Some(earlier), Some(later)) => earlier < later,
            _ => false,
        }
    }

    fn rank(&self, number: u32) -> Option<usize>
        ensures { result ≡ option_map task_rank (found self.now.declared number) }
    {
        let task = self.declared.find(number)?;
        Some(task.rank)
    }

    /// The numbers of those whose events have begun, in order.
    pub(crate) fn numbers(&self) -> &[u32]
        ensures { (kind : TaskKind) (h : List Record) → TaskTableIs kind self.now h
            → result.now ≡ says.tasks_begun kind h }
    {
        self.begun.listed.as_slice()
    }

    /// What is known of them.
    pub(crate) fn tasks(&self) -> &[BegunTask]
        ensures numbers { (kind : TaskKind) (h : List Record) → TaskTableIs kind self.now h
            → map task_number result.now ≡ says.tasks_begun kind h }
        ensures begun { (kind : TaskKind) (h : List Record) → TaskTableIs kind self.now h
            → AreBegun (found self.now.declared) (found self.now.started) result.now }
    {
        self.begun.tasks.as_slice()
    }
}

/// Notes the task that a record declares.
fn note_task(table: &mut Numbers<Task>, number: Option<u32>, now: Now)
    requires room { HasRoomWhere table.old (λ k. is_number k number) }
    ensures made { (kind : TaskKind) (h : List Record) (x : Record)
        → ((k : ℕ) → is_number k number ≡ declares_task kind k x) → IsNow h x now
        → TasksDeclared kind (found table.old) h
        → TasksDeclared kind (found table.new) (x ∷ h) }
    ensures ranked { (kind : TaskKind) (h : List Record) (x : Record)
        → ((k : ℕ) → is_number k number ≡ declares_task kind k x) → IsNow h x now
        → TasksAreRanked kind (found table.old) table.old.count h
        → TasksAreRanked kind (found table.new) table.new.count (x ∷ h) }
    ensures kept { KeepsEach (found table.old) (found table.new) }
{
    let pair = task_in(number, now, table.count());
    note_pair(table, pair);
}

/// The task of a number that the running action declares, and so many of its kind were declared
/// before.
fn task_in(number: Option<u32>, now: Now, rank: usize) -> Option<(u32, Task)>
    ensures given { (kind : TaskKind) (x : Record) (a : Action)
        → ((k : ℕ) → is_number k number ≡ declares_task kind k x)
        → now.action ≡ a.number → now.event ≡ a.event.number → TaskGiven kind result x a }
    ensures ranked { IfSome result (λ p. p.1.rank ≡ rank) }
    ensures known { (k : ℕ) → is_some (noted_in k result) ≡ is_number k number }
{
    let number = number?;
    Some((
        number,
        Task {
            maker: now.event,
            piece: now.action,
            rank,
        },
    ))
}

/// Notes the event of a task.
fn note_event(table: &mut Numbers<u32>, number: Option<u32>, event: u32)
    requires room { HasRoomWhere table.old (λ k. is_number k number) }
    ensures made { (test : ℕ → Record → Bool) (h : List Record) (x : Record) (a : Action)
        → MakersAre test (found table.old) h
        → ((k : ℕ) → is_number k number ≡ test k x)
        → running (actions_after (told h) x) ≡ Some a
        → event ≡ a.event.number
        → MakersAre test (found table.new) (x ∷ h) }
    ensures there { IfSome number (λ k. IsSome (found table.new k)) }
    ensures kept { KeepsEach (found table.old) (found table.new) }
{
    note_maker(table, number, event);
}
