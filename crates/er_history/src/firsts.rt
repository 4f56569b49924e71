//! Tables from numbers to what was noted first under them, one way to note for all of them, and how
//! each takes one record more.
//!
//! In contracts:
//!
//! - `specs/Noted.antt`: what a note puts under a number.
//! - `specs/Found.antt`: what the tables answer, against what the list of records says: `MakersAre`
//!   (events), `FirstsAre` (other numbers), `IsRanked` (which number was noted first).
//! - `specs/Taken.antt`: `StillStands`, `Takes`: a value stands for the list still, or for the list
//!   with one record more, after which this action runs (`IsNow`).

ghost use Rattle.std.specs.Prelude.{◌≡◌, ℕ, ◌<◌, ◌≤◌, Bool, List, ◌∷◌, Option, Some, None, if◌then◌else◌, is_some, OnOk, IfSome};
ghost use Rattle.er_numbers.specs.Numbers.{found, HasRoomUnder, HasRoomWhere};
ghost use Rattle.er_trace.specs.declared.record.Record.{Record};
ghost use Rattle.er_history.specs.History.{told, or_else, running, actions_after, Action};
ghost use Rattle.er_history.specs.Noted.{noted, noted_in, is_number};
ghost use Rattle.er_history.specs.Found.{MakersAre, FirstsAre};

use er_io::NoMemory;
use er_numbers::Numbers;

/// The running action, and its event.
#[derive(Clone, Copy)]
pub struct Now {
    pub action: u32,
    pub event: u32,
}

/// Makes room for a note under this number, if there is one.
pub fn make_room<V: Copy + Drop>(
    table: &mut Numbers<V>,
    number: Option<u32>,
) -> Result<(), NoMemory>
    ensures kept { (k : ℕ) → found table.new k ≡ found table.old k }
    ensures count { table.new.count ≡ table.old.count }
    ensures room { OnOk result (HasRoomWhere table.new (λ k. is_number k number)) }
{
    match number {
        Some(number) => table.make_room(number),
        None => Ok(()),
    }
}

/// Notes a value under a number. The first that was noted stays.
fn note<V: Copy + Drop>(table: &mut Numbers<V>, number: u32, value: V)
    requires room { HasRoomUnder table.old number }
    ensures found { (k : ℕ)
        → found table.new k ≡ or_else (found table.old k) (noted k number value) }
    ensures longer { table.old.count ≤ table.new.count }
    ensures counted { found table.old number ≡ None → table.old.count < table.new.count }
{
    if !table.has(number) {
        table.put(number, value);
    }
}

/// Notes a pair of a number and a value, if there is one.
pub fn note_pair<V: Copy + Drop>(table: &mut Numbers<V>, pair: Option<(u32, V)>)
    requires room { HasRoomWhere table.old (λ k. is_some (noted_in k pair)) }
    ensures found { (k : ℕ)
        → found table.new k ≡ or_else (found table.old k) (noted_in k pair) }
    ensures longer { table.old.count ≤ table.new.count }
    ensures counted { IfSome pair (λ p. found table.old p.0 ≡ None
        → table.old.count < table.new.count) }
{
    if let Some((number, value)) = pair {
        note(table, number, value);
    }
}

/// Notes the event that is the maker of a number, if a record has one.
pub fn note_maker(table: &mut Numbers<u32>, number: Option<u32>, event: u32)
    requires room { HasRoomWhere table.old (λ k. is_number k number) }
    ensures made { (test : ℕ → Record → Bool) (h : List Record) (x : Record) (a : Action)
        → MakersAre test (found table.old) h
        → ((k : ℕ) → is_number k number ≡ test k x)
        → running (actions_after (told h) x) ≡ Some a
        → event ≡ a.event.number
        → MakersAre test (found table.new) (x ∷ h) }
    ensures found { (k : ℕ) → found table.new k
        ≡ or_else (found table.old k) (if is_number k number then Some event else None) }
{
    if let Some(number) = number {
        note(table, number, event);
    }
}

/// Notes the first number that a record gives under another, if it gives one.
pub fn note_first(table: &mut Numbers<u32>, pair: Option<(u32, u32)>)
    requires room { HasRoomWhere table.old (λ k. is_some (noted_in k pair)) }
    ensures { (test : ℕ → Record → Bool) (gives : ℕ → Record → Option ℕ)
        (h : List Record) (x : Record)
        → FirstsAre test gives (found table.old) h
        → ((k : ℕ) → noted_in k pair ≡ gives k x)
        → ((k : ℕ) → is_some (noted_in k pair) ≡ test k x)
        → FirstsAre test gives (found table.new) (x ∷ h) }
{
    note_pair(table, pair);
}
