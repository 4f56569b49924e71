//! The two orders of a race.

ghost use Rattle.std.specs.Prelude.{◌≡◌, ◌<◌, ◌∷◌, ◌++◌, [], true, false, ◌||◌, if◌then◌else◌, length, IfOk, OnOk};
ghost use Rattle.er_paths.specs.Paths.{joins};
ghost use Rattle.er_paths.specs.Laws.{GoForward};
ghost use Rattle.er_clocks.specs.Clock.{Tells};
ghost use Rattle.er_paths.specs.orders.Orders.{comes_before, comes_after, others_before, others_after};
ghost use Rattle.er_schedule.specs.Schedules.{orders_of, AreLawful};

use crate::Schedules;
use er_clocks::{Clocks, Paths};
use er_io::NoMemory;
use std::alloc::Global;

/// The two orders of two actions that no path joins: all that have a path to one of them come
/// first, then the two, then the others.
///
/// It asks for each action whether it has a path to one of the two, by two comparisons of numbers,
/// and counts none.
pub fn make_schedules(alloc: Global, clocks: &Clocks, i: u32, j: u32) -> Result<Schedules, NoMemory>
    requires earlier { i < j }
    requires begun { j < length clocks.now }
    requires apart { joins clocks.now i j ≡ false }
    ensures orders { IfOk result
        (λ s. Tells clocks.now (λ lists. s ≡ orders_of (joins lists) (length lists) i j)) }
    ensures lawful { IfOk result
        (λ s. Tells clocks.now (λ lists. GoForward lists → AreLawful lists s)) }
{
    let others = others_of(alloc, clocks, i, j)?;
    let first = around(alloc, &others.before, i, j, &others.after)?;
    let second = around(alloc, &others.before, j, i, &others.after)?;
    Ok(Schedules { first, second })
}

/// The actions but for two: those that have a path to one of the two, and those that have none.
#[derive(Drop)]
struct Others {
    before: Vec<u32>,
    after: Vec<u32>,
}

fn others_of(alloc: Global, clocks: &Clocks, i: u32, j: u32) -> Result<Others, NoMemory>
    ensures before { IfOk result (λ o. Tells clocks.now (λ lists.
        o.before.items ≡ others_before (joins lists) (length lists) i j)) }
    ensures after { IfOk result (λ o. Tells clocks.now (λ lists.
        o.after.items ≡ others_after (joins lists) (length lists) i j)) }
{
    let mut before = Vec::new(alloc);
    let mut after = Vec::new(alloc);
    for k in 0..clocks.len() {
        place(clocks, i, j, k, &mut before, &mut after)?;
    }
    Ok(Others { before, after })
}

/// Puts an action into its part.
fn place(
    clocks: &Clocks,
    i: u32,
    j: u32,
    k: u32,
    before: &mut Vec<u32>,
    after: &mut Vec<u32>,
) -> Result<(), NoMemory>
    ensures before { OnOk result (Tells clocks.now (λ lists. before.new.items
        ≡ (if comes_before (joins lists) i j k
        then before.old.items ++ k ∷ []
        else before.old.items))) }
    ensures after { OnOk result (Tells clocks.now (λ lists. after.new.items
        ≡ (if comes_after (joins lists) i j k
        then after.old.items ++ k ∷ []
        else after.old.items))) }
{
    if k == i || k == j {
        return Ok(());
    }
    if reaches(clocks, k, i, j) {
        put(before, k)
    } else {
        put(after, k)
    }
}

fn put(actions: &mut Vec<u32>, k: u32) -> Result<(), NoMemory>
    ensures { OnOk result (actions.new.items ≡ actions.old.items ++ k ∷ []) }
{
    let Ok(()) = actions.push(k) else {
        return Err(NoMemory);
    };
    Ok(())
}

/// Whether a path leads from k to one of the two.
fn reaches(clocks: &Clocks, k: u32, i: u32, j: u32) -> bool
    ensures { Tells clocks.now (λ lists. result ≡ (joins lists k i || joins lists k j)) }
{
    clocks.joined(k, i) || clocks.joined(k, j)
}

/// Two actions between these.
fn around(
    alloc: Global,
    before: &[u32],
    x: u32,
    y: u32,
    after: &[u32],
) -> Result<Vec<u32>, NoMemory>
    ensures { IfOk result (λ order. order.items ≡ before.now ++ x ∷ y ∷ after.now) }
{
    let Ok(mut order) = Vec::from_slice(alloc, before) else {
        return Err(NoMemory);
    };
    put(&mut order, x)?;
    put(&mut order, y)?;
    let Ok(()) = order.extend_from_slice(after) else {
        return Err(NoMemory);
    };
    Ok(order)
}
