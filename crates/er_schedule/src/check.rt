//! Whether an order shows a race.

ghost use Rattle.std.specs.Prelude.{◌≡◌, ◌<◌, ◌==◌, ◌&&◌, true, false, Bool, length, replicate, if◌then◌else◌, IfOk, slice_set};
ghost use Rattle.std.specs.List.{list_all};
ghost use Rattle.er_paths.specs.Paths.{joins};
ghost use Rattle.er_paths.specs.links.Links.{links_of};
ghost use Rattle.er_clocks.specs.Clock.{Tells};
ghost use Rattle.er_paths.specs.orders.Orders.{is_schedule, is_next};
ghost use Rattle.er_schedule.specs.Marks.{is_marked, may_come, all_come};

use er_clocks::{Clocks, Paths};
use er_io::NoMemory;
use std::alloc::Global;

/// Whether the order has each action once and nothing else, no path leads from a member to another,
/// earlier one, and i stands directly before j.
///
/// It goes through the links once: an order keeps all paths where each source of a link stands
/// before what it leads to.
pub fn check_schedule(
    alloc: Global,
    clocks: &Clocks,
    order: &[u32],
    i: u32,
    j: u32,
) -> Result<bool, NoMemory>
    requires first { i < length clocks.now }
    requires second { j < length clocks.now }
    ensures { IfOk result (λ told. Tells clocks.now (λ lists.
        told ≡ is_schedule (joins lists) (length lists) order.now i j)) }
{
    let Ok(mut marks) = vec![in alloc; false; clocks.len() as usize] else {
        return Err(NoMemory);
    };
    Ok(shows(clocks, marks.as_mut_slice(), order, i, j))
}

/// The same, with a mark for each action.
fn shows(clocks: &Clocks, marks: &mut [bool], order: &[u32], i: u32, j: u32) -> bool
    requires { marks.old ≡ replicate (length clocks.now) false }
    ensures { Tells clocks.now (λ lists.
        result ≡ is_schedule (joins lists) (length lists) order.now i j) }
{
    if !come(clocks, marks, order) {
        return false;
    }
    stands_before(order, i, j)
}

/// Whether all actions come, each once and behind its sources.
fn come(clocks: &Clocks, marks: &mut [bool], order: &[u32]) -> bool
    requires { length marks.old ≡ length clocks.now }
    ensures { Tells clocks.now (λ lists. result ≡ all_come (links_of lists) marks.old order.now) }
{
    for k in order {
        if !mark(clocks, marks, *k) {
            return false;
        }
    }
    are_all(marks)
}

fn are_all(marks: &[bool]) -> bool
    ensures { result ≡ list_all (λ (b : Bool). b) marks.now }
{
    marks.iter().all(|mark| *mark)
}

/// Marks an action that may come next, or answers that it may not.
fn mark(clocks: &Clocks, marks: &mut [bool], k: u32) -> bool
    requires { length marks.old ≡ length clocks.now }
    ensures told { Tells clocks.now (λ lists. result ≡ may_come (links_of lists) marks.old k) }
    ensures marked { result ≡ true → marks.new ≡ slice_set marks.old k true }
    ensures long { length marks.new ≡ length marks.old }
{
    if k >= clocks.len() || marks[k as usize] {
        return false;
    }
    if !came(marks, clocks.links_of(k)) {
        return false;
    }
    marks[k as usize] = true;
    true
}

/// Whether all of these are marked. They are numbers of marks.
fn came(marks: &[bool], sources: &[u16]) -> bool
    ensures { result ≡ list_all (is_marked marks.now) sources.now }
{
    sources
        .iter()
        .all(|source| is_marked(marks, u32::from(*source)))
}

fn is_marked(marks: &[bool], k: u32) -> bool
    ensures { result ≡ is_marked marks.now k }
{
    match marks.get(k as usize) {
        Some(mark) => *mark,
        None => false,
    }
}

/// Whether i stands directly before j.
fn stands_before(order: &[u32], i: u32, j: u32) -> bool
    ensures { result ≡ is_next i j order.now }
{
    for n in 1..order.len() {
        if are(order[n - 1], order[n], i, j) {
            return true;
        }
    }
    false
}

fn are(x: u32, y: u32, i: u32, j: u32) -> bool
    ensures { result ≡ ((x == i) && (y == j)) }
{
    x == i && y == j
}
