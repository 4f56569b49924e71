//! The maximal classes, by one pass over the classes by falling first action and, of one first
//! action, by rising second:
//! whatever covers a class stands before it.

ghost use Rattle.std.specs.Prelude.{◌≡◌, ◌+◌, ◌*◌, ◌<◌, ◌≤◌, ◌^◌, length, All, Some, IfOk, OnOk};
ghost use Rattle.std.specs.List.{list_any};
ghost use Rattle.std.specs.List.Sorted.{IsPermutation};
ghost use Rattle.er_paths.specs.Paths.{joins};
ghost use Rattle.er_cover.specs.Groups as spec;
ghost use Rattle.er_cover.specs.Passes.{AreDistinct, AreHeads, AreRising, Chooses, IsKnown, IsLeading, Keeps};
ghost use Rattle.er_cover.specs.Passes.{chosen_of, maximal_tests, seconds_from};

use crate::Class;
use crate::classes::set_of;
use crate::heads::{Heads, gather};
use er_clocks::{Clocks, Meter, Paths};
use er_io::NoMemory;
use indexmap::IndexSet;
use std::alloc::Global;

/// The maximal ones of distinct classes, in their order.
pub(crate) fn maximal_of(
    alloc: Global,
    classes: &[Class],
    clocks: &Clocks,
    tests: &mut Meter,
) -> Result<IndexSet<Class>, NoMemory>
    requires known { All (IsKnown (length clocks.now)) classes.now }
    requires distinct { AreDistinct classes.now }
    requires few { length classes.now ≤ spec.most_classes }
    requires room { tests.old < 2 ^ 61 }
    ensures maximal { IfOk result (λ v. v.keys ≡ spec.maximal_of (joins clocks.now) classes.now) }
    ensures bound { tests.new ≤ tests.old + maximal_tests (joins clocks.now) classes.now }
    ensures rises { tests.old ≤ tests.new }
{
    let sorted = by_rank(alloc, classes, clocks.len())?;
    let found = pass(alloc, sorted.as_slice(), clocks, tests)?;
    let found_set = set_of(alloc, found.as_slice())?;
    let kept = chosen(alloc, classes, &found_set)?;
    let groups = set_of(alloc, kept.as_slice())?;
    Ok(groups)
}

/// The classes by rising rank.
fn by_rank(alloc: Global, classes: &[Class], actions: u32) -> Result<Vec<Class>, NoMemory>
    ensures len { IfOk result (λ sorted. length sorted.items ≡ length classes.now) }
    ensures same { IfOk result (λ sorted. IsPermutation classes.now sorted.items) }
    ensures rising { IfOk result (λ sorted. AreRising actions sorted.items) }
{
    let Ok(mut sorted) = Vec::from_slice(alloc, classes) else {
        return Err(NoMemory);
    };
    let Ok(()) = sorted.sort_by_key(|class| class.rank(actions)) else {
        return Err(NoMemory);
    };
    Ok(sorted)
}

/// The maximal ones of classes that stand by rising rank: those that none found before them covers.
fn pass(
    alloc: Global,
    classes: &[Class],
    clocks: &Clocks,
    tests: &mut Meter,
) -> Result<Vec<Class>, NoMemory>
    requires known { All (IsKnown (length clocks.now)) classes.now }
    requires rising { AreRising (length clocks.now) classes.now }
    requires distinct { AreDistinct classes.now }
    requires few { length classes.now ≤ spec.most_classes }
    requires room { tests.old < 2 ^ 61 }
    ensures maximal { IfOk result (λ v. v.items ≡ spec.maximal_of (joins clocks.now) classes.now) }
    ensures bound { tests.new ≤ tests.old + maximal_tests (joins clocks.now) classes.now }
    ensures rises { tests.old ≤ tests.new }
{
    let mut found = Vec::new(alloc);
    let mut heads = Heads::new(alloc);
    let mut leading = Leading {
        first: None,
        seconds: Vec::new(alloc),
    };
    for class in classes {
        consider(&mut found, &mut heads, &mut leading, class, clocks, tests)?;
    }
    Ok(found)
}

/// The second actions of those found classes to whose first action a path leads from one
/// first action.
#[derive(Drop)]
pub(crate) struct Leading {
    pub(crate) first: Option<u32>,
    pub(crate) seconds: Vec<u32>,
}

/// Keeps the class where none that was found covers it.
fn consider(
    found: &mut Vec<Class>,
    heads: &mut Heads,
    leading: &mut Leading,
    class: &Class,
    clocks: &Clocks,
    tests: &mut Meter,
) -> Result<(), NoMemory>
    requires known { All (IsKnown (length clocks.now)) found.old.items }
    requires class { IsKnown (length clocks.now) class.now }
    requires few { length found.old.items ≤ spec.most_classes }
    requires heads { AreHeads found.old.items heads.old }
    requires leading { IsLeading (joins clocks.now) found.old.items leading.old }
    requires room { tests.old + 2 * length found.old.items < 2 ^ 62 }
    ensures kept { OnOk result
        (Keeps (joins clocks.now) class.now found.old.items found.new.items) }
    ensures heads { OnOk result (AreHeads found.new.items heads.new) }
    ensures leading { OnOk result (IsLeading (joins clocks.now) found.new.items leading.new) }
    ensures bound { tests.new ≤ tests.old + 2 * length found.old.items }
    ensures rises { tests.old ≤ tests.new }
{
    lead(leading, found.as_slice(), heads, class.first, clocks, tests)?;
    if any_joins(leading.seconds.as_slice(), class.second, clocks, tests) {
        return Ok(());
    }
    heads.add(found.as_slice(), class)?;
    let Ok(()) = found.push(*class) else {
        return Err(NoMemory);
    };
    let Ok(()) = leading.seconds.push(class.second) else {
        return Err(NoMemory);
    };
    Ok(())
}

/// Finds the second actions for this first action, unless they stand there.
fn lead(
    leading: &mut Leading,
    found: &[Class],
    heads: &Heads,
    first: u32,
    clocks: &Clocks,
    tests: &mut Meter,
) -> Result<(), NoMemory>
    requires known { All (IsKnown (length clocks.now)) found.now }
    requires first { first < length clocks.now }
    requires heads { AreHeads found.now heads.now }
    requires leading { IsLeading (joins clocks.now) found.now leading.old }
    requires room { tests.old + length found.now < 2 ^ 62 }
    ensures first { OnOk result (leading.new.first ≡ Some first) }
    ensures seconds { OnOk result
        (leading.new.seconds.items ≡ seconds_from (joins clocks.now) first found.now) }
    ensures bound { tests.new ≤ tests.old + length found.now }
    ensures rises { tests.old ≤ tests.new }
{
    if leading.first == Some(first) {
        return Ok(());
    }
    leading.seconds.clear();
    gather(&mut leading.seconds, found, heads, first, clocks, tests)?;
    leading.first = Some(first);
    Ok(())
}

/// Whether a path leads from one of these actions to j.
fn any_joins(firsts: &[u32], j: u32, clocks: &Clocks, tests: &mut Meter) -> bool
    requires firsts { All (λ i. i < length clocks.now) firsts.now }
    requires second { j < length clocks.now }
    requires room { tests.old + length firsts.now < 2 ^ 62 }
    ensures any { result ≡ list_any (λ i. joins clocks.now i j) firsts.now }
    ensures bound { tests.new ≤ tests.old + length firsts.now }
    ensures rises { tests.old ≤ tests.new }
{
    clocks.first_joining(firsts, j, tests) < firsts.len()
}

/// Whether the one class covers the other.
pub(crate) fn covers(group: &Class, class: &Class, clocks: &Clocks, tests: &mut Meter) -> bool
    requires group { IsKnown (length clocks.now) group.now }
    requires class { IsKnown (length clocks.now) class.now }
    requires room { tests.old + 2 < 2 ^ 62 }
    ensures covers { result ≡ spec.covers (joins clocks.now) group.now class.now }
    ensures bound { tests.new ≤ tests.old + 2 }
    ensures rises { tests.old ≤ tests.new }
{
    if !clocks.before(class.first, group.first, tests) {
        return false;
    }
    clocks.before(group.second, class.second, tests)
}

/// Those of the classes that the set has, in their order.
fn chosen(alloc: Global, classes: &[Class], set: &IndexSet<Class>) -> Result<Vec<Class>, NoMemory>
    ensures { IfOk result (λ kept. kept.items ≡ chosen_of set.now.keys classes.now) }
{
    let mut kept = Vec::new(alloc);
    for class in classes {
        keep(&mut kept, set, class)?;
    }
    Ok(kept)
}

fn keep(kept: &mut Vec<Class>, set: &IndexSet<Class>, class: &Class) -> Result<(), NoMemory>
    ensures { OnOk result (Chooses set.now.keys class.now kept.old.items kept.new.items) }
{
    if set.contains(class) {
        let Ok(()) = kept.push(*class) else {
            return Err(NoMemory);
        };
    }
    Ok(())
}
