//! Which group a class names, and how many races name a group.

ghost use Rattle.std.specs.Prelude.{◌≡◌, ◌+◌, ◌*◌, ◌<◌, ◌≤◌, ◌^◌, length, All, IfOk};
ghost use Rattle.er_races.specs.Races.{most_races};
ghost use Rattle.er_paths.specs.Paths.{joins};
ghost use Rattle.er_cover.specs.Groups as spec;
ghost use Rattle.er_cover.specs.Passes.{AreMaximal, AreSizes, IsKnown, names_of, pass_tests};

use crate::Class;
use crate::maximal::covers;
use er_clocks::{Clocks, Meter};
use er_io::NoMemory;
use indexmap::IndexSet;
use std::alloc::Global;

/// For each class the first group that covers it, or their number.
#[tactic(auto, using(crate::proofs::PassLemmas::room_left, crate::proofs::PassLemmas::scan_bound))]
pub(crate) fn name_all(
    alloc: Global,
    groups: &IndexSet<Class>,
    classes: &[Class],
    clocks: &Clocks,
    tests: &mut Meter,
) -> Result<Vec<u32>, NoMemory>
    requires groups { All (IsKnown (length clocks.now)) groups.now.keys }
    requires maximal { AreMaximal (joins clocks.now) groups.now.keys }
    requires classes { All (IsKnown (length clocks.now)) classes.now }
    requires few { length groups.now.keys ≤ spec.most_classes }
    requires few_classes { length classes.now ≤ spec.most_classes }
    requires room { tests.old < 2 ^ 61 + 2 ^ 31 }
    ensures names { IfOk result (λ v. v.items ≡ names_of clocks.now groups.now.keys classes.now) }
    ensures bound { tests.new ≤ tests.old + pass_tests classes.now groups.now.keys }
    ensures rises { tests.old ≤ tests.new }
{
    let mut names = Vec::new(alloc);
    for class in classes {
        let name = name_of(groups, class, clocks, tests);
        let Ok(()) = names.push(name as u32) else {
            return Err(NoMemory);
        };
    }
    Ok(names)
}

/// A group is covered by itself alone: no comparison is needed.
fn name_of(groups: &IndexSet<Class>, class: &Class, clocks: &Clocks, tests: &mut Meter) -> usize
    requires groups { All (IsKnown (length clocks.now)) groups.now.keys }
    requires maximal { AreMaximal (joins clocks.now) groups.now.keys }
    requires class { IsKnown (length clocks.now) class.now }
    requires room { tests.old + 2 * length groups.now.keys < 2 ^ 62 }
    ensures name { result ≡ spec.name_of (joins clocks.now) groups.now.keys class.now }
    ensures within { result ≤ length groups.now.keys }
    ensures bound { tests.new ≤ tests.old + 2 * length groups.now.keys }
    ensures rises { tests.old ≤ tests.new }
{
    match groups.get_index_of(class) {
        Some(g) => g,
        None => first_covering(groups.as_slice(), class, clocks, tests),
    }
}

/// The first of the groups that covers the class, or their number.
#[tactic(auto, using(crate::proofs::PassLemmas::cover_step, crate::proofs::PassLemmas::cover_end))]
fn first_covering(groups: &[Class], class: &Class, clocks: &Clocks, tests: &mut Meter) -> usize
    requires groups { All (IsKnown (length clocks.now)) groups.now }
    requires class { IsKnown (length clocks.now) class.now }
    requires room { tests.old + 2 * length groups.now < 2 ^ 62 }
    ensures first { result ≡ spec.name_of (joins clocks.now) groups.now class.now }
    ensures within { result ≤ length groups.now }
    ensures bound { tests.new ≤ tests.old + 2 * length groups.now }
    ensures rises { tests.old ≤ tests.new }
{
    for (g, group) in groups.iter().enumerate() {
        if covers(group, class, clocks, tests) {
            return g;
        }
    }
    groups.len()
}

/// How many races name each group.
pub(crate) fn sizes_of(alloc: Global, names: &[u32], count: usize) -> Result<Vec<u32>, NoMemory>
    requires known { All (λ g. g < count) names.now }
    requires few { length names.now ≤ most_races }
    ensures sizes { IfOk result (λ v. AreSizes names.now count v.items) }
{
    let Ok(mut sizes) = vec![in alloc; 0; count] else {
        return Err(NoMemory);
    };
    for name in names {
        sizes[*name as usize] += 1;
    }
    Ok(sizes)
}
