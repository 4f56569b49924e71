//! The classes of races, each once, and what is looked up for each.

ghost use Rattle.std.specs.Prelude.{◌≡◌, ◌≤◌, ◌^◌, map, length, All, IfOk, OnOk, IsTrue};
ghost use Rattle.er_races.specs.Races.{most_races};
ghost use Rattle.er_cover.specs.Classes.{is_among, each_once};
ghost use Rattle.er_cover.specs.Passes as spec;
ghost use Rattle.er_cover.specs.Passes.{Adds};

use crate::Class;
use er_io::NoMemory;
use indexmap::IndexSet;
use std::alloc::Global;

/// The classes in the order of their first races, and for each its first race.
pub(crate) struct Distinct {
    pub(crate) set: IndexSet<Class>,
    pub(crate) firsts: Vec<u32>,
}

impl Drop for Distinct {
    fn drop(self) {
        let Distinct { set: _, firsts: _ } = self;
    }
}

pub(crate) fn classes_of(alloc: Global, by_race: &[Class]) -> Result<Distinct, NoMemory>
    requires { length by_race.now ≤ most_races }
    ensures classes { IfOk result (λ v. v.set.keys ≡ each_once by_race.now) }
    ensures firsts { IfOk result (λ v. v.firsts.items ≡ spec.first_races by_race.now) }
{
    let mut set = IndexSet::new(alloc);
    let mut firsts = Vec::new(alloc);
    for (race, class) in by_race.iter().enumerate() {
        take_in(&mut set, &mut firsts, *class, race as u32)?;
    }
    Ok(Distinct { set, firsts })
}

/// A new class goes last.
fn take_in(
    set: &mut IndexSet<Class>,
    firsts: &mut Vec<u32>,
    class: Class,
    race: u32,
) -> Result<(), NoMemory>
    ensures classes { OnOk result (set.new.keys ≡ spec.with_new class set.old.keys) }
    ensures firsts { OnOk result (Adds set.old.keys class race firsts.old.items firsts.new.items) }
{
    let Ok((_, is_new)) = set.insert_full(class) else {
        return Err(NoMemory);
    };
    if is_new {
        let Ok(()) = firsts.push(race) else {
            return Err(NoMemory);
        };
    }
    Ok(())
}

/// These classes, each once.
pub(crate) fn set_of(alloc: Global, classes: &[Class]) -> Result<IndexSet<Class>, NoMemory>
    ensures { IfOk result (λ set. set.keys ≡ each_once classes.now) }
{
    let mut set = IndexSet::new(alloc);
    for class in classes {
        let Ok(_) = set.insert_full(*class) else {
            return Err(NoMemory);
        };
    }
    Ok(set)
}

/// For each of these classes the value under its number.
pub(crate) fn look_up(
    alloc: Global,
    set: &IndexSet<Class>,
    values: &[u32],
    asked: &[Class],
) -> Result<Vec<u32>, NoMemory>
    requires long { length set.now.keys ≤ length values.now }
    requires there { All (λ x. IsTrue (is_among x set.now.keys)) asked.now }
    ensures { IfOk result (λ v. v.items ≡ map (spec.value_of set.now.keys values.now) asked.now) }
{
    let mut found = Vec::new(alloc);
    for class in asked {
        let Ok(()) = found.push(value_of(set, values, class)) else {
            return Err(NoMemory);
        };
    }
    Ok(found)
}

fn value_of(set: &IndexSet<Class>, values: &[u32], class: &Class) -> u32
    requires long { length set.now.keys ≤ length values.now }
    requires there { IsTrue (is_among class.now set.now.keys) }
    ensures { result ≡ spec.value_of set.now.keys values.now class.now }
{
    match set.get_index_of(class) {
        Some(number) => values[number],
        None => unreachable!(),
    }
}
