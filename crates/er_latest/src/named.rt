//! Tables of the number that was put last under each name and number.

ghost use Rattle.std.specs.Prelude.{◌≡◌, ℕ, ◌<◌, List, IsSome, IsSomeAnd, OnOk, nat_eq};
ghost use Rattle.std.specs.Cmp.Lexicographic.{pointwise};
ghost use Rattle.indexmap.specs.IndexMap.{get, spare};
ghost use Rattle.er_latest.specs.Roles.{named};
ghost use Rattle.er_latest.specs.Tables.{by_name, HasPlaceNamed, put_named};

use er_io::NoMemory;
use er_trace::name::Name;
use indexmap::IndexMap;
use std::alloc::Global;

/// What was put last under a name and a number.
pub(crate) fn of(
    tables: &IndexMap<Name, IndexMap<u32, u32>>,
    name: &Name,
    number: u32,
) -> Option<u32>
    ensures { result ≡ by_name tables.now name.now number }
{
    let table = tables.get(name)?;
    table.get(&number).copied()
}

/// Makes room for one number more under a name, if there is one.
pub(crate) fn make_room(
    tables: &mut IndexMap<Name, IndexMap<u32, u32>>,
    pair: Option<(u32, &Name)>,
    alloc: Global,
) -> Result<(), NoMemory>
    ensures kept { (n : List ℕ) (k : ℕ) → by_name tables.new n k ≡ by_name tables.old n k }
    ensures room { OnOk result (HasPlaceNamed tables.new (named pair.entry)) }
{
    let Some((_, name)) = pair else {
        return Ok(());
    };
    make_table(tables, name, alloc)?;
    make_place(tables, name)
}

/// Puts a value under a name and a number, if there are such.
pub(crate) fn put(
    tables: &mut IndexMap<Name, IndexMap<u32, u32>>,
    pair: Option<(u32, &Name)>,
    value: u32,
)
    requires room { HasPlaceNamed tables.old (named pair) }
    ensures { (n : List ℕ) (k : ℕ)
        → by_name tables.new n k ≡ put_named (named pair.entry) value n k (by_name tables.old n k) }
{
    let Some((number, name)) = pair else {
        return;
    };
    let Some(table) = tables.get_mut(name) else {
        unreachable!()
    };
    let Ok(_) = table.insert(number, value) else {
        unreachable!()
    };
}

/// Gives the name a table, if it has none.
fn make_table(
    tables: &mut IndexMap<Name, IndexMap<u32, u32>>,
    name: &Name,
    alloc: Global,
) -> Result<(), NoMemory>
    ensures kept { (n : List ℕ) (k : ℕ) → by_name tables.new n k ≡ by_name tables.old n k }
    ensures there { OnOk result (IsSome (get (pointwise nat_eq) tables.new name.now)) }
{
    if tables.contains_key(name) {
        return Ok(());
    }
    tables.insert(name.copy()?, IndexMap::new(alloc))?;
    Ok(())
}

/// Makes room in the table of the name.
fn make_place(tables: &mut IndexMap<Name, IndexMap<u32, u32>>, name: &Name) -> Result<(), NoMemory>
    requires there { IsSome (get (pointwise nat_eq) tables.old name.now) }
    ensures kept { (n : List ℕ) (k : ℕ) → by_name tables.new n k ≡ by_name tables.old n k }
    ensures room { OnOk result
        (IsSomeAnd (get (pointwise nat_eq) tables.new name.now) (λ table. 0 < spare table)) }
{
    let Some(table) = tables.get_mut(name) else {
        unreachable!()
    };
    table.reserve(1)?;
    Ok(())
}
