//! Tables of lists of numbers.

ghost use Rattle.std.specs.Prelude.{◌≡◌, ℕ, IsSome, OnOk};
ghost use Rattle.indexmap.specs.IndexMap.{get};
ghost use Rattle.er_latest.specs.Tables.{items_of, HasRoom, HasRoomFor, put_first};

use er_history::firsts::Now;
use er_io::NoMemory;
use indexmap::IndexMap;
use std::alloc::Global;
use std::hash::Hash;

/// The numbers that were put under a key.
pub(crate) fn of<K: Eq + Hash + Copy + Drop>(lists: &IndexMap<K, Vec<u32>>, key: K) -> &[u32]
    ensures { result.now ≡ items_of (get K.eq lists.now key) }
{
    match lists.get(&key) {
        Some(list) => list.as_slice(),
        None => &[],
    }
}

/// Makes room for one number more under a key, if there is one.
pub(crate) fn make_room<K: Eq + Hash + Copy + Drop>(
    lists: &mut IndexMap<K, Vec<u32>>,
    key: Option<K>,
    alloc: Global,
) -> Result<(), NoMemory>
    ensures kept { (k : K) → items_of (get K.eq lists.new k) ≡ items_of (get K.eq lists.old k) }
    ensures room { OnOk result (HasRoomFor K.eq lists.new key) }
{
    let Some(key) = key else {
        return Ok(());
    };
    make_list(lists, key, alloc)?;
    make_place(lists, key)
}

/// Puts an event at the end of the list of a key, if there is one, where the action is the event's
/// first piece.
pub(crate) fn put<K: Eq + Hash + Copy + Drop>(
    lists: &mut IndexMap<K, Vec<u32>>,
    key: Option<K>,
    now: Now,
)
    requires room { HasRoomFor K.eq lists.old key }
    ensures { (k : K)
        → items_of (get K.eq lists.new k)
        ≡ put_first K.eq key now k (items_of (get K.eq lists.old k)) }
{
    if now.action != now.event {
        return;
    }
    let Some(key) = key else {
        return;
    };
    let Some(list) = lists.get_mut(&key) else {
        unreachable!()
    };
    let Ok(()) = list.push(now.event) else {
        unreachable!()
    };
}

/// Gives the key a list, if it has none.
fn make_list<K: Eq + Hash + Copy + Drop>(
    lists: &mut IndexMap<K, Vec<u32>>,
    key: K,
    alloc: Global,
) -> Result<(), NoMemory>
    ensures kept { (k : K) → items_of (get K.eq lists.new k) ≡ items_of (get K.eq lists.old k) }
    ensures there { OnOk result (IsSome (get K.eq lists.new key)) }
{
    if lists.contains_key(&key) {
        return Ok(());
    }
    lists.insert(key, Vec::new(alloc))?;
    Ok(())
}

/// Makes room in the list of the key.
fn make_place<K: Eq + Hash + Copy + Drop>(
    lists: &mut IndexMap<K, Vec<u32>>,
    key: K,
) -> Result<(), NoMemory>
    requires there { IsSome (get K.eq lists.old key) }
    ensures kept { (k : K) → items_of (get K.eq lists.new k) ≡ items_of (get K.eq lists.old k) }
    ensures room { OnOk result (HasRoom (get K.eq lists.new key)) }
{
    let Some(list) = lists.get_mut(&key) else {
        unreachable!()
    };
    list.reserve(1)?;
    Ok(())
}
