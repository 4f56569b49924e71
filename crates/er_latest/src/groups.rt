//! Lists of the groups of dispatches that have run, each group once, in order.

ghost use Rattle.std.specs.Prelude.{◌≡◌, ◌≢◌, ℕ, ◌≤◌, ◌<◌, ◌-◌, Bool, true, false, nat_lt, nat_eq, if◌then◌else◌, Some, None, length, slice_index, vec_len, vec_capacity};
ghost use Rattle.indexmap.specs.IndexMap.{get};
ghost use Rattle.er_history.specs.Latest.{greater};
ghost use Rattle.er_latest.specs.Tables.{items_of, greatest_in, just_before, IsRising, IsPlaceOf, HasRoomFor, first_of, group_put};

use indexmap::IndexMap;

/// The greatest of the groups.
#[tactic(auto, using(crate::proofs::GroupsLemmas::greatest_last))]
pub(crate) fn greatest(groups: &[u32]) -> Option<u32>
    ensures { IsRising groups.now → result ≡ greatest_in (λ k. true) groups.now }
{
    before(groups, groups.len())
}

/// The greatest of the groups that are less than this one.
#[tactic(auto, using(crate::proofs::GroupsLemmas::greatest_below))]
pub(crate) fn below(groups: &[u32], group: u32) -> Option<u32>
    ensures { IsRising groups.now → result ≡ greatest_in (λ k. nat_lt k group) groups.now }
{
    before(groups, place_of(groups, group))
}

/// What stands just before a place.
fn before(groups: &[u32], place: usize) -> Option<u32>
    requires { place ≤ length groups.now }
    ensures { result ≡ just_before place groups.now }
{
    if place == 0 {
        return None;
    }
    Some(groups[place - 1])
}

/// Puts a group among those of its dispatch, if there is one.
pub(crate) fn put(lists: &mut IndexMap<u32, Vec<u32>>, handler: Option<(u32, u32)>)
    requires room { HasRoomFor nat_eq lists.old (first_of handler) }
    ensures greatest { (p : ℕ) (test : ℕ → Bool)
        → greatest_in test (items_of (get nat_eq lists.new p))
        ≡ greater (group_put handler p test)
        (greatest_in test (items_of (get nat_eq lists.old p))) }
    ensures ordered { (p : ℕ) → IsRising (items_of (get nat_eq lists.old p))
        → IsRising (items_of (get nat_eq lists.new p)) }
{
    let Some((dispatch, group)) = handler else {
        return;
    };
    let Some(groups) = lists.get_mut(&dispatch) else {
        unreachable!()
    };
    put_in(groups, group);
}

/// Puts a group among others.
#[tactic(auto, using(crate::proofs::GroupsLemmas::inserted))]
fn put_in(groups: &mut Vec<u32>, group: u32)
    requires room { vec_len groups.old < vec_capacity groups.old }
    ensures greatest { (test : ℕ → Bool)
        → greatest_in test groups.new.items
        ≡ greater (if test group then Some group else None) (greatest_in test groups.old.items) }
    ensures ordered { IsRising groups.old.items → IsRising groups.new.items }
{
    let place = place_of(groups.as_slice(), group);
    if stands_at(groups.as_slice(), place, group) {
        return;
    }
    let Ok(()) = groups.insert(place, group) else {
        unreachable!()
    };
}

/// Whether the group stands at the place.
fn stands_at(groups: &[u32], place: usize, group: u32) -> bool
    ensures there { result ≡ true
        → (place < length groups.now) × (slice_index groups.now place ≡ group) }
    ensures other { result ≡ false → place < length groups.now
        → slice_index groups.now place ≢ group }
{
    place < groups.len() && groups[place] == group
}

/// How many of the groups are less than this one. It is asked from the end, where the group of a
/// handler that runs mostly is.
fn place_of(groups: &[u32], group: u32) -> usize
    ensures { IsPlaceOf group groups.now result }
{
    let mut place = groups.len();
    while place > 0 && groups[place - 1] >= group {
        place -= 1;
    }
    place
}
