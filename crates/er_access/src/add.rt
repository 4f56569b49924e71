//! One access more.

ghost use Rattle.std.specs.Prelude.{◌≡◌, ◌+◌, ◌<◌, ◌≤◌, ℕ, true, false, not, All, List, [], ◌∷◌, ◌++◌, length, OnOk, OnErr, IfOk, IfErr, Err, ◌⊎◌};
ghost use Rattle.std.specs.List.{list_any};
ghost use Rattle.er_access.specs.Kept.{same_loc, most_accesses};
ghost use Rattle.er_access.specs.ByNumber.{is_new_by_number, with_numbered, IsFullByNumber, IsSameOrWith};
ghost use Rattle.er_access.specs.Table.{IsHeld, IsTable};

use crate::place::Place;
use crate::{Access, AddFault};
use er_io::NoMemory;
use er_trace::record::Loc;
use indexmap::IndexSet;

/// The most accesses that are kept.
const MOST_ACCESSES: usize = 1_048_576;

/// Adds an access at a location that has a place, unless it repeats an earlier one.
pub(crate) fn add_known(
    places: &mut Vec<Place>,
    accesses: &mut Vec<Access>,
    pairs: &mut u64,
    access: Access,
) -> Result<bool, AddFault>
    requires held { IsHeld places.old.items accesses.old.items pairs.old }
    requires within { access.location < length places.old.items }
    requires action { All (λ x. x.action ≤ access.action) accesses.old.items }
    ensures kept { IfOk result (λ kept. kept ≡ is_new_by_number access accesses.old.items) }
    ensures accesses { OnOk result (accesses.new.items ≡ with_numbered access accesses.old.items) }
    ensures unchanged { OnErr result (accesses.new.items ≡ accesses.old.items) }
    ensures full { result ≡ Err AddFault.Full → IsFullByNumber access accesses.old.items }
    ensures exact { IsFullByNumber access accesses.old.items → result ≡ Err AddFault.Full }
    ensures either { IsSameOrWith access accesses.old.items accesses.new.items }
    ensures count { length places.new.items ≡ length places.old.items }
    ensures held { IsHeld places.new.items accesses.new.items pairs.new }
{
    let k = access.location as usize;
    if places[k].repeats(access.action, access.mode) {
        return Ok(false);
    }
    if accesses.len() == MOST_ACCESSES {
        return Err(AddFault::Full);
    }
    let more = places[k].partners(access.action, access.mode);
    let n = accesses.len() as u32;
    if accesses.reserve(1).is_err() {
        return Err(AddFault::NoMemory);
    }
    places[k].note(n, access.action, access.mode)?;
    let Ok(()) = accesses.push(access) else {
        unreachable!()
    };
    *pairs += more;
    Ok(true)
}

/// Adds an access at a location that has no place.
pub(crate) fn add_new(
    keys: &mut IndexSet<Loc>,
    places: &mut Vec<Place>,
    accesses: &mut Vec<Access>,
    access: Access,
    loc: &Loc,
) -> Result<bool, AddFault>
    requires few { length accesses.old.items ≤ most_accesses }
    requires absent { list_any (same_loc loc.now) keys.old.keys ≡ false }
    requires new { access.location ≡ length places.old.items }
    requires action { All (λ x. x.action ≤ access.action) accesses.old.items }
    ensures kept { IfOk result (λ kept. kept ≡ true) }
    ensures accesses { OnOk result (accesses.new.items ≡ accesses.old.items ++ access ∷ []) }
    ensures locations { OnOk result (keys.new.keys ≡ keys.old.keys ++ loc.now ∷ []) }
    ensures unchanged { OnErr result (accesses.new.items ≡ accesses.old.items) }
    ensures same_locations { OnErr result (keys.new.keys ≡ keys.old.keys) }
    ensures full { result ≡ Err AddFault.Full → length accesses.old.items ≡ most_accesses }
    ensures exact { length accesses.old.items ≡ most_accesses → result ≡ Err AddFault.Full }
    ensures table { (pairs : ℕ) → IsTable keys.old.keys places.old.items accesses.old.items pairs
        → IsTable keys.new.keys places.new.items accesses.new.items pairs }
{
    if accesses.len() == MOST_ACCESSES {
        return Err(AddFault::Full);
    }
    let key = loc.copy()?;
    if keys.reserve(1).is_err() {
        return Err(AddFault::NoMemory);
    }
    put(places, accesses, access)?;
    let Ok(_) = keys.insert(key) else {
        unreachable!()
    };
    Ok(true)
}

/// Puts an access at a new place.
fn put(places: &mut Vec<Place>, accesses: &mut Vec<Access>, access: Access) -> Result<(), NoMemory>
    requires room { length accesses.old.items < most_accesses }
    requires new { access.location ≡ length places.old.items }
    requires action { All (λ x. x.action ≤ access.action) accesses.old.items }
    ensures accesses { OnOk result (accesses.new.items ≡ accesses.old.items ++ access ∷ []) }
    ensures unchanged { OnErr result (accesses.new.items ≡ accesses.old.items) }
    ensures same_places { OnErr result (places.new.items ≡ places.old.items) }
    ensures count { OnOk result (length places.new.items ≡ length places.old.items + 1) }
    ensures held { OnOk result ((pairs : ℕ) → IsHeld places.old.items accesses.old.items pairs
        → IsHeld places.new.items accesses.new.items pairs) }
{
    let alloc = *accesses.allocator();
    let n = accesses.len() as u32;
    let place = Place::of(alloc, n, access.action, access.mode)?;
    if accesses.reserve(1).is_err() {
        return Err(NoMemory);
    }
    let Ok(()) = places.push(place) else {
        return Err(NoMemory);
    };
    let Ok(()) = accesses.push(access) else {
        unreachable!()
    };
    Ok(())
}
