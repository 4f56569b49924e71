//! Values by number, put in a bad order: what stands in a hash table is found also once the vector
//! has grown over its number.

use er_io::NoMemory;
use er_numbers::Numbers;
use std::test::Fail;

/// A number that is put before the small ones, and is small once they are there.
const EARLY: u32 = 200;

/// What is found in the end.
static FOUND: [(u32, Option<u32>); 7] = [
    (0, Some(10)),
    (149, Some(159)),
    (150, None),
    (EARLY, Some(2)),
    (298, Some(3)),
    (299, None),
    (4_294_967_295, Some(1)),
];

fn put(numbers: &mut Numbers<u32>, number: u32, value: u32) -> Result<(), NoMemory> {
    numbers.make_room(number)?;
    numbers.put(number, value);
    Ok(())
}

fn fill(numbers: &mut Numbers<u32>) -> Result<(), NoMemory> {
    put(numbers, 4_294_967_295, 1)?;
    put(numbers, EARLY, 2)?;
    for number in 0..150 {
        put(numbers, number, number + 10)?;
    }
    put(numbers, 298, 3)
}

/// Whether each number has what is due.
fn is_found(numbers: &Numbers<u32>) -> bool {
    for (number, due) in FOUND {
        if numbers.find(number) != due || numbers.has(number) != due.is_some() {
            return false;
        }
    }
    true
}

#[test]
fn any_order(rt: HostRuntime) -> Result<(), Fail> {
    let mut numbers = Numbers::new(rt.alloc());
    let filled = fill(&mut numbers);
    let found = is_found(&numbers);
    let again = put(&mut numbers, EARLY, 4);
    let newest = numbers.find(EARLY);
    filled.and(again)?;
    assert!(rt; found);
    assert!(rt; newest == Some(4));
    Ok(())
}
