//! Small lists of predecessors, by running.

use er_clocks::{Clocks, Meter, Paths};
use std::test::Fail;

/// Whether one action more was added, and its number answered. The numbers are to be those of
/// earlier actions.
fn add(clocks: &mut Clocks, preds: &[u32]) -> bool {
    let count = clocks.len();
    count < 32768 && preds.iter().all(|k| *k < count) && clocks.push(preds) == Ok(count)
}

fn is_handed_twice_right(clocks: &mut Clocks) -> bool {
    if !(add(clocks, &[]) && add(clocks, &[0]) && add(clocks, &[0, 1]) && add(clocks, &[1, 0, 1])) {
        return false;
    }
    clocks.len() == 4
        && clocks.links_of(2) == [1].as_slice()
        && clocks.links_of(3) == [1].as_slice()
        && clocks.link_count() == 3
        && clocks.chain_count() == 2
        && clocks.chain_of(2) == 0
        && clocks.place_of(2) == 2
        && clocks.chain_of(3) == 1
        && clocks.entry(3, 0) == 2
        && clocks.entry(3, 1) == 1
}

/// Two layers of two, each of the second after each of the first, and an action after both: the
/// second of a layer has the links of the first.
fn is_layered_right(clocks: &mut Clocks) -> bool {
    if !(add(clocks, &[]) && add(clocks, &[]) && add(clocks, &[0, 1]) && add(clocks, &[1, 0])) {
        return false;
    }
    add(clocks, &[3, 2, 1])
        && clocks.len() == 5
        && clocks.links_of(4) == [2, 3].as_slice()
        && clocks.entry(4, 0) == 3
        && clocks.entry(4, 1) == 2
        && clocks.link_count() == 6
}

/// The number of comparisons, where an action before two that are apart and one after both are
/// compared rightly.
fn compared(clocks: &mut Clocks, meter: &mut Meter) -> bool {
    if !(add(clocks, &[]) && add(clocks, &[0]) && add(clocks, &[0]) && add(clocks, &[2, 0, 1])) {
        return false;
    }
    if clocks.len() != 4 || meter.made() != 0 {
        return false;
    }
    let over = clocks.before(0, 3, meter);
    let apart = clocks.before(1, 2, meter);
    let itself = clocks.before(3, 3, meter);
    let back = clocks.before(3, 0, meter);
    over && !apart && itself && !back
}

#[test]
fn handed_twice(rt: HostRuntime) -> Result<(), Fail> {
    let mut clocks = Clocks::new(rt.alloc());
    let is_right = is_handed_twice_right(&mut clocks);
    assert!(rt; is_right, "numbers handed twice are one link");
    Ok(())
}

#[test]
fn layers(rt: HostRuntime) -> Result<(), Fail> {
    let mut clocks = Clocks::new(rt.alloc());
    let is_right = is_layered_right(&mut clocks);
    assert!(rt; is_right, "the links of one layer are joined");
    Ok(())
}

#[test]
fn comparisons(rt: HostRuntime) -> Result<(), Fail> {
    let mut clocks = Clocks::new(rt.alloc());
    let mut meter = Meter::new();
    let is_right = compared(&mut clocks, &mut meter);
    let mut sum = Meter::new();
    let made = meter.made();
    if made < 5 {
        sum.absorb(meter);
    }
    assert!(rt;
        is_right,
        "over either side, and not between the sides or back"
    );
    assert_eq!(rt; sum.made(), 4);
    Ok(())
}
