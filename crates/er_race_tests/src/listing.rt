//! What a lister lists.

use crate::filling::{Filling, clocks_of, variable};
use er_io::NoMemory;
use er_races::{ListFault, Race};
use er_trace::record::Mode;

#[test]
fn in_the_order_of_lines(rt: HostRuntime) -> Result<(), NoMemory> {
    let alloc = rt.alloc();
    let a = variable(alloc, 1)?;
    let b = variable(alloc, 2)?;
    let mut filling = Filling::new(alloc);
    assert!(rt; filling.add(0, Mode::W, &b) == Ok(true));
    assert!(rt; filling.add(0, Mode::W, &a) == Ok(true));
    assert!(rt; filling.add(1, Mode::R, &a) == Ok(true));
    assert!(rt; filling.add(1, Mode::W, &b) == Ok(true));
    let clocks = clocks_of(alloc, 2, 0)?;
    let Ok((races, compares)) = filling.races(alloc, &clocks) else {
        return Err(NoMemory);
    };
    assert!(rt; compares == 2);
    let due = [
        Race {
            first: 0,
            second: 3,
        },
        Race {
            first: 1,
            second: 2,
        },
    ];
    assert!(rt; races.as_slice() == due.as_slice());
    Ok(())
}

#[test]
fn as_many_pairs_as_may_be(rt: HostRuntime) -> Result<(), NoMemory> {
    let alloc = rt.alloc();
    let x = variable(alloc, 0)?;
    let mut filling = Filling::new(alloc);
    for action in 0..5_793 {
        assert!(rt; filling.add(action, Mode::W, &x) == Ok(true));
    }
    let clocks = clocks_of(alloc, 5_793, 5_793)?;
    let Ok((races, compares)) = filling.races(alloc, &clocks) else {
        return Err(NoMemory);
    };
    assert!(rt; races.is_empty());
    assert!(rt; compares == 16_776_528);
    Ok(())
}

#[test]
fn too_many_races(rt: HostRuntime) -> Result<(), NoMemory> {
    let alloc = rt.alloc();
    let x = variable(alloc, 0)?;
    let mut filling = Filling::new(alloc);
    for action in 0..725 {
        assert!(rt; filling.add(action, Mode::W, &x) == Ok(true));
    }
    let clocks = clocks_of(alloc, 725, 0)?;
    assert!(rt; filling.races(alloc, &clocks) == Err(ListFault::TooManyRaces));
    Ok(())
}
