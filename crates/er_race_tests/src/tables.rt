//! What a table keeps.

use crate::filling::{Filling, variable};
use er_access::AddFault;
use er_io::NoMemory;
use er_trace::name::Name;
use er_trace::record::{Loc, Mode};

#[test]
fn repeats(rt: HostRuntime) -> Result<(), NoMemory> {
    let alloc = rt.alloc();
    let x = variable(alloc, 0)?;
    let mut filling = Filling::new(alloc);
    assert!(rt; filling.add(2, Mode::R, &x) == Ok(true));
    assert!(rt; filling.add(2, Mode::R, &x) == Ok(false));
    assert!(rt; filling.add(2, Mode::W, &x) == Ok(true));
    assert!(rt; filling.add(3, Mode::W, &x) == Ok(true));
    assert!(rt; filling.table.len() == 3);
    assert!(rt; filling.table.pairs() == 2);
    assert!(rt; filling.table.locations() == 1);
    assert!(rt; filling.table.rows(0) == [0, 1, 2].as_slice());
    Ok(())
}

#[test]
fn kinds_of_locations(rt: HostRuntime) -> Result<(), NoMemory> {
    let alloc = rt.alloc();
    let locations = [
        Loc::Var(0, Name::new(alloc, &[120])?),
        Loc::Elem(0, Name::new(alloc, &[120])?),
        Loc::Slot(0, Name::new(alloc, &[120])?),
    ];
    let mut filling = Filling::new(alloc);
    for loc in &locations {
        assert!(rt; filling.add(0, Mode::W, loc) == Ok(true));
    }
    assert!(rt; filling.table.locations() == 3);
    assert!(rt; filling.table.pairs() == 0);
    Ok(())
}

#[test]
fn full(rt: HostRuntime) -> Result<(), NoMemory> {
    let alloc = rt.alloc();
    let mut filling = Filling::new(alloc);
    for object in 0..1_048_576 {
        let loc = variable(alloc, object)?;
        assert!(rt; filling.add(0, Mode::R, &loc) == Ok(true));
    }
    let old = variable(alloc, 77)?;
    let new = variable(alloc, 1_048_576)?;
    assert!(rt; filling.add(0, Mode::R, &old) == Ok(false));
    assert!(rt; filling.add(0, Mode::W, &old) == Err(AddFault::Full));
    assert!(rt; filling.add(0, Mode::R, &new) == Err(AddFault::Full));
    assert!(rt; filling.table.len() == 1_048_576);
    Ok(())
}
