//! Threads may share clocks, and take meters with them. A lister may ask any paths.

use er_clocks::{Clocks, Meter, Paths};
use std::test::Fail;

fn is_shared<T: Sync>(_: &T) {}

fn is_sent<T: Send>(_: &T) {}

/// Whether the first action joins itself, where there is one.
fn first_joins_itself<P: Paths>(paths: &P) -> bool {
    let mut meter = Meter::new();
    paths.len() > 0 && paths.before(0, 0, &mut meter)
}

#[test]
fn shared(rt: HostRuntime) -> Result<(), Fail> {
    let clocks = Clocks::new(rt.alloc());
    is_shared(&clocks);
    is_sent(&clocks);
    is_sent(&Meter::new());
    assert!(rt; !first_joins_itself(&clocks), "no action yet");
    Ok(())
}
