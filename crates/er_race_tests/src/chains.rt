//! The lengths of chains.

use er_clocks::Chains;
use std::test::Fail;

#[test]
fn appended(rt: HostRuntime) -> Result<(), Fail> {
    let mut chains = Chains::new(rt.alloc());
    assert_eq!(rt; chains.count(), 0);
    chains.append(0)?;
    assert_eq!(rt; chains.count(), 1);
    assert_eq!(rt; chains.length(0), 1);
    Ok(())
}
