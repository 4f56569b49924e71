//! A name and its copy.

use er_trace::name::Name;

/// Whether the name and a copy have these bytes.
fn has_bytes(name: &Name, bytes: &[u8]) -> bool {
    match name.copy() {
        Ok(copied) => name.bytes() == bytes && copied.bytes() == bytes,
        Err(_) => false,
    }
}

#[test]
fn names(rt: HostRuntime) {
    let named = Name::new(rt.alloc(), b"n").is_ok_and(|name| has_bytes(&name, b"n"));
    assert!(rt; named);
}
