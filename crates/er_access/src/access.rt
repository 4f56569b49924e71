//! A kept access.

ghost use Rattle.std.specs.Prelude.{◌≡◌};
ghost use Rattle.er_access.specs.ByNumber.{is_candidate_by_number};
ghost use Rattle.er_access.specs.Kept as spec;

use er_trace::record::Mode;

/// An access, with its line, the action that runs there, and the number of its location.
#[derive(Clone, Copy, Debug, PartialEq, Eq)]
pub struct Access {
    pub line: u32,
    pub action: u32,
    pub mode: Mode,
    pub location: u32,
}

/// Whether the two accesses can race: one location, different actions, at least one write.
pub fn is_candidate(a: Access, b: Access) -> bool
    ensures { result ≡ is_candidate_by_number a b }
{
    a.location == b.location && a.action != b.action && (is_write(a.mode) || is_write(b.mode))
}

/// Whether it writes.
pub fn is_write(mode: Mode) -> bool
    ensures { result ≡ spec.is_write mode }
{
    match mode {
        Mode::R => false,
        Mode::W => true,
    }
}
