//! Why races were not grouped.

ghost use Rattle.std.specs.Prelude.{◌≡◌};

use er_io::NoMemory;
use thiserror::Error;

/// Why races were not grouped.
#[derive(Clone, Copy, Debug, PartialEq, Eq, Error)]
pub enum CoverFault {
    #[error("too many classes")]
    TooManyClasses,
    #[error("out of memory")]
    NoMemory,
}

impl From<NoMemory> for CoverFault {
    ghost use Rattle.er_cover.specs.declared.fault.CoverFault.TheVariants as faults;

    ghost from_gives = { λ _ fault. fault ≡ faults.NoMemory };

    fn from(_: NoMemory) -> CoverFault {
        CoverFault::NoMemory
    }
}
