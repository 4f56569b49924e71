//! Why an access was not added.

ghost use Rattle.std.specs.Prelude.{◌≡◌};

use er_io::NoMemory;
use thiserror::Error;

/// Why an access was not added.
#[derive(Clone, Copy, Debug, PartialEq, Eq, Error)]
pub enum AddFault {
    #[error("too many accesses")]
    Full,
    #[error("out of memory")]
    NoMemory,
}

impl From<NoMemory> for AddFault {
    ghost use Rattle.er_access.specs.declared.fault.AddFault.TheVariants as faults;

    ghost from_gives = { λ _ fault. fault ≡ faults.NoMemory };

    fn from(_: NoMemory) -> AddFault {
        AddFault::NoMemory
    }
}
