//! Why races were not listed.

ghost use Rattle.std.specs.Prelude.{◌≡◌};

use er_io::NoMemory;
use thiserror::Error;

/// Why races were not listed.
#[derive(Clone, Copy, Debug, PartialEq, Eq, Error)]
pub enum ListFault {
    #[error("too many races")]
    TooManyRaces,
    #[error("out of memory")]
    NoMemory,
}

impl From<NoMemory> for ListFault {
    ghost use Rattle.er_races.specs.declared.fault.ListFault.TheVariants as faults;

    ghost from_gives = { λ _ fault. fault ≡ faults.NoMemory };

    fn from(_: NoMemory) -> ListFault {
        ListFault::NoMemory
    }
}
