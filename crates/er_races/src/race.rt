//! A race.

/// Two kept accesses that race, by their numbers.
#[derive(Clone, Copy, Debug, PartialEq, Eq, PartialOrd, Ord)]
pub struct Race {
    pub first: u32,
    pub second: u32,
}
