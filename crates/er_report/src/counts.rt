//! The counts of a report.

ghost use Rattle.std.specs.Prelude.{◌≡◌, ◌≤◌, length};
ghost use Rattle.er_paths.specs.Paths.{joins};
ghost use Rattle.er_clocks.specs.Clock.{Tells};
ghost use Rattle.er_races.specs.Races.{races_of, most_races};
ghost use Rattle.er_cover.specs.Groups.{grouping_of};
ghost use Rattle.er_report.specs.Report as spec;

use er_access::Table;
use er_clocks::{Clocks, Paths};
use er_cover::Groups;
use er_races::Race;

/// How many actions, kept accesses, candidate pairs, races, groups, chains and links there are.
#[derive(Clone, Copy, Debug, PartialEq, Eq)]
pub struct Counts {
    pub actions: u64,
    pub accesses: u64,
    pub pairs: u64,
    pub races: u64,
    pub groups: u64,
    pub chains: u64,
    pub links: u64,
}

/// Counts what is reported. What has groups has no more races than are listed.
pub fn count_all(table: &Table, clocks: &Clocks, races: &[Race], groups: &Groups) -> Counts
    requires races { races.now ≡ races_of (joins clocks.now) table.now }
    requires groups { groups.now ≡ grouping_of (joins clocks.now) table.now }
    ensures counts { Tells clocks.now (λ lists. result ≡ spec.counts lists table.now) }
    ensures few { length races.now ≤ most_races }
{
    Counts {
        actions: clocks.len() as u64,
        accesses: table.len() as u64,
        pairs: table.pairs(),
        races: races.len() as u64,
        groups: groups.count() as u64,
        chains: clocks.chain_count() as u64,
        links: clocks.link_count(),
    }
}
