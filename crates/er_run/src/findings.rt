//! What was found of a trace, for the command.

use crate::session::Session;
use er_cover::Groups;
use er_explain::Steps;
use er_races::Race;
use er_schedule::Schedules;

/// The races of a trace, and their groups.
pub(crate) struct Listing {
    pub(crate) races: Vec<Race>,
    pub(crate) groups: Groups,
}

impl Drop for Listing {
    fn drop(self) {
        let Listing {
            races: _,
            groups: _,
        } = self;
    }
}

/// What was found, for the text that is due.
pub(crate) enum Found {
    /// For a line of JSON.
    Line(Listing),
    /// For a report.
    Report(Listing),
    /// For the summary of the generated trace of this number.
    Summary {
        number: u32,
        listing: Listing,
    },
    /// Two orders for the race of this number, from 1.
    Orders {
        race: u32,
        races: Vec<Race>,
        orders: Schedules,
    },
    /// The steps from one action to another.
    Steps {
        from: u32,
        to: u32,
        steps: Option<Steps>,
    },
}

fn let_go(_: Listing) {}

impl Drop for Found {
    fn drop(self) {
        match self {
            Found::Line(listing) => let_go(listing),
            Found::Report(listing) => let_go(listing),
            Found::Summary { number: _, listing } => let_go(listing),
            Found::Orders {
                race: _,
                races: _,
                orders: _,
            } => {}
            Found::Steps {
                from: _,
                to: _,
                steps: _,
            } => {}
        }
    }
}

/// What the records of a trace come to, and what was found.
pub(crate) struct Judged {
    pub(crate) session: Session,
    pub(crate) found: Found,
}

impl Drop for Judged {
    fn drop(self) {
        let Judged {
            session: _,
            found: _,
        } = self;
    }
}
