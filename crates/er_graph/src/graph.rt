//! The graph of the records that were accepted.

ghost use Rattle.er_graph.specs.Accepted.{IsSomeGraph};

use er_clocks::Clocks;
use er_page::page::Page;
use er_trace::version::Version;

/// The version of the rules, what the accepted records say, the lines that were handed in with
/// them, and the clocks of their actions.
pub struct Graph {
    pub(crate) version: Version,
    pub(crate) page: Page,
    pub(crate) clocks: Clocks,
    /// The lines of the records that began the actions.
    pub(crate) lines: Vec<u32>,
    /// Whether memory ran out: then no record is accepted any more.
    pub(crate) has_failed: bool,
    ghost stands: { ∥ IsSomeGraph version page clocks lines.items has_failed ∥₁ },
}

impl Drop for Graph {
    fn drop(self) {
        let Graph {
            version: _,
            page: _,
            clocks: _,
            lines: _,
            has_failed: _,
        } = self;
    }
}
