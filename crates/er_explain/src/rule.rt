//! The rule that makes an edge.

ghost use Rattle.std.specs.Prelude.{◌≡◌, List};
ghost use Rattle.er_history.specs.Rules.{rules};
ghost use Rattle.er_graph.specs.Accepted.{Accepted, records};
ghost use Rattle.er_graph.specs.Graph.{HasBegun, IsGraph};
ghost use Rattle.er_pieces.specs.steps.Steps as steps;

use er_graph::Graph;
use er_reasons::reason;

/// The least number of a rule of the graph's version that makes an edge from action i to action j.
/// It takes no memory.
pub fn rule_of(graph: &Graph, i: u32, j: u32) -> Option<u32>
    requires first { ∥ HasBegun graph.now i ∥₁ }
    requires second { ∥ HasBegun graph.now j ∥₁ }
    ensures { (accepted : List Accepted) → IsGraph graph.now accepted
        → result ≡ steps.rule_of (rules graph.now.version) (records accepted) i j }
{
    reason(graph.page(), graph.clocks(), graph.version(), i, j)
}
