//! The link that a step takes.

ghost use Rattle.std.specs.Prelude.{◌≡◌, ◌<◌, IfSome, length};
ghost use Rattle.er_paths.specs.Paths.{joins};
ghost use Rattle.er_clocks.specs.Clock.{Tells};
ghost use Rattle.er_pieces.specs.steps.Steps.{least_source};
ghost use Rattle.er_explain.specs.Steps.{AreSome};

use er_clocks::Clocks;

/// Of the links into an action, the least source to which a path leads. It costs a comparison of
/// two numbers for each link.
pub(crate) fn source_of(clocks: &Clocks, from: u32, at: u32) -> Option<u32>
    requires begun { at < length clocks.now }
    requires some { ∥ AreSome clocks.now ∥₁ }
    ensures found { Tells clocks.now (λ lists. result ≡ least_source lists from at) }
    ensures earlier { IfSome result (λ k. k < at) }
{
    let links = clocks.links_of(at);
    for n in 0..links.len() {
        let source = u32::from(links[n]);
        if clocks.joined(from, source) {
            return Some(source);
        }
    }
    None
}
