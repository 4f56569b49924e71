//! What a lister may ask.

ghost use Rattle.std.specs.Prelude.{◌≡◌, ◌+◌, ◌<◌, ◌≤◌, ◌^◌, ℕ, Bool, All, length};
ghost use Rattle.er_clocks.specs.Asked.{first_apart, asked};

use crate::Meter;

/// Actions, some of which join others.
pub trait Paths {
    /// The number of actions.
    ghost actions: { Self → ℕ };
    /// Whether the first action joins the second.
    ghost joins: { Self → ℕ → ℕ → Bool };

    fn len(&self) -> u32
        ensures { result ≡ actions self.now };

    /// Whether i joins j. Each call counts one comparison.
    fn before(&self, i: u32, j: u32, meter: &mut Meter) -> bool
        requires first { i < actions self.now }
        requires second { j < actions self.now }
        requires room { meter.old + 1 < 2 ^ 62 }
        ensures answer { result ≡ joins self.now i j }
        ensures once { meter.new ≡ meter.old + 1 };

    /// The place of the first of these that does not join j, or their number.
    ///
    /// Each of them up to that one counts one comparison.
    fn first_apart(&self, firsts: &[u32], j: u32, meter: &mut Meter) -> usize
        requires firsts { All (λ i. i < actions self.now) firsts.now }
        requires second { j < actions self.now }
        requires room { meter.old + length firsts.now < 2 ^ 62 }
        ensures answer { result ≡ first_apart (joins self.now) firsts.now j }
        ensures within { result ≤ length firsts.now }
        ensures once { meter.new ≡ meter.old + asked firsts.now result }
    {
        for (n, i) in firsts.iter().enumerate() {
            if !self.before(*i, j, meter) {
                return n;
            }
        }
        firsts.len()
    }
}
