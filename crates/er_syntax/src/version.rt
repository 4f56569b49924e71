//! The first line of a trace, which gives its version.

ghost use Rattle.std.specs.Prelude.{◌≡◌, IfSome, IfNone};
ghost use Rattle.er_trace.specs.Trace.{header, IsNoHeader};

use crate::head::is_word;
use er_trace::version::Version;

/// The version that this first line gives.
pub fn version_of(line: &[u8]) -> Option<Version>
    ensures some { IfSome result (λ version. line.now ≡ header version) }
    ensures none { IfNone result (IsNoHeader line.now) }
{
    if is_word(line, "webtrace 1") {
        return Some(Version::One);
    }
    if is_word(line, "webtrace 2") {
        return Some(Version::Two);
    }
    if is_word(line, "webtrace 3") {
        return Some(Version::Three);
    }
    None
}
