//! Lines of text, as er_trace spells them.

ghost use Rattle.std.specs.Prelude.{◌≡◌, Err, IfOk, IfSome};
ghost use Rattle.std.proofs.Common.{refl, lit<};
ghost use Rattle.er_trace.specs.declared.record.Record.{Record};
ghost use Rattle.er_trace.specs.Trace.{header, end_word, most_line_bytes};
ghost use Rattle.er_lines.specs.Format.{IsVersionOf};
ghost use Rattle.er_lines.specs.Steps.{IsLater, IsFront};
ghost use Rattle.er_lines.specs.Text.{text, IsSpelled, text_is_format};

use crate::feed::LineFeed;
use crate::format::{Later, Lines};
use er_io::NoMemory;
use er_syntax::parse::parse_record;
use er_syntax::plain::plain_line;
use er_syntax::version::version_of;
use er_trace::fault::LineFault;
use er_trace::record::Record;
use er_trace::trace::MOST_LINE_BYTES;
use er_trace::version::Version;
use std::alloc::Global;

const END: &str = "end";

/// Lines of text.
pub struct TextLines;

/// Reads a trace of lines of text that comes in chunks of any length.
pub type Feed = LineFeed<TextLines>;

impl Lines for TextLines {
    ghost format = { text };

    const MOST: usize = MOST_LINE_BYTES;

    ghost MOST = { most_line_bytes };

    fn read_header(_alloc: Global, line: &[u8]) -> Result<Option<Version>, NoMemory>
        ensures { IfOk result (IsVersionOf (λ v l. l ≡ header v) line.now) }
    {
        Ok(version_of(line))
    }

    fn read_later(alloc: Global, version: Version, line: &[u8]) -> Result<Later, LineFault>
        ensures read { IfOk result (IsLater (λ l. l ≡ end_word) (IsSpelled version) line.now) }
        ensures bad { result ≡ Err LineFault.BadRecord
            → ¬ (line.now ≡ end_word) × ((x : Record) → ¬ IsSpelled version line.now x) }
    {
        if line == END.as_bytes() {
            return Ok(Later::End);
        }
        match parse_record(alloc, version, line) {
            Ok(found) => Ok(Later::One(found)),
            Err(fault) => Err(fault),
        }
    }

    fn front<'a>(alloc: Global, version: Version, chunk: &'a [u8]) -> Option<(Record, &'a [u8])>
        ensures { IfSome result (λ pair. IsFront most_line_bytes (IsSpelled version) chunk.now
            pair.0 pair.1.now) }
    {
        plain_line(alloc, chunk)
    }

    ghost most = { refl };

    ghost small = { lit< tt };

    ghost is_format = { text_is_format };
}
