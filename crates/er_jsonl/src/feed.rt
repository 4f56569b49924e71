//! Reading a trace of JSON lines that comes in chunks.

ghost use Rattle.std.specs.Prelude.{◌≡◌, Err, IfOk, IfSome};
ghost use Rattle.std.proofs.Common.{refl, lit<};
ghost use Rattle.er_trace.specs.declared.record.Record.{Record};
ghost use Rattle.er_lines.specs.Format.{IsVersionOf};
ghost use Rattle.er_lines.specs.Steps.{IsLater, IsFront};
ghost use Rattle.er_lines.specs.json_line.Members.{Spells, IsHeader, IsEnd};
ghost use Rattle.er_jsonl.specs.Trace.{json, most_line_bytes};
ghost use Rattle.er_jsonl.specs.Lawful.{json_is_format};

use er_io::NoMemory;
use er_lines::feed::LineFeed;
use er_lines::format::{Later, Lines};
use er_lines::json_line::plain_json_line;
use er_trace::fault::LineFault;
use er_trace::record::Record;
use er_trace::version::Version;
use std::alloc::Global;

/// The most bytes of a line, without its LF.
pub const MOST_LINE_BYTES: usize = 4_096;

/// Lines of JSON.
pub struct JsonLines;

/// Reads a trace of JSON lines that comes in chunks of any length.
pub type JsonFeed = LineFeed<JsonLines>;

impl Lines for JsonLines {
    ghost format = { json };

    const MOST: usize = MOST_LINE_BYTES;

    ghost MOST = { most_line_bytes };

    fn read_header(alloc: Global, line: &[u8]) -> Result<Option<Version>, NoMemory>
        ensures { IfOk result (IsVersionOf IsHeader line.now) }
    {
        er_lines::json_line::read_header(alloc, line)
    }

    fn read_later(alloc: Global, _version: Version, line: &[u8]) -> Result<Later, LineFault>
        ensures read { IfOk result (IsLater IsEnd Spells line.now) }
        ensures bad { result ≡ Err LineFault.BadRecord
            → ¬ IsEnd line.now × ((x : Record) → ¬ Spells line.now x) }
    {
        er_lines::json_line::read_later(alloc, line)
    }

    #[tactic(auto, using(crate::proofs::FrontLemmas::front_within))]
    fn front<'a>(alloc: Global, _version: Version, chunk: &'a [u8]) -> Option<(Record, &'a [u8])>
        ensures { IfSome result
            (λ pair. IsFront most_line_bytes Spells chunk.now pair.0 pair.1.now) }
    {
        plain_json_line(alloc, chunk)
    }

    ghost most = { refl };

    ghost small = { lit< tt };

    ghost is_format = { json_is_format };
}
