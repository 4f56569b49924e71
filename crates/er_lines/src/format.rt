//! How the lines of a format are read.

ghost use Rattle.std.specs.Prelude.{◌≡◌, ℕ, ◌<◌, ◌^◌, List, Err, IfOk, IfSome};
ghost use Rattle.er_trace.specs.declared.record.Record.{Record};
ghost use Rattle.er_lines.specs.Format.{Format, IsFormat, IsVersionOf};
ghost use Rattle.er_lines.specs.Steps.{IsLater, IsFront};

use er_io::NoMemory;
use er_trace::fault::LineFault;
use er_trace::record::Record;
use er_trace::version::Version;
use std::alloc::Global;

/// What a line behind the first is.
#[derive(Drop)]
pub enum Later {
    /// The last one.
    End,
    /// It spells a record.
    One(Record),
}

/// A format of traces, by how one line is read.
pub trait Lines {
    ghost format: { Format };

    /// The most bytes of a line, without its LF.
    const MOST: usize;

    ghost MOST: { ℕ };

    /// The version that the line gives as the first one of a trace.
    fn read_header(alloc: Global, line: &[u8]) -> Result<Option<Version>, NoMemory>
        ensures { IfOk result (IsVersionOf format.IsHeader line.now) };

    /// What the line is behind the first, in a trace of that version.
    fn read_later(alloc: Global, version: Version, line: &[u8]) -> Result<Later, LineFault>
        ensures read { IfOk result (IsLater format.IsEnd (format.Spells version) line.now) }
        ensures bad { result ≡ Err LineFault.BadRecord
            → ¬ format.IsEnd line.now × ((x : Record) → ¬ format.Spells version line.now x) };

    /// A record whose whole line stands at the front, in a trace of that version, and what stands
    /// behind its LF: for lines that can be read without their ends being looked for first. `None`
    /// says nothing.
    fn front<'a>(_alloc: Global, _version: Version, _chunk: &'a [u8]) -> Option<(Record, &'a [u8])>
        ensures { IfSome result (λ pair. IsFront format.most (format.Spells _version) _chunk.now
            pair.0 pair.1.now) }
    {
        None
    }

    ghost most: { MOST ≡ format.most };

    ghost small: { MOST < 2 ^ 16 };

    ghost is_format: { IsFormat format };
}
