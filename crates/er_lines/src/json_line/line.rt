//! Reading one line.

ghost use Rattle.std.specs.Prelude.{◌≡◌, ◌⊎◌, Ok, Err, IfOk};
ghost use Rattle.er_trace.specs.declared.record.Record.{Record};
ghost use Rattle.er_lines.specs.json_line.Members.{Spells, IsHeader, IsEnd};
ghost use Rattle.er_lines.specs.Format.{IsVersionOf};
ghost use Rattle.er_lines.specs.Steps.{IsLater};

use crate::format::Later;
use crate::json_line::members::{are_end, header_of, members_of, read_record};
use er_io::NoMemory;
use er_trace::fault::LineFault;
use er_trace::record::Record;
use er_trace::version::Version;
use std::alloc::Global;

/// The record that the line spells. `BadRecord` comes where it spells none.
pub fn parse_json_line(alloc: Global, line: &[u8]) -> Result<Record, LineFault>
    ensures read { IfOk result (λ x. Spells line.now x) }
    ensures exact { (x : Record) → Spells line.now x
        → (result ≡ Ok x) ⊎ (result ≡ Err LineFault.NoMemory) }
{
    let members = match members_of(alloc, line) {
        Ok(members) => members,
        Err(fault) => return Err(fault),
    };
    read_record(alloc, members.as_slice())
}

/// The version that the line gives as the first one of a trace.
pub fn read_header(alloc: Global, line: &[u8]) -> Result<Option<Version>, NoMemory>
    ensures { IfOk result (IsVersionOf IsHeader line.now) }
{
    match members_of(alloc, line) {
        Ok(members) => Ok(header_of(members.as_slice())),
        Err(LineFault::BadRecord) => Ok(None),
        Err(LineFault::NoMemory) => Err(NoMemory),
    }
}

/// What the line is behind the first: the last one, or one that spells a record.
pub fn read_later(alloc: Global, line: &[u8]) -> Result<Later, LineFault>
    ensures read { IfOk result (IsLater IsEnd Spells line.now) }
    ensures bad { result ≡ Err LineFault.BadRecord
        → ¬ IsEnd line.now × ((x : Record) → ¬ Spells line.now x) }
{
    let members = match members_of(alloc, line) {
        Ok(members) => members,
        Err(fault) => return Err(fault),
    };
    if are_end(members.as_slice()) {
        return Ok(Later::End);
    }
    match read_record(alloc, members.as_slice()) {
        Ok(found) => Ok(Later::One(found)),
        Err(fault) => Err(fault),
    }
}
