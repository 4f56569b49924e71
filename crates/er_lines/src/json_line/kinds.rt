//! Where a record has numbers.

ghost use Rattle.std.specs.Prelude.{◌≡◌, ◌↔◌, map, IsTrue};
ghost use Rattle.serde_json.specs.View.{view};
ghost use Rattle.er_trace.specs.Spelling.{record_items};
ghost use Rattle.er_lines.specs.json_line.Texts.{is_number, is_count};

use er_trace::record::Record;
use serde_json::Value;

/// Of each item of the record, whether it is a number.
fn kinds_of(rec: &Record) -> &'static [bool]
    ensures { result.now ≡ map is_number (record_items rec.now) }
{
    match rec {
        Record::Exec { .. }
        | Record::Timer { .. }
        | Record::Tick { .. }
        | Record::Close { .. }
        | Record::Back { .. }
        | Record::On { .. }
        | Record::Send { .. }
        | Record::Post { .. }
        | Record::Ask { .. }
        | Record::Queue { .. }
        | Record::Message { .. }
        | Record::Anim { .. }
        | Record::Job { .. } => &[false, true],
        Record::Dcl { .. }
        | Record::Load { .. }
        | Record::Eload { .. }
        | Record::Reply { .. }
        | Record::Set { .. }
        | Record::Every { .. } => &[false, true, true],
        Record::Run { .. } => &[false, true, true, true],
        Record::Parse { .. }
        | Record::New { .. }
        | Record::Fire { .. }
        | Record::Wfire { .. }
        | Record::Inline { .. } => &[false, true, true, false],
        Record::ParseFrame { .. } | Record::NewFrame { .. } => &[false, true, true, false, true],
        Record::Access { .. } => &[false, false, true, false],
    }
}

/// Whether the members that are numbers stand where the record has numbers.
pub fn are_kinds(rec: &Record, members: &[Value]) -> bool
    ensures { IsTrue result
        ↔ (map (λ m. is_count (view m)) members.now ≡ map is_number (record_items rec.now)) }
{
    let kinds = kinds_of(rec);
    if members.len() != kinds.len() {
        return false;
    }
    for (i, member) in members.iter().enumerate() {
        if member.is_number() != kinds[i] {
            return false;
        }
    }
    true
}
