//! The members of a line, and the line of a trace that they are written as.

ghost use Rattle.std.specs.Prelude.{◌≡◌, ◌≢◌, ◌⊎◌, ◌↔◌, false, List, [], ◌++◌, map, drop, Ok, Err, Some, IfOk, OnOk, IfSome, IfNone, IsTrue};
ghost use Rattle.serde_json.specs.Data.{Data};
ghost use Rattle.serde_json.specs.Find.{as_str};
ghost use Rattle.serde_json.specs.View.{view};
ghost use Rattle.er_trace.specs.declared.record.Record.{Record};
ghost use Rattle.er_trace.specs.declared.version.Version.{Version};
ghost use Rattle.er_trace.specs.declared.version.Version.TheVariants.{Two};
ghost use Rattle.er_trace.specs.Spelling.{record_items, spelling};
ghost use Rattle.er_trace.specs.Versions.{has_tasks, IsRecordOf};
ghost use Rattle.er_lines.specs.json_line.Members.{AreMembers, ReadsAs, version_number, header_items, end_items};
ghost use Rattle.er_lines.specs.json_line.Texts.{member_word, next_word, text_of, HasWord, HaveWords, IsText, AreTexts, is_count, is_number};

use crate::json_line::kinds::are_kinds;
use crate::json_line::letters::Letters;
use er_io::put_all;
use er_syntax::parse::parse_record;
use er_text::{MOST_NAME, put_name, put_number};
use er_trace::fault::LineFault;
use er_trace::record::Record;
use er_trace::version::Version;
use serde_json::{Category, Value};
use std::alloc::Global;

/// Writes the member as a word.
fn put_member(letters: &mut Letters, member: &Value) -> Result<(), LineFault>
    ensures read { OnOk result (HasWord (view member.now) × IsText (view member.now)
        × (letters.new.bytes.items ≡ letters.old.bytes.items ++ member_word (view member.now))) }
    ensures exact { HasWord (view member.now)
        → (result ≡ Ok tt) ⊎ (result ≡ Err LineFault.NoMemory) }
{
    if let Some(text) = member.as_str() {
        let name = text.as_bytes();
        if name.is_empty() || name.len() > MOST_NAME {
            return Err(LineFault::BadRecord);
        }
        let Ok(()) = put_name(letters, name) else {
            return Err(LineFault::NoMemory);
        };
        return Ok(());
    }
    let Some(n) = member.as_u64() else {
        return Err(LineFault::BadRecord);
    };
    if n > u32::MAX as u64 {
        return Err(LineFault::BadRecord);
    }
    let Ok(()) = put_number(letters, n) else {
        return Err(LineFault::NoMemory);
    };
    Ok(())
}

/// Writes a space and the member as a word.
fn put_next(letters: &mut Letters, member: &Value) -> Result<(), LineFault>
    ensures read { OnOk result (HasWord (view member.now) × IsText (view member.now)
        × (letters.new.bytes.items ≡ letters.old.bytes.items ++ next_word (view member.now))) }
    ensures exact { HasWord (view member.now)
        → (result ≡ Ok tt) ⊎ (result ≡ Err LineFault.NoMemory) }
{
    let Ok(()) = put_all(letters, b" ") else {
        return Err(LineFault::NoMemory);
    };
    put_member(letters, member)
}

/// Writes the members as words, each after a space.
pub fn put_members(letters: &mut Letters, members: &[Value]) -> Result<(), LineFault>
    ensures read { OnOk result (HaveWords (map view members.now) × AreTexts (map view members.now)
        × (letters.new.bytes.items ≡ letters.old.bytes.items ++ text_of (map view members.now))) }
    ensures exact { HaveWords (map view members.now)
        → (result ≡ Ok tt) ⊎ (result ≡ Err LineFault.NoMemory) }
{
    for member in members {
        if let Err(fault) = put_next(letters, member) {
            return Err(fault);
        }
    }
    Ok(())
}

/// The members of the array that the line is read as. `BadRecord` comes where it is read as none.
pub fn members_of(alloc: Global, line: &[u8]) -> Result<Vec<Value>, LineFault>
    ensures read { IfOk result (λ members. ReadsAs line.now (map view members.items)) }
    ensures exact { result ≡ Err LineFault.BadRecord → (members : List Data)
        → ¬ ReadsAs line.now members }
{
    match Value::from_slice(alloc, line) {
        Ok(Value::Array(members)) => Ok(members),
        Ok(_) => Err(LineFault::BadRecord),
        Err(fault) => Err(match fault.classify() {
            Category::Memory => LineFault::NoMemory,
            _ => LineFault::BadRecord,
        }),
    }
}

/// The record of versions 1 and 2 that the members are.
pub fn read_record(alloc: Global, members: &[Value]) -> Result<Record, LineFault>
    ensures read { IfOk result
        (λ x. IsRecordOf Two x × AreMembers (record_items x) (map view members.now)) }
    ensures exact { (x : Record) → IsRecordOf Two x
        → AreMembers (record_items x) (map view members.now)
        → (result ≡ Ok x) ⊎ (result ≡ Err LineFault.NoMemory) }
{
    let mut letters = Letters {
        bytes: Vec::new(alloc),
    };
    if let Err(fault) = put_members(&mut letters, members) {
        return Err(fault);
    }
    match parse_text(alloc, letters.bytes.as_slice()) {
        Ok(rec) => with_kinds(rec, members),
        Err(fault) => Err(fault),
    }
}

/// The record of versions 1 and 2 that is spelled behind a first byte.
fn parse_text(alloc: Global, text: &[u8]) -> Result<Record, LineFault>
    ensures read { IfOk result
        (λ x. IsRecordOf Two x × (text.now ≢ []) × (drop 1 text.now ≡ spelling x)) }
    ensures exact { (x : Record) → IsRecordOf Two x → text.now ≢ [] → drop 1 text.now ≡ spelling x
        → (result ≡ Ok x) ⊎ (result ≡ Err LineFault.NoMemory) }
{
    if text.is_empty() {
        return Err(LineFault::BadRecord);
    }
    parse_record(alloc, Version::Two, &text[1..])
}

/// The record, where the members that are numbers stand where it has numbers.
fn with_kinds(rec: Record, members: &[Value]) -> Result<Record, LineFault>
    ensures read { IfOk result (λ x. (x ≡ rec)
        × (map (λ m. is_count (view m)) members.now ≡ map is_number (record_items rec))) }
    ensures exact { map (λ m. is_count (view m)) members.now ≡ map is_number (record_items rec)
        → result ≡ Ok rec }
{
    if !are_kinds(&rec, members) {
        return Err(LineFault::BadRecord);
    }
    Ok(rec)
}

/// Whether the member is that string.
fn is_text(member: &Value, word: &str) -> bool
    ensures { IsTrue result ↔ (as_str (view member.now) ≡ Some word.now) }
{
    match member.as_str() {
        Some(text) => text == word,
        None => false,
    }
}

fn number_of(version: Version) -> u64
    ensures { result ≡ version_number version }
{
    match version {
        Version::One => 1,
        Version::Two => 2,
        Version::Three => 3,
    }
}

/// Whether the members are those of the first line of that version.
fn are_header(members: &[Value], version: Version) -> bool
    ensures { IsTrue result ↔ AreMembers (header_items version) (map view members.now) }
{
    if members.len() != 2 {
        return false;
    }
    is_text(&members[0], "webtrace") && members[1].as_u64() == Some(number_of(version))
}

/// The version of the first line whose members they are, which is 1 or 2.
pub fn header_of(members: &[Value]) -> Option<Version>
    ensures some { IfSome result (λ version. (has_tasks version ≡ false)
        × AreMembers (header_items version) (map view members.now)) }
    ensures none { IfNone result ((version : Version) → has_tasks version ≡ false
        → ¬ AreMembers (header_items version) (map view members.now)) }
{
    if are_header(members, Version::One) {
        return Some(Version::One);
    }
    if are_header(members, Version::Two) {
        return Some(Version::Two);
    }
    None
}

/// Whether the members are those of the last line.
pub fn are_end(members: &[Value]) -> bool
    ensures { IsTrue result ↔ AreMembers end_items (map view members.now) }
{
    if members.len() != 1 {
        return false;
    }
    is_text(&members[0], "end")
}
