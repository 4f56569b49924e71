//! Accesses whose names are short and need no escape, with nothing or one space behind each comma:
//! most lines of a trace.

ghost use Rattle.std.specs.Prelude.{◌≡◌, ◌↔◌, ◌<◌, ◌≤◌, ◌^◌, ◌∷◌, ◌++◌, ◌==◌, true, not, length, take, position, IfSome, IsTrue, decimal};
ghost use Rattle.std.specs.List.{list_all};
ghost use Rattle.json.specs.Ascii.{quote, comma, open_bracket, close_bracket};
ghost use Rattle.er_text.specs.Bytes.{line_end};
ghost use Rattle.er_text.specs.Name.{IsName};
ghost use Rattle.er_trace.specs.Items.{Word};
ghost use Rattle.er_trace.specs.Spelling.{mode_word, loc_items};
ghost use Rattle.er_lines.specs.Steps.{IsFront};
ghost use Rattle.er_lines.specs.json_line.Members.{Spells};
ghost use Rattle.er_lines.specs.json_line.Plain.{needs_no_escape, gap, item_text, later_text, ArePlain, AreLast, most_plain_bytes};

use er_text::read_number;
use er_trace::name::{MOST_IN_PLACE, Name};
use er_trace::record::{Loc, Mode, Record};
use std::alloc::Global;

/// Whether the bytes are that text.
fn is_same(bytes: &[u8], text: &str) -> bool
    ensures { IsTrue result ↔ (bytes.now ≡ text.now) }
{
    bytes == text.as_bytes()
}

/// What stands behind that text.
fn behind<'a>(bytes: &'a [u8], text: &str) -> Option<&'a [u8]>
    ensures { IfSome result (λ rest. bytes.now ≡ text.now ++ rest.now) }
{
    let len = text.len();
    if bytes.len() < len {
        return None;
    }
    if !is_same(&bytes[..len], text) {
        return None;
    }
    Some(&bytes[len..])
}

/// What stands behind a comma and its gap.
fn behind_comma(bytes: &[u8], spaced: bool) -> Option<&[u8]>
    ensures { IfSome result (λ rest. bytes.now ≡ comma ∷ (gap spaced ++ rest.now)) }
{
    if spaced {
        return behind(bytes, ", ");
    }
    behind(bytes, ",")
}

/// What stands behind that text, a comma and its gap.
fn behind_member<'a>(bytes: &'a [u8], text: &str, spaced: bool) -> Option<&'a [u8]>
    ensures { IfSome result (λ rest. bytes.now ≡ text.now ++ comma ∷ (gap spaced ++ rest.now)) }
{
    let later = behind(bytes, text)?;
    let rest = behind_comma(later, spaced)?;
    Some(rest)
}

/// Whether the byte stands in a string as itself.
fn is_itself(byte: u8) -> bool
    ensures { result ≡ needs_no_escape byte }
{
    (32..=126).contains(&byte) && byte != b'"' && byte != b'\\'
}

fn first_comma(bytes: &[u8]) -> Option<usize>
    ensures { result ≡ position (λ b. b == comma) bytes.now }
{
    bytes.iter().position(|byte| *byte == b',')
}

/// Where the first byte stands that does not stand as itself.
fn first_other(bytes: &[u8]) -> Option<usize>
    ensures { result ≡ position (λ b. not (needs_no_escape b)) bytes.now }
{
    bytes.iter().position(|byte| !is_itself(*byte))
}

/// The mode at the front, and what stands behind it.
fn front_mode(bytes: &[u8]) -> Option<(Mode, &[u8])>
    ensures { IfSome result (λ pair. bytes.now
        ≡ open_bracket ∷ (item_text (Word (mode_word pair.0)) ++ pair.1.now)) }
{
    if let Some(later) = behind(bytes, "[\"r\"") {
        return Some((Mode::R, later));
    }
    if let Some(later) = behind(bytes, "[\"w\"") {
        return Some((Mode::W, later));
    }
    None
}

/// The number at the front, and what stands behind its comma and the gap.
fn front_number(bytes: &[u8], spaced: bool) -> Option<(u32, &[u8])>
    ensures { IfSome result (λ pair. (pair.0 < 2 ^ 32)
        × (bytes.now ≡ decimal pair.0 ++ comma ∷ (gap spaced ++ pair.1.now))) }
{
    let end = first_comma(bytes)?;
    let number = read_number(&bytes[..end]).ok()?;
    let later = behind_comma(&bytes[end..], spaced)?;
    Some((number, later))
}

/// How many bytes of a name stand at the front, if it needs no memory and no escape.
#[tactic(auto, using(crate::proofs::json_line::PlainCuts::plain_before))]
fn plain_len(bytes: &[u8]) -> Option<usize>
    ensures few { IfSome result (λ k. (0 < k) × (k ≤ MOST_IN_PLACE) × (k < length bytes.now)) }
    ensures plain { IfSome result (λ k. list_all needs_no_escape (take k bytes.now) ≡ true) }
{
    let len = first_other(bytes)?;
    if len == 0 {
        return None;
    }
    if len > MOST_IN_PLACE {
        return None;
    }
    Some(len)
}

/// The name at the front, as the last member of a line, and what stands behind the LF.
fn front_name(alloc: Global, bytes: &[u8]) -> Option<(Name, &[u8])>
    ensures { IfSome result (λ pair. IsName pair.0 × (list_all needs_no_escape pair.0 ≡ true)
        × (bytes.now ≡ pair.0 ++ quote ∷ close_bracket ∷ line_end ∷ pair.1.now)) }
{
    let len = plain_len(bytes)?;
    let later = behind(&bytes[len..], "\"]\n")?;
    let name = Name::new(alloc, &bytes[..len]).ok()?;
    Some((name, later))
}

/// The number and the name at the front, as the last members of a line, and what stands behind the
/// LF.
fn front_last(alloc: Global, bytes: &[u8], spaced: bool) -> Option<(u32, Name, &[u8])>
    ensures { IfSome result (λ all. AreLast spaced bytes.now all.0 all.1 all.2.now) }
{
    let (number, later) = front_number(bytes, spaced)?;
    let inner = behind(later, "\"")?;
    let (name, left) = front_name(alloc, inner)?;
    Some((number, name, left))
}

/// The location at the front, behind a comma, as the last members of a line, and what stands behind
/// the LF.
fn front_loc(alloc: Global, bytes: &[u8], spaced: bool) -> Option<(Loc, &[u8])>
    ensures { IfSome result (λ pair. ArePlain (loc_items pair.0)
        × (bytes.now ≡ later_text spaced (loc_items pair.0) ++ line_end ∷ pair.1.now)) }
{
    let form = behind_comma(bytes, spaced)?;
    if let Some(last) = behind_member(form, "\"var\"", spaced) {
        let (number, name, left) = front_last(alloc, last, spaced)?;
        return Some((Loc::Var(number, name), left));
    }
    if let Some(last) = behind_member(form, "\"elem\"", spaced) {
        let (number, name, left) = front_last(alloc, last, spaced)?;
        return Some((Loc::Elem(number, name), left));
    }
    if let Some(last) = behind_member(form, "\"slot\"", spaced) {
        let (number, name, left) = front_last(alloc, last, spaced)?;
        return Some((Loc::Slot(number, name), left));
    }
    None
}

/// The access whose line stands at the front, and what stands behind the LF, where its name is
/// short and needs no escape, and each comma has the same gap behind it, nothing or one space.
/// `None` says nothing.
#[tactic(auto, using(crate::proofs::json_line::PlainLemmas::access_at))]
pub fn plain_json_line(alloc: Global, bytes: &[u8]) -> Option<(Record, &[u8])>
    ensures { IfSome result (λ pair. IsFront most_plain_bytes Spells bytes.now pair.0 pair.1.now) }
{
    let (mode, later) = front_mode(bytes)?;
    let spaced = later.get(1) == Some(&b' ');
    let (loc, left) = front_loc(alloc, later, spaced)?;
    Some((Record::Access { mode, loc }, left))
}
