//! Lines that are read at the front of some bytes, with no look for their ends: accesses whose
//! names have no byte that is spelled by digits, parse steps of plain elements, timeouts that are
//! set or that fire, ticks, and closes. Most lines of a trace are one of these.

ghost use Rattle.std.specs.Prelude.{◌≡◌, ◌<◌, ◌≤◌, ◌+◌, ◌^◌, ◌∷◌, ◌++◌, not, length, take, drop, position, IfSome, decimal, codes};
ghost use Rattle.std.specs.Str.Parse.{AllDigits, digits_value};
ghost use Rattle.er_text.specs.Bytes.{space, line_end};
ghost use Rattle.er_text.specs.Name.{IsName, name_spelling, stands_for_itself};
ghost use Rattle.er_trace.specs.declared.version.Version.{Version};
ghost use Rattle.er_trace.specs.Spelling.{spelling, mode_word};
ghost use Rattle.er_trace.specs.Versions.{IsRecordOf};
ghost use Rattle.er_syntax.specs.Forms.{form_word, loc_of};
ghost use Rattle.er_syntax.specs.Plain.{IsPlainLine};

use er_text::MOST_NAME;
use er_trace::name::{MOST_IN_PLACE, Name};
use er_trace::record::{Kind, Loc, Mode, Record};
use std::alloc::Global;

/// How many digits a number has at most.
const MOST_DIGITS: usize = 10;

fn is_itself(byte: u8) -> bool
    ensures { result ≡ stands_for_itself byte }
{
    (33..=126).contains(&byte) && byte != b'%'
}

/// Where the first byte stands that is not spelled as itself.
fn first_other(bytes: &[u8]) -> Option<usize>
    ensures { result ≡ position (λ b. not (stands_for_itself b)) bytes.now }
{
    bytes.iter().position(|byte| !is_itself(*byte))
}

/// How many digits stand at the front, as many as a number may have, and their value.
#[tactic(auto, using(er_text::proofs::NumberLaws::reads_no_digits))]
fn front_digits(bytes: &[u8]) -> (usize, u64)
    ensures within { result.0 ≤ length bytes.now }
    ensures digits { AllDigits 10 (take result.0 bytes.now) }
    ensures value { digits_value 10 (take result.0 bytes.now) ≡ result.1 }
{
    let most = bytes.len().min(MOST_DIGITS);
    let mut value: u64 = 0;
    for at in 0..most {
        if !bytes[at].is_ascii_digit() {
            return (at, value);
        }
        value = value * 10 + (bytes[at] - b'0') as u64;
    }
    (most, value)
}

/// What stands behind that byte, where it is the first.
fn behind(bytes: &[u8], byte: u8) -> Option<&[u8]>
    ensures { IfSome result (λ rest. bytes.now ≡ byte ∷ rest.now) }
{
    let (first, rest) = bytes.split_first()?;
    if *first != byte {
        return None;
    }
    Some(rest)
}

/// The number at the front, and what stands behind that byte, which comes after it.
fn number_before(bytes: &[u8], stop: u8) -> Option<(u32, &[u8])>
    ensures { IfSome result
        (λ pair. (pair.0 < 2 ^ 32) × (bytes.now ≡ decimal pair.0 ++ stop ∷ pair.1.now)) }
{
    let (end, value) = front_digits(bytes);
    if end == 0 {
        return None;
    }
    if bytes[0] == b'0' && end > 1 {
        return None;
    }
    if value > u32::MAX as u64 {
        return None;
    }
    let later = behind(&bytes[end..], stop)?;
    Some((value as u32, later))
}

/// Where the name at the front ends, before an LF, if it is spelled as itself.
fn plain_end(bytes: &[u8]) -> Option<usize>
    ensures within { IfSome result (λ k. k < length bytes.now) }
    ensures name { IfSome result (λ k. IsName (take k bytes.now)
        × (bytes.now ≡ name_spelling (take k bytes.now) ++ line_end ∷ drop (k + 1) bytes.now)) }
{
    let end = first_other(bytes)?;
    if end == 0 {
        return None;
    }
    if end > MOST_NAME {
        return None;
    }
    if bytes[end] != b'\n' {
        return None;
    }
    Some(end)
}

/// The name of so many bytes at the front. For one that needs no memory enough bytes must follow
/// for a copy of a fixed length.
fn name_of_front(alloc: Global, bytes: &[u8], end: usize) -> Option<Name>
    requires within { end < length bytes.now }
    requires name { IsName (take end bytes.now) }
    ensures { IfSome result (λ name. name ≡ take end bytes.now) }
{
    if end > MOST_IN_PLACE {
        return Name::new(alloc, &bytes[..end]).ok();
    }
    let place = bytes.first_chunk::<MOST_IN_PLACE>()?;
    Some(Name::in_place(alloc, place, end))
}

/// That name, and what stands behind the LF.
fn front_name(alloc: Global, bytes: &[u8]) -> Option<(Name, &[u8])>
    ensures { IfSome result
        (λ pair. IsName pair.0 × (bytes.now ≡ name_spelling pair.0 ++ line_end ∷ pair.1.now)) }
{
    let end = plain_end(bytes)?;
    let name = name_of_front(alloc, bytes, end)?;
    Some((name, &bytes[end + 1..]))
}

/// What a location is of.
#[derive(Clone, Copy)]
pub(crate) enum Form {
    Var,
    Elem,
    Slot,
}

impl Form {
    /// The location of this form.
    fn of(self, number: u32, name: Name) -> Loc
        ensures { result ≡ loc_of self number name }
    {
        match self {
            Form::Var => Loc::Var(number, name),
            Form::Elem => Loc::Elem(number, name),
            Form::Slot => Loc::Slot(number, name),
        }
    }
}

/// The form between two spaces, and what stands behind them.
fn front_form(bytes: &[u8]) -> Option<(Form, &[u8])>
    ensures { IfSome result (λ pair. bytes.now ≡ space ∷ form_word pair.0 ++ space ∷ pair.1.now) }
{
    match bytes {
        [b' ', b'v', b'a', b'r', b' ', later @ ..] => Some((Form::Var, later)),
        [b' ', b'e', b'l', b'e', b'm', b' ', later @ ..] => Some((Form::Elem, later)),
        [b' ', b's', b'l', b'o', b't', b' ', later @ ..] => Some((Form::Slot, later)),
        _ => None,
    }
}

/// The mode at the front, and what stands behind it.
fn front_mode(line: &[u8]) -> Option<(Mode, &[u8])>
    ensures { IfSome result (λ pair. line.now ≡ mode_word pair.0 ++ pair.1.now) }
{
    let (first, later) = line.split_first()?;
    match *first {
        b'r' => Some((Mode::R, later)),
        b'w' => Some((Mode::W, later)),
        _ => None,
    }
}

/// The access whose line stands at the front, and what stands behind the LF, where its name is
/// spelled as itself.
#[tactic(auto, using(crate::proofs::PlainLaws::spelling_of_access))]
fn access_line(alloc: Global, bytes: &[u8]) -> Option<(Record, &[u8])>
    ensures { IfSome result (λ pair. IsPlainLine bytes.now pair.0 pair.1.now) }
{
    let (mode, later) = front_mode(bytes)?;
    let (form, later) = front_form(later)?;
    let (number, later) = number_before(later, b' ')?;
    let (name, later) = front_name(alloc, later)?;
    let loc = form.of(number, name);
    Some((Record::Access { mode, loc }, later))
}

/// The number of a plain element and its kind at the front, and what stands behind the LF.
fn plain_element(bytes: &[u8]) -> Option<(u32, &[u8])>
    ensures { IfSome result (λ pair. (pair.0 < 2 ^ 32)
        × (bytes.now ≡ decimal pair.0 ++ space ∷ (codes "plain" ++ line_end ∷ pair.1.now))) }
{
    let (element, later) = number_before(bytes, b' ')?;
    let [b'p', b'l', b'a', b'i', b'n', b'\n', left @ ..] = later else {
        return None;
    };
    Some((element, left))
}

/// What stands behind the first word of a parse step and its space.
fn behind_parse(bytes: &[u8]) -> Option<&[u8]>
    ensures { IfSome result (λ rest. bytes.now ≡ codes "parse " ++ rest.now) }
{
    match bytes {
        [b'p', b'a', b'r', b's', b'e', b' ', rest @ ..] => Some(rest),
        _ => None,
    }
}

/// The parse step of a plain element whose line stands at the front, and what stands behind the LF.
fn parse_line(bytes: &[u8]) -> Option<(Record, &[u8])>
    ensures { IfSome result (λ pair. IsPlainLine bytes.now pair.0 pair.1.now) }
{
    let elements = behind_parse(bytes)?;
    let (doc, later) = number_before(elements, b' ')?;
    let (element, left) = plain_element(later)?;
    let kind = Kind::Plain;
    Some((Record::Parse { doc, element, kind }, left))
}

/// The timeout set whose line stands at the front, and what stands behind the LF.
#[tactic(auto, using(crate::proofs::PlainLaws::set_at))]
fn set_line(bytes: &[u8]) -> Option<(Record, &[u8])>
    ensures { IfSome result (λ pair. IsPlainLine bytes.now pair.0 pair.1.now) }
{
    let [b's', b'e', b't', b' ', later @ ..] = bytes else {
        return None;
    };
    let (timeout, later) = number_before(later, b' ')?;
    let (delay, left) = number_before(later, b'\n')?;
    Some((Record::Set { timeout, delay }, left))
}

/// The callback of a timeout whose line stands at the front, and what stands behind the LF.
#[tactic(auto, using(crate::proofs::PlainLaws::timer_at))]
fn timer_line(bytes: &[u8]) -> Option<(Record, &[u8])>
    ensures { IfSome result (λ pair. IsPlainLine bytes.now pair.0 pair.1.now) }
{
    let [b't', b'i', b'm', b'e', b'r', b' ', later @ ..] = bytes else {
        return None;
    };
    let (timeout, left) = number_before(later, b'\n')?;
    Some((Record::Timer { timeout }, left))
}

/// The callback of an interval whose line stands at the front, and what stands behind the LF.
#[tactic(auto, using(crate::proofs::PlainLaws::tick_at))]
fn tick_line(bytes: &[u8]) -> Option<(Record, &[u8])>
    ensures { IfSome result (λ pair. IsPlainLine bytes.now pair.0 pair.1.now) }
{
    let [b't', b'i', b'c', b'k', b' ', later @ ..] = bytes else {
        return None;
    };
    let (interval, left) = number_before(later, b'\n')?;
    Some((Record::Tick { interval }, left))
}

/// The close of a dispatch whose line stands at the front, and what stands behind the LF.
#[tactic(auto, using(crate::proofs::PlainLaws::close_at))]
fn close_line(bytes: &[u8]) -> Option<(Record, &[u8])>
    ensures { IfSome result (λ pair. IsPlainLine bytes.now pair.0 pair.1.now) }
{
    let [b'c', b'l', b'o', b's', b'e', b' ', later @ ..] = bytes else {
        return None;
    };
    let (dispatch, left) = number_before(later, b'\n')?;
    Some((Record::Close { dispatch }, left))
}

/// The record whose line stands at the front, and what stands behind the LF, where it is one of
/// those that are read so. `None` says nothing. Accesses are the most frequent: no other
/// first word has one letter.
pub fn plain_line(alloc: Global, bytes: &[u8]) -> Option<(Record, &[u8])>
    ensures { IfSome result (λ pair. ((v : Version) → IsRecordOf v pair.0)
        × (bytes.now ≡ spelling pair.0 ++ line_end ∷ pair.1.now)) }
{
    match bytes {
        [_, b' ', ..] => access_line(alloc, bytes),
        [b'p', ..] => parse_line(bytes),
        [b's', ..] => set_line(bytes),
        [b't', b'i', b'm', ..] => timer_line(bytes),
        [b't', ..] => tick_line(bytes),
        [b'c', ..] => close_line(bytes),
        _ => None,
    }
}
