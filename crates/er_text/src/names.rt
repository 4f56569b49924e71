//! Names: 1 to `MOST_NAME` bytes. A byte from 0x21 to 0x7E other than `%` is spelt as itself, and
//! every other one as `%` and two hexadecimal digits, A to F in upper case.

ghost use Rattle.std.specs.Prelude.{◌≡◌, ◌≢◌, ℕ, ◌+◌, ◌*◌, ◌≤◌, ◌<◌, List, ◌∷◌, ◌++◌, length, take, IfOk, IsOkAnd, MatchOption, IfSome, Some, OnOk, OnErr};
ghost use Rattle.std.specs.Iterator.{YieldsFirst, item_count};
ghost use Rattle.er_io.specs.Ends.{Puts};
ghost use Rattle.er_text.specs.Name.{IsName, most_name, stands_for_itself, hex_digit, byte_spelling, name_spelling};

use crate::numbers::BadToken;
use er_io::{Failed, Sink, put_all};
use std::marker::Model;

/// How many bytes a name has at most.
pub const MOST_NAME: usize = 255;

fn is_itself(byte: u8) -> bool
    ensures { result ≡ stands_for_itself byte }
{
    (33..=126).contains(&byte) && byte != b'%'
}

/// The value of a hexadecimal digit, in upper case.
fn value_of_digit(digit: u8) -> Option<u8>
    ensures read { IfSome result (λ n. (n < 16) × (digit ≡ hex_digit n)) }
    ensures exact { (n : ℕ) → n < 16 → digit ≡ hex_digit n → result ≡ Some n }
{
    match digit {
        b'0'..=b'9' => Some(digit - b'0'),
        b'A'..=b'F' => Some(digit - b'A' + 10),
        _ => None,
    }
}

/// The byte that stands first in a spelling, and the spelling of the others.
fn take_byte(spelling: &[u8]) -> Option<(u8, &[u8])>
    ensures { MatchOption result
        ((b : ℕ) (rest : List ℕ) → b < 256 → spelling.now ≢ byte_spelling b ++ rest)
        (λ parts. (parts.0 < 256) × (spelling.now ≡ byte_spelling parts.0 ++ parts.1.now)) }
{
    let (first, rest) = spelling.split_first()?;
    if is_itself(*first) {
        return Some((*first, rest));
    }
    if *first != b'%' {
        return None;
    }
    if rest.len() < 2 {
        return None;
    }
    let high = value_of_digit(rest[0])?;
    let low = value_of_digit(rest[1])?;
    let spelt = high * 16 + low;
    if is_itself(spelt) {
        return None;
    }
    Some((spelt, &rest[2..]))
}

/// The spelling of a name. It is seen as the bytes that it spells.
#[derive(Drop)]
pub struct NameWord<'a> {
    spelling: &'a [u8],
    count: usize,
}

impl<'a> Model for NameWord<'a> {
    ghost use Rattle.std.specs.Prelude.{ℕ, List};
    ghost use Rattle.er_text.specs.Name.{spelled, IsNameWord};

    ghost Value = { List ℕ };

    ghost view = { λ s. spelled s.spelling.now };

    ghost invariant = { λ s. IsNameWord s.spelling.now s.count };
}

/// The bytes that a spelling spells.
#[derive(Drop)]
pub struct NameBytes<'a> {
    rest: &'a [u8],
}

impl<'a> Model for NameBytes<'a> {
    ghost use Rattle.std.specs.Prelude.{ℕ, List};
    ghost use Rattle.er_text.specs.Name.{spelled, IsSpelling};

    ghost Value = { List ℕ };

    ghost view = { λ s. spelled s.rest.now };

    ghost invariant = { λ s. IsSpelling s.rest.now };
}

impl<'a> Iterator for NameBytes<'a> {
    type Item = u8;

    ghost next_gives = { YieldsFirst (λ s. s) };

    ghost remaining = { item_count (λ s. s) };

    #[tactic(auto, using(crate::proofs::NameLaws::spells_next))]
    fn next(&mut self) -> Option<u8> {
        let (byte, rest) = take_byte(self.rest)?;
        self.rest = rest;
        Some(byte)
    }
}

impl<'a> NameWord<'a> {
    pub fn len(&self) -> usize
        ensures { result ≡ length self.now }
    {
        self.count
    }

    pub fn bytes(&self) -> NameBytes<'_>
        ensures bytes { result ≡ self.now }
        ensures name { IsName self.now }
    {
        NameBytes {
            rest: self.spelling,
        }
    }

    /// Its bytes as they stand in the spelling, where each is spelled as itself.
    #[tactic(auto, using(crate::proofs::NameLaws::plain_word))]
    pub fn plain(&self) -> Option<&[u8]>
        ensures bytes { IfSome result (λ bytes. bytes.now ≡ self.now) }
        ensures some { IfSome result (λ bytes. 1 ≤ length bytes.now) }
        ensures few { IfSome result (λ bytes. length bytes.now ≤ most_name) }
    {
        if self.count != self.spelling.len() {
            return None;
        }
        Some(self.spelling)
    }
}

/// Reads the spelling of a name.
#[tactic(auto, using(crate::proofs::NameLaws::reads_name))]
pub fn read_name(word: &[u8]) -> Result<NameWord<'_>, BadToken>
    ensures read { IfOk result (λ name. IsName name × (word.now ≡ name_spelling name)) }
    ensures exact { (name : List ℕ) → IsName name → word.now ≡ name_spelling name
        → IsOkAnd result (λ read. read ≡ name) }
{
    let mut rest = word;
    let mut count = 0;
    while !rest.is_empty() {
        if count == MOST_NAME {
            return Err(BadToken);
        }
        let Some((_, later)) = take_byte(rest) else {
            return Err(BadToken);
        };
        rest = later;
        count += 1;
    }
    if count == 0 {
        return Err(BadToken);
    }
    Ok(NameWord {
        spelling: word,
        count,
    })
}

/// How many bytes the longest spelling of a name has: three for each of its bytes.
const MOST_SPELLING: usize = 3 * MOST_NAME;

/// The hexadecimal digit of a number below 16, in upper case.
fn digit_of(n: u8) -> u8
    requires { n < 16 }
    ensures { result ≡ hex_digit n }
{
    if n < 10 { b'0' + n } else { b'A' + (n - 10) }
}

/// Writes the spelling of a byte into the buffer, from `start` on, and answers where it ends.
fn spell_byte(byte: u8, buffer: &mut [u8], start: usize) -> usize
    requires { start + 3 ≤ length buffer.old }
    ensures end { result ≤ start + 3 }
    ensures spelt { take result buffer.new ≡ take start buffer.old ++ byte_spelling byte }
{
    if is_itself(byte) {
        buffer[start] = byte;
        return start + 1;
    }
    buffer[start] = b'%';
    buffer[start + 1] = digit_of(byte / 16);
    buffer[start + 2] = digit_of(byte % 16);
    start + 3
}

/// Writes the spelling of a name into the buffer, from its start on, and answers where it ends.
#[tactic(auto, using(crate::proofs::NameLaws::spelling_more))]
fn spell_name(name: &[u8], buffer: &mut [u8]) -> usize
    requires { 3 * length name.now ≤ length buffer.old }
    ensures end { result ≤ 3 * length name.now }
    ensures spelt { take result buffer.new ≡ name_spelling name.now }
{
    let mut end = 0;
    for byte in name {
        end = spell_byte(*byte, buffer, end);
    }
    end
}

/// Writes the spelling of a name. It takes no memory.
pub fn put_name<K: Sink>(sink: &mut K, name: &[u8]) -> Result<(), Failed>
    requires some { 0 < length name.now }
    requires few { length name.now ≤ most_name }
    ensures { Puts K.got K.faults sink.old (name_spelling name.now) sink.new result }
{
    let mut buffer = [0; MOST_SPELLING];
    let end = spell_name(name, &mut buffer);
    put_all(sink, &buffer[..end])
}
