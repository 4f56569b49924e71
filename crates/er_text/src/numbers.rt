//! Numbers: decimal, without a sign and without leading zeros, and below 2 ^ 32.

ghost use Rattle.std.specs.Prelude.{◌≡◌, ℕ, ◌≤◌, IfOk, OnOk, OnErr, Ok, length, decimal};
ghost use Rattle.er_io.specs.Ends.{Puts};
ghost use Rattle.std.specs.Option.{SomeIff};
ghost use Rattle.std.specs.Str.Parse.{AllDigits, digits_value};
ghost use Rattle.er_text.specs.Number.{IsNumber};

use er_io::{Failed, Sink, put_all};
use itoa::Buffer;

/// A word that is not what was asked for.
#[derive(Clone, Copy, Debug, PartialEq, Eq)]
pub struct BadToken;

/// How many digits a number has at most.
const MOST_DIGITS: usize = 10;

/// The value of some digits, where each byte is a digit.
#[tactic(auto, using(crate::proofs::NumberLaws::reads_value))]
fn value_of(digits: &[u8]) -> Option<u64>
    requires { length digits.now ≤ MOST_DIGITS }
    ensures { SomeIff result (AllDigits 10 digits.now) (digits_value 10 digits.now) }
{
    let mut value: u64 = 0;
    for digit in digits {
        if !digit.is_ascii_digit() {
            return None;
        }
        value = value * 10 + (*digit - b'0') as u64;
    }
    Some(value)
}

#[tactic(auto, using(crate::proofs::NumberLaws::reads_number))]
pub fn read_number(word: &[u8]) -> Result<u32, BadToken>
    ensures read { IfOk result (λ n. IsNumber word.now n) }
    ensures exact { (n : ℕ) → IsNumber word.now n → result ≡ Ok n }
{
    if word.is_empty() {
        return Err(BadToken);
    }
    if word.len() > MOST_DIGITS {
        return Err(BadToken);
    }
    if word[0] == b'0' && word.len() > 1 {
        return Err(BadToken);
    }
    let Some(value) = value_of(word) else {
        return Err(BadToken);
    };
    if value > u32::MAX as u64 {
        return Err(BadToken);
    }
    Ok(value as u32)
}

/// Writes a number in decimal. It takes no memory.
pub fn put_number<K: Sink>(sink: &mut K, n: u64) -> Result<(), Failed>
    ensures { Puts K.got K.faults sink.old (decimal n) sink.new result }
{
    let mut buffer = Buffer::new();
    put_all(sink, buffer.format(n).as_bytes())
}
