//! The lines of a trace, and the words of a line.

ghost use Rattle.std.specs.Prelude.{◌≡◌, ℕ, List, [], ◌∷◌, Option, option_map, MatchOption, ◌==◌, position};
ghost use Rattle.er_text.specs.Lines.{first_line};
ghost use Rattle.er_text.specs.Words.{words};

use std::marker::Model;

/// Where the byte first stands.
fn first_place(bytes: &[u8], wanted: u8) -> Option<usize>
    ensures { result ≡ position (λ byte. byte == wanted) bytes.now }
{
    bytes.iter().position(|byte| *byte == wanted)
}

/// The bytes before the first LF, and those after it. `None` where there is no LF.
#[tactic(auto, using(crate::proofs::LineLaws::takes_line))]
pub fn take_line(bytes: &[u8]) -> Option<(&[u8], &[u8])>
    ensures { option_map (λ parts. (parts.0.now, parts.1.now)) result ≡ first_line bytes.now }
{
    let end = first_place(bytes, b'\n')?;
    Some((&bytes[..end], &bytes[end + 1..]))
}

/// The words of a line that are still to come.
#[derive(Drop)]
pub struct Words<'a> {
    rest: Option<&'a [u8]>,
}

impl<'a> Model for Words<'a> {
    ghost use Rattle.std.specs.Prelude.{ℕ, List};
    ghost use Rattle.er_text.specs.Words.{words_left};

    ghost Value = { List (List ℕ) };

    ghost view = { λ s. words_left s.rest };
}

impl<'a> Words<'a> {
    pub fn new(line: &'a [u8]) -> Words<'a>
        ensures { result ≡ words line.now }
    {
        Words { rest: Some(line) }
    }

    /// The next word, borrowed from the line. It is empty where two spaces meet, or one stands at
    /// an end of the line.
    #[tactic(auto, using(crate::proofs::WordLaws::words_found, crate::proofs::WordLaws::words_one))]
    pub fn next(&mut self) -> Option<&'a [u8]>
        ensures { MatchOption result ((self.old ≡ []) × (self.new ≡ []))
            (λ word. self.old ≡ word.now ∷ self.new) }
    {
        let rest = self.rest?;
        let Some(end) = first_place(rest, b' ') else {
            self.rest = None;
            return Some(rest);
        };
        self.rest = Some(&rest[end + 1..]);
        Some(&rest[..end])
    }
}
