//! The parts of a line.

ghost use Rattle.std.specs.Prelude.{List, [], ◌∷◌, ◌++◌};
ghost use Rattle.er_io.specs.Ends.{Puts};
ghost use Rattle.er_trace.specs.Items.{Word, Number};
ghost use Rattle.er_trace.specs.Spelling.{mode_word, loc_items};
ghost use Rattle.er_syntax.specs.Lines.{item_start, item_line, count_line};

use crate::print::print_loc;
use er_io::{Failed, Sink, put_all};
use er_text::put_number;
use er_trace::record::{Loc, Mode};

/// Writes a word and a space.
#[tactic(auto, using(er_io::proofs::Puts::composes, crate::proofs::LineLemmas::word_start))]
pub fn put_word<K: Sink>(sink: &mut K, word: &str) -> Result<(), Failed>
    ensures { Puts K.got K.faults sink.old (item_start (Word word.now)) sink.new result }
{
    put_all(sink, word.as_bytes())?;
    put_all(sink, b" ")
}

/// Writes a number and a space.
#[tactic(auto, using(er_io::proofs::Puts::composes, crate::proofs::LineLemmas::number_start))]
pub fn put_field<K: Sink>(sink: &mut K, number: u64) -> Result<(), Failed>
    ensures { Puts K.got K.faults sink.old (item_start (Number number)) sink.new result }
{
    put_number(sink, number)?;
    put_all(sink, b" ")
}

/// Writes the letters of two modes and a space.
#[tactic(auto, using(er_io::proofs::Puts::composes, crate::proofs::LineLemmas::modes_start))]
pub fn put_modes<K: Sink>(sink: &mut K, first: Mode, second: Mode) -> Result<(), Failed>
    ensures { Puts K.got K.faults sink.old
        (item_start (Word (mode_word first ++ mode_word second))) sink.new result }
{
    put_all(sink, first.word().as_bytes())?;
    put_all(sink, second.word().as_bytes())?;
    put_all(sink, b" ")
}

/// Writes a location and ends the line.
#[tactic(auto, using(er_io::proofs::Puts::composes, crate::proofs::LineLemmas::loc_line))]
pub fn end_with_loc<K: Sink>(sink: &mut K, loc: &Loc) -> Result<(), Failed>
    ensures { Puts K.got K.faults sink.old (item_line (loc_items loc.now)) sink.new result }
{
    print_loc(loc, sink)?;
    put_all(sink, b"\n")
}

/// Writes a number and ends the line.
#[tactic(auto, using(er_io::proofs::Puts::composes, crate::proofs::LineLemmas::number_line))]
pub fn end_with_number<K: Sink>(sink: &mut K, number: u64) -> Result<(), Failed>
    ensures { Puts K.got K.faults sink.old (item_line (Number number ∷ [])) sink.new result }
{
    put_number(sink, number)?;
    put_all(sink, b"\n")
}

/// Writes a word and ends the line.
#[tactic(auto, using(er_io::proofs::Puts::composes, crate::proofs::LineLemmas::word_line))]
pub fn end_with_word<K: Sink>(sink: &mut K, word: &str) -> Result<(), Failed>
    ensures { Puts K.got K.faults sink.old (item_line (Word word.now ∷ [])) sink.new result }
{
    put_all(sink, word.as_bytes())?;
    put_all(sink, b"\n")
}

/// Writes the line of a count.
#[tactic(auto, using(er_io::proofs::Puts::composes, crate::proofs::LineLemmas::count_parts))]
pub fn put_count<K: Sink>(sink: &mut K, name: &str, number: u64) -> Result<(), Failed>
    ensures { Puts K.got K.faults sink.old (count_line name.now number) sink.new result }
{
    put_word(sink, name)?;
    end_with_number(sink, number)
}
