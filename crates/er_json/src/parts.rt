//! What a fragment of a line is put together from.

ghost use Rattle.std.specs.List.{flat_map};
ghost use Rattle.er_io.specs.Ends.{Puts};
ghost use Rattle.er_json.specs.Parts.{part_text};

use crate::location::put_location;
use er_io::{Failed, Sink, put_all};
use er_syntax::Text;
use er_text::put_number;
use er_trace::record::Loc;

/// A part of a fragment.
#[derive(Clone, Copy)]
pub(crate) enum Part<'a> {
    /// A text as it stands.
    Plain(&'a str),
    Number(u64),
    /// A location in a string.
    Location(&'a Loc),
}

/// Some parts, one behind the other.
#[derive(Drop)]
pub(crate) struct Fragment<'a> {
    pub(crate) parts: &'a [Part<'a>],
}

impl<'a> Text for Fragment<'a> {
    ghost text = { λ fragment. flat_map part_text fragment.parts.now };

    fn put<K: Sink>(&self, sink: &mut K) -> Result<(), Failed> {
        put_parts(sink, self.parts)
    }
}

#[tactic(auto, using(er_io::proofs::Puts::composes))]
fn put_parts<K: Sink>(sink: &mut K, parts: &[Part]) -> Result<(), Failed>
    ensures { Puts K.got K.faults sink.old (flat_map part_text parts.now) sink.new result }
{
    let Some((part, later)) = parts.split_first() else {
        return Ok(());
    };
    put_part(sink, part)?;
    put_parts(sink, later)
}

fn put_part<K: Sink>(sink: &mut K, part: &Part) -> Result<(), Failed>
    ensures { Puts K.got K.faults sink.old (part_text part.now) sink.new result }
{
    match part {
        Part::Plain(text) => put_all(sink, text.as_bytes()),
        Part::Number(number) => put_number(sink, *number),
        Part::Location(loc) => put_location(sink, loc),
    }
}
