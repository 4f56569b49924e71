//! A location as it stands in a string of JSON.

ghost use Rattle.std.specs.Prelude.{◌≡◌, ℕ, ◌≤◌, ◌<◌, [], ◌∷◌, length, position, All};
ghost use Rattle.er_io.specs.Ends.{Puts};
ghost use Rattle.er_text.specs.Name.{most_name, name_spelling};
ghost use Rattle.er_json.specs.Parts.{is_escaped, located, location_letters, name_letters};

use er_io::{Failed, Sink, put_all};
use er_text::put_number;
use er_trace::name::Name;
use er_trace::record::Loc;

/// Writes the letters of a location, without the quotes around them.
#[tactic(auto, using(crate::proofs::LetterLemmas::locations))]
pub(crate) fn put_location<K: Sink>(sink: &mut K, loc: &Loc) -> Result<(), Failed>
    ensures { Puts K.got K.faults sink.old (location_letters loc.now) sink.new result }
{
    match loc {
        Loc::Var(object, name) => put_located(sink, "var ", *object, name),
        Loc::Elem(doc, name) => put_located(sink, "elem ", *doc, name),
        Loc::Slot(element, name) => put_located(sink, "slot ", *element, name),
    }
}

/// Writes a word, a number and a name.
#[tactic(auto, using(er_io::proofs::Puts::composes))]
fn put_located<K: Sink>(sink: &mut K, word: &str, number: u32, name: &Name) -> Result<(), Failed>
    ensures { Puts K.got K.faults sink.old (located word.now number name.now) sink.new result }
{
    put_all(sink, word.as_bytes())?;
    put_number(sink, number as u64)?;
    put_all(sink, b" ")?;
    put_name(sink, name.bytes())
}

/// Writes the spelling of some bytes of a name, with a backslash before each quote and each
/// backslash.
#[tactic(auto, using(crate::proofs::LetterLemmas::escapes))]
fn put_name<K: Sink>(sink: &mut K, name: &[u8]) -> Result<(), Failed>
    requires bytes { All (λ b. b < 256) name.now }
    requires few { length name.now ≤ most_name }
    ensures { Puts K.got K.faults sink.old (name_letters name.now) sink.new result }
{
    let Some(place) = first_escaped(name) else {
        return put_part(sink, name);
    };
    put_part(sink, &name[..place])?;
    put_all(sink, &[b'\\', name[place]])?;
    put_name(sink, &name[place + 1..])
}

/// Where the first quote or backslash stands.
fn first_escaped(name: &[u8]) -> Option<usize>
    ensures { result ≡ position is_escaped name.now }
{
    name.iter().position(|byte| *byte == b'"' || *byte == b'\\')
}

/// Writes the spelling of some bytes of a name, or of none.
fn put_part<K: Sink>(sink: &mut K, part: &[u8]) -> Result<(), Failed>
    requires { length part.now ≤ most_name }
    ensures { Puts K.got K.faults sink.old (name_spelling part.now) sink.new result }
{
    if part.is_empty() {
        return Ok(());
    }
    er_text::put_name(sink, part)
}
