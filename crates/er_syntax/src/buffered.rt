//! A buffer in front of a sink, so that a text of many small parts takes few writes.

ghost use Rattle.std.specs.Prelude.{◌≡◌, ℕ, ◌≤◌, List, [], ◌++◌, length, take, OnOk, OnErr};
ghost use Rattle.er_io.specs.Ends.{GetsPart, Puts};
ghost use Rattle.er_syntax.specs.Buffered.{CountsFaults, HoldsRest};

use crate::buffer::Buffer;
use er_io::{Failed, Sink, put_all};

/// A text that can be written to any sink.
pub trait Text {
    /// The bytes of the text.
    ghost text: { Self → List ℕ };

    /// Writes the text. It stops at the first write that fails.
    fn put<K: Sink>(&self, sink: &mut K) -> Result<(), Failed>
        ensures { Puts K.got K.faults sink.old (text self.now) sink.new result };
}

/// Puts the text behind what the buffer holds, as a whole or not at all.
#[tactic(auto, using(crate::proofs::BufferedLemmas::holding))]
fn hold<T: Text>(buffer: &mut Buffer, text: &T) -> Result<(), Failed>
    ensures held { OnOk result (buffer.new ≡ buffer.old ++ T.text text.now) }
    ensures left { OnErr result (buffer.new ≡ buffer.old) }
{
    let before = buffer.len();
    if let Ok(()) = text.put(buffer) {
        return Ok(());
    }
    buffer.cut(before);
    Err(Failed)
}

/// Puts the text behind what the buffer holds. Where there is no room, what it holds is written
/// first. A text for which no buffer is long enough goes straight to the sink.
#[tactic(auto, using(er_io::proofs::Puts::composes, crate::proofs::BufferedLemmas::holds))]
pub fn put_text<K: Sink, T: Text>(sink: &mut K, buffer: &mut Buffer, text: &T) -> Result<(), Failed>
    ensures whole { OnOk result (HoldsRest (K.got sink.old) (buffer.old ++ T.text text.now)
        (K.got sink.new) buffer.new) }
    ensures part { OnErr result (GetsPart (K.got sink.old) (buffer.old ++ T.text text.now)
        (K.got sink.new)) }
    ensures counts { CountsFaults K.faults sink.old sink.new result }
{
    if let Ok(()) = hold(buffer, text) {
        return Ok(());
    }
    flush(sink, buffer)?;
    if let Ok(()) = hold(buffer, text) {
        return Ok(());
    }
    text.put(sink)
}

/// Writes what the buffer holds, and empties it.
pub fn flush<K: Sink>(sink: &mut K, buffer: &mut Buffer) -> Result<(), Failed>
    ensures emptied { buffer.new ≡ [] }
    ensures puts { Puts K.got K.faults sink.old buffer.old sink.new result }
{
    let flushed = put_all(sink, buffer.bytes());
    buffer.cut(0);
    flushed
}
