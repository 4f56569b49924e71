//! Writing a whole chunk.

ghost use Rattle.er_io.specs.Ends.{Puts};

use crate::ends::{Failed, Sink};

/// Writes the whole chunk, by as many writes as the sink needs. It stops at the first that fails.
#[tactic(auto, unfolding(crate::specs::Ends::GetsPart))]
pub fn put_all<K: Sink>(sink: &mut K, chunk: &[u8]) -> Result<(), Failed>
    ensures { Puts K.got K.faults sink.old chunk.now sink.new result }
{
    let mut done = 0;
    while done < chunk.len() {
        done += sink.write(&chunk[done..])?;
    }
    Ok(())
}
