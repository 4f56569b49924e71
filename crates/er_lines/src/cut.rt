//! How a line goes on in a chunk.

ghost use Rattle.std.specs.Prelude.{◌<◌, ◌≤◌, ◌^◌};
ghost use Rattle.er_lines.specs.Steps.{GoesOnAs};

use er_text::take_line;

/// How a line goes on.
#[derive(Drop)]
pub enum Next<'a> {
    /// It ends: the bytes before its LF, and those after it.
    Ends(&'a [u8], &'a [u8]),
    /// All bytes are of the line.
    GoesOn,
    /// It has more bytes than a line may have.
    TooLong,
}

/// How the line goes on, of which so many bytes have come before, where it may have so many. It
/// looks no further than a line may go.
#[tactic(auto, using(crate::proofs::CutLaws::cuts))]
pub fn next_of(most: usize, kept: usize, chunk: &[u8]) -> Next<'_>
    requires small { most < 2 ^ 32 }
    requires few { kept ≤ most }
    ensures { GoesOnAs most kept chunk.now result }
{
    let room = most - kept;
    let near = chunk.len().min(room + 1);
    if let Some((front, _)) = take_line(&chunk[..near]) {
        return Next::Ends(front, &chunk[front.len() + 1..]);
    }
    if chunk.len() > room {
        Next::TooLong
    } else {
        Next::GoesOn
    }
}
