//! The event that a record begins, or goes on with.

ghost use Rattle.std.specs.Prelude.{◌≡◌, ℕ, ◌+◌, List, ◌∷◌, reverse, slice_get, option_map};
ghost use Rattle.er_trace.specs.declared.record.Record.{Record};
ghost use Rattle.er_history.specs.Naming.{IsNamed};
ghost use Rattle.er_page.specs.declared.stack.Level.{Level};
ghost use Rattle.er_page.specs.Pieces.{PiecesAre, about_start, about_begun, start_in, served, top_begin};
ghost use Rattle.er_page.specs.Stack.{StackIs};

use crate::piece::{Pieces, Start};
use crate::pieces::begun_by;
use crate::stack::Stack;
use er_trace::record::Record;

/// The event that a record begins, or goes on with, where naming accepts the record. A
/// note does neither.
pub(crate) fn start_of(stack: &Stack, pieces: &Pieces, rec: &Record) -> Option<Start>
    ensures { (h : List Record) → StackIs stack.now h → PiecesAre pieces.now h
        → IsNamed (rec.now ∷ h) → option_map about_start result ≡ about_begun h rec.now }
{
    if let Record::Back { .. } = rec {
        return resumed(stack, pieces);
    }
    let begun = begun_by(rec)?;
    Some(Start {
        event: pieces.count(),
        begun,
        serves: served(stack, rec),
    })
}

/// The begin of the dispatch on top, for a handler or a close, which serves it.
fn served(stack: &Stack, rec: &Record) -> Option<u32>
    ensures { result ≡ served (reverse stack.now.levels.items) rec.now }
{
    match rec {
        Record::Run { .. } => top_begin(stack),
        Record::Close { .. } => top_begin(stack),
        _ => None,
    }
}

fn top_begin(stack: &Stack) -> Option<u32>
    ensures { result ≡ top_begin (reverse stack.now.levels.items) }
{
    let top = stack.top_level()?;
    Some(top.begin)
}

/// The event of the piece just before the begin of the dispatch on top.
fn resumed(stack: &Stack, pieces: &Pieces) -> Option<Start>
    ensures { (n : ℕ) (l : Level) (below : List Level) → reverse stack.now.levels.items ≡ l ∷ below
        → l.begin ≡ n + 1 → result ≡ option_map start_in (slice_get pieces.now.list.items n) }
{
    let begin = top_begin(stack)?;
    pieces.before(begin)
}
