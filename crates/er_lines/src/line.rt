//! One line of a trace.

ghost use Rattle.std.specs.Prelude.{◌≡◌, ℕ, List, ◌++◌, IfOk};
ghost use Rattle.er_text.specs.declared.causes.Cause.{Cause};
ghost use Rattle.er_trace.specs.declared.record.Record.{Record};
ghost use Rattle.er_lines.specs.Marks.{number_at, IsOpen};
ghost use Rattle.er_lines.specs.Steps.{IsLine, IsBadLine};

use crate::format::{Later, Lines};
use crate::mark::Mark;
use er_text::Cause;
use er_trace::fault::{FeedFault, LineFault};
use er_trace::record::Record;
use std::alloc::Global;

/// Reads the whole line at the mark, without its LF: hands its record on, and answers the mark of
/// the next line.
pub fn read_line<L: Lines>(
    alloc: Global,
    mark: Mark,
    line: &[u8],
    out: &mut Vec<Record>,
) -> Result<Mark, FeedFault>
    requires { IsOpen mark }
    ensures read { IfOk result (λ next. (came : List Record)
        × IsLine L.format mark line.now next came
        × (out.new.items ≡ out.old.items ++ came)) }
    ensures refused { (n : ℕ) (c : Cause) → result ≡ Err (FeedFault.Refused n c)
        → (n ≡ number_at mark) × IsBadLine L.format mark line.now c
        × (out.new.items ≡ out.old.items) }
    ensures no_memory { result ≡ Err FeedFault.NoMemory → out.new.items ≡ out.old.items }
{
    let Mark::After(version, records) = mark else {
        return match L::read_header(alloc, line) {
            Ok(Some(version)) => Ok(Mark::After(version, 0)),
            Ok(None) => Err(FeedFault::Refused {
                line: 1,
                cause: Cause::BadHeader,
            }),
            Err(_) => Err(FeedFault::NoMemory),
        };
    };
    match L::read_later(alloc, version, line) {
        Ok(Later::End) => Ok(Mark::Ended(version, records)),
        Ok(Later::One(found)) => {
            let Ok(()) = out.push(found) else {
                return Err(FeedFault::NoMemory);
            };
            Ok(Mark::After(version, records + 1))
        }
        Err(LineFault::BadRecord) => Err(FeedFault::Refused {
            line: records + 2,
            cause: Cause::BadRecord,
        }),
        Err(LineFault::NoMemory) => Err(FeedFault::NoMemory),
    }
}
