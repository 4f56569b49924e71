//! The forms of record that a round has.

ghost use Rattle.std.specs.Prelude.{◌≡◌, ◌≤◌, IfOk, codes, length};
ghost use Rattle.er_text.specs.Name.{most_name};
ghost use Rattle.er_gen.specs.Generated as spec;

use er_io::NoMemory;
use er_trace::name::Name;
use er_trace::record::{Kind, Loc, Mode, Record};
use std::alloc::Global;

/// A read of a variable of object 0.
pub(crate) fn read(alloc: Global, name: &str) -> Result<Record, NoMemory>
    requires some { 1 ≤ length name.now }
    requires few { length name.now ≤ most_name }
    ensures { IfOk result (λ made. made ≡ spec.reads name.now) }
{
    let name = Name::new(alloc, name.as_bytes())?;
    Ok(Record::Access {
        mode: Mode::R,
        loc: Loc::Var(0, name),
    })
}

/// A write of a variable of object 0.
pub(crate) fn write(alloc: Global, name: &str) -> Result<Record, NoMemory>
    requires some { 1 ≤ length name.now }
    requires few { length name.now ≤ most_name }
    ensures { IfOk result (λ made. made ≡ spec.writes name.now) }
{
    let name = Name::new(alloc, name.as_bytes())?;
    Ok(Record::Access {
        mode: Mode::W,
        loc: Loc::Var(0, name),
    })
}

/// The begin of a click at element 1.
pub(crate) fn click(alloc: Global, dispatch: u32) -> Result<Record, NoMemory>
    ensures { IfOk result (λ made. made ≡ Record.Fire dispatch 1 (codes "click")) }
{
    let name = Name::new(alloc, b"click")?;
    Ok(Record::Fire {
        dispatch,
        element: 1,
        name,
    })
}

/// The begin of a focus at element 1 that a script called.
pub(crate) fn focus(alloc: Global, dispatch: u32) -> Result<Record, NoMemory>
    ensures { IfOk result (λ made. made ≡ Record.Inline dispatch 1 (codes "focus")) }
{
    let name = Name::new(alloc, b"focus")?;
    Ok(Record::Inline {
        dispatch,
        element: 1,
        name,
    })
}

/// A handler runs in group 0.
pub(crate) fn run(dispatch: u32, handler: u32) -> Record
    ensures { result ≡ Record.Run dispatch 0 handler }
{
    Record::Run {
        dispatch,
        group: 0,
        handler,
    }
}

/// A parse step of document 0 that makes an element.
pub(crate) fn parse(element: u32, kind: Kind) -> Record
    ensures { result ≡ Record.Parse 0 element kind }
{
    Record::Parse {
        doc: 0,
        element,
        kind,
    }
}
