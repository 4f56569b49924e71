//! Reading each form of record with a name, behind its first word.

ghost use Rattle.std.specs.Prelude.{◌≡◌, ◌⊎◌, Ok, Err, IfOk, map};
ghost use Rattle.er_trace.specs.declared.record.Loc.{Loc};
ghost use Rattle.er_trace.specs.Items.{item_spelling};
ghost use Rattle.er_trace.specs.Spelling.{IsLoc, loc_items};
ghost use Rattle.er_trace.specs.declared.record.Record.{Record};
ghost use Rattle.er_syntax.specs.Heads.{GoesOn, mode_head};

use crate::head::{Head, is_word};
use crate::items::{number_and_name, two_numbers_and_name};
use er_text::Words;
use er_trace::fault::LineFault;
use er_trace::record::{Loc, Mode, Record};
use std::alloc::Global;

pub fn fire_form(alloc: Global, words: &mut Words) -> Result<Record, LineFault>
    ensures read { IfOk result (λ x. GoesOn Head.Fire x words.old) }
    ensures exact { (x : Record) → GoesOn Head.Fire x words.old
        → (result ≡ Ok x) ⊎ (result ≡ Err LineFault.NoMemory) }
{
    let (dispatch, element, name) = two_numbers_and_name(alloc, words)?;
    Ok(Record::Fire {
        dispatch,
        element,
        name,
    })
}

pub fn wfire_form(alloc: Global, words: &mut Words) -> Result<Record, LineFault>
    ensures read { IfOk result (λ x. GoesOn Head.Wfire x words.old) }
    ensures exact { (x : Record) → GoesOn Head.Wfire x words.old
        → (result ≡ Ok x) ⊎ (result ≡ Err LineFault.NoMemory) }
{
    let (dispatch, doc, name) = two_numbers_and_name(alloc, words)?;
    Ok(Record::Wfire {
        dispatch,
        doc,
        name,
    })
}

pub fn inline_form(alloc: Global, words: &mut Words) -> Result<Record, LineFault>
    ensures read { IfOk result (λ x. GoesOn Head.Inline x words.old) }
    ensures exact { (x : Record) → GoesOn Head.Inline x words.old
        → (result ≡ Ok x) ⊎ (result ≡ Err LineFault.NoMemory) }
{
    let (dispatch, element, name) = two_numbers_and_name(alloc, words)?;
    Ok(Record::Inline {
        dispatch,
        element,
        name,
    })
}

/// The location that is all that is left.
fn location(alloc: Global, words: &mut Words) -> Result<Loc, LineFault>
    ensures read { IfOk result
        (λ loc. IsLoc loc × (words.old ≡ map item_spelling (loc_items loc))) }
    ensures exact { (loc : Loc) → IsLoc loc → words.old ≡ map item_spelling (loc_items loc)
        → (result ≡ Ok loc) ⊎ (result ≡ Err LineFault.NoMemory) }
{
    let Some(word) = words.next() else {
        return Err(LineFault::BadRecord);
    };
    let (number, name) = number_and_name(alloc, words)?;
    if is_word(word, "var") {
        return Ok(Loc::Var(number, name));
    }
    if is_word(word, "elem") {
        return Ok(Loc::Elem(number, name));
    }
    if is_word(word, "slot") {
        return Ok(Loc::Slot(number, name));
    }
    Err(LineFault::BadRecord)
}

pub fn access_form(alloc: Global, mode: Mode, words: &mut Words) -> Result<Record, LineFault>
    ensures read { IfOk result (λ x. GoesOn (mode_head mode) x words.old) }
    ensures exact { (x : Record) → GoesOn (mode_head mode) x words.old
        → (result ≡ Ok x) ⊎ (result ≡ Err LineFault.NoMemory) }
{
    let loc = location(alloc, words)?;
    Ok(Record::Access { mode, loc })
}
