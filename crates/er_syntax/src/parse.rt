//! Reading one record.

ghost use Rattle.std.specs.Prelude.{◌≡◌, ◌⊎◌, ◌||◌, not, Ok, Err, IfOk};
ghost use Rattle.std.specs.Option.{ok_or};
ghost use Rattle.er_trace.specs.declared.record.Record.{Record};
ghost use Rattle.er_syntax.specs.Heads.{begins_task, GoesOn};
ghost use Rattle.er_trace.specs.Spelling.{spelling};
ghost use Rattle.er_trace.specs.Versions.{has_tasks, IsRecordOf};

use crate::forms::{
    anim_form, ask_form, back_form, close_form, dcl_form, eload_form, every_form, exec_form,
    job_form, load_form, message_form, new_form, on_form, parse_form, post_form, queue_form,
    reply_form, run_form, send_form, set_form, tick_form, timer_form,
};
use crate::head::{Head, head_of};
use crate::named_forms::{access_form, fire_form, inline_form, wfire_form};
use er_text::Words;
use er_trace::fault::LineFault;
use er_trace::record::{Mode, Record};
use er_trace::version::Version;
use std::alloc::Global;

/// What a form without names gives.
fn without_names(form: Option<Record>) -> Result<Record, LineFault>
    ensures { result ≡ ok_or form LineFault.BadRecord }
{
    form.ok_or(LineFault::BadRecord)
}

/// The record that begins with that word, and goes on with those that are left.
fn read_form(alloc: Global, head: Head, words: &mut Words) -> Result<Record, LineFault>
    ensures read { IfOk result (λ x. GoesOn head x words.old) }
    ensures exact { (x : Record) → GoesOn head x words.old
        → (result ≡ Ok x) ⊎ (result ≡ Err LineFault.NoMemory) }
{
    match head {
        Head::Parse => without_names(parse_form(words)),
        Head::Exec => without_names(exec_form(words)),
        Head::Timer => without_names(timer_form(words)),
        Head::Tick => without_names(tick_form(words)),
        Head::Dcl => without_names(dcl_form(words)),
        Head::Load => without_names(load_form(words)),
        Head::Eload => without_names(eload_form(words)),
        Head::Fire => fire_form(alloc, words),
        Head::Wfire => wfire_form(alloc, words),
        Head::Reply => without_names(reply_form(words)),
        Head::Inline => inline_form(alloc, words),
        Head::Run => without_names(run_form(words)),
        Head::Close => without_names(close_form(words)),
        Head::Back => without_names(back_form(words)),
        Head::New => without_names(new_form(words)),
        Head::On => without_names(on_form(words)),
        Head::Set => without_names(set_form(words)),
        Head::Every => without_names(every_form(words)),
        Head::Send => without_names(send_form(words)),
        Head::Post => without_names(post_form(words)),
        Head::Ask => without_names(ask_form(words)),
        Head::Queue => without_names(queue_form(words)),
        Head::Message => without_names(message_form(words)),
        Head::Anim => without_names(anim_form(words)),
        Head::Job => without_names(job_form(words)),
        Head::R => access_form(alloc, Mode::R, words),
        Head::W => access_form(alloc, Mode::W, words),
    }
}

/// Whether the version has the records that begin with that word.
fn has_head(version: Version, head: Head) -> bool
    ensures { result ≡ (not (begins_task head) || has_tasks version) }
{
    !head.begins_task() | version.has_tasks()
}

/// The record of that version that is spelled so. `BadRecord` comes where none is. Each printed
/// record parses back in the versions that have it: it has a spelling (`fits` of
/// [`crate::print::print_record`]), and its spelling gives it again (`exact`), memory allowing.
pub fn parse_record(alloc: Global, version: Version, line: &[u8]) -> Result<Record, LineFault>
    ensures read { IfOk result (λ x. IsRecordOf version x × (line.now ≡ spelling x)) }
    ensures exact { (x : Record) → IsRecordOf version x → line.now ≡ spelling x
        → (result ≡ Ok x) ⊎ (result ≡ Err LineFault.NoMemory) }
{
    let mut words = Words::new(line);
    let Some(first) = words.next() else {
        return Err(LineFault::BadRecord);
    };
    let Some(head) = head_of(first) else {
        return Err(LineFault::BadRecord);
    };
    if !has_head(version, head) {
        return Err(LineFault::BadRecord);
    }
    read_form(alloc, head, &mut words)
}
