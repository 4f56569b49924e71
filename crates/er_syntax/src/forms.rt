//! Reading each form of record of numbers and kinds, behind its first word.

ghost use Rattle.std.specs.Prelude.{◌≡◌, Some, IfSome};
ghost use Rattle.er_trace.specs.declared.record.Record.{Record};
ghost use Rattle.er_syntax.specs.Heads.{GoesOn};

use crate::head::{Head, is_word, kind_of, new_kind_of};
use crate::items::{is_ended, number, one_number, three_numbers, two_numbers};
use er_text::Words;
use er_trace::record::Record;

pub fn exec_form(words: &mut Words) -> Option<Record>
    ensures read { IfSome result (λ x. GoesOn Head.Exec x words.old) }
    ensures exact { (x : Record) → GoesOn Head.Exec x words.old → result ≡ Some x }
{
    let element = one_number(words)?;
    Some(Record::Exec { element })
}

pub fn timer_form(words: &mut Words) -> Option<Record>
    ensures read { IfSome result (λ x. GoesOn Head.Timer x words.old) }
    ensures exact { (x : Record) → GoesOn Head.Timer x words.old → result ≡ Some x }
{
    let timeout = one_number(words)?;
    Some(Record::Timer { timeout })
}

pub fn tick_form(words: &mut Words) -> Option<Record>
    ensures read { IfSome result (λ x. GoesOn Head.Tick x words.old) }
    ensures exact { (x : Record) → GoesOn Head.Tick x words.old → result ≡ Some x }
{
    let interval = one_number(words)?;
    Some(Record::Tick { interval })
}

pub fn close_form(words: &mut Words) -> Option<Record>
    ensures read { IfSome result (λ x. GoesOn Head.Close x words.old) }
    ensures exact { (x : Record) → GoesOn Head.Close x words.old → result ≡ Some x }
{
    let dispatch = one_number(words)?;
    Some(Record::Close { dispatch })
}

pub fn back_form(words: &mut Words) -> Option<Record>
    ensures read { IfSome result (λ x. GoesOn Head.Back x words.old) }
    ensures exact { (x : Record) → GoesOn Head.Back x words.old → result ≡ Some x }
{
    let dispatch = one_number(words)?;
    Some(Record::Back { dispatch })
}

pub fn on_form(words: &mut Words) -> Option<Record>
    ensures read { IfSome result (λ x. GoesOn Head.On x words.old) }
    ensures exact { (x : Record) → GoesOn Head.On x words.old → result ≡ Some x }
{
    let handler = one_number(words)?;
    Some(Record::On { handler })
}

pub fn send_form(words: &mut Words) -> Option<Record>
    ensures read { IfSome result (λ x. GoesOn Head.Send x words.old) }
    ensures exact { (x : Record) → GoesOn Head.Send x words.old → result ≡ Some x }
{
    let request = one_number(words)?;
    Some(Record::Send { request })
}

pub fn post_form(words: &mut Words) -> Option<Record>
    ensures read { IfSome result (λ x. GoesOn Head.Post x words.old) }
    ensures exact { (x : Record) → GoesOn Head.Post x words.old → result ≡ Some x }
{
    let message = one_number(words)?;
    Some(Record::Post { message })
}

pub fn ask_form(words: &mut Words) -> Option<Record>
    ensures read { IfSome result (λ x. GoesOn Head.Ask x words.old) }
    ensures exact { (x : Record) → GoesOn Head.Ask x words.old → result ≡ Some x }
{
    let anim = one_number(words)?;
    Some(Record::Ask { anim })
}

pub fn queue_form(words: &mut Words) -> Option<Record>
    ensures read { IfSome result (λ x. GoesOn Head.Queue x words.old) }
    ensures exact { (x : Record) → GoesOn Head.Queue x words.old → result ≡ Some x }
{
    let job = one_number(words)?;
    Some(Record::Queue { job })
}

pub fn message_form(words: &mut Words) -> Option<Record>
    ensures read { IfSome result (λ x. GoesOn Head.Message x words.old) }
    ensures exact { (x : Record) → GoesOn Head.Message x words.old → result ≡ Some x }
{
    let message = one_number(words)?;
    Some(Record::Message { message })
}

pub fn anim_form(words: &mut Words) -> Option<Record>
    ensures read { IfSome result (λ x. GoesOn Head.Anim x words.old) }
    ensures exact { (x : Record) → GoesOn Head.Anim x words.old → result ≡ Some x }
{
    let anim = one_number(words)?;
    Some(Record::Anim { anim })
}

pub fn job_form(words: &mut Words) -> Option<Record>
    ensures read { IfSome result (λ x. GoesOn Head.Job x words.old) }
    ensures exact { (x : Record) → GoesOn Head.Job x words.old → result ≡ Some x }
{
    let job = one_number(words)?;
    Some(Record::Job { job })
}

pub fn dcl_form(words: &mut Words) -> Option<Record>
    ensures read { IfSome result (λ x. GoesOn Head.Dcl x words.old) }
    ensures exact { (x : Record) → GoesOn Head.Dcl x words.old → result ≡ Some x }
{
    let (dispatch, doc) = two_numbers(words)?;
    Some(Record::Dcl { dispatch, doc })
}

pub fn load_form(words: &mut Words) -> Option<Record>
    ensures read { IfSome result (λ x. GoesOn Head.Load x words.old) }
    ensures exact { (x : Record) → GoesOn Head.Load x words.old → result ≡ Some x }
{
    let (dispatch, doc) = two_numbers(words)?;
    Some(Record::Load { dispatch, doc })
}

pub fn eload_form(words: &mut Words) -> Option<Record>
    ensures read { IfSome result (λ x. GoesOn Head.Eload x words.old) }
    ensures exact { (x : Record) → GoesOn Head.Eload x words.old → result ≡ Some x }
{
    let (dispatch, element) = two_numbers(words)?;
    Some(Record::Eload { dispatch, element })
}

pub fn reply_form(words: &mut Words) -> Option<Record>
    ensures read { IfSome result (λ x. GoesOn Head.Reply x words.old) }
    ensures exact { (x : Record) → GoesOn Head.Reply x words.old → result ≡ Some x }
{
    let (dispatch, request) = two_numbers(words)?;
    Some(Record::Reply { dispatch, request })
}

pub fn set_form(words: &mut Words) -> Option<Record>
    ensures read { IfSome result (λ x. GoesOn Head.Set x words.old) }
    ensures exact { (x : Record) → GoesOn Head.Set x words.old → result ≡ Some x }
{
    let (timeout, delay) = two_numbers(words)?;
    Some(Record::Set { timeout, delay })
}

pub fn every_form(words: &mut Words) -> Option<Record>
    ensures read { IfSome result (λ x. GoesOn Head.Every x words.old) }
    ensures exact { (x : Record) → GoesOn Head.Every x words.old → result ≡ Some x }
{
    let (interval, delay) = two_numbers(words)?;
    Some(Record::Every { interval, delay })
}

pub fn run_form(words: &mut Words) -> Option<Record>
    ensures read { IfSome result (λ x. GoesOn Head.Run x words.old) }
    ensures exact { (x : Record) → GoesOn Head.Run x words.old → result ≡ Some x }
{
    let (dispatch, group, handler) = three_numbers(words)?;
    Some(Record::Run {
        dispatch,
        group,
        handler,
    })
}

pub fn parse_form(words: &mut Words) -> Option<Record>
    ensures read { IfSome result (λ x. GoesOn Head.Parse x words.old) }
    ensures exact { (x : Record) → GoesOn Head.Parse x words.old → result ≡ Some x }
{
    let doc = number(words)?;
    let element = number(words)?;
    let word = words.next()?;
    if is_word(word, "frame") {
        let frame = one_number(words)?;
        return Some(Record::ParseFrame {
            doc,
            element,
            inner: frame,
        });
    }
    let kind = kind_of(word)?;
    if is_ended(words) {
        Some(Record::Parse { doc, element, kind })
    } else {
        None
    }
}

pub fn new_form(words: &mut Words) -> Option<Record>
    ensures read { IfSome result (λ x. GoesOn Head.New x words.old) }
    ensures exact { (x : Record) → GoesOn Head.New x words.old → result ≡ Some x }
{
    let doc = number(words)?;
    let element = number(words)?;
    let word = words.next()?;
    if is_word(word, "frame") {
        let inner = one_number(words)?;
        return Some(Record::NewFrame {
            doc,
            element,
            inner,
        });
    }
    let kind = new_kind_of(word)?;
    if is_ended(words) {
        Some(Record::New { doc, element, kind })
    } else {
        None
    }
}
