//! Writing records as they are spelled.

ghost use Rattle.std.specs.Prelude.{◌≡◌, ℕ, ◌≤◌, List, [], ◌∷◌, map, decimal, OnOk, OnErr, codes};
ghost use Rattle.std.specs.List.{AllByRecursion};
ghost use Rattle.er_io.specs.Ends.{Puts};
ghost use Rattle.er_text.specs.Name.{IsName};
ghost use Rattle.er_trace.specs.Items.{IsItem, item_spelling, items_spelling, Word, Number, Named};
ghost use Rattle.er_trace.specs.Spelling.{loc_spelling, loc_items, mode_word, record_items, spelling, IsLoc, IsRecord};
ghost use Rattle.er_syntax.specs.Tokens.{line_items, token_item, tokens_spelling};

use er_io::{Failed, Sink, put_all};
use er_text::{put_name, put_number};
use er_trace::name::Name;
use er_trace::record::{Loc, Mode, Record};

/// An item of a line.
#[derive(Clone, Copy)]
enum Token<'a> {
    Text(&'a str),
    Number(u32),
    Named(&'a [u8]),
}

fn put_token<K: Sink>(sink: &mut K, token: &Token) -> Result<(), Failed>
    requires { IsItem (token_item token.now) }
    ensures { Puts K.got K.faults sink.old (item_spelling (token_item token.now)) sink.new result }
{
    match token {
        Token::Text(word) => put_all(sink, word.as_bytes()),
        Token::Number(number) => put_number(sink, *number as u64),
        Token::Named(name) => put_name(sink, name),
    }
}

/// Writes a space and the item.
#[tactic(auto, using(crate::proofs::PrintLaws::after_byte, er_io::proofs::Puts::composes))]
fn put_next<K: Sink>(sink: &mut K, token: &Token) -> Result<(), Failed>
    requires { IsItem (token_item token.now) }
    ensures { Puts K.got K.faults sink.old
        (32 ∷ item_spelling (token_item token.now)) sink.new result }
{
    put_all(sink, b" ")?;
    put_token(sink, token)
}

/// Writes the word and the items, with single spaces between.
#[tactic(auto, using(crate::proofs::PrintLaws::tokens_writes, er_io::proofs::Puts::composes))]
fn put_tokens<K: Sink>(sink: &mut K, word: &str, later: &[Token]) -> Result<(), Failed>
    requires { AllByRecursion IsItem (map token_item later.now) }
    ensures { Puts K.got K.faults sink.old (tokens_spelling word.now later.now) sink.new result }
{
    put_all(sink, word.as_bytes())?;
    for token in later {
        put_next(sink, token)?;
    }
    Ok(())
}

fn put_one<K: Sink>(sink: &mut K, word: &str, a: u32) -> Result<(), Failed>
    ensures { Puts K.got K.faults sink.old
        (items_spelling (Word word.now ∷ Number a ∷ [])) sink.new result }
{
    put_tokens(sink, word, &[Token::Number(a)])
}

fn put_two<K: Sink>(sink: &mut K, word: &str, a: u32, b: u32) -> Result<(), Failed>
    ensures { Puts K.got K.faults sink.old
        (items_spelling (Word word.now ∷ Number a ∷ Number b ∷ [])) sink.new result }
{
    put_tokens(sink, word, &[Token::Number(a), Token::Number(b)])
}

fn put_three<K: Sink>(sink: &mut K, word: &str, a: u32, b: u32, c: u32) -> Result<(), Failed>
    ensures { Puts K.got K.faults sink.old
        (items_spelling (Word word.now ∷ Number a ∷ Number b ∷ Number c ∷ [])) sink.new result }
{
    put_tokens(
        sink,
        word,
        &[Token::Number(a), Token::Number(b), Token::Number(c)],
    )
}

fn put_two_and_name<K: Sink>(
    sink: &mut K,
    word: &str,
    a: u32,
    b: u32,
    name: &Name,
) -> Result<(), Failed>
    ensures name { IsName name.now }
    ensures puts { Puts K.got K.faults sink.old
        (items_spelling (Word word.now ∷ Number a ∷ Number b ∷ Named name.now
        ∷ [])) sink.new result }
{
    put_tokens(
        sink,
        word,
        &[
            Token::Number(a),
            Token::Number(b),
            Token::Named(name.bytes()),
        ],
    )
}

fn put_made<K: Sink>(
    sink: &mut K,
    word: &str,
    doc: u32,
    element: u32,
    kind: &str,
) -> Result<(), Failed>
    ensures { Puts K.got K.faults sink.old
        (items_spelling (Word word.now ∷ Number doc ∷ Number element ∷ Word kind.now
        ∷ [])) sink.new result }
{
    put_tokens(
        sink,
        word,
        &[
            Token::Number(doc),
            Token::Number(element),
            Token::Text(kind),
        ],
    )
}

fn put_frame<K: Sink>(
    sink: &mut K,
    word: &str,
    doc: u32,
    element: u32,
    inner: u32,
) -> Result<(), Failed>
    ensures { Puts K.got K.faults sink.old
        (items_spelling (Word word.now ∷ Number doc ∷ Number element ∷ Word (codes "frame")
        ∷ Number inner ∷ [])) sink.new result }
{
    put_tokens(
        sink,
        word,
        &[
            Token::Number(doc),
            Token::Number(element),
            Token::Text("frame"),
            Token::Number(inner),
        ],
    )
}

fn put_located<K: Sink>(sink: &mut K, word: &str, number: u32, name: &Name) -> Result<(), Failed>
    ensures name { IsName name.now }
    ensures puts { Puts K.got K.faults sink.old
        (items_spelling (Word word.now ∷ Number number ∷ Named name.now ∷ [])) sink.new result }
{
    put_tokens(
        sink,
        word,
        &[Token::Number(number), Token::Named(name.bytes())],
    )
}

/// Writes the location as it is spelled. Any location can be printed (`fits`).
pub fn print_loc<K: Sink>(loc: &Loc, sink: &mut K) -> Result<(), Failed>
    ensures fits { IsLoc loc.now }
    ensures puts { Puts K.got K.faults sink.old (loc_spelling loc.now) sink.new result }
{
    match loc {
        Loc::Var(object, name) => put_located(sink, "var", *object, name),
        Loc::Elem(doc, name) => put_located(sink, "elem", *doc, name),
        Loc::Slot(element, name) => put_located(sink, "slot", *element, name),
    }
}

fn put_access<'a, K: Sink>(
    sink: &mut K,
    word: &str,
    place: &'a str,
    number: u32,
    name: &'a Name,
) -> Result<(), Failed>
    ensures name { IsName name.now }
    ensures puts { Puts K.got K.faults sink.old
        (items_spelling (Word word.now ∷ Word place.now ∷ Number number ∷ Named name.now
        ∷ [])) sink.new result }
{
    put_tokens(
        sink,
        word,
        &[
            Token::Text(place),
            Token::Number(number),
            Token::Named(name.bytes()),
        ],
    )
}

fn print_access<K: Sink>(mode: Mode, loc: &Loc, sink: &mut K) -> Result<(), Failed>
    ensures fits { IsLoc loc.now }
    ensures puts { Puts K.got K.faults sink.old
        (items_spelling (Word (mode_word mode) ∷ loc_items loc.now)) sink.new result }
{
    let word = mode.word();
    match loc {
        Loc::Var(object, name) => put_access(sink, word, "var", *object, name),
        Loc::Elem(doc, name) => put_access(sink, word, "elem", *doc, name),
        Loc::Slot(element, name) => put_access(sink, word, "slot", *element, name),
    }
}

/// What stands in the line of a record: its first word and what comes behind it.
#[derive(Drop)]
enum Line<'a> {
    One(&'static str, u32),
    Two(&'static str, u32, u32),
    Three(&'static str, u32, u32, u32),
    Named(&'static str, u32, u32, &'a Name),
    Made(&'static str, u32, u32, &'static str),
    Framing(&'static str, u32, u32, u32),
    Access(Mode, &'a Loc),
}

fn line_of<'a>(rec: &'a Record) -> Line<'a>
    ensures { line_items result ≡ record_items rec.now }
{
    match rec {
        Record::Parse { doc, element, kind } => Line::Made("parse", *doc, *element, kind.word()),
        Record::ParseFrame {
            doc,
            element,
            inner,
        } => Line::Framing("parse", *doc, *element, *inner),
        Record::Exec { element } => Line::One("exec", *element),
        Record::Timer { timeout } => Line::One("timer", *timeout),
        Record::Tick { interval } => Line::One("tick", *interval),
        Record::Dcl { dispatch, doc } => Line::Two("dcl", *dispatch, *doc),
        Record::Load { dispatch, doc } => Line::Two("load", *dispatch, *doc),
        Record::Eload { dispatch, element } => Line::Two("eload", *dispatch, *element),
        Record::Fire {
            dispatch,
            element,
            name,
        } => Line::Named("fire", *dispatch, *element, name),
        Record::Wfire {
            dispatch,
            doc,
            name,
        } => Line::Named("wfire", *dispatch, *doc, name),
        Record::Reply { dispatch, request } => Line::Two("reply", *dispatch, *request),
        Record::Inline {
            dispatch,
            element,
            name,
        } => Line::Named("inline", *dispatch, *element, name),
        Record::Run {
            dispatch,
            group,
            handler,
        } => Line::Three("run", *dispatch, *group, *handler),
        Record::Close { dispatch } => Line::One("close", *dispatch),
        Record::Back { dispatch } => Line::One("back", *dispatch),
        Record::New { doc, element, kind } => Line::Made("new", *doc, *element, kind.word()),
        Record::NewFrame {
            doc,
            element,
            inner,
        } => Line::Framing("new", *doc, *element, *inner),
        Record::On { handler } => Line::One("on", *handler),
        Record::Set { timeout, delay } => Line::Two("set", *timeout, *delay),
        Record::Every { interval, delay } => Line::Two("every", *interval, *delay),
        Record::Send { request } => Line::One("send", *request),
        Record::Post { message } => Line::One("post", *message),
        Record::Ask { anim } => Line::One("ask", *anim),
        Record::Queue { job } => Line::One("queue", *job),
        Record::Message { message } => Line::One("message", *message),
        Record::Anim { anim } => Line::One("anim", *anim),
        Record::Job { job } => Line::One("job", *job),
        Record::Access { mode, loc } => Line::Access(*mode, loc),
    }
}

fn put_line<K: Sink>(sink: &mut K, line: &Line) -> Result<(), Failed>
    ensures fits { AllByRecursion IsItem (line_items line.now) }
    ensures puts { Puts K.got K.faults sink.old
        (items_spelling (line_items line.now)) sink.new result }
{
    match line {
        Line::One(word, a) => put_one(sink, word, *a),
        Line::Two(word, a, b) => put_two(sink, word, *a, *b),
        Line::Three(word, a, b, c) => put_three(sink, word, *a, *b, *c),
        Line::Named(word, a, b, name) => put_two_and_name(sink, word, *a, *b, name),
        Line::Made(word, doc, element, kind) => put_made(sink, word, *doc, *element, kind),
        Line::Framing(word, doc, element, inner) => put_frame(sink, word, *doc, *element, *inner),
        Line::Access(mode, loc) => print_access(*mode, loc, sink),
    }
}

/// Writes the record as it is spelled, without an LF. Any record can be printed (`fits`), and
/// what is written of it is a line that [`crate::parse::parse_record`] reads back as that record
/// (its clause `exact`).
pub fn print_record<K: Sink>(rec: &Record, sink: &mut K) -> Result<(), Failed>
    ensures fits { IsRecord rec.now }
    ensures puts { Puts K.got K.faults sink.old (spelling rec.now) sink.new result }
{
    put_line(sink, &line_of(rec))
}
