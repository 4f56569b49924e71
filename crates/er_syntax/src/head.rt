//! The first words of records, and the words of kinds.

ghost use Rattle.std.specs.Prelude.{◌≡◌, ◌<◌, ◌↔◌, IsTrue, Some, IfSome};
ghost use Rattle.er_syntax.specs.declared.head.Head.{Head};
ghost use Rattle.er_trace.specs.declared.record.Kind.{Kind};
ghost use Rattle.er_trace.specs.declared.record.NewKind.{NewKind};
ghost use Rattle.er_syntax.specs.Heads.{begins_task, head_word, HasEnds};
ghost use Rattle.er_trace.specs.Spelling.{kind_word, new_kind_word};

use er_trace::record::{Kind, NewKind};

/// The first word of a record.
#[derive(Clone, Copy, PartialEq, Eq)]
pub enum Head {
    Parse,
    Exec,
    Timer,
    Tick,
    Dcl,
    Load,
    Eload,
    Fire,
    Wfire,
    Reply,
    Inline,
    Run,
    Close,
    Back,
    New,
    On,
    Set,
    Every,
    Send,
    Post,
    Ask,
    Queue,
    Message,
    Anim,
    Job,
    R,
    W,
}

impl Head {
    pub fn word(self) -> &'static str
        ensures { result.now ≡ head_word self }
    {
        match self {
            Head::Parse => "parse",
            Head::Exec => "exec",
            Head::Timer => "timer",
            Head::Tick => "tick",
            Head::Dcl => "dcl",
            Head::Load => "load",
            Head::Eload => "eload",
            Head::Fire => "fire",
            Head::Wfire => "wfire",
            Head::Reply => "reply",
            Head::Inline => "inline",
            Head::Run => "run",
            Head::Close => "close",
            Head::Back => "back",
            Head::New => "new",
            Head::On => "on",
            Head::Set => "set",
            Head::Every => "every",
            Head::Send => "send",
            Head::Post => "post",
            Head::Ask => "ask",
            Head::Queue => "queue",
            Head::Message => "message",
            Head::Anim => "anim",
            Head::Job => "job",
            Head::R => "r",
            Head::W => "w",
        }
    }

    /// Whether a message, an animation callback or a job is declared or begun by a record with
    /// that first word.
    pub fn begins_task(self) -> bool
        ensures { result ≡ begins_task self }
    {
        match self {
            Head::Post | Head::Ask | Head::Queue | Head::Message | Head::Anim | Head::Job => true,
            _ => false,
        }
    }
}

/// Whether the bytes are that text.
pub fn is_word(bytes: &[u8], text: &str) -> bool
    ensures { IsTrue result ↔ (bytes.now ≡ text.now) }
{
    bytes == text.as_bytes()
}

/// The first word that is spelled so.
pub fn head_of(bytes: &[u8]) -> Option<Head>
    ensures read { IfSome result (λ head. bytes.now ≡ head_word head) }
    ensures exact { (head : Head) → bytes.now ≡ head_word head → result ≡ Some head }
{
    let first = *bytes.first()?;
    let last = *bytes.last()?;
    let head = head_between(first, last)?;
    if is_word(bytes, head.word()) {
        return Some(head);
    }
    None
}

/// The first word with this first and this last byte: there is at most one.
fn head_between(first: u8, last: u8) -> Option<Head>
    ensures read { IfSome result (λ head. HasEnds head first last) }
    ensures exact { (head : Head) → HasEnds head first last → result ≡ Some head }
{
    let head = match (first, last) {
        (b'p', b'e') => Head::Parse,
        (b'e', b'c') => Head::Exec,
        (b't', b'r') => Head::Timer,
        (b't', b'k') => Head::Tick,
        (b'd', b'l') => Head::Dcl,
        (b'l', b'd') => Head::Load,
        (b'e', b'd') => Head::Eload,
        (b'f', b'e') => Head::Fire,
        (b'w', b'e') => Head::Wfire,
        (b'r', b'y') => Head::Reply,
        (b'i', b'e') => Head::Inline,
        (b'r', b'n') => Head::Run,
        (b'c', b'e') => Head::Close,
        (b'b', b'k') => Head::Back,
        (b'n', b'w') => Head::New,
        (b'o', b'n') => Head::On,
        (b's', b't') => Head::Set,
        (b'e', b'y') => Head::Every,
        (b's', b'd') => Head::Send,
        (b'p', b't') => Head::Post,
        (b'a', b'k') => Head::Ask,
        (b'q', b'e') => Head::Queue,
        (b'm', b'e') => Head::Message,
        (b'a', b'm') => Head::Anim,
        (b'j', b'b') => Head::Job,
        (b'r', b'r') => Head::R,
        (b'w', b'w') => Head::W,
        _ => return None,
    };
    Some(head)
}

/// The kind that is spelled so.
pub fn kind_of(bytes: &[u8]) -> Option<Kind>
    ensures read { IfSome result (λ kind. bytes.now ≡ kind_word kind) }
    ensures exact { (kind : Kind) → bytes.now ≡ kind_word kind → result ≡ Some kind }
{
    if is_word(bytes, "plain") {
        return Some(Kind::Plain);
    }
    if is_word(bytes, "inline") {
        return Some(Kind::Inline);
    }
    if is_word(bytes, "sync") {
        return Some(Kind::Sync);
    }
    if is_word(bytes, "defer") {
        return Some(Kind::Defer);
    }
    if is_word(bytes, "async") {
        return Some(Kind::Async);
    }
    if is_word(bytes, "image") {
        return Some(Kind::Image);
    }
    None
}

/// The kind of an element that a script made, that is spelled so.
pub fn new_kind_of(bytes: &[u8]) -> Option<NewKind>
    ensures read { IfSome result (λ kind. bytes.now ≡ new_kind_word kind) }
    ensures exact { (kind : NewKind) → bytes.now ≡ new_kind_word kind → result ≡ Some kind }
{
    if is_word(bytes, "plain") {
        return Some(NewKind::Plain);
    }
    if is_word(bytes, "async") {
        return Some(NewKind::Async);
    }
    if is_word(bytes, "image") {
        return Some(NewKind::Image);
    }
    None
}
