//! Long inputs, made of parts.

use std::alloc::{AllocError, Global};

/// Lines that come once for each of several numbers.
#[derive(Clone, Copy)]
pub(crate) enum Lines {
    /// A letter, with no line end behind it.
    Letter,
    /// A read of one variable.
    Read,
    /// A read of a variable of the object with this number.
    Variable,
    /// A parse step of the element with this number.
    Step,
    /// A parse step that reads one variable.
    Reader,
    /// A parse step that writes one variable.
    Writer,
    /// An inline dispatch and its handler.
    Inline,
    /// The close of that dispatch, and its back.
    Back,
    /// Sets a timeout, with a delay that is less for a greater number.
    Set,
    /// A timeout that writes one variable.
    Timer,
}

/// A part of an input.
#[derive(Clone, Copy)]
pub(crate) enum Part {
    Text(&'static str),
    /// Lines for the numbers from the first to the last.
    Up(Lines, u32, u32),
    /// Lines for the numbers from the last to the first.
    Down(Lines, u32, u32),
}

fn put_lines(text: &mut String, lines: Lines, number: u32) -> Result<(), AllocError> {
    match lines {
        Lines::Letter => text.push_str("a"),
        Lines::Read => text.push_str("r var 0 x\n"),
        Lines::Variable => write!(text, "r var {number} x\n"),
        Lines::Step => write!(text, "parse 0 {number} plain\n"),
        Lines::Reader => write!(text, "parse 0 {number} plain\nr var 0 x\n"),
        Lines::Writer => write!(text, "parse 0 {number} plain\nw var 0 x\n"),
        Lines::Inline => write!(text, "inline {number} 1 a\nrun {number} 0 1\n"),
        Lines::Back => write!(text, "close {number}\nback {number}\n"),
        Lines::Set => write!(text, "set {number} {}\n", 9999u32.saturating_sub(number)),
        Lines::Timer => write!(text, "timer {number}\nw var 0 x\n"),
    }
}

fn put_part(text: &mut String, part: Part) -> Result<(), AllocError> {
    match part {
        Part::Text(chunk) => text.push_str(chunk),
        Part::Up(lines, first, last) => {
            for number in first..=last {
                put_lines(text, lines, number)?;
            }
            Ok(())
        }
        Part::Down(lines, first, last) => {
            for number in (first..=last).rev() {
                put_lines(text, lines, number)?;
            }
            Ok(())
        }
    }
}

fn put_parts(text: &mut String, parts: &[Part]) -> Result<(), AllocError> {
    for part in parts {
        put_part(text, *part)?;
    }
    Ok(())
}

/// The parts behind the header.
pub(crate) fn input_of(alloc: Global, parts: &[Part]) -> Result<String, AllocError> {
    let mut text = String::from_str(alloc, "webtrace 1\n")?;
    put_parts(&mut text, parts)?;
    Ok(text)
}
