//! The tokens of the trace format, and the causes of a refusal.
//!
//! A line is a list of words separated by exactly one space. A word is a fixed one, a number or the
//! spelling of a name.
#![tactic(auto)]

mod causes;
pub mod laws;
mod lines;
mod names;
mod numbers;

pub use causes::Cause;
pub use lines::{Words, take_line};
pub use names::{MOST_NAME, NameBytes, NameWord, put_name, read_name};
pub use numbers::{BadToken, put_number, read_number};
