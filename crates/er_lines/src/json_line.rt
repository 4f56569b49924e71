//! One line of JSON: an array of the tokens of a line of a trace.

mod kinds;
mod letters;
mod line;
mod members;
mod plain;

pub use line::{parse_json_line, read_header, read_later};
pub use plain::plain_json_line;
