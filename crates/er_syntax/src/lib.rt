//! Reading lines of the trace format `webtrace`, and writing records and other lines: the parts of
//! a line, and a buffer in front of the sink.
#![tactic(auto)]

mod buffer;
mod buffered;
mod forms;
mod head;
mod items;
pub mod laws;
mod named_forms;
pub mod parse;
pub mod plain;
pub mod print;
pub mod tokens;
pub mod version;

pub use buffer::Buffer;
pub use buffered::{Text, flush, put_text};
