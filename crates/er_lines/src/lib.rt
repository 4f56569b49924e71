//! Reading a trace of any format that comes in chunks: a format says how one line is read, as text
//! (`text`) or as JSON (`json_line`).
#![tactic(auto)]

mod cut;
pub mod feed;
pub mod format;
pub mod json_line;
pub mod laws;
mod line;
mod mark;
pub mod text;
