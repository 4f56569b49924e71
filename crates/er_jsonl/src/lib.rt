//! A trace as lines of JSON.
#![tactic(auto)]

mod feed;
pub mod laws;

pub use er_lines::json_line::parse_json_line;
pub use feed::{JsonFeed, JsonLines, MOST_LINE_BYTES};
