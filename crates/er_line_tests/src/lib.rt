//! Traces that come in chunks, however they are cut: lines of text, and lines of JSON.
#![tactic(auto)]

#[cfg(test)]
mod feeds;
#[cfg(test)]
mod json_lines;
#[cfg(test)]
mod lines;
