//! The words of the command: what a list of words comes to.
//!
//! `clap` says which words are read and what they give; the table of modes stands here.
#![tactic(auto)]

mod commands;
pub mod laws;
mod modes;
mod syntax;
mod words;

pub use commands::{Asked, Command, Input, WordsFault};
pub use words::read_words;
