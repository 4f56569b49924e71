//! Reads a line of words, as a shell cuts it.

use er_words::{Asked, WordsFault, read_words};
use std::alloc::{AllocError, Global};

/// What the words of a line come to, which stand with a space between.
pub(crate) fn read(alloc: Global, line: &str) -> Result<Result<Asked, WordsFault>, AllocError> {
    let mut words = Vec::new(alloc);
    for word in line.split_whitespace() {
        words.push(String::from_str(alloc, word)?)?;
    }
    Ok(read_words(alloc, &words))
}
