//! The lines of text of a picture.
use std::alloc::{AllocError, Global};

/// How many letters a line has at most, unless a word is longer.
const LETTERS: usize = 110;

/// Returns the text in lines of at most 110 letters.
pub fn wrapped(alloc: Global, words: &str) -> Result<Vec<String>, AllocError> {
    let mut lines = Vec::new(alloc);
    let mut line = String::new(alloc);
    for word in words.split_whitespace() {
        if line.len().saturating_add(word.len()) >= LETTERS {
            lines.push(line)?;
            line = String::new(alloc);
        }
        if !line.is_empty() {
            line.push_str(" ")?;
        }
        line.push_str(word)?;
    }
    lines.push(line)?;
    Ok(lines)
}
