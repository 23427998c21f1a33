//! Texts and arguments of the tests.
use std::alloc::{AllocError, Global};

/// Returns the text with its line ends.
pub fn lines(alloc: Global, text: &str) -> Result<String, AllocError> {
    text.replace(alloc, ";", "\n")
}

/// Returns the arguments, with the program's name in front.
pub fn words(alloc: Global, text: &str) -> Result<Vec<String>, AllocError> {
    let mut list = Vec::new(alloc);
    list.push(String::from_str(alloc, "totem")?)?;
    for word in text.split_whitespace() {
        list.push(String::from_str(alloc, word)?)?;
    }
    Ok(list)
}
