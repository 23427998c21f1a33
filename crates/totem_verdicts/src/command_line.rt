//! The arguments of a program, as it gets them.
use crate::telling::{tell, tell_fault};
use crate::verdict_fault::VerdictFault;
use std::alloc::{AllocError, Global};
use std::env::Args;
use std::io;
use totem_names::Sink;

/// Returns the arguments as a list. (`collect` would try again with less memory if its first growth is refused.)
pub fn listed(alloc: Global, words: Args) -> Result<Vec<String>, AllocError> {
    let mut list = Vec::new(alloc);
    for word in words {
        list.push(word)?;
    }
    Ok(list)
}

/// Reports arguments that are not UTF-8, or for which there was no memory. Returns the status.
pub fn no_words<E: Sink>(error: &io::Error, errors: &mut E) -> u8 {
    if error.kind() == io::ErrorKind::OutOfMemory {
        return tell_fault(errors, &VerdictFault::Memory);
    }
    tell(errors, b"totem: the arguments are not valid UTF-8\n");
    64
}
