//! The words that the program is given.

use edge_io::words::Words;
use std::alloc::AllocError;
use std::env::{Env, FillError};

/// How many bytes of a word are read. A longer word is no word of a command.
const WORD_BYTES: usize = 4096;

/// The words behind the program's name. One that isn't text, or is too long for any command, is given as an empty word, which
/// no command has.
pub fn given(rt: &HostRuntime) -> Result<Words, AllocError> {
    let mut words = Words::new(rt.alloc());
    let mut bytes = [0; WORD_BYTES];
    for at in 1..usize::MAX {
        match rt.arg(at, &mut bytes) {
            Ok(len) => words.push(text(&bytes[..len]))?,
            Err(FillError::TooLong) => words.push(&[])?,
            Err(FillError::NotPresent) => break,
        }
    }
    Ok(words)
}

/// The bytes, where they are text.
fn text(bytes: &[u8]) -> &[u8] {
    match str::from_utf8(bytes) {
        Ok(_) => bytes,
        Err(_) => &[],
    }
}
