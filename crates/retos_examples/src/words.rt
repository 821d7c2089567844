//! The words that three programs leave in their regions with guards, beside those that a simulator says they leave without.

use crate::commands::leave;
use crate::sources::{VERSIONS, Version, guard, in_version, text_of, with_constant};
use std::alloc::{AllocError, Global};
use std::io;

/// The programs.
const PROGRAMS: [&str; 3] = ["effects", "flags", "flow"];

/// Tells of each program and version how many words are as expected.
pub fn compare_words(rt: &HostRuntime) -> io::Result<()> {
    for name in &PROGRAMS {
        for version in &VERSIONS {
            compare_program(rt, name, *version)?;
        }
    }
    Ok(())
}

/// Tells each word that differs, and how many don't.
fn compare_program(rt: &HostRuntime, name: &str, version: Version) -> io::Result<()> {
    let expected = text_of(rt, name, ".expected")?;
    let source = in_version(rt.alloc(), &text_of(rt, name, ".s")?, version)?;
    let number = version.number();
    let mut same: u32 = 0;
    for line in expected.lines() {
        if let Some((address, word)) = row(line) {
            if leaves(rt.alloc(), &source, address, word)? {
                same = same.saturating_add(1);
            } else {
                println!(rt; "{name}.expected: {address} differs in version {number}")?;
            }
        }
    }
    println!(rt; "{name}.expected: {same} words are the same in version {number}")
}

/// An address and the word there. None of a line that is a comment.
fn row(line: &str) -> Option<(&str, &str)> {
    if line.starts_with(";") {
        None
    } else {
        line.split_once(" ")
    }
}

/// Whether a program leaves a word at an address. It ends with a store through the word at `TOLD`, which the run's line of that
/// fault has.
fn leaves(alloc: Global, source: &str, address: &str, word: &str) -> Result<bool, AllocError> {
    let value = format!(in alloc; "0x{address}")?;
    let source = with_constant(alloc, source, "TOLD", &value)?;
    let guarded = guard(alloc, &source, "guarded.o")?;
    let left = leave(
        alloc,
        "solo guarded.o 10000",
        &[("guarded.o", guarded.file("guarded.o"))],
    )?;
    Ok(stored_through(left.text()) == Some(word))
}

/// The word of the first line that names a fault of a store.
fn stored_through(out: &str) -> Option<&str> {
    for line in out.lines() {
        if let Some((_, word)) = line.split_once(" fault store ") {
            return Some(word);
        }
    }
    None
}
