//! The texts of `data`, and sources with something else in them.

use crate::commands::{Left, leave};
use std::alloc::{AllocError, Global};
use std::{fs, io};

/// The object that a source is assembled to.
pub const OBJECT: &str = "object.o";

/// A version of objects.
#[derive(Clone, Copy, Drop)]
pub enum Version {
    /// Version 1, which a source is in that names none.
    First,
    /// Version 2.
    Second,
}

impl Version {
    /// Its number.
    pub fn number(self) -> u8 {
        match self {
            Version::First => 1,
            Version::Second => 2,
        }
    }
}

/// The versions in order.
pub const VERSIONS: [Version; 2] = [Version::First, Version::Second];

/// A text file of `data`, whose name has two parts.
pub fn text_of(rt: &HostRuntime, name: &str, ending: &str) -> io::Result<String> {
    let path = format!(in rt.alloc(); "{name}{ending}")?;
    fs::read_to_string(rt, path.as_str())
}

/// A source in a version.
pub fn in_version(alloc: Global, source: &str, version: Version) -> Result<String, AllocError> {
    match version {
        Version::First => String::from_str(alloc, source),
        Version::Second => in_second(alloc, source),
    }
}

/// A source in version 2, which stands behind the line of the application.
fn in_second(alloc: Global, source: &str) -> Result<String, AllocError> {
    let mut text = String::new(alloc);
    for line in source.lines() {
        push_line(&mut text, line)?;
        if line.split_whitespace().next() == Some(".app") {
            push_line(&mut text, ".version 2")?;
        }
    }
    Ok(text)
}

/// A source with another value of a constant.
pub fn with_constant(
    alloc: Global,
    source: &str,
    name: &str,
    value: &str,
) -> Result<String, AllocError> {
    let defined = format!(in alloc; ".equ {name} {value}")?;
    let mut text = String::new(alloc);
    for line in source.lines() {
        if defines(line, name) {
            push_line(&mut text, &defined)?;
        } else {
            push_line(&mut text, line)?;
        }
    }
    Ok(text)
}

/// Whether a line defines a constant.
fn defines(line: &str, name: &str) -> bool {
    let mut words = line.split_whitespace();
    words.next() == Some(".equ") && words.next() == Some(name)
}

/// Appends a line.
pub fn push_line(text: &mut String, line: &str) -> Result<(), AllocError> {
    text.push_str(line)?;
    text.push_str("\n")
}

/// What the assembling of a source leaves, the object under the name `OBJECT`.
pub fn assemble(alloc: Global, source: &str) -> Result<Left, AllocError> {
    leave(
        alloc,
        "asm source.s object.o",
        &[("source.s", source.as_bytes())],
    )
}

/// What the insertion of guards into a source's object leaves, under a name.
pub fn guard(alloc: Global, source: &str, to: &str) -> Result<Left, AllocError> {
    let plain = assemble(alloc, source)?;
    let line = format!(in alloc; "insert object.o {to}")?;
    leave(alloc, &line, &[(OBJECT, plain.file(OBJECT))])
}
