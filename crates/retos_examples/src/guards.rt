//! The objects of the sources, and what they are with guards.

use crate::commands::leave;
use crate::sources::{OBJECT, VERSIONS, Version, assemble, guard, in_version, text_of};
use retos_cli::outcome::Status;
use std::{fs, io};

/// The sources that have their object beside them.
const SOURCES: [&str; 14] = [
    "blinks",
    "effects",
    "flags",
    "flow",
    "guarded-loop",
    "guarded-store",
    "plain-store",
    "producer-consumer",
    "pushes",
    "return-broken",
    "return-moved",
    "self-jump",
    "store-below",
    "unguarded",
];

/// Sources without guards.
const WITHOUT_GUARDS: [&str; 8] = [
    "plain-store",
    "return-broken",
    "return-moved",
    "blinks",
    "producer-consumer",
    "effects",
    "flags",
    "flow",
];

/// Tells of each source whether it gives the object beside it.
pub fn compare_objects(rt: &HostRuntime) -> io::Result<()> {
    for name in &SOURCES {
        compare_object(rt, name)?;
    }
    Ok(())
}

/// Tells whether a source gives the object beside it.
fn compare_object(rt: &HostRuntime, name: &str) -> io::Result<()> {
    let source = text_of(rt, name, ".s")?;
    let path = format!(in rt.alloc(); "{name}.o")?;
    let wanted = fs::read(rt, path.as_str())?;
    let left = assemble(rt.alloc(), &source)?;
    let end = if left.file(OBJECT) == wanted.as_slice() {
        "the same"
    } else {
        "differs"
    };
    println!(rt; "{path}: {end}")
}

/// Prints what each source without guards gets, in each version.
pub fn print_guarded(rt: &HostRuntime) -> io::Result<()> {
    for name in &WITHOUT_GUARDS {
        for version in &VERSIONS {
            print_versioned(rt, name, *version)?;
        }
    }
    Ok(())
}

/// Prints what the insertion into a source says, and whether it is accepted then.
fn print_versioned(rt: &HostRuntime, name: &str, version: Version) -> io::Result<()> {
    let alloc = rt.alloc();
    let source = in_version(alloc, &text_of(rt, name, ".s")?, version)?;
    let to = format!(in alloc; "{name}.o")?;
    let guarded = guard(alloc, &source, &to)?;
    let line = format!(in alloc; "check {to}")?;
    let checked = leave(alloc, &line, &[(&to, guarded.file(&to))])?;
    let end = match checked.status() {
        Status::Done => "accepted",
        _ => "not accepted",
    };
    let number = version.number();
    print!(rt; "{}", guarded.text())?;
    println!(rt; "{to}: {end} in version {number}")
}

/// Prints what a node of two of them prints, whose clock ticks at every 100th step.
pub fn print_node(rt: &HostRuntime) -> io::Result<()> {
    let alloc = rt.alloc();
    let clock = fs::read(rt, "clock")?;
    let first = guard(alloc, &text_of(rt, "blinks", ".s")?, "blinks.o")?;
    let second = guard(
        alloc,
        &text_of(rt, "producer-consumer", ".s")?,
        "producer-consumer.o",
    )?;
    let left = leave(
        alloc,
        "run clock 260 blinks.o producer-consumer.o",
        &[
            ("clock", clock.as_slice()),
            ("blinks.o", first.file("blinks.o")),
            ("producer-consumer.o", second.file("producer-consumer.o")),
        ],
    )?;
    print!(rt; "{}", left.text())
}
