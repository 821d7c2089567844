//! The attack programs, beside what was worked out for them.

use crate::commands::{Left, Stored, leave};
use crate::sources::{guard, push_line, text_of, with_constant};
use retos_cli::outcome::Status;
use std::alloc::{AllocError, Global};
use std::io;

/// The attack programs that run alone.
const ATTACKS: [&str; 8] = [
    "attacks/every-entry",
    "attacks/jumps-into-guards",
    "attacks/neighbours-stack",
    "attacks/return-addresses",
    "attacks/stack-at-the-ends",
    "attacks/stack-pointer-at-the-ends",
    "attacks/stores-at-the-ends",
    "attacks/stores-outside",
];

/// The one that runs behind a module, and the module.
const CALLER: &str = "attacks/calls-the-module";

const MODULE: &str = "attacks/into-an-application";

/// How a program with guards, `guarded.o`, is run alone, and behind `module.o`: under a script without a line.
const ALONE: &str = "run --tail none 200 guarded.o";

const BEHIND_MODULE: &str = "run --tail none 200 module.o guarded.o";

/// Tells of each attack program whether it prints what was worked out for it.
pub fn compare_attacks(rt: &HostRuntime) -> io::Result<()> {
    let module = guard(rt.alloc(), &text_of(rt, MODULE, ".s")?, "module.o")?;
    compare_attack(rt, CALLER, BEHIND_MODULE, module.file("module.o"))?;
    for name in &ATTACKS {
        compare_attack(rt, name, ALONE, &[])?;
    }
    Ok(())
}

/// Tells whether a program prints what its file has, for each value of its `WHAT`.
fn compare_attack(rt: &HostRuntime, name: &str, line: &str, module: &[u8]) -> io::Result<()> {
    let source = text_of(rt, name, ".s")?;
    let wanted = without_comments(rt.alloc(), &text_of(rt, name, ".trace")?)?;
    let mut printed = String::new(rt.alloc());
    let mut runs: u32 = 0;
    for what in wanted.lines() {
        if let Some(value) = what.strip_prefix("WHAT ") {
            push_line(&mut printed, what)?;
            push_run(
                &mut printed,
                &attack(rt.alloc(), &source, value, line, module)?,
            )?;
            runs = runs.saturating_add(1);
        }
    }
    let end = if printed.as_str() == wanted.as_str() {
        "the same"
    } else {
        "differs"
    };
    println!(rt; "{name}.trace: {end} in {runs} runs")
}

/// A text without the lines that are comments.
fn without_comments(alloc: Global, text: &str) -> Result<String, AllocError> {
    let mut rest = String::new(alloc);
    for line in text.lines() {
        if !line.starts_with(";") {
            push_line(&mut rest, line)?;
        }
    }
    Ok(rest)
}

/// What a program with guards does at a value of its `WHAT`.
fn attack(
    alloc: Global,
    source: &str,
    value: &str,
    line: &str,
    module: &[u8],
) -> Result<Left, AllocError> {
    let source = with_constant(alloc, source, "WHAT", value)?;
    let guarded = guard(alloc, &source, "guarded.o")?;
    run_behind(alloc, line, module, guarded.file("guarded.o"))
}

/// What a line of words does with a module and a program.
fn run_behind<'a>(
    alloc: Global,
    line: &str,
    module: &'a [u8],
    program: &'a [u8],
) -> Result<Left, AllocError> {
    let stored: [Stored<'a>; 3] = [("none", b""), ("module.o", module), ("guarded.o", program)];
    leave(alloc, line, &stored)
}

/// Appends what a run printed, and a line where it didn't run to its end.
fn push_run(printed: &mut String, left: &Left) -> Result<(), AllocError> {
    printed.push_str(left.text())?;
    match left.status() {
        Status::Done | Status::Faulted => Ok(()),
        _ => push_line(printed, "no run"),
    }
}
