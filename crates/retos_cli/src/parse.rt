//! The words of a command line, read as a command.

ghost use Rattle.std.specs.Prelude.{◌≡◌, ◌+◌, ◌<◌, ◌≤◌, List, [], length, drop, true, false, IfOk, MatchOption};
ghost use Rattle.retos_cli.specs.Commands.{command_of, is_all, is_tail, is_name, name_of, names_of, steps_of, seed_of, show_of, behind_options, solo_of, run_of, check_of, asm_of, insert_of, gen_of};
ghost use Rattle.retos_cli.specs.Words.{word};

use super::command::{Command, Job, Names};
use edge_io::name::Name;
use edge_io::words::Words;
use read_script::number;
use retos_node::Show;
use std::alloc::{AllocError, Global};

/// The greatest number of steps.
const STEPS_MAX: u32 = 10_000_000;

/// The most objects that a command takes.
const OBJECTS_MAX: usize = 16;

/// The command that the words are. None exactly where they are none.
#[tactic(auto, unfolding(crate::specs::Commands::command_of))]
pub fn read_command(alloc: Global, words: &Words) -> Result<Option<Command>, AllocError>
    ensures { IfOk result (λ command. command ≡ command_of words.now) }
{
    let first = word_at(words, 0);
    if first == b"solo".as_slice() {
        solo(alloc, words)
    } else if first == b"run".as_slice() {
        run(alloc, words)
    } else if first == b"check".as_slice() {
        check(alloc, words)
    } else if first == b"asm".as_slice() {
        Ok(asm(words))
    } else if first == b"insert".as_slice() {
        Ok(insert(words))
    } else if first == b"gen".as_slice() {
        Ok(generated(words))
    } else {
        Ok(None)
    }
}

/// The word at a place, or no bytes past the end.
fn word_at(words: &Words, at: usize) -> &[u8]
    ensures { result.now ≡ word words.now at }
{
    match words.word(at) {
        Some(bytes) => bytes,
        None => &[],
    }
}

/// Whether a word is the option that shows every step.
fn is_all(word: &[u8]) -> bool
    ensures { result ≡ is_all word.now }
{
    word == b"--all".as_slice()
}

/// Whether a word is the option that shows the last instructions before a fault.
fn is_tail(word: &[u8]) -> bool
    ensures { result ≡ is_tail word.now }
{
    word == b"--tail".as_slice()
}

/// What the options say, which stand directly behind the first word, in either order.
fn show_of(words: &Words) -> Show
    ensures { result ≡ show_of words.now }
{
    let first = word_at(words, 1);
    let second = word_at(words, 2);
    Show {
        all: is_all(first) || (is_tail(first) && is_all(second)),
        tail: is_tail(first) || (is_all(first) && is_tail(second)),
    }
}

/// Where the words behind the options begin.
fn behind_options(words: &Words) -> usize
    ensures place { result ≡ behind_options words.now }
    ensures size { result ≤ 3 }
{
    let first = word_at(words, 1);
    let second = word_at(words, 2);
    if (is_all(first) && is_tail(second)) || (is_tail(first) && is_all(second)) {
        3
    } else if is_all(first) || is_tail(first) {
        2
    } else {
        1
    }
}

fn solo(alloc: Global, words: &Words) -> Result<Option<Command>, AllocError>
    ensures { IfOk result (λ command. command ≡ solo_of words.now) }
{
    let at = behind_options(words);
    if words.len() != at + 2 {
        return Ok(None);
    }
    match name(word_at(words, at)) {
        Some(name) => match steps(word_at(words, at + 1)) {
            Some(steps) => {
                let mut names = Names::new(alloc);
                names.push(name)?;
                Ok(Some(Command::Run(Job {
                    show: show_of(words),
                    script: None,
                    steps,
                    names,
                })))
            }
            None => Ok(None),
        },
        None => Ok(None),
    }
}

fn run(alloc: Global, words: &Words) -> Result<Option<Command>, AllocError>
    ensures { IfOk result (λ command. command ≡ run_of words.now) }
{
    let at = behind_options(words);
    if words.len() < at + 3 || words.len() > at + 2 + OBJECTS_MAX {
        return Ok(None);
    }
    match name(word_at(words, at)) {
        Some(script) => match steps(word_at(words, at + 1)) {
            Some(steps) => match names(alloc, words, at + 2)? {
                Some(names) => Ok(Some(Command::Run(Job {
                    show: show_of(words),
                    script: Some(script),
                    steps,
                    names,
                }))),
                None => Ok(None),
            },
            None => Ok(None),
        },
        None => Ok(None),
    }
}

fn check(alloc: Global, words: &Words) -> Result<Option<Command>, AllocError>
    ensures { IfOk result (λ command. command ≡ check_of words.now) }
{
    if words.len() < 2 || words.len() > OBJECTS_MAX + 1 {
        return Ok(None);
    }
    match names(alloc, words, 1)? {
        Some(names) => Ok(Some(Command::Check { names })),
        None => Ok(None),
    }
}

fn asm(words: &Words) -> Option<Command>
    ensures { result ≡ asm_of words.now }
{
    if words.len() != 3 {
        return None;
    }
    match name(word_at(words, 1)) {
        Some(from) => match name(word_at(words, 2)) {
            Some(to) => Some(Command::Asm { from, to }),
            None => None,
        },
        None => None,
    }
}

fn insert(words: &Words) -> Option<Command>
    ensures { result ≡ insert_of words.now }
{
    if words.len() != 3 {
        return None;
    }
    match name(word_at(words, 1)) {
        Some(from) => match name(word_at(words, 2)) {
            Some(to) => Some(Command::Insert { from, to }),
            None => None,
        },
        None => None,
    }
}

fn generated(words: &Words) -> Option<Command>
    ensures { result ≡ gen_of words.now }
{
    if words.len() != 3 {
        return None;
    }
    match seed(word_at(words, 1)) {
        Some(seed) => match name(word_at(words, 2)) {
            Some(to) => Some(Command::Gen { seed, to }),
            None => None,
        },
        None => None,
    }
}

/// A name: 1 to 255 bytes that don't begin with a dash.
fn name(bytes: &[u8]) -> Option<Name>
    ensures named { result ≡ name_of bytes.now }
    ensures tested { MatchOption result (is_name bytes.now ≡ false) (λ name. (is_name bytes.now ≡ true) × (name ≡ bytes.now)) }
{
    if bytes.is_empty() || bytes.len() > 255 || bytes[0] == b'-' {
        return None;
    }
    Name::from_slice(bytes)
}

/// The words from a place on, where all are names.
#[tactic(auto, using(crate::proofs::Gathered::gathered_all, crate::proofs::Gathered::gathered_one, crate::proofs::Gathered::gathered_none))]
fn names(alloc: Global, words: &Words, from: usize) -> Result<Option<Names>, AllocError>
    requires { from ≤ length words.now }
    ensures { IfOk result (λ names. names ≡ names_of (drop from words.now)) }
{
    let mut names = Names::new(alloc);
    for at in from..words.len() {
        match name(word_at(words, at)) {
            Some(name) => names.push(name)?,
            None => return Ok(None),
        }
    }
    Ok(Some(names))
}

/// A number of steps: decimal, from 1 to 10000000, without sign or leading zero.
fn steps(bytes: &[u8]) -> Option<u32>
    ensures { result ≡ steps_of bytes.now }
{
    number(1, STEPS_MAX, bytes)
}

/// What an object is generated from: such a number from 0 to 4294967295.
fn seed(bytes: &[u8]) -> Option<u32>
    ensures { result ≡ seed_of bytes.now }
{
    number(0, u32::MAX, bytes)
}
