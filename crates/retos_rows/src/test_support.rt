//! Objects, folders and sinks for the tests.

ghost use Rattle.std.specs.Prelude.{◌≡◌, None, IfOk};

use edge_io::calls::Calls;
use edge_io::mem_folder::MemFolder;
use edge_io::mem_sink::MemSink;
use edge_io::name::Name;
use edge_io::words::Words;
use item_lists::lists::Bytes;
use retos_cli::outcome::Status;
use retos_cli::top::retos;
use std::alloc::{AllocError, Global};
use std::process::Abort;
use std::test::Fail;

/// A jump to itself.
pub const SELF_JUMP: [u8; 22] = [
    0x52, 0x45, 0x54, 0x4F, 1, 1, 1, 0, 0, 0, 0, 0, 0x10, 0, 1, 0, 0, 0, 0, 0, 0xFF, 0x3F,
];

/// A guarded store at the region's upper end.
pub const GUARDED_STORE: [u8; 68] = [
    0x52, 0x45, 0x54, 0x4F, 1, 1, 0x12, 0, 0, 0, 0, 0, 0x10, 0, 1, 0, 0, 0, 3, 0, // the head
    0x36, 0x40, 0, 0, 5, 0x42, 4, 0x46, 0x34, 0x50, 0, 0, 0x34, 0x90, 0, 0, 3, 0x28, 0x34, 0x90, 0,
    0, 2, 0x28, 0x30, 0x40, 0, 0xF0, 2, 0x45, 0x84, 0x43, 0, 0, 0xFF, 0x3F, // the code
    0, 4, 2, 0, 0, 3, 14, 0, 0, 4, 20, 0, // the relocations
];

/// The same, one below the region.
pub const STORE_BELOW: [u8; 68] = [
    0x52, 0x45, 0x54, 0x4F, 1, 1, 0x12, 0, 0, 0, 0, 0, 0x10, 0, 1, 0, 0, 0, 3, 0, // the head
    0x36, 0x40, 0xFF, 0xFF, 5, 0x42, 4, 0x46, 0x34, 0x50, 0, 0, 0x34, 0x90, 0, 0, 3, 0x28, 0x34,
    0x90, 0, 0, 2, 0x28, 0x30, 0x40, 0, 0xF0, 2, 0x45, 0x84, 0x43, 0, 0, 0xFF, 0x3F, // the code
    0, 3, 2, 0, 0, 3, 14, 0, 0, 4, 20, 0, // the relocations
];

/// A store with no guard.
pub const UNGUARDED: [u8; 30] = [
    0x52, 0x45, 0x54, 0x4F, 1, 1, 5, 0, 0, 0, 0, 0, 0x10, 0, 1, 0, 0, 0, 0, 0, 0x36, 0x40, 0, 0,
    0x84, 0x46, 0, 0, 0xFF, 0x3F,
];

/// A guarded push, over and over.
pub const PUSHES: [u8; 38] = [
    0x52, 0x45, 0x54, 0x4F, 1, 1, 9, 0, 0, 0, 0, 0, 0x10, 0, 1, 0, 0, 0, 0, 0, 5, 0x42, 0x11, 0x92,
    0, 2, 2, 0x2C, 0x30, 0x40, 2, 0xF0, 2, 0x45, 6, 0x12, 0xF7, 0x3F,
];

/// An application that emits 5 and exits.
pub const EMITS: [u8; 62] = [
    0x52, 0x45, 0x54, 0x4F, 1, 1, 0x15, 0, 0, 0, 0, 0, 0x10, 0, 1, 0, 0, 0, 0, 0, 0x3C, 0x40, 5, 0,
    5, 0x42, 0x11, 0x92, 0, 2, 2, 0x2C, 0x30, 0x40, 2, 0xF0, 2, 0x45, 0xB0, 0x12, 0x24, 0xF0, 5,
    0x42, 0x11, 0x92, 0, 2, 2, 0x2C, 0x30, 0x40, 2, 0xF0, 2, 0x45, 0xB0, 0x12, 8, 0xF0, 0xFF, 0x3F,
];

/// A module that exports function 5.
pub const MODULE: [u8; 30] = [
    0x52, 0x45, 0x54, 0x4F, 1, 2, 3, 0, 0, 0, 0, 0, 0, 0, 0, 1, 0, 0, 0, 0, 0x1C, 0x53, 0x30, 0x40,
    0x26, 0xF0, 5, 0, 0, 0,
];

/// A list of numbers of calls.
pub fn calls(alloc: Global, numbers: &[u32]) -> Result<Calls, AllocError> {
    let mut list = Calls::new(alloc);
    for number in numbers {
        list.push(*number)?;
    }
    Ok(list)
}

/// A sink that has room for 1,000 bytes, in which these calls fail.
pub fn sink(alloc: Global, fail: &[u32]) -> Result<MemSink, AllocError> {
    MemSink::new(alloc, 1000, calls(alloc, fail)?, calls(alloc, &[])?)
}

/// A folder in which these reads fail.
pub fn folder(alloc: Global, fail: &[u32]) -> Result<MemFolder, AllocError>
    ensures { IfOk result (λ files. files.created ≡ None) }
{
    let calls = Failing {
        reads: fail,
        writes: &[],
        out: &[],
    };
    writable(alloc, 10, &calls)
}

/// The calls that are to fail: reads and writes of the folder, and writes of out.
#[derive(Clone, Copy)]
pub struct Failing<'a> {
    pub reads: &'a [u32],
    pub writes: &'a [u32],
    pub out: &'a [u32],
}

/// A folder that has room for so many bytes of a file, in which these calls fail.
pub fn writable(alloc: Global, room: u32, fail: &Failing) -> Result<MemFolder, AllocError>
    ensures { IfOk result (λ files. files.created ≡ None) }
{
    let reads = calls(alloc, fail.reads)?;
    let writes = calls(alloc, fail.writes)?;
    MemFolder::new(alloc, room, reads, writes, Calls::new(alloc))
}

/// Adds a file, if its name isn't held.
pub fn add(files: &mut MemFolder, name: &[u8], whole: &[u8]) -> Result<(), Fail>
    ensures { files.new.created ≡ files.old.created }
{
    let name = Name::from_slice(name).ok_or("a name")?;
    if files.held(&name).is_none() {
        files.put(&name, whole)?;
    }
    Ok(())
}

/// The words of a line.
pub fn words_of(alloc: Global, line: &str) -> Result<Words, AllocError> {
    let mut words = Words::new(alloc);
    for word in line.split_whitespace() {
        words.push(word.as_bytes())?;
    }
    Ok(words)
}

/// What a line of words is to do in a folder: what stands on out and on err, and the status.
#[derive(Clone, Copy)]
pub struct Case<'a> {
    pub line: &'a str,
    pub out: &'a str,
    pub err: &'a str,
    pub status: u8,
}

/// A line of words that is no command.
pub fn no_command<'a>(line: &'a str) -> Case<'a> {
    Case {
        line,
        out: "",
        err: "retos: words\n",
        status: 2,
    }
}

/// Does what words say in a folder in which no name was created.
#[tactic(auto, using(retos_cli::proofs::Sources::may_run_fresh))]
pub fn do_words(
    alloc: Global,
    words: &Words,
    files: &mut MemFolder,
    out: &mut MemSink,
    err: &mut MemSink,
) -> Status
    requires { files.old.created ≡ None }
{
    retos(alloc, words, files, out, err)
}

/// What words left on out and on err, and their status.
#[derive(Drop)]
pub struct Left {
    pub out: MemSink,
    pub err: MemSink,
    pub status: Status,
}

/// Streams on which nothing stands yet: this out, and an err in which these writes fail.
pub fn unwritten(alloc: Global, out: MemSink, fail: &[u32]) -> Result<Left, AllocError> {
    Ok(Left {
        out,
        err: sink(alloc, fail)?,
        status: Status::Done,
    })
}

/// Does what a line of words says, where out has room for so many bytes.
pub fn leave(alloc: Global, files: &mut MemFolder, line: &str, room: u32) -> Result<Left, Fail>
    requires { files.old.created ≡ None }
{
    let out = MemSink::new(alloc, room, Calls::new(alloc), Calls::new(alloc))?;
    let mut left = unwritten(alloc, out, &[])?;
    leave_on(alloc, files, line, &mut left)?;
    Ok(left)
}

/// Does what a line of words says, on these streams.
pub fn leave_on(
    alloc: Global,
    files: &mut MemFolder,
    line: &str,
    left: &mut Left,
) -> Result<(), Fail>
    requires { files.old.created ≡ None }
{
    let words = words_of(alloc, line)?;
    left.status = do_words(alloc, &words, files, &mut left.out, &mut left.err);
    Ok(())
}

/// The same in a folder of these files.
pub fn leave_among(
    alloc: Global,
    stored: &[Stored],
    line: &str,
    left: &mut Left,
) -> Result<(), Fail> {
    let mut files = filled(alloc, &[], stored)?;
    leave_on(alloc, &mut files, line, left)
}

/// The same in a folder with the files of the cases.
pub fn leave_cases(alloc: Global, line: &str, left: &mut Left) -> Result<(), Fail> {
    let mut files = all_files(alloc, &[])?;
    leave_on(alloc, &mut files, line, left)
}

/// Whether a piece stands somewhere in bytes.
fn has(bytes: &[u8], piece: &[u8]) -> bool {
    for at in 0..bytes.len() {
        if bytes[at..].starts_with(piece) {
            return true;
        }
    }
    false
}

/// Tells which of these pieces doesn't stand in bytes.
fn find_pieces(rt: &impl Abort, bytes: &[u8], pieces: &[&str], line: &str) {
    for piece in pieces {
        assert!(rt; has(bytes, piece.as_bytes()), "{piece} in {line}");
    }
}

/// Does what words say, and tells where out lacks one of these pieces, something stands on err, or the status is another.
pub fn try_pieces(
    rt: &impl Abort,
    alloc: Global,
    files: &mut MemFolder,
    line: &str,
    pieces: &[&str],
    status: u8,
) -> Result<(), Fail>
    requires { files.old.created ≡ None }
{
    let left = leave(alloc, files, line, 1_000_000)?;
    compare_err(rt, &left, "", line);
    compare_status(rt, &left, status, line);
    find_pieces(rt, left.out.bytes(), pieces, line);
    Ok(())
}

/// The same in a folder of these files.
pub fn try_stored_pieces(
    rt: &impl Abort,
    alloc: Global,
    stored: &[Stored],
    line: &str,
    pieces: &[&str],
    status: u8,
) -> Result<(), Fail> {
    let mut files = filled(alloc, &[], stored)?;
    try_pieces(rt, alloc, &mut files, line, pieces, status)
}

/// What a folder holds under a name.
pub fn held_bytes(alloc: Global, files: &MemFolder, name: &[u8]) -> Result<Bytes, Fail> {
    let name = Name::from_slice(name).ok_or("a name")?;
    match files.held(&name) {
        Some(held) => Ok(Bytes::from_slice(alloc, held)?),
        None => Err(Fail::from("a file")),
    }
}

/// Tells where a folder holds something else under a name.
pub fn compare_held(
    rt: &impl Abort,
    files: &MemFolder,
    name: &[u8],
    wanted: Option<&[u8]>,
    line: &str,
) -> Result<(), Fail> {
    let name = Name::from_slice(name).ok_or("a name")?;
    assert_eq!(rt; files.held(&name), wanted, "the file of {line}");
    Ok(())
}

/// What a command leaves in `y.o`, which has `x` as its input. There is room for 2,000 bytes.
fn made(alloc: Global, line: &str, input: &[u8]) -> Result<Bytes, Fail> {
    let none = Failing {
        reads: &[],
        writes: &[],
        out: &[],
    };
    let files = writable(alloc, 2000, &none)?;
    let mut files = with_files(files, &[(b"x", input)])?;
    let _ = leave(alloc, &mut files, line, 1000)?;
    held_bytes(alloc, &files, b"y.o")
}

/// The object of a source text with its guards.
pub fn guarded(alloc: Global, source: &[u8]) -> Result<Bytes, Fail> {
    let plain = made(alloc, "asm x y.o", source)?;
    made(alloc, "insert x y.o", plain.as_slice())
}

/// Tells where bytes aren't those of a text.
fn compare_text(rt: &impl Abort, bytes: &[u8], text: &str, of: &str, line: &str) {
    assert_eq!(rt; bytes, text.as_bytes(), "{of} of {line}");
}

/// Tells where what words left differs from a case.
pub fn compare(rt: &impl Abort, left: &Left, case: &Case) {
    compare_text(rt, left.out.bytes(), case.out, "out", case.line);
    compare_err(rt, left, case.err, case.line);
    compare_status(rt, left, case.status, case.line);
}

/// Tells where what stands on err is another text.
pub fn compare_err(rt: &impl Abort, left: &Left, text: &str, line: &str) {
    compare_text(rt, left.err.bytes(), text, "err", line);
}

/// Tells where the status of words is another.
pub fn compare_status(rt: &impl Abort, left: &Left, status: u8, line: &str) {
    assert_eq!(rt; left.status.number(), status, "status of {line}");
}

/// Does what a case's words say, and tells where it comes to something else. These writes of out fail.
pub fn try_case(
    rt: &impl Abort,
    alloc: Global,
    files: &mut MemFolder,
    fail: &[u32],
    case: &Case,
) -> Result<(), Fail>
    requires { files.old.created ≡ None }
{
    let mut left = unwritten(alloc, sink(alloc, fail)?, &[])?;
    leave_on(alloc, files, case.line, &mut left)?;
    compare(rt, &left, case);
    Ok(())
}

/// Does what a case's words say in a folder of these files, and tells where it comes to something else.
pub fn try_stored(
    rt: &impl Abort,
    alloc: Global,
    stored: &[Stored],
    case: &Case,
) -> Result<(), Fail> {
    let mut files = filled(alloc, &[], stored)?;
    try_case(rt, alloc, &mut files, &[], case)
}

/// The same over the files of the cases, in which these reads and these writes of out fail.
pub fn try_failing(
    rt: &impl Abort,
    alloc: Global,
    reads: &[u32],
    writes: &[u32],
    case: &Case,
) -> Result<(), Fail> {
    let mut files = all_files(alloc, reads)?;
    try_case(rt, alloc, &mut files, writes, case)
}

/// Tries each case in a folder of its own, with the files of the cases.
pub fn try_cases(rt: &impl Abort, alloc: Global, cases: &[Case]) -> Result<(), Fail> {
    for case in cases {
        try_failing(rt, alloc, &[], &[], case)?;
    }
    Ok(())
}

/// A file that a folder holds: its name, and its bytes.
pub type Stored<'a> = (&'a [u8], &'a [u8]);

/// The files of the cases, but one.
const STORED: [Stored; 8] = [
    (b"j.o", &SELF_JUMP),
    (b"s.o", &GUARDED_STORE),
    (b"low.o", &STORE_BELOW),
    (b"u.o", &UNGUARDED),
    (b"p.o", &PUSHES),
    (b"e.o", &EMITS),
    (b"m.o", &MODULE),
    (b"empty.o", b""),
];

/// The files of the cases.
pub fn all_files(alloc: Global, fail: &[u32]) -> Result<MemFolder, Fail>
    ensures { IfOk result (λ files. files.created ≡ None) }
{
    let files = filled(alloc, fail, &STORED)?;
    with_files(files, &[(b"short.o", &GUARDED_STORE[..67])])
}

/// A folder of files, in which these reads fail.
pub fn filled(alloc: Global, fail: &[u32], stored: &[Stored]) -> Result<MemFolder, Fail>
    ensures { IfOk result (λ files. files.created ≡ None) }
{
    let files = folder(alloc, fail)?;
    with_files(files, stored)
}

/// A folder with these files beside those that it has.
pub fn with_files(mut files: MemFolder, stored: &[Stored]) -> Result<MemFolder, Fail>
    requires { files.created ≡ None }
    ensures { IfOk result (λ more. more.created ≡ None) }
{
    for (name, whole) in stored {
        add(&mut files, name, whole)?;
    }
    Ok(files)
}

/// A relocation in code: its kind's number, and its offset.
pub type CodeReloc = (u8, u16);

/// The text of an application of version 1 with one thread, a stack of 16 bytes, entry 0 and no static part.
pub fn application(alloc: Global, code: &[u16], relocs: &[CodeReloc]) -> Result<Bytes, Fail> {
    application_of(alloc, 1, code, relocs)
}

/// The same of this version.
pub fn application_of(
    alloc: Global,
    version: u8,
    code: &[u16],
    relocs: &[CodeReloc],
) -> Result<Bytes, Fail> {
    let mut text = Bytes::from_slice(alloc, b"RETO")?;
    text.extend_from_slice(&[version, 1])?;
    push_word(&mut text, count(code.len())?)?;
    text.extend_from_slice(&[0, 0, 0, 0, 0x10, 0, 1, 0, 0, 0])?;
    push_word(&mut text, count(relocs.len())?)?;
    for word in code {
        push_word(&mut text, *word)?;
    }
    for (kind, offset) in relocs {
        text.extend_from_slice(&[0, *kind])?;
        push_word(&mut text, *offset)?;
    }
    Ok(text)
}

/// A count as a word.
fn count(of: usize) -> Result<u16, Fail> {
    Ok(u16::try_from(of).ok().ok_or("at most 65,535")?)
}

/// Appends a word, its low byte first.
fn push_word(text: &mut Bytes, word: u16) -> Result<(), AllocError> {
    text.push((word % 256) as u8)?;
    text.push((word / 256) as u8)
}
