//! Rows of `gen`: what it writes and prints, and writes that fail. The numbers of words and units, and of printed values, come
//! from a program in another language that draws the blocks, adds up the words and units that each block gets, and follows the
//! registers for as many steps.

use crate::test_support::{Case, Failing, no_command, try_case, try_stored, writable};
use edge_io::mem_folder::MemFolder;
use edge_io::name::Name;
use std::alloc::Global;
use std::process::Abort;
use std::test::Fail;

/// What `gen 1` prints.
const ONE: &str =
    "gen 1: source 912 words, inserted 3014 words, units 790\nend limit 100000 emits 2710 faults 0\n";

/// Room for the text of each generated object.
const ROOM: u32 = 20_000;

/// No call fails.
const NONE: Failing = Failing {
    reads: &[],
    writes: &[],
    out: &[],
};

/// How many bytes `g.o` holds, if it is held.
fn written(files: &MemFolder) -> Result<Option<usize>, Fail> {
    let name = Name::from_slice(b"g.o").ok_or("a name")?;
    Ok(match files.held(&name) {
        Some(bytes) => Some(bytes.len()),
        None => None,
    })
}

/// The two words behind the head of what `g.o` holds.
fn first_words(files: &MemFolder) -> Result<[u8; 4], Fail> {
    let name = Name::from_slice(b"g.o").ok_or("a name")?;
    let held = files.held(&name).ok_or("it is held")?;
    match held.get(20..24) {
        Some(bytes) => Ok([bytes[0], bytes[1], bytes[2], bytes[3]]),
        None => Err("too short".into()),
    }
}

/// Tells where the object's first two words are others.
fn compare_first(
    rt: &impl Abort,
    files: &MemFolder,
    words: [u8; 4],
    line: &str,
) -> Result<(), Fail> {
    assert_eq!(rt; first_words(files)?, words, "the first words of {line}");
    Ok(())
}

/// Tells where `g.o` holds another number of bytes.
fn compare_size(rt: &impl Abort, files: &MemFolder, size: Option<usize>) -> Result<(), Fail> {
    assert_eq!(rt; written(files)?, size);
    Ok(())
}

/// Makes the object of a number, and checks it.
fn try_gen(rt: &impl Abort, alloc: Global, row: &(&str, &str, &str, [u8; 4])) -> Result<(), Fail> {
    let (line, out, checked, words) = row;
    let mut files = writable(alloc, ROOM, &NONE)?;
    let made = Case {
        line,
        out,
        err: "",
        status: 0,
    };
    try_case(rt, alloc, &mut files, &[], &made)?;
    compare_first(rt, &files, *words, line)?;
    check_again(rt, alloc, &files, checked)
}

/// Checks what `g.o` holds, in a folder of its own.
fn check_again(rt: &impl Abort, alloc: Global, files: &MemFolder, out: &str) -> Result<(), Fail> {
    let name = Name::from_slice(b"g.o").ok_or("a name")?;
    let held = files.held(&name).ok_or("it is held")?;
    let case = Case {
        line: "check g.o",
        out,
        err: "",
        status: 0,
    };
    try_stored(rt, alloc, &[(b"g.o", held)], &case)
}

/// Words, what they print, what a check of their object prints, and its first two code words.
const OBJECTS: [(&str, &str, &str, [u8; 4]); 4] = [
    (
        "gen 0 g.o",
        "gen 0: source 925 words, inserted 3085 words, units 774\nend limit 100000 emits 2806 faults 0\n",
        "g.o: accepted 3085 words 774 units\n",
        [0x36, 0x40, 0x6E, 0x3C],
    ),
    (
        "gen 1 g.o",
        ONE,
        "g.o: accepted 3014 words 790 units\n",
        [0x36, 0x40, 0x88, 0x3C],
    ),
    (
        "gen 1 g.o",
        ONE,
        "g.o: accepted 3014 words 790 units\n",
        [0x36, 0x40, 0x88, 0x3C],
    ),
    (
        "gen 4294967295 g.o",
        "gen 4294967295: source 935 words, inserted 3060 words, units 791\nend limit 100000 emits 2838 faults 0\n",
        "g.o: accepted 3060 words 791 units\n",
        [0x36, 0x40, 0x55, 0x3C],
    ),
];

#[test]
fn a_number_gives_its_object(rt: HostRuntime) -> Result<(), Fail> {
    for row in &OBJECTS {
        try_gen(&rt, rt.alloc(), row)?;
    }
    Ok(())
}

/// Lines of words that are no command.
const NO_GENS: [&str; 9] = [
    "gen",
    "gen 1",
    "gen g.o",
    "gen 4294967296 g.o",
    "gen 01 g.o",
    "gen -1 g.o",
    "gen 1 -g",
    "gen 1 g.o h.o",
    "gen --all 1 g.o",
];

#[test]
fn gen_takes_a_number_and_a_name(rt: HostRuntime) -> Result<(), Fail> {
    for line in &NO_GENS {
        try_stored(&rt, rt.alloc(), &[], &no_command(line))?;
    }
    Ok(())
}

/// Tells where `g.o` has another length, or something else stands on out, once these writes of the folder or of out fail.
fn try_write_fault(
    rt: &impl Abort,
    alloc: Global,
    writes: &[u32],
    fails: &[u32],
    room: u32,
    left: Option<usize>,
    out: &str,
) -> Result<(), Fail> {
    let fail = Failing {
        reads: &[],
        writes,
        out: &[],
    };
    let case = Case {
        line: "gen 1 g.o",
        out,
        err: "retos: write fault\n",
        status: 4,
    };
    let mut files = writable(alloc, room, &fail)?;
    try_case(rt, alloc, &mut files, fails, &case)?;
    compare_size(rt, &files, left)
}

/// The create is write 0 of the folder and the first append write 1. The text of 3,014 words has 20 bytes before them, and four
/// for each of 288 relocations behind them.
#[test]
fn a_failing_write_of_gen_leaves_a_prefix(rt: HostRuntime) -> Result<(), Fail> {
    try_write_fault(&rt, rt.alloc(), &[0], &[], ROOM, None, "")?;
    try_write_fault(&rt, rt.alloc(), &[1], &[], ROOM, Some(0), "")?;
    try_write_fault(&rt, rt.alloc(), &[], &[], 100, Some(100), "")?;
    try_write_fault(&rt, rt.alloc(), &[], &[0], ROOM, Some(7200), "")?;
    let out = "gen 1: source 912 words, inserted 3014 words, units 790\n";
    try_write_fault(&rt, rt.alloc(), &[], &[1], ROOM, Some(7200), out)
}
