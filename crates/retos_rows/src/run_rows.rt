//! Worked rows of `run`: its words and options, scripts, several objects, modules, locks, interrupts and room.

ghost use Rattle.std.specs.Prelude.{◌≡◌, None, IfOk};

use crate::test_support::{
    Case, CodeReloc, MODULE, Stored, all_files, application, no_command, try_case, try_failing,
    try_stored, with_files,
};
use edge_io::mem_folder::MemFolder;
use item_lists::lists::Bytes;
use std::alloc::Global;
use std::process::Abort;
use std::test::Fail;

/// Scripts: the empty one, a clock, and one whose steps fall.
const SCRIPTS: [Stored; 3] = [
    (b"empty", b""),
    (b"clock", b"every 100 0\n"),
    (b"falls", b"at 5 raise 1\nat 4 raise 1\n"),
];

/// A folder with the objects of the other rows, and with scripts.
fn scripted(alloc: Global) -> Result<MemFolder, Fail>
    ensures { IfOk result (λ files. files.created ≡ None) }
{
    let files = all_files(alloc, &[])?;
    with_files(files, &SCRIPTS)
}

/// Does what a case's words say in such a folder, and tells where it comes to something else.
fn try_scripted(rt: &impl Abort, alloc: Global, case: &Case) -> Result<(), Fail> {
    let mut files = scripted(alloc)?;
    try_case(rt, alloc, &mut files, &[], case)
}

/// Lines of words that are no command.
const NO_RUNS: [&str; 21] = [
    "run",
    "run empty",
    "run empty 9",
    "run empty 0 j.o",
    "run empty 10000001 j.o",
    "run -s 9 j.o",
    "run empty 9 -j.o",
    "run empty 9 j.o -j.o",
    "run --all --all empty 9 j.o",
    "run empty --all 9 j.o",
    "run empty 9 --all j.o",
    "run empty 9 j.o --all",
    "run --help",
    "--help",
    "--all run empty 9 j.o",
    "solo --all --all j.o 9",
    "solo j.o --all 9",
    "solo j.o 9 --all",
    "solo --all j.o",
    "check --all j.o",
    "run empty 9 j.o j.o j.o j.o j.o j.o j.o j.o j.o j.o j.o j.o j.o j.o j.o j.o j.o",
];

#[test]
fn words_that_are_no_run_are_refused(rt: HostRuntime) -> Result<(), Fail> {
    for line in &NO_RUNS {
        try_scripted(&rt, rt.alloc(), &no_command(line))?;
    }
    Ok(())
}

/// Words, and the line of what is refused first.
const FIRST_REFUSALS: [(&str, &str); 10] = [
    ("run none 9 none.o", "retos: none: absent\n"),
    ("run falls 9 none.o", "retos: falls: line 2: script\n"),
    ("run j.o 9 j.o", "retos: j.o: line 1: script\n"),
    ("run empty 9 j.o none.o u.o", "retos: none.o: absent\n"),
    (
        "run empty 9 u.o none.o",
        "retos: u.o: check rule 6 at 0004\n",
    ),
    (
        "run empty 9 j.o short.o",
        "retos: short.o: form short at 67\n",
    ),
    ("run empty 9 m.o m.o", "retos: m.o: function 5 taken\n"),
    ("run empty 9 m.o m.o none.o", "retos: none.o: absent\n"),
    (
        "run empty 10 j.o j.o j.o j.o j.o j.o j.o j.o j.o",
        "retos: j.o: no room, slots\n",
    ),
    (
        "run empty 9 j.o j.o j.o j.o j.o j.o j.o j.o j.o j.o j.o j.o j.o j.o j.o j.o",
        "retos: j.o: no room, slots\n",
    ),
];

/// A line of words that is refused with this line on err.
fn refusal<'a>(line: &'a str, err: &'a str) -> Case<'a> {
    Case {
        line,
        out: "",
        err,
        status: 1,
    }
}

/// The first refused input decides, the script before the objects; and room is asked for behind all of them.
#[test]
fn the_first_refusal_is_named(rt: HostRuntime) -> Result<(), Fail> {
    for (line, err) in &FIRST_REFUSALS {
        try_scripted(&rt, rt.alloc(), &refusal(line, err))?;
    }
    Ok(())
}

/// A jump to itself with a static part of 16,368 bytes.
const WIDE: [u8; 22] = [
    0x52, 0x45, 0x54, 0x4F, 1, 1, 1, 0, 0, 0, 0xF0, 0x3F, 0x10, 0, 1, 0, 0, 0, 0, 0, 0xFF, 0x3F,
];

/// An object of 8,192 words, each a jump to itself.
fn long_object(alloc: Global) -> Result<Bytes, Fail> {
    let mut text = Bytes::from_slice(alloc, b"RETO\x01\x01\x00\x20")?;
    text.extend_from_slice(&[0, 0, 0, 0, 0x10, 0, 1, 0, 0, 0, 0, 0])?;
    for _ in 0..8192u32 {
        text.extend_from_slice(&[0xFF, 0x3F])?;
    }
    Ok(text)
}

/// Words, and the line of the object that has no room beside the others.
const NO_ROOM: [(&str, &str); 2] = [
    (
        "run empty 9 j.o wide.o",
        "retos: wide.o: no room, region, need 16384, gap 16368\n",
    ),
    (
        "run empty 9 long.o long.o j.o",
        "retos: j.o: no room, code, need 2, gap 0\n",
    ),
];

/// Does what a case's words say beside this long object and the wide one.
fn try_long(rt: &impl Abort, alloc: Global, long: &[u8], case: &Case) -> Result<(), Fail> {
    let files = scripted(alloc)?;
    let mut files = with_files(files, &[(b"wide.o", &WIDE), (b"long.o", long)])?;
    try_case(rt, alloc, &mut files, &[], case)
}

#[test]
fn what_has_no_room_beside_the_others_is_named(rt: HostRuntime) -> Result<(), Fail> {
    let long = long_object(rt.alloc())?;
    for (line, err) in &NO_ROOM {
        try_long(&rt, rt.alloc(), long.as_slice(), &refusal(line, err))?;
    }
    Ok(())
}

/// The first read of a script fails.
const SCRIPT_FAULT: Case = Case {
    line: "run s.o 9 j.o",
    out: "",
    err: "retos: s.o: read fault\n",
    status: 3,
};

/// The second write of out fails.
const RUN_FAULT: Case = Case {
    line: "run empty 100 e.o",
    out: "a0 6000 602A 2000 2010\n",
    err: "retos: write fault\n",
    status: 4,
};

#[test]
fn devices_that_fail_are_told(rt: HostRuntime) -> Result<(), Fail> {
    try_failing(&rt, rt.alloc(), &[0], &[], &SCRIPT_FAULT)?;
    let mut files = scripted(rt.alloc())?;
    try_case(&rt, rt.alloc(), &mut files, &[1], &RUN_FAULT)
}

// ---- modules

/// An application that calls function 5 with 5 and 7, emits what comes back, and exits.
const CALLS_FIVE: [u16; 33] = [
    0x403C, 0x0005, 0x403D, 0x0007, 0x4205, 0x9211, 0x0200, 0x2C02, 0x4030, 0xF002, 0x4502, 0x12B0,
    0xF022, 0x4D0C, 0x4205, 0x9211, 0x0200, 0x2C02, 0x4030, 0xF002, 0x4502, 0x12B0, 0xF024, 0x4205,
    0x9211, 0x0200, 0x2C02, 0x4030, 0xF002, 0x4502, 0x12B0, 0xF008, 0x3FFF,
];

/// A module whose function 5 never ends.
const ENDLESS: [u8; 26] = [
    0x52, 0x45, 0x54, 0x4F, 1, 2, 1, 0, 0, 0, 0, 0, 0, 0, 0, 1, 0, 0, 0, 0, 0xFF, 0x3F, 5, 0, 0, 0,
];

/// A module, and what a run of the application that calls it is to do.
const CALLED: [(&[u8], Case); 2] = [
    (
        &MODULE,
        Case {
            line: "run empty 100 m.o a.o",
            out: "m0 6000 6006 2000 2000\na0 6006 6048 2000 2010\n18 a0.t0 emit 0008\n24 a0.t0 exit last\n\
end quiet 24 emits 1 faults 0\n",
            err: "",
            status: 0,
        },
    ),
    (
        &ENDLESS,
        Case {
            line: "run empty 10000 m.o a.o",
            out: "m0 6000 6002 2000 2000\na0 6002 6044 2000 2010\n4105 m0 fault budget 6000\n\
4112 a0.t0 emit 0007\n4118 a0.t0 exit last\nend quiet 4118 emits 1 faults 1\n",
            err: "",
            status: 6,
        },
    ),
];

#[test]
fn a_module_is_called_and_one_that_never_ends_is_ended(rt: HostRuntime) -> Result<(), Fail> {
    let text = application(rt.alloc(), &CALLS_FIVE, &[])?;
    for (module, case) in &CALLED {
        let stored: [Stored; 3] = [(b"m.o", module), (b"a.o", text.as_slice()), (b"empty", b"")];
        try_stored(&rt, rt.alloc(), &stored, case)?;
    }
    Ok(())
}

/// A run of a module alone.
const QUIET: Case = Case {
    line: "run empty 100 m.o",
    out: "m0 6000 6006 2000 2000\nend quiet 0 emits 0 faults 0\n",
    err: "",
    status: 0,
};

#[test]
fn modules_alone_are_quiet_at_once(rt: HostRuntime) -> Result<(), Fail> {
    try_scripted(&rt, rt.alloc(), &QUIET)
}
