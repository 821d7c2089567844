//! Sources worked out by hand, with their objects, words and faults.

ghost use Rattle.std.specs.Prelude.{◌≡◌, ◌+◌, ◌*◌, length, true, false, IfOk};
ghost use Rattle.asm_model.specs.Assembled.{assembled};
ghost use Rattle.source_rows.specs.Answers.{HasCode};

use crate::assembler_faults::{SOURCE_MAX, has_fault};
use asm_model::fault::AsmKind::{JumpRange, TooLarge};
use code_model::object::Object;
use code_model::parts::{Export, Kind, RelKind, Reloc};
use item_lists::lists::Bytes;
use msp_asm::assemble;
use object_form::writing::write_object;
use std::alloc::{AllocError, Global};
use std::test::*;

/// Whether a source assembles to these code words.
fn has_code(alloc: Global, source: &[u8], words: &[u16]) -> bool
    ensures { result ≡ true → HasCode words.now (assembled source.now) }
{
    if source.len() > SOURCE_MAX {
        return false;
    }
    match assemble(alloc, source) {
        Err(_) => false,
        Ok(o) => o.code.as_slice() == words,
    }
}

#[test]
fn a_jump_to_itself_has_22_bytes(rt: HostRuntime) -> Result<(), Fail> {
    let o = assemble(rt.alloc(), b".app 16 1\n.entry s\ns: JMP s\n")
        .ok()
        .ok_or("the source is right")?;
    let bytes = write_object(rt.alloc(), &o).ok().ok_or("want of memory")?;
    assert_eq!(rt;
        bytes.as_slice(),
        [
            0x52, 0x45, 0x54, 0x4F, 1, 1, 1, 0, 0, 0, 0, 0, 0x10, 0, 1, 0, 0, 0, 0, 0, 0xFF, 0x3F,
        ]
        .as_slice()
    );
    Ok(())
}

/// Sources with the words that they assemble to.
const WORDS: [(&str, &[u16]); 13] = [
    (
        ".app 16 1\n.entry s\ns: MOV R5,R6\nADD R5,R6\nADDC R5,R6\nSUBC R5,R6\nSUB R5,R6\nCMP R5,R6\nDADD R5,R6\n\
         BIT R5,R6\nBIC R5,R6\nBIS R5,R6\nXOR R5,R6\nAND R5,R6\nmov.b r5,r6\nMOV.W R5,R6\n",
        &[
            0x4506, 0x5506, 0x6506, 0x7506, 0x8506, 0x9506, 0xA506, 0xB506, 0xC506, 0xD506, 0xE506,
            0xF506, 0x4546, 0x4506,
        ],
    ),
    (
        ".app 16 1\n.entry s\ns: RRC R6\nSWPB R6\nRRA R6\nSXT R6\nPUSH R6\nCALL R6\nRRC.B R6\nRRA.B R6\nPUSH.B R6\n\
         SWPB.W R6\nRETI\n",
        &[
            0x1006, 0x1086, 0x1106, 0x1186, 0x1206, 0x1286, 0x1046, 0x1146, 0x1246, 0x1086, 0x1300,
        ],
    ),
    (
        ".app 16 1\n.entry s\ns: JNE s\nJNZ s\nJEQ s\nJZ s\nJNC s\nJLO s\nJC s\nJHS s\nJN s\nJGE s\nJL s\nJMP s\n",
        &[
            0x23FF, 0x23FE, 0x27FD, 0x27FC, 0x2BFB, 0x2BFA, 0x2FF9, 0x2FF8, 0x33F7, 0x37F6, 0x3BF5,
            0x3FF4,
        ],
    ),
    (
        ".app 16 1\n.entry s\ns: ADC R6\nBR R6\nBR #0xF004\nBR #8\nCLR R6\nCLRC\nCLRN\nCLRZ\nDADC R6\nDEC R6\n\
         DECD R6\nDINT\nEINT\nINC R6\nINCD R6\n",
        &[
            0x6306, 0x4600, 0x4030, 0xF004, 0x4030, 8, 0x4306, 0xC312, 0xC222, 0xC322, 0xA306,
            0x8316, 0x8326, 0xC232, 0xD232, 0x5316, 0x5326,
        ],
    ),
    (
        ".app 16 1\n.entry s\ns: INV R6\nNOP\nPOP R6\nRET\nRLA R6\nRLC R6\nSBC R6\nSETC\nSETN\nSETZ\nTST R6\n\
         CLR.B R6\nPOP.B R6\nRLA.B R6\nTST.B R6\nCLR R3\n",
        &[
            0xE336, 0x4303, 0x4136, 0x4130, 0x5606, 0x6606, 0x7306, 0xD312, 0xD222, 0xD322, 0x9306,
            0x4346, 0x4176, 0x5646, 0x9346, 0x4303,
        ],
    ),
    (
        ".app 16 1\n.entry s\ns: MOV 2(R5),R6\nMOV @R5,R6\nMOV @R5+,R6\nMOV &0x200,R6\nMOV ##1,R6\nMOV R5,-2(R6)\n\
         MOV R5,&512\nMOV PC,R6\nmov sp,r6\nMOV SR,R15\nMOV s,R6\nMOV s+2,R6\n",
        &[
            0x4516, 2, 0x4526, 0x4536, 0x4216, 0x200, 0x4036, 1, 0x4586, 0xFFFE, 0x4582, 0x200,
            0x4006, 0x4106, 0x420F, 0x4016, 0xFFE0, 0x4016, 0xFFDE,
        ],
    ),
    (
        ".app 16 1\n.equ eight 7\n.entry s\ns: MOV #0,R6\nMOV #1,R6\nMOV #2,R6\nMOV #4,R6\nMOV #8,R6\nMOV #-1,R6\n\
         MOV #0xfFfF,R6\nMOV #3,R6\nMOV #-0,R6\nMOV #eight+1,R6\nMOV #eight-2,R6\nMOV.B #255,R6\n",
        &[
            0x4306, 0x4316, 0x4326, 0x4226, 0x4236, 0x4336, 0x4336, 0x4036, 3, 0x4306, 0x4236,
            0x4036, 5, 0x4076, 255,
        ],
    ),
    (
        ".app 16 1\n.entry s\ns: MOV #5,R6\nCMP #8,R6\nPUSH #8\nPUSH #3\nPUSH ##8\nCALL #8\nMOV #65535,R5\n\
         MOV #-32768,R5\nMOV #0x00008000,R5\n",
        &[
            0x4036, 5, 0x9236, 0x1232, 0x1230, 3, 0x1230, 8, 0x12B0, 8, 0x4335, 0x4035, 0x8000,
            0x4035, 0x8000,
        ],
    ),
    // The number behind a sign goes to 65535, on every kind of name.
    (
        ".app 16 1\n.equ x 1\n.entry s\n.data\nw: .byte 0\n.code\ns: MOV #s-40000,R6\nMOV #x-40000,R6\n\
         MOV &w-40000,R6\nMOV #LO-40000,R6\nMOV #HI-65535,R6\nMOV #s+65535,R6\n",
        &[
            0x4036, 0x63C0, 0x4036, 0x63C1, 0x4216, 0x63C0, 0x4036, 0x63C0, 0x4036, 1, 0x4036,
            0xFFFF,
        ],
    ),
    // A CR before each LF, tabs, no last LF, comments, and a label alone in its line.
    (
        "\t.app\t16 1 ; header\r\n\r\n ; nothing\r\n.entry  s\r\n s:\r\n\tMOV\t#1 ,\tR6 ;: x\r\nlo: JMP s",
        &[0x4316, 0x3FFE],
    ),
    // A label of 32 bytes.
    (
        ".app 16 1\n.entry _abcdefghijklmnopqrstuvwxyz01234\n_abcdefghijklmnopqrstuvwxyz01234:NOP\n",
        &[0x4303],
    ),
    (
        ".app 16 1\n.entry start\nstart: MOV #0,R6\nloop: MOV R6,R12\nCALL #0xF024\nXOR #1,R6\nMOV #1,R12\n\
         CALL #0xF00E\nJMP loop\n",
        &[
            0x4306, 0x460C, 0x12B0, 0xF024, 0xE316, 0x431C, 0x12B0, 0xF00E, 0x3FF8,
        ],
    ),
    (
        ".app 32 2\n.entry main\nmain: MOV #evil,R12\nMOV #3,R13\nCALL #0xF00A\nCALL #f\nstay: JMP stay\n\
         f: CALL #0xF00C\nRET\nevil: MOV #LO,R6\nMOV #2,30(R6)\nCALL #0xF00C\nstay2: JMP stay2\n",
        &[
            0x403C, 24, 0x403D, 3, 0x12B0, 0xF00A, 0x12B0, 18, 0x3FFF, 0x12B0, 0xF00C, 0x4130,
            0x4036, 0, 0x43A6, 30, 0x12B0, 0xF00C, 0x3FFF,
        ],
    ),
];

#[test]
fn words_are_those_of_the_tables(rt: HostRuntime) {
    for (source, words) in WORDS {
        assert!(rt;
            has_code(rt.alloc(), source.as_bytes(), words),
            "at {source}"
        );
    }
}

/// Two threads that pass numbers, with a counter in zeroed bytes.
const PRODUCER: &str =
    ".app 48 2\n.entry main\n.zero\ncount: .space 2\n.code\nmain: MOV #worker,R12\nMOV #3,R13\nMOV #0,R14\n\
     CALL #0xF00A\nprod: MOV #0,R12\nCALL #0xF016\nADD #1,&count\nMOV #0,R12\nCALL #0xF01C\nMOV #0,R12\n\
     CALL #0xF018\nMOV #2,R12\nCALL #0xF00E\nJMP prod\nworker: MOV #0,R12\nCALL #0xF016\nagain: CMP #0,&count\n\
     JNE take\nMOV #0,R12\nMOV #0,R13\nCALL #0xF01A\nJMP again\ntake: SUB #1,&count\nMOV &count,R12\nCALL #0xF024\n\
     MOV #0,R12\nCALL #0xF018\nJMP worker\n";

#[test]
fn two_threads_have_43_words(rt: HostRuntime) -> Result<(), Fail> {
    let o = assemble(rt.alloc(), PRODUCER.as_bytes())
        .ok()
        .ok_or("the source is right")?;
    assert_eq!(rt; (o.code.len(), o.init.len(), o.zeroed), (43, 0, 2));
    assert_eq!(rt; (o.stack, o.threads, o.relocs.len()), (48, 2, 5));
    Ok(())
}

/// A module with labels of each section, ends of the region and a name of a number.
const ADDRESSES: &str =
    ".module\n.export 3 f\n.zero\nz: .space 4\n.data\nw: .word f+2, -1 ,z\n.byte 255,-128\n.code\n\
     f: MOV z+2(R5),&w\nMOV #LO+2,R6\nMOV #HI,R6\nMOV #f,R6\nMOV #w+4,R6\nMOV f,R6\n";

/// A relocation of the code.
fn of_code(kind: RelKind, offset: u16) -> Reloc
    ensures { result ≡ record { in_code = true; kind = kind; offset = offset } }
{
    Reloc {
        in_code: true,
        kind,
        offset,
    }
}

/// A relocation of initialised bytes.
fn of_data(kind: RelKind, offset: u16) -> Reloc
    ensures { result ≡ record { in_code = false; kind = kind; offset = offset } }
{
    Reloc {
        in_code: false,
        kind,
        offset,
    }
}

/// Sources with the version of their objects.
const VERSIONS: [(u8, &str); 6] = [
    (1, ".app 16 1\n.entry s\ns: JMP s\n"),
    (2, ".app 16 1\n.version 2\n.entry s\ns: JMP s\n"),
    (2, ".module\n.version 2\n.equ n 1\n.export 1 s\ns: JMP s\n"),
    (
        2,
        ".module\n; the kind stands before\n\n  .Version 0x2\n.export 1 s\ns: JMP s\n",
    ),
    (2, ".app 16 1\nl: .version 2\n.equ x 1\n.entry l\nJMP l\n"),
    (1, ".app 16 1\n.equ x 1\n.entry s\ns: JMP s\n"),
];

#[test]
fn version_2_is_named_behind_the_kind(rt: HostRuntime) {
    for (version, source) in VERSIONS {
        match assemble(rt.alloc(), source.as_bytes()) {
            Err(_) => assert!(rt; false),
            Ok(o) => assert_eq!(rt; o.version, version),
        }
    }
}

#[test]
fn addresses_are_relocated(rt: HostRuntime) -> Result<(), Fail> {
    let o: Object = assemble(rt.alloc(), ADDRESSES.as_bytes())
        .ok()
        .ok_or("the source is right")?;
    assert!(rt; o.kind == Kind::Module);
    assert_eq!(rt;
        o.code.as_slice(),
        [
            0x4592, 10, 0, 0x4036, 2, 0x4036, 0, 0x4036, 0, 0x4036, 4, 0x4016, 0xFFE8,
        ]
        .as_slice()
    );
    assert_eq!(rt;
        o.init.as_slice(),
        [2, 0, 0xFF, 0xFF, 8, 0, 0xFF, 0x80].as_slice()
    );
    assert_eq!(rt; (o.zeroed, o.stack, o.threads, o.entry), (4, 0, 0, 0));
    assert_eq!(rt;
        o.relocs.as_slice(),
        [
            of_code(RelKind::Data, 2),
            of_code(RelKind::Data, 4),
            of_code(RelKind::Lo, 8),
            of_code(RelKind::Hi, 12),
            of_code(RelKind::Code, 16),
            of_code(RelKind::Data, 20),
            of_data(RelKind::Code, 0),
            of_data(RelKind::Data, 4),
        ]
        .as_slice()
    );
    assert_eq!(rt;
        o.exports.as_slice(),
        [Export {
            number: 3,
            offset: 0
        }]
        .as_slice()
    );
    Ok(())
}

/// A text with another repeated behind it, and a third at the end.
fn repeated(
    alloc: Global,
    first: &[u8],
    middle: &[u8],
    count: usize,
    last: &[u8],
) -> Result<Bytes, AllocError>
    ensures { IfOk result (λ text. length text ≡ (length first.now + count * length middle.now) + length last.now) }
{
    let mut text = Bytes::from_slice(alloc, first)?;
    for _ in 0..count {
        text.extend_from_slice(middle)?;
    }
    text.extend_from_slice(last)?;
    Ok(text)
}

/// Before the words of an application that begins at `s`.
const BEFORE: &[u8] = b".app 16 1\n.entry s\ns:\n";

#[test]
fn a_jump_reaches_511_words(rt: HostRuntime) -> Result<(), Fail> {
    let near = repeated(
        rt.alloc(),
        b".app 16 1\n.entry s\ns: JMP e\n",
        b"NOP\n",
        511,
        b"e: NOP",
    )
    .ok()
    .ok_or("want of memory")?;
    let o = assemble(rt.alloc(), near.as_slice())
        .ok()
        .ok_or("the source is right")?;
    assert_eq!(rt; o.code.get(0), Some(0x3DFF));
    let far = repeated(
        rt.alloc(),
        b".app 16 1\n.entry s\ns: JMP e\n",
        b"NOP\n",
        512,
        b"e: NOP",
    )
    .ok()
    .ok_or("want of memory")?;
    assert!(rt; has_fault(rt.alloc(), far.as_slice(), 3, JumpRange));
    Ok(())
}

#[test]
fn a_jump_goes_back_512_words(rt: HostRuntime) -> Result<(), Fail> {
    let near = repeated(rt.alloc(), BEFORE, b"NOP\n", 511, b"JMP s")
        .ok()
        .ok_or("want of memory")?;
    let o = assemble(rt.alloc(), near.as_slice())
        .ok()
        .ok_or("the source is right")?;
    assert_eq!(rt; o.code.get(511), Some(0x3E00));
    let far = repeated(rt.alloc(), BEFORE, b"NOP\n", 512, b"JMP s")
        .ok()
        .ok_or("want of memory")?;
    assert!(rt; has_fault(rt.alloc(), far.as_slice(), 516, JumpRange));
    Ok(())
}

#[test]
fn code_has_8192_words_at_most(rt: HostRuntime) -> Result<(), Fail> {
    let most = repeated(rt.alloc(), BEFORE, b"NOP\n", 8192, b"")
        .ok()
        .ok_or("want of memory")?;
    let o = assemble(rt.alloc(), most.as_slice())
        .ok()
        .ok_or("the source is right")?;
    assert_eq!(rt; o.code.len(), 8192);
    let more = repeated(rt.alloc(), BEFORE, b"NOP\n", 8193, b"")
        .ok()
        .ok_or("want of memory")?;
    assert!(rt; has_fault(rt.alloc(), more.as_slice(), 8196, TooLarge));
    Ok(())
}

/// The largest source: lines of a comment that fill it.
#[test]
fn a_source_of_a_mebibyte_is_assembled(rt: HostRuntime) -> Result<(), Fail> {
    let source = repeated(rt.alloc(), BEFORE, b"; 6789abcdef\n", 80_000, b"l: JMP l")
        .ok()
        .ok_or("want of memory")?;
    assert!(rt; has_code(rt.alloc(), source.as_slice(), &[0x3FFF]));
    Ok(())
}
