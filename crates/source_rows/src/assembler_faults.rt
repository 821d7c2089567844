//! Sources worked out by hand, with their first faults.

ghost use Rattle.std.specs.Prelude.{◌≡◌, true};
ghost use Rattle.asm_model.specs.FirstPass.{fault};
ghost use Rattle.asm_model.specs.Assembled.{assembled};

use asm_model::fault::AsmKind::*;
use asm_model::fault::{AsmFault, AsmKind};
use msp_asm::assemble;
use std::alloc::Global;
use std::test::*;

/// The most bytes of a source.
pub(crate) const SOURCE_MAX: usize = 1_048_576;

/// Whether a source has exactly this fault.
pub(crate) fn has_fault(alloc: Global, source: &[u8], line: u32, kind: AsmKind) -> bool
    ensures { result ≡ true → assembled source.now ≡ Err (fault line kind) }
{
    if source.len() > SOURCE_MAX {
        return false;
    }
    match assemble(alloc, source) {
        Err(
            AsmFault::At {
                line: found,
                kind: named,
            },
        ) => found == line && named == kind,
        _ => false,
    }
}

/// Faults and their lines, with the sources that have them, parted by `|`.
const FAULTS: [(AsmKind, u32, &str); 27] = [
    (NotText, 1, "\x01: NOP\nFOO"),
    (NotText, 2, ".app 16 1\n\x00FOO"),
    (
        NotText,
        3,
        ".app 16 1\n.entry s\ns: NOP\x07|.app 16 1\n.entry s\ns: NOP ; \x7F|.app 16 1\n.entry s\ns: NOP\r \n|\
         .app 16 1\n.entry s\ns: NOP\r",
    ),
    (
        DoubleLabel,
        2,
        ".app 16 1\n.equ LO 1\n|.app 16 1\nx: .equ x 1\n",
    ),
    (DoubleLabel, 3, ".app 16 1\n.equ x 1\n.equ x 2\n"),
    (
        DoubleLabel,
        4,
        ".app 16 1\n.entry s\ns: NOP\ns: NOP|.app 16 1\n.entry s\ns: NOP\nsp:|\
         .app 16 1\n.entry s\ns: NOP\nR15: FOO|.app 16 1\n.entry s\ns: NOP\nHI:",
    ),
    (
        UnknownWord,
        3,
        ".app 16 1\n.entry s\ns: FOO R6|.app 16 1\n.entry s\ns: NOP.B|.app 16 1\n.entry s\ns: JMP.W s|\
         .app 16 1\n.entry s\ns: SWPB.B R6|.app 16 1\n.entry s\ns: CALL.B R6|.app 16 1\n.entry s\ns: MOV.X R5,R6|\
         .app 16 1\n.entry s\ns: BR.W R6|.app 16 1\n.entry s\ns: .foo|.app 16 1\n.entry s\ns: .B|\
         .app 16 1\n.entry s\ns: lo : NOP|.app 16 1\n.entry s\ns: MOV#1,R6",
    ),
    (
        UnknownWord,
        4,
        ".app 16 1\n.entry s\ns: NOP\n1x: NOP|.app 16 1\n.entry s\ns: NOP\n: NOP|\
         .app 16 1\n.entry s\ns: NOP\n_abcdefghijklmnopqrstuvwxyz012345: NOP|.app 16 1\n.entry t\ns: JMP s\nFOO\n",
    ),
    (
        BadDirective,
        0,
        "|.app 16 1\n.entry s\n|.app 16 1\nNOP\n|.module\nNOP\n|.module\n.export 1 s\n",
    ),
    (
        BadDirective,
        1,
        "NOP\n|.code\n.app 16 1\n|.app 16\n|.app 16 1 1\n|.app x 1\n|.module x\n|.version 2\n.app 16 1\n",
    ),
    (
        BadDirective,
        2,
        ".app 16 1\n.app 16 1\n|.app 16 1\n.module\n|.app 16 1\n.equ x\n|.app 16 1\n.equ 1x 1\n|\
         .app 16 1\n.word 1\n|.app 16 1\n.byte 1\n|.app 16 1\n.space 1\n|.app 16 1\n.data x\n|\
         .app 16 1\n.entry LO\n|.app 16 1\n.entry R5\n|.app 16 1\n.export 1 s\n|.module\n.entry s\n|\
         .module\n.export s\n|.module\n.version\n|.module\n.version 1\n|.module\n.version 3\n|\
         .module\n.version 65538\n|.module\n.version -65534\n|.module\n.version x\n|.module\n.version 2 2\n",
    ),
    (
        BadDirective,
        3,
        ".app 16 1\n.code\n.equ x 1\n|.app 16 1\n.data\nNOP\n|.app 16 1\n.zero\nNOP\n|.app 16 1\n.data\n.word\n|\
         .app 16 1\n.data\n.word 1,\n|.app 16 1\n.data\n.word LO\n|.app 16 1\n.data\n.byte s\n|\
         .app 16 1\n.equ x 1\n.entry x\n|.app 16 1\n.entry s\n.entry s\n|.app 16 1\n.data\n.byte 1 2\n|\
         .app 16 1\n.data\n.byte 256,x\n|.app 16 1\n.version 2\n.version 2\n|.app 16 1\n.equ x 1\n.version 2\n|\
         .app 16 1\n.code\n.version 2\n|.app 16 1\nNOP\n.version 2\n|.app 16 1\n.entry s\n.version 2\n",
    ),
    (BadDirective, 4, ".app 16 1\n.data\n.byte 1\n.word 1\n"),
    (
        BadOperand,
        2,
        ".app 16 1\n.entry e\nNOP\ne:\n|.module\n.export 1 e\nNOP\ne:\n",
    ),
    (
        BadOperand,
        3,
        ".app 16 1\n.entry s\ns: MOV R5|.app 16 1\n.entry s\ns: MOV|.app 16 1\n.entry s\ns: MOV R5,R6,R7|\
         .app 16 1\n.entry s\ns: MOV R5,R6,R7,R8|.app 16 1\n.entry s\ns: MOV R3,R6|\
         .app 16 1\n.entry s\ns: MOV R5,@R6|.app 16 1\n.entry s\ns: MOV R5,@R6+|.app 16 1\n.entry s\ns: MOV R5,#1|\
         .app 16 1\n.entry s\ns: RRC #1|.app 16 1\n.entry s\ns: SWPB ##256|.app 16 1\n.entry s\ns: SXT #2|\
         .app 16 1\n.entry s\ns: RLA R3|.app 16 1\n.entry s\ns: RLC R3|.app 16 1\n.entry s\ns: NOP R5|\
         .app 16 1\n.entry s\ns: RETI 1|.app 16 1\n.entry s\ns: CALL|.app 16 1\n.entry s\ns: CALL R3|\
         .app 16 1\n.entry s\ns: PUSH R3|.app 16 1\n.entry s\ns: JMP 5|.app 16 1\n.entry s\ns: JMP LO|\
         .app 16 1\n.entry s\ns: JMP R5|.app 16 1\n.entry s\ns: JMP s+2|.app 16 1\n.entry s\ns: JMP s,s|\
         .app 16 1\n.entry s\ns: MOV &LO,R6|.app 16 1\n.entry s\ns: MOV HI(R5),R6|\
         .app 16 1\n.entry s\ns: MOV LO,R6|.app 16 1\n.entry s\ns: MOV @PC,R6|.app 16 1\n.entry s\ns: MOV @SR,R6|\
         .app 16 1\n.entry s\ns: MOV @R3+,R6|.app 16 1\n.entry s\ns: MOV 2(R3),R6",
    ),
    (
        BadOperand,
        3,
        ".app 16 1\n.entry s\ns: MOV 2(SR),R6|.app 16 1\n.entry s\ns: MOV (R5),R6|\
         .app 16 1\n.entry s\ns: MOV 2(R5,R6|.app 16 1\n.entry s\ns: MOV #007,R6|\
         .app 16 1\n.entry s\ns: MOV #0x,R6|.app 16 1\n.entry s\ns: MOV #0X1,R6|.app 16 1\n.entry s\ns: MOV #-,R6|\
         .app 16 1\n.entry s\ns: MOV #--1,R6|.app 16 1\n.entry s\ns: MOV #,R6|.app 16 1\n.entry s\ns: MOV #s+,R6|\
         .app 16 1\n.entry s\ns: MOV #s+-1,R6|.app 16 1\n.entry s\ns: MOV #s + 1,R6|\
         .app 16 1\n.entry s\ns: MOV #1+1,R6|.app 16 1\n.entry s\ns: MOV s-2,R6|.app 16 1\n.entry s\ns: MOV 5,R6|\
         .app 16 1\n.entry s\ns: MOV #_abcdefghijklmnopqrstuvwxyz012345,R6|.app 16 1\n.entry s\ns: POP #1|\
         .app 16 1\n.entry s\ns: BR|.app 16 1\n.entry s\ns: CLR|.app 16 1\n.entry s\ns: INC @R5|\
         .app 16 1\n.entry s\ns: MOV #R5,R6|.app 16 1\n.entry s\ns: MOV &@R5,R6|\
         .app 16 1\n.entry s\ns: MOV &s,R6\n|.app 16 1\n.entry s\ns: MOV s(R5),R6\n|\
         .app 16 1\n.entry s\ns: MOV R6,&s\n|.app 16 1\n.entry s\ns: MOV #65536,R6,R7|\
         .app 16 1\n.entry s\ns: MOV #65536,@R6",
    ),
    (
        BadOperand,
        4,
        ".app 16 1\n.equ x 4\n.entry s\ns: JMP x\n|.app 16 1\n.equ x 4\n.entry s\ns: MOV x,R6\n|\
         .module\n.zero\nz: .space 1\n.export 1 z\n.code\nNOP\n",
    ),
    (
        BadOperand,
        5,
        ".app 16 1\n.data\nw: .byte 1\n.code\n.entry w\nNOP\n",
    ),
    (
        BadOperand,
        6,
        ".app 16 1\n.data\nw: .byte 1\n.code\n.entry s\ns: JMP w\n|\
         .app 16 1\n.data\nw: .byte 1\n.code\n.entry s\ns: MOV w,R6\n",
    ),
    (
        NumberRange,
        1,
        ".app 14 1\n|.app 17 1\n|.app 1026 1\n|.app -16 1\n|.app 16 0\n|.app 16 5\n",
    ),
    (
        NumberRange,
        2,
        ".app 16 1\n.equ x 65536\n|.module\n.export 64 s\n|.module\n.export -1 s\n",
    ),
    (
        NumberRange,
        3,
        ".app 16 1\n.entry s\ns: MOV #65536,R6|.app 16 1\n.entry s\ns: MOV #-32769,R6|\
         .app 16 1\n.entry s\ns: MOV #0x10000,R6|.app 16 1\n.entry s\ns: MOV #-0x8001,R6|\
         .app 16 1\n.entry s\ns: MOV #s+65536,R6|.app 16 1\n.entry s\ns: MOV #99999999999999999999999999,R6|\
         .app 16 1\n.entry s\ns: MOV 65536(R5),R6|.app 16 1\n.entry s\ns: MOV &70000,R6|\
         .app 16 1\n.entry s\ns: PUSH #65536|.app 16 1\n.entry s\ns: MOV #1,-40000(R6)|\
         .module\n.export 3 s\n.export 3 s\n|.app 16 1\n.zero\n.space 16385\n|.app 16 1\n.zero\n.space -1\n|\
         .app 16 1\n.data\n.byte 256\n|.app 16 1\n.data\n.byte 1,-129\n|.app 16 1\n.data\n.word 0,65536\n",
    ),
    (TooLarge, 4, ".app 16 1\n.zero\n.space 16384\n.space 1\n"),
    (
        TooLarge,
        5,
        ".app 16 1\n.data\n.word 1\n.zero\n.space 16383\n",
    ),
    (NoLabel, 2, ".app 16 1\n.entry t\nNOP\n"),
    (
        NoLabel,
        3,
        ".app 16 1\n.entry s\ns: MOV R16,R6|.app 16 1\n.entry s\ns: MOV R05,R6|.app 16 1\n.entry s\ns: JMP t\n|\
         .app 16 1\n.entry s\ns: MOV #t,R6\n|.app 16 1\n.entry s\ns: MOV &t,R6\n|\
         .app 16 1\n.entry s\ns: MOV t,R6\n|.app 16 1\n.entry s\ns: JMP S\n|.app 16 1\n.entry s\ns: MOV &s,t|\
         .app 16 1\n.entry s\ns: MOV #t,R6\nJMP u\n",
    ),
    (
        NoLabel,
        5,
        ".app 16 1\n.entry s\ns: NOP\n.data\n.word 1,t\n",
    ),
];

#[test]
fn each_fault_has_its_line(rt: HostRuntime) {
    for (kind, line, sources) in FAULTS {
        for source in sources.as_bytes().split(|b| *b == b'|') {
            assert!(rt;
                has_fault(rt.alloc(), source, line, kind),
                "at {line}: {source:?}"
            );
        }
    }
}
