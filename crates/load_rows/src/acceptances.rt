//! Acceptances and sets of lines worked out by hand.

use flat_mem::FlatMem;
use interrupts::{Lines, accept};
use msp_machine::regs::{PC, Regs, SP, SR};
use std::test::Fail;

/// Registers with these three.
fn registers(pc: u16, sp: u16, status: u16) -> Regs {
    let mut r = Regs::new();
    r.set(PC, pc);
    r.set(SP, sp);
    r.set(SR, status);
    r.set(4, 0x1234);
    r
}

#[test]
fn each_line_has_its_vector(rt: HostRuntime) -> Result<(), Fail> {
    let vectors: [(u16, u16); 14] = [
        (0xFFE0, 0xF080),
        (0xFFE2, 0xF082),
        (0xFFE4, 0xF084),
        (0xFFE6, 0xF086),
        (0xFFE8, 0xF088),
        (0xFFEA, 0xF08A),
        (0xFFEC, 0xF08C),
        (0xFFEE, 0xF08E),
        (0xFFF0, 0xF090),
        (0xFFF2, 0xF092),
        (0xFFF4, 0xF094),
        (0xFFF6, 0xF096),
        (0xFFF8, 0xF098),
        (0xFFFA, 0xF09A),
    ];
    let mut m = FlatMem::new(rt.alloc())?;
    for (at, routine) in vectors {
        m.set_word(at, routine);
    }
    for line in 0..14 {
        let mut r = registers(0x6010, 0x2010, 0x0008);
        let written = accept(&mut m, &mut r, line);
        assert_eq!(rt;
            (written.len(), r.get(PC)),
            (4, vectors[line as usize].1),
            "line {line}"
        );
    }
    Ok(())
}

/// Each row: SP and SR before, SP and SR behind, and the four written bytes. PC is 6010, and line 1 is accepted.
const PUSHES: [(u16, u16, u16, u16, [(u16, u8); 4]); 6] = [
    (
        0x2004,
        0x0008,
        0x2000,
        0x0000,
        [
            (0x2000, 0x08),
            (0x2001, 0x00),
            (0x2002, 0x10),
            (0x2003, 0x60),
        ],
    ),
    (
        0x2010,
        0x010F,
        0x200C,
        0x0000,
        [
            (0x200C, 0x0F),
            (0x200D, 0x01),
            (0x200E, 0x10),
            (0x200F, 0x60),
        ],
    ),
    (
        0x2010,
        0xFFFF,
        0x200C,
        0x0040,
        [
            (0x200C, 0xFF),
            (0x200D, 0xFF),
            (0x200E, 0x10),
            (0x200F, 0x60),
        ],
    ),
    (
        0x2010,
        0xFFBF,
        0x200C,
        0x0000,
        [
            (0x200C, 0xBF),
            (0x200D, 0xFF),
            (0x200E, 0x10),
            (0x200F, 0x60),
        ],
    ),
    (
        0x0000,
        0x0108,
        0xFFFC,
        0x0000,
        [
            (0xFFFC, 0x08),
            (0xFFFD, 0x01),
            (0xFFFE, 0x10),
            (0xFFFF, 0x60),
        ],
    ),
    (
        0x0002,
        0x0108,
        0xFFFE,
        0x0000,
        [
            (0x0000, 0x10),
            (0x0001, 0x60),
            (0xFFFE, 0x08),
            (0xFFFF, 0x01),
        ],
    ),
];

#[test]
fn pc_and_status_are_pushed(rt: HostRuntime) -> Result<(), Fail> {
    for (sp, status, sp_after, status_after, bytes) in PUSHES {
        let mut m = FlatMem::new(rt.alloc())?;
        m.set_word(0xFFE2, 0xF082);
        let mut r = registers(0x6010, sp, status);
        let written = accept(&mut m, &mut r, 1);
        for (at, pair) in bytes.iter().enumerate() {
            assert_eq!(rt;
                (written.get(at), m.byte(pair.0)),
                (Some(*pair), pair.1),
                "SP {sp:#x}"
            );
        }
        assert_eq!(rt;
            (written.len(), r.get(PC), r.get(SP), r.get(SR), r.get(4)),
            (4, 0xF082, sp_after, status_after, 0x1234),
            "SP {sp:#x}"
        );
    }
    Ok(())
}

#[test]
fn vector_is_read_before_the_pushes(rt: HostRuntime) -> Result<(), Fail> {
    let mut m = FlatMem::new(rt.alloc())?;
    m.set_word(0xFFE0, 0xF080);
    m.set_word(0xFFE2, 0xF082);
    let mut r = registers(0x6010, 0xFFE4, 0x0008);
    accept(&mut m, &mut r, 0);
    assert_eq!(rt;
        (r.get(PC), m.word(0xFFE0), m.word(0xFFE2)),
        (0xF080, 0x0008, 0x6010)
    );
    Ok(())
}

#[test]
fn lines_are_a_set_in_a_word(rt: HostRuntime) {
    let rows: [(u16, u16, Option<u8>); 6] = [
        (0x0000, 0x0000, None),
        (0x0001, 0x0001, Some(0)),
        (0x2001, 0x2001, Some(13)),
        (0xC000, 0x0000, None),
        (0xFFFF, 0x3FFF, Some(13)),
        (0x0806, 0x0806, Some(11)),
    ];
    for (word, kept, highest) in rows {
        let lines = Lines::from_word(word);
        assert_eq!(rt;
            (lines.word(), lines.highest()),
            (kept, highest),
            "{word:#x}"
        );
    }
}

#[test]
fn lines_are_raised_and_dropped(rt: HostRuntime) {
    let mut lines = Lines::from_word(0x0006);
    lines.raise(0xE00A);
    assert_eq!(rt; (lines.word(), lines.highest()), (0x200E, Some(13)));
    lines.drop_line(13);
    lines.drop_line(2);
    lines.drop_line(2);
    assert_eq!(rt; (lines.word(), lines.highest()), (0x000A, Some(3)));
    lines.drop_line(14);
    lines.drop_line(255);
    assert_eq!(rt; lines.word(), 0x000A);
}
