//! Instructions worked out by hand, from their words in memory.

use flat_mem::FlatMem;
use machine_model::writes::Writes;
use msp_decode::NoInstr;
use msp_encode::instr::{Dst, Instr, Op2, Src, Width};
use msp_machine::exec::exec;
use msp_machine::fetch::fetch;
use msp_machine::regs::{PC, Regs, SP, SR};
use std::test::Fail;

/// Where the code lies.
const CODE: u16 = 0x6000;

/// Registers at the code, with SP at 2010.
fn registers(r6: u16, r7: u16, status: u16) -> Regs {
    let mut r = Regs::new();
    r.set(PC, CODE);
    r.set(SP, 0x2010);
    r.set(SR, status);
    r.set(6, r6);
    r.set(7, r7);
    r
}

/// Runs the instruction at PC. None where there is none.
fn step(m: &mut FlatMem, r: &mut Regs) -> Option<Writes> {
    match fetch(m, r.get(PC)) {
        Ok((i, len)) => Some(exec(m, r, &i, len)),
        Err(_) => None,
    }
}

/// Each row: the instruction word, R6, R7 and SR before it, and R6, R7 and SR after it.
const ROWS: [(u16, u16, u16, u16, u16, u16, u16); 15] = [
    (0x5607, 0x7FFF, 0x0001, 0x0000, 0x7FFF, 0x8000, 0x0104), // ADD R6,R7
    (0x8316, 0x0000, 0x0000, 0x0100, 0xFFFF, 0x0000, 0x0004), // SUB #1,R6
    (0x8316, 0x8000, 0x0000, 0x0000, 0x7FFF, 0x0000, 0x0101), // SUB #1,R6
    (0xA607, 0x0019, 0x0024, 0x0000, 0x0019, 0x0043, 0x0000), // DADD R6,R7
    (0xA607, 0x000F, 0x000F, 0x0001, 0x000F, 0x0015, 0x0000), // DADD R6,R7
    (0xE647, 0x1280, 0x3480, 0x0000, 0x1280, 0x0000, 0x0102), // XOR.B R6,R7
    (0x1046, 0x0101, 0x0000, 0x0101, 0x0080, 0x0000, 0x0005), // RRC.B R6
    (0x1186, 0x0080, 0x0000, 0x0100, 0xFF80, 0x0000, 0x0005), // SXT R6
    (0x9607, 0x0005, 0x0005, 0x0008, 0x0005, 0x0005, 0x000B), // CMP R6,R7, with GIE
    (0x5647, 0x12FF, 0x3401, 0x0000, 0x12FF, 0x0000, 0x0003), // ADD.B R6,R7
    (0x5602, 0xFFFF, 0x0000, 0x0001, 0xFFFF, 0x0000, 0x0000), // ADD R6,SR
    (0x9602, 0x0001, 0x0000, 0x0001, 0x0001, 0x0000, 0x0003), // CMP R6,SR
    (0xB326, 0x0002, 0x0000, 0x0100, 0x0002, 0x0000, 0x0001), // BIT #2,R6
    (0x1086, 0x1234, 0x0000, 0x0107, 0x3412, 0x0000, 0x0107), // SWPB R6
    (0x4006, 0x1234, 0x0000, 0x0000, 0x6002, 0x0000, 0x0000), // MOV PC,R6
];

#[test]
fn results_and_flags(rt: HostRuntime) -> Result<(), Fail> {
    let mut m = FlatMem::new(rt.alloc())?;
    for (code, r6, r7, status, r6_after, r7_after, status_after) in ROWS {
        let mut r = registers(r6, r7, status);
        m.set_word(CODE, code);
        let written = step(&mut m, &mut r).ok_or("no instruction")?;
        assert_eq!(rt; written.len(), 0, "{code:#x} writes");
        assert_eq!(rt; (r.get(PC), r.get(SP)), (0x6002, 0x2010), "{code:#x}");
        assert_eq!(rt;
            (r.get(6), r.get(7), r.get(SR)),
            (r6_after, r7_after, status_after),
            "{code:#x}"
        );
    }
    Ok(())
}

#[test]
fn push_of_a_byte_writes_one(rt: HostRuntime) -> Result<(), Fail> {
    let mut m = FlatMem::new(rt.alloc())?;
    m.set_word(CODE, 0x1246);
    m.set_word(0x200E, 0xABCD);
    let mut r = registers(0x1234, 0, 0);
    let written = step(&mut m, &mut r).ok_or("no instruction")?;
    assert_eq!(rt; (written.len(), written.get(0)), (1, Some((0x200E, 0x34))));
    assert_eq!(rt; (r.get(SP), m.word(0x200E)), (0x200E, 0xAB34));
    Ok(())
}

#[test]
fn push_of_sp_writes_the_old_one(rt: HostRuntime) -> Result<(), Fail> {
    let mut m = FlatMem::new(rt.alloc())?;
    m.set_word(CODE, 0x1201);
    let mut r = registers(0, 0, 0);
    let written = step(&mut m, &mut r).ok_or("no instruction")?;
    assert_eq!(rt;
        (written.len(), written.get(0), written.get(1)),
        (2, Some((0x200E, 0x10)), Some((0x200F, 0x20)))
    );
    assert_eq!(rt; (r.get(SP), m.word(0x200E)), (0x200E, 0x2010));
    Ok(())
}

#[test]
fn source_steps_before_the_destination_is_read(rt: HostRuntime) -> Result<(), Fail> {
    let mut m = FlatMem::new(rt.alloc())?;
    m.set_word(CODE, 0x5636);
    m.set_word(0x2000, 0x0005);
    let mut r = registers(0x2000, 0, 0);
    let written = step(&mut m, &mut r).ok_or("no instruction")?;
    assert_eq!(rt; (written.len(), r.get(6)), (0, 0x2007));
    Ok(())
}

#[test]
fn call_and_both_returns(rt: HostRuntime) -> Result<(), Fail> {
    let mut m = FlatMem::new(rt.alloc())?;
    m.set_word(CODE, 0x12B0);
    m.set_word(0x6002, 0x7001);
    m.set_word(0x7000, 0x4130);
    m.set_word(0x6004, 0x1300);
    m.set_word(0x2010, 0x0105);
    m.set_word(0x2012, 0x6543);
    let mut r = registers(0, 0, 0);
    let written = step(&mut m, &mut r).ok_or("no CALL")?;
    assert_eq!(rt;
        (written.get(0), written.get(1)),
        (Some((0x200E, 0x04)), Some((0x200F, 0x60)))
    );
    assert_eq!(rt; (r.get(PC), r.get(SP)), (0x7000, 0x200E));
    let written = step(&mut m, &mut r).ok_or("no RET")?;
    assert_eq!(rt; (written.len(), r.get(PC), r.get(SP)), (0, 0x6004, 0x2010));
    let written = step(&mut m, &mut r).ok_or("no RETI")?;
    assert_eq!(rt;
        (written.len(), r.get(PC), r.get(SP), r.get(SR)),
        (0, 0x6542, 0x2014, 0x0105)
    );
    Ok(())
}

#[test]
fn fetch_goes_on_at_the_lowest_address(rt: HostRuntime) -> Result<(), Fail> {
    let mut m = FlatMem::new(rt.alloc())?;
    m.set_word(0xFFFE, 0x4036);
    m.set_word(0x0000, 0x0005);
    let want = Instr::Two {
        op: Op2::Mov,
        width: Width::Wide,
        src: Src::Immediate(5),
        dst: Dst::Reg(6),
    };
    assert_eq!(rt; fetch(&m, 0xFFFE), Ok((want, 2)));
    m.set_word(CODE, 0x4026);
    assert_eq!(rt; fetch(&m, CODE), Err(NoInstr::Unknown));
    Ok(())
}

#[test]
fn writes_stand_by_address(rt: HostRuntime) {
    let mut written = Writes::new();
    written.add(0x200F, 2);
    written.add(0x200E, 1);
    written.add(0x3000, 3);
    assert_eq!(rt;
        (written.get(0), written.get(1)),
        (Some((0x200E, 1)), Some((0x200F, 2)))
    );
    assert_eq!(rt; (written.get(2), written.get(3)), (Some((0x3000, 3)), None));
}

#[test]
fn registers_keep_their_rules(rt: HostRuntime) {
    let mut r = Regs::new();
    for n in 0..16 {
        r.set(n, 0xFFFF);
    }
    assert_eq!(rt;
        (r.get(PC), r.get(SP), r.get(SR), r.get(3), r.get(4)),
        (0xFFFE, 0xFFFE, 0xFFFF, 0, 0xFFFF)
    );
}
