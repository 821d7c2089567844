//! Lines of worked runs.

ghost use Rattle.std.specs.Prelude.{IsTrue};
ghost use Rattle.trace_print.specs.Named.{has_name, HasLine};

use machine_model::writes::Writes;
use std::process::Abort;
use std::test::Fail;
use trace_print::{FaultKind, Record, Tail, Who, text};

const FIRST: Who = Who::Thread { app: 0, thread: 0 };

fn assert_line(rt: &impl Abort, rec: Record, line: &str)
    requires { HasLine rec }
{
    assert_eq!(rt; text(&rec).as_slice(), line.as_bytes());
}

fn assert_fault(rt: &impl Abort, step: u32, who: Who, kind: FaultKind, value: u16, line: &str) {
    let rec = Record::Fault {
        step,
        who,
        kind,
        value,
    };
    assert_line(rt, rec, line);
}

fn assert_entry(rt: &impl Abort, entry: u16, line: &str)
    requires { IsTrue (has_name entry) }
{
    let rec = Record::Entry {
        step: 55,
        who: FIRST,
        entry,
    };
    assert_line(rt, rec, line);
}

#[test]
fn instructions_show_their_first_word_and_what_they_wrote(rt: HostRuntime) {
    let mut writes = Writes::new();
    writes.add(0x200F, 0x60);
    writes.add(0x200E, 0x16);
    let call = Record::Instr {
        step: 6,
        who: FIRST,
        pc: 0x6012,
        word: 0x12B0,
        writes,
    };
    assert_line(&rt, call, "6 a0.t0 6012 12B0 200E:16 200F:60\n");
    let jump = Record::Instr {
        step: 1,
        who: FIRST,
        pc: 0x6000,
        word: 0x3FFF,
        writes: Writes::new(),
    };
    assert_line(&rt, jump, "1 a0.t0 6000 3FFF\n");
}

#[test]
fn values_and_ends_are_shown(rt: HostRuntime) {
    let emit = Record::Emit {
        step: 7,
        who: FIRST,
        value: 5,
    };
    assert_line(&rt, emit, "7 a0.t0 emit 0005\n");
    let second = Record::Emit {
        step: 72,
        who: Who::Thread { app: 1, thread: 2 },
        value: 0,
    };
    assert_line(&rt, second, "72 a1.t2 emit 0000\n");
    let exit = Record::Exit {
        step: 6,
        who: FIRST,
        last: false,
    };
    assert_line(&rt, exit, "6 a0.t0 exit\n");
    let last = Record::Exit {
        step: 13,
        who: FIRST,
        last: true,
    };
    assert_line(&rt, last, "13 a0.t0 exit last\n");
}

#[test]
fn faults_show_their_kind_and_value(rt: HostRuntime) {
    assert_fault(
        &rt,
        10,
        FIRST,
        FaultKind::Store,
        0x2010,
        "10 a0.t0 fault store 2010\n",
    );
    assert_fault(
        &rt,
        41,
        FIRST,
        FaultKind::Stack,
        0x2004,
        "41 a0.t0 fault stack 2004\n",
    );
    assert_fault(
        &rt,
        3,
        FIRST,
        FaultKind::Jump,
        0x600A,
        "3 a0.t0 fault jump 600A\n",
    );
    assert_fault(
        &rt,
        9,
        FIRST,
        FaultKind::Return,
        0x0002,
        "9 a0.t0 fault return 0002\n",
    );
    assert_fault(
        &rt,
        4105,
        Who::Module(0),
        FaultKind::Budget,
        0x6000,
        "4105 m0 fault budget 6000\n",
    );
}

#[test]
fn entries_show_their_names(rt: HostRuntime) {
    assert_entry(&rt, 0xF004, "55 a0.t0 entry jump\n");
    assert_entry(&rt, 0xF006, "55 a0.t0 entry call\n");
    assert_entry(&rt, 0xF00A, "55 a0.t0 entry spawn\n");
    assert_entry(&rt, 0xF00C, "55 a0.t0 entry yield\n");
    assert_entry(&rt, 0xF00E, "55 a0.t0 entry sleep\n");
    assert_entry(&rt, 0xF010, "55 a0.t0 entry priority\n");
    assert_entry(&rt, 0xF012, "55 a0.t0 entry self\n");
    assert_entry(&rt, 0xF014, "55 a0.t0 entry ticks\n");
    assert_entry(&rt, 0xF016, "55 a0.t0 entry lock\n");
    assert_entry(&rt, 0xF018, "55 a0.t0 entry unlock\n");
    assert_entry(&rt, 0xF01A, "55 a0.t0 entry wait\n");
    assert_entry(&rt, 0xF01C, "55 a0.t0 entry signal\n");
    assert_entry(&rt, 0xF01E, "55 a0.t0 entry broadcast\n");
    assert_entry(&rt, 0xF020, "55 a0.t0 entry line\n");
    assert_entry(&rt, 0xF022, "55 a0.t0 entry module\n");
    assert_entry(&rt, 0xF026, "55 a0.t0 entry leave\n");
}

#[test]
fn acceptances_show_the_four_bytes_that_are_pushed(rt: HostRuntime) {
    let mut writes = Writes::new();
    writes.add(0x2000, 0x08);
    writes.add(0x2001, 0x00);
    writes.add(0x2002, 0x10);
    writes.add(0x2003, 0x60);
    let accepted = Record::Accept {
        step: 36,
        who: FIRST,
        line: 1,
        pc: 0x6010,
        writes,
    };
    assert_line(
        &rt,
        accepted,
        "36 a0.t0 int 1 6010 2000:08 2001:00 2002:10 2003:60\n",
    );
}

#[test]
fn lines_of_nobody_name_none(rt: HostRuntime) {
    let mut writes = Writes::new();
    writes.add(0x10FC, 0x08);
    writes.add(0x10FD, 0x00);
    writes.add(0x10FE, 0x7E);
    writes.add(0x10FF, 0xF0);
    assert_line(&rt, Record::IdleTurn { step: 99 }, "99 idle\n");
    let accepted = Record::Accept {
        step: 100,
        who: Who::Idle,
        line: 0,
        pc: 0xF07E,
        writes,
    };
    assert_line(
        &rt,
        accepted,
        "100 idle int 0 F07E 10FC:08 10FD:00 10FE:7E 10FF:F0\n",
    );
    assert_line(
        &rt,
        Record::Vector { step: 37, line: 1 },
        "37 kernel line 1\n",
    );
}

fn instruction(step: u8) -> Record {
    let mut writes = Writes::new();
    writes.add(0x2000, step);
    Record::Instr {
        step: u32::from(step),
        who: FIRST,
        pc: 0x6000,
        word: 0x4384,
        writes,
    }
}

#[test]
fn the_last_eight_instructions_are_kept_oldest_first(rt: HostRuntime) -> Result<(), Fail> {
    let mut tail = Tail::new(rt.alloc())?;
    assert!(rt; tail.lines(0).is_none());
    for step in 1..=9u8 {
        tail.push(&instruction(step));
        tail.push(&Record::IdleTurn {
            step: u32::from(step),
        });
    }
    let oldest = tail.lines(0).expect(&rt, "kept");
    assert_eq!(rt;
        oldest.as_slice(),
        b"2 a0.t0 6000 4384 2000:02\n".as_slice()
    );
    let newest = tail.lines(7).expect(&rt, "kept");
    assert_eq!(rt;
        newest.as_slice(),
        b"9 a0.t0 6000 4384 2000:09\n".as_slice()
    );
    assert!(rt; tail.lines(8).is_none());
    Ok(())
}
