//! Each setter over a filled kernel: what its own getter then gives, and that each other getter gives what it gave.

use super::filled::{
    Given, NO_MEMBER, TABLES, Table, app_from, fill, function_from, given, module_from, put_cond,
    thread_from,
};
use super::{Place, members, put_in, put_line, put_mutex, put_row, take, wake};
use arrayvec::ArrayVec;
use flat_mem::FlatMem;
use kernel_tables::*;
use std::test::Fail;

#[derive(Clone, Copy, Debug, Drop)]
enum Setter {
    Word,
    ReadyEnd,
    ReadyFront,
    ReadyTake,
    SleepIn,
    SleepTake,
    App,
    Module,
    Function,
    Thread,
    Register,
    Mutex,
    Condition,
    Line,
}

const SETTERS: [Setter; 14] = [
    Setter::Word,
    Setter::ReadyEnd,
    Setter::ReadyFront,
    Setter::ReadyTake,
    Setter::SleepIn,
    Setter::SleepTake,
    Setter::App,
    Setter::Module,
    Setter::Function,
    Setter::Thread,
    Setter::Register,
    Setter::Mutex,
    Setter::Condition,
    Setter::Line,
];

/// What a call changes: its table, the place of the first changed word there, and the new words.
#[derive(Drop)]
struct Change {
    table: Table,
    from: usize,
    words: Given,
}

fn change_of(table: Table, from: usize, words: &[u16]) -> Change {
    let mut all = ArrayVec::new();
    let _ = all.try_extend_from_slice(words);
    Change {
        table,
        from,
        words: all,
    }
}

/// A row of the mutexes with one waiter.
fn mutex_row() -> MutexRow {
    MutexRow {
        owner: 0x7500,
        waiters: members(&[2]),
    }
}

/// Calls a setter over a filled kernel. False where it may not be called.
fn apply(m: &mut FlatMem, setter: Setter) -> bool {
    match setter {
        Setter::Word => put(m, SysWord::Pending, 0x7000),
        Setter::ReadyEnd => return put_in(m, 16, Place::End),
        Setter::ReadyFront => return put_in(m, 23, Place::Front),
        Setter::ReadyTake => return take(m, 6),
        Setter::SleepIn => return put_in(m, 31, Place::Sleepers),
        Setter::SleepTake => return wake(m, 9),
        Setter::App => set_app(m, 3, &app_from(0x7100)),
        Setter::Module => set_module(m, 2, &module_from(0x7200)),
        Setter::Function => set_function(m, 63, &function_from(0x7300)),
        Setter::Thread => return put_row(m, 20, &thread_from(0x7400, 5)),
        Setter::Register => set_register(m, 5, 12, 0x7600),
        Setter::Mutex => return put_mutex(m, 7, 3, &mutex_row()),
        Setter::Condition => return put_cond(m, 5, 2, &members(&[3, 1])),
        Setter::Line => return put_line(m, 13, &members(&[9])),
    }
    true
}

/// What the call changes, worked out from what the filled kernel has: ready are threads 7 to 0, asleep are threads 8 to 15.
fn changed(setter: Setter) -> Change {
    match setter {
        Setter::Word => change_of(Table::Words, 5, &[0x7000]),
        Setter::ReadyEnd => change_of(Table::Ready, 8, &[16]),
        Setter::ReadyFront => change_of(Table::Ready, 0, &[23, 7, 6, 5, 4, 3, 2, 1, 0]),
        Setter::ReadyTake => change_of(Table::Ready, 1, &[5, 4, 3, 2, 1, 0, NO_MEMBER]),
        Setter::SleepIn => change_of(Table::Sleepers, 8, &[31]),
        Setter::SleepTake => change_of(Table::Sleepers, 1, &[10, 11, 12, 13, 14, 15, NO_MEMBER]),
        Setter::App => change_of(
            Table::Apps,
            24,
            &[
                0x7100, 0x7101, 0x7102, 0x7103, 0x7104, 0x7105, 0x7106, 0x7107,
            ],
        ),
        Setter::Module => change_of(
            Table::Modules,
            10,
            &[0x7200, 0x7201, 0x7202, 0x7203, 0x7204],
        ),
        Setter::Function => change_of(Table::Functions, 126, &[0x7300, 0x7301]),
        Setter::Thread => change_of(
            Table::Threads,
            440,
            &[
                0x7400, 0x7401, 0x7402, 0x7403, 0x7404, 0x7405, 0x7406, 0x7407, 0x7408, 0x7409,
                0x740A, 0x740B, 0x740C, 0x740D, 0x740E, 0x740F, 0x7410, 5, 0x7411, 0x7412, 0x7413,
                0x7414,
            ],
        ),
        Setter::Register => change_of(Table::Threads, 122, &[0x7600]),
        Setter::Mutex => change_of(
            Table::Mutexes,
            155,
            &[0x7500, 2, NO_MEMBER, NO_MEMBER, NO_MEMBER],
        ),
        Setter::Condition => change_of(Table::Conditions, 88, &[3, 1, NO_MEMBER]),
        Setter::Line => change_of(Table::Lines, 416, &[9, NO_MEMBER, NO_MEMBER]),
    }
}

/// Whether a table gives the new words from a place on, and else what it gave.
fn replaced(before: &[u16], after: &[u16], from: usize, words: &[u16]) -> bool {
    for i in 0..after.len() {
        let want = if i >= from && i - from < words.len() {
            words[i - from]
        } else if i < before.len() {
            before[i]
        } else {
            return false;
        };
        if after[i] != want {
            return false;
        }
    }
    after.len() == before.len() && !after.is_empty()
}

#[test]
fn each_setter_changes_its_own_part_alone(rt: HostRuntime) -> Result<(), Fail> {
    let mut old = FlatMem::new(rt.alloc())?;
    let mut m = FlatMem::new(rt.alloc())?;
    assert!(rt; fill(&mut old));
    for setter in SETTERS {
        assert!(rt; fill(&mut m));
        assert!(rt; apply(&mut m, setter), "{setter:?}");
        let own = changed(setter);
        for table in TABLES {
            let before = given(&old, table);
            let after = given(&m, table);
            let as_said = if table == own.table {
                replaced(
                    before.as_slice(),
                    after.as_slice(),
                    own.from,
                    own.words.as_slice(),
                )
            } else {
                replaced(before.as_slice(), after.as_slice(), 0, &[])
            };
            assert!(rt; as_said, "{table:?} after {setter:?}");
        }
    }
    Ok(())
}

#[test]
fn a_condition_list_stands_at_its_address(rt: HostRuntime) -> Result<(), Fail> {
    let mut m = FlatMem::new(rt.alloc())?;
    clear(&mut m);
    // the lists begin at 0B20, of 4 bytes each: application 5's condition 2 is number 22
    assert!(rt; put_cond(&mut m, 5, 2, &members(&[3, 1])));
    let bytes: [(u16, u8); 6] = [
        (0x0B77, 0xFF),
        (0x0B78, 3),
        (0x0B79, 1),
        (0x0B7A, 0xFF),
        (0x0B7B, 0xFF),
        (0x0B7C, 0xFF),
    ];
    for (at, byte) in bytes {
        assert_eq!(rt; m.byte(at), byte, "at {at:#x}");
    }
    assert_eq!(rt; cond(&m, 5, 2).as_slice(), [3, 1].as_slice());
    Ok(())
}

#[test]
fn a_saved_register_stands_at_its_address(rt: HostRuntime) -> Result<(), Fail> {
    let mut m = FlatMem::new(rt.alloc())?;
    // the rows begin at 0420, of 48 bytes each, with the registers first; the rows are no kernel's here
    m.copy_in(0x0420, &[7; 144]);
    set_register(&mut m, 1, 0, 0x6012);
    set_register(&mut m, 1, 15, 0xABCD);
    let words: [(u16, u16); 6] = [
        (0x044E, 0x0707),
        (0x0450, 0x6012),
        (0x0452, 0x0707),
        (0x046C, 0x0707),
        (0x046E, 0xABCD),
        (0x047C, 0x0707),
    ];
    for (at, word) in words {
        assert_eq!(rt; m.word(at), word, "at {at:#x}");
    }
    Ok(())
}
