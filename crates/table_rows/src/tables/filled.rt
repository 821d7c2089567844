//! A kernel of which each table is filled, and what the getters of each table give.

use super::{Place, members, put_in, put_line, put_mutex, put_row};
use arrayvec::ArrayVec;
use flat_mem::FlatMem;
use kernel_fixture::lists::are_identities;
use kernel_tables::*;

/// What stands for no member of a list.
pub const NO_MEMBER: u16 = 0xFFFF;

/// What a table's getter gives, row after row, each row's fields in order, and each list filled up to its room.
pub type Given = ArrayVec<u16, 704>;

#[derive(Clone, Copy, PartialEq, Eq, Debug, Drop)]
pub enum Table {
    Words,
    Ready,
    Sleepers,
    Apps,
    Modules,
    Functions,
    Threads,
    Mutexes,
    Conditions,
    Lines,
}

pub const TABLES: [Table; 10] = [
    Table::Words,
    Table::Ready,
    Table::Sleepers,
    Table::Apps,
    Table::Modules,
    Table::Functions,
    Table::Threads,
    Table::Mutexes,
    Table::Conditions,
    Table::Lines,
];

const SYSTEM: [SysWord; 8] = [
    SysWord::CurLim,
    SysWord::CurTop,
    SysWord::Running,
    SysWord::Module,
    SysWord::Budget,
    SysWord::Pending,
    SysWord::TickLow,
    SysWord::TickHigh,
];

// ---- a filled kernel: each word tells its table and its place there

/// An application's row of words from this one on.
pub fn app_from(first: u16) -> AppRow {
    AppRow {
        state: first,
        code_lo: first | 1,
        code_hi: first | 2,
        lo: first | 3,
        hi: first | 4,
        z: first | 5,
        stack: first | 6,
        threads: first | 7,
    }
}

/// A module's row of words from this one on.
pub fn module_from(first: u16) -> ModuleRow {
    ModuleRow {
        state: first,
        code_lo: first | 1,
        code_hi: first | 2,
        lo: first | 3,
        hi: first | 4,
    }
}

/// A function's row of words from this one on.
pub fn function_from(first: u16) -> FnRow {
    FnRow {
        module: first,
        address: first | 1,
    }
}

/// A thread's row of words from this one on, with this priority.
pub fn thread_from(first: u16, priority: u16) -> ThreadRow {
    let mut regs = [0; 16];
    for i in 0..16 {
        regs[i] = first | i as u16;
    }
    ThreadRow {
        regs,
        state: first | 16,
        priority,
        wake_low: first | 17,
        wake_high: first | 18,
        object: first | 19,
        mutex: first | 20,
    }
}

/// Fills the words and the rows of domains and functions.
fn fill_rows(m: &mut FlatMem) {
    for i in 0..8 {
        put(m, SYSTEM[i], 0x1000 + i as u16);
    }
    for a in 0..8 {
        set_app(m, a, &app_from(0x2000 + 8 * a as u16));
    }
    for k in 0..4 {
        set_module(m, k, &module_from(0x3000 + 8 * k as u16));
    }
    for f in 0..64 {
        set_function(m, f, &function_from(0x4000 + 2 * f as u16));
    }
}

/// Fills the threads' rows, the ready list with threads 7 to 0, and the sleepers with threads 8 to 15.
fn fill_threads(m: &mut FlatMem) -> bool {
    for t in 0..32 {
        if !put_row(m, t, &thread_from(0x5000 + 32 * t as u16, t as u16 % 8)) {
            return false;
        }
    }
    for t in 0..16 {
        let place = if t < 8 { Place::End } else { Place::Sleepers };
        if !put_in(m, t, place) {
            return false;
        }
    }
    true
}

/// Fills the mutexes and conditions of an application.
fn fill_waiting(m: &mut FlatMem, a: u8) -> bool {
    if a >= 8 {
        return false;
    }
    for i in 0..4 {
        let n = 4 * a + i;
        let row = MutexRow {
            owner: 0x6000 + n as u16,
            waiters: members(&[n, 31 - n]),
        };
        if !put_mutex(m, a, i, &row) {
            return false;
        }
        if !put_cond(m, a, i, &members(&[31 - n, n, 1])) {
            return false;
        }
    }
    true
}

/// Fills every table. False where a setter's condition isn't met.
pub fn fill(m: &mut FlatMem) -> bool {
    clear(m);
    fill_rows(m);
    if !fill_threads(m) {
        return false;
    }
    for a in 0..8 {
        if !fill_waiting(m, a) {
            return false;
        }
    }
    for n in 0..14 {
        if !put_line(m, n, &members(&[n, n + 14, n + 5])) {
            return false;
        }
    }
    true
}

/// Writes a condition's list of identities. False where they aren't.
pub fn put_cond(m: &mut FlatMem, a: u8, i: u8, list: &ArrayVec<u8, 4>) -> bool {
    if a >= 8 || i >= 4 || !are_identities(list.as_slice()) {
        return false;
    }
    set_cond(m, a, i, list);
    true
}

// ---- what the getters give

fn add(all: &mut Given, words: &[u16]) {
    let _ = all.try_extend_from_slice(words);
}

fn add_list(all: &mut Given, list: &[u8], room: usize) {
    for i in 0..room {
        let member = if i < list.len() {
            list[i] as u16
        } else {
            NO_MEMBER
        };
        let _ = all.try_push(member);
    }
}

fn add_domains(all: &mut Given, m: &FlatMem, table: Table) {
    if table == Table::Apps {
        for a in 0..8 {
            let r = app(m, a);
            add(
                all,
                &[
                    r.state, r.code_lo, r.code_hi, r.lo, r.hi, r.z, r.stack, r.threads,
                ],
            );
        }
        return;
    }
    for k in 0..4 {
        let r = module(m, k);
        add(all, &[r.state, r.code_lo, r.code_hi, r.lo, r.hi]);
    }
}

fn add_threads(all: &mut Given, m: &FlatMem) {
    for t in 0..32 {
        let r = thread(m, t);
        add(all, &r.regs);
        add(
            all,
            &[
                r.state,
                r.priority,
                r.wake_low,
                r.wake_high,
                r.object,
                r.mutex,
            ],
        );
    }
}

fn add_words(all: &mut Given, m: &FlatMem, table: Table) {
    if table == Table::Words {
        for w in SYSTEM {
            add(all, &[get(m, w)]);
        }
        return;
    }
    for f in 0..64 {
        let r = function(m, f);
        add(all, &[r.module, r.address]);
    }
}

fn add_waiting(all: &mut Given, m: &FlatMem, table: Table) {
    for n in 0..32 {
        let (a, i) = (n / 4, n % 4);
        if table == Table::Mutexes {
            let r = mutex(m, a, i);
            add(all, &[r.owner]);
            add_list(all, r.waiters.as_slice(), 4);
        } else {
            add_list(all, cond(m, a, i).as_slice(), 4);
        }
    }
}

fn add_queue(all: &mut Given, m: &FlatMem, table: Table) {
    if !queues_hold(m) {
        return;
    }
    if table == Table::Ready {
        add_list(all, ready(m).as_slice(), 32);
    } else {
        add_list(all, sleepers(m).as_slice(), 32);
    }
}

/// What a table's getter gives.
pub fn given(m: &FlatMem, table: Table) -> Given {
    let mut all = ArrayVec::new();
    match table {
        Table::Words => add_words(&mut all, m, table),
        Table::Ready => add_queue(&mut all, m, table),
        Table::Sleepers => add_queue(&mut all, m, table),
        Table::Apps => add_domains(&mut all, m, table),
        Table::Modules => add_domains(&mut all, m, table),
        Table::Functions => add_words(&mut all, m, table),
        Table::Threads => add_threads(&mut all, m),
        Table::Mutexes => add_waiting(&mut all, m, table),
        Table::Conditions => add_waiting(&mut all, m, table),
        Table::Lines => {
            for n in 0..14 {
                add_list(&mut all, line(m, n).as_slice(), 32);
            }
        }
    }
    all
}
