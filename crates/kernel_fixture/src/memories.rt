//! The memories that the rows on calls begin with, and what is seen in one.

ghost use Rattle.std.specs.Prelude.{◌≡◌, ◌+◌, ◌*◌, IfOk};
ghost use Rattle.kernel_model.specs.Layout.{kernel_of};
ghost use Rattle.kernel_model.specs.Words.{tick_number};
ghost use Rattle.place_model.specs.Settled.{IsSettled};

use arrayvec::ArrayVec;
use code_model::marks::Marks;
use flat_mem::FlatMem;
use kernel_model::laws::empty_is_orderly;
use kernel_tables::laws::orderly_queues_hold;
use kernel_tables::{AppRow, SysWord, clear, get, ready, set_app, set_register, sleepers};
use msp_machine::Regs;
use region_table::{Regions, set_marks};
use std::alloc::{AllocError, Global};

/// Where a list has no member.
pub const NO_MEMBER: u8 = 0xFF;

/// Application 0: code 6000 to 600F, static bytes 2000 and 2001, two stacks of 16 bytes from 2002 on.
const FIRST: AppRow = AppRow {
    state: 1,
    code_lo: 0x6000,
    code_hi: 0x6010,
    lo: 0x2000,
    hi: 0x2022,
    z: 2,
    stack: 16,
    threads: 2,
};

/// Application 1: code 6010 to 601F, static bytes 2022 to 2025, two stacks of 32 bytes from 2026 on.
const SECOND: AppRow = AppRow {
    state: 1,
    code_lo: 0x6010,
    code_hi: 0x6020,
    lo: 0x2022,
    hi: 0x2066,
    z: 4,
    stack: 32,
    threads: 2,
};

/// Memory with the two applications, loaded and not started: their entries are 6004 and 6010, and these and 600A are their marks.
pub fn two_apps(alloc: Global) -> Result<FlatMem, AllocError>
    ensures { IfOk result (λ m. IsSettled m) }
{
    let mut m = FlatMem::new(alloc)?;
    put_apps(&mut m);
    put_marks(&mut m);
    Ok(m)
}

/// Clears memory and writes the rows of the two applications and of their threads 0.
fn put_apps(m: &mut FlatMem)
    ensures { IsSettled m.new }
{
    empty_is_orderly();
    clear(m);
    set_app(m, 0, &FIRST);
    set_app(m, 1, &SECOND);
    set_register(m, 0, 0, 0x6004);
    set_register(m, 4, 0, 0x6010);
}

/// Marks 6004 and 600A for application 0, and 6010 for application 1.
pub fn put_marks(m: &mut FlatMem)
    ensures { IsSettled m.old → IsSettled m.new }
{
    let both = Regions {
        dom: 0,
        code_lo: 0x6000,
        code_hi: 0x6020,
        lo: 0x2000,
        hi: 0x2066,
    };
    let mut marks = Marks::new();
    marks.set(0x0004);
    marks.set(0x000A);
    marks.set(0x0010);
    set_marks(m, &both, &marks);
}

/// Memory with eight applications of four threads, loaded and not started. The code of application a is 16 bytes from 6000 + 16 a
/// on, and its mark is the first of them.
pub fn eight_apps(alloc: Global) -> Result<FlatMem, AllocError>
    ensures { IfOk result (λ m. IsSettled m) }
{
    let mut m = FlatMem::new(alloc)?;
    put_eight(&mut m);
    let all = Regions {
        dom: 0,
        code_lo: 0x6000,
        code_hi: 0x6080,
        lo: 0x2000,
        hi: 0x2400,
    };
    let mut marks = Marks::new();
    for a in 0..8 {
        marks.set(16 * a);
    }
    set_marks(&mut m, &all, &marks);
    Ok(m)
}

/// Clears memory and writes the rows of eight applications: no static bytes, and four stacks of 32 bytes from 2000 + 128 a on.
fn put_eight(m: &mut FlatMem)
    ensures { IsSettled m.new }
{
    empty_is_orderly();
    clear(m);
    for a in 0..8 {
        let n = a as u16;
        let row = AppRow {
            state: 1,
            code_lo: 0x6000 + 16 * n,
            code_hi: 0x6010 + 16 * n,
            lo: 0x2000 + 128 * n,
            hi: 0x2080 + 128 * n,
            z: 0,
            stack: 32,
            threads: 4,
        };
        set_app(m, a, &row);
    }
}

/// Marks at the offsets, as far as they are offsets of words.
pub fn marks_at(offsets: &[u16]) -> Marks {
    let mut marks = Marks::new();
    for offset in offsets {
        if *offset % 2 == 0 && *offset < 16384 {
            marks.set(*offset);
        }
    }
    marks
}

/// A copy of memory.
pub fn copy(alloc: Global, m: &FlatMem) -> Result<FlatMem, AllocError> {
    let mut other = FlatMem::new(alloc)?;
    for at in 0..=0xFFFFu16 {
        other.set_byte(at, m.byte(at));
    }
    Ok(other)
}

/// Whether two memories have the same bytes.
pub fn same(m: &FlatMem, n: &FlatMem) -> bool {
    for at in 0..=0xFFFFu16 {
        if m.byte(at) != n.byte(at) {
            return false;
        }
    }
    true
}

/// The identity of the running thread, or `NONE`.
pub fn runner(m: &FlatMem) -> u16 {
    get(m, SysWord::Running)
}

/// The current limit and the current top.
pub fn limits(m: &FlatMem) -> (u16, u16) {
    (get(m, SysWord::CurLim), get(m, SysWord::CurTop))
}

/// The low and the high word of the tick number.
pub fn tick_words(m: &FlatMem) -> (u16, u16)
    ensures { tick_number (kernel_of m.now) ≡ result.0 + 65536 * result.1 }
{
    (get(m, SysWord::TickLow), get(m, SysWord::TickHigh))
}

/// The ready list and the sleepers.
pub fn queue_lists(m: &FlatMem) -> (ArrayVec<u8, 32>, ArrayVec<u8, 32>)
    requires { IsSettled m.now }
{
    orderly_queues_hold(m);
    (ready(m), sleepers(m))
}

/// The ready list, filled up with `NO_MEMBER`.
pub fn ready_list(m: &FlatMem) -> [u8; 4]
    requires { IsSettled m.now }
{
    orderly_queues_hold(m);
    let list = ready(m);
    let mut members = [NO_MEMBER; 4];
    for i in 0..4 {
        if i < list.len() {
            members[i] = list.as_slice()[i];
        }
    }
    members
}

/// The registers, R0 to R15.
pub fn words_of(r: &Regs) -> [u16; 16] {
    let mut words = [0; 16];
    for n in 0..16u8 {
        words[n as usize] = r.get(n);
    }
    words
}
