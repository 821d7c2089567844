//! The threads' rows.

ghost use Rattle.std.specs.Prelude.{◌≡◌, ◌+◌, ◌*◌, ◌%◌, ◌<◌, ◌≤◌, Contains, length};
ghost use Rattle.flat_mem.specs.Bytes.{patch, with_word};
ghost use Rattle.kernel_model.specs.Bytes.{part};
ghost use Rattle.kernel_model.specs.Kernel.{thread_at, with_thread};
ghost use Rattle.kernel_model.specs.Words.{priority_of, wake_time, saved_register};
ghost use Rattle.kernel_model.specs.Layout.{kernel_of, thread_bytes, thread_read};
ghost use Rattle.kernel_model.specs.Queues.{Leaves, QueuesHold, wake_time_of};
ghost use Rattle.kernel_tables.specs.Places.{register_place};

use crate::pieces::{put_words, sixteen_words};
use crate::places::{PRIORITY_AT, THREAD_ROW_BYTES, THREAD_ROWS, WORD_BYTES};
use flat_mem::FlatMem;
use kernel_model::rows::ThreadRow;

/// The row of the thread with identity t, t below 32. On any memory its words are as they stand.
#[tactic(auto, using(crate::proofs::TableLemmas::thread_got))]
pub fn thread(m: &FlatMem, t: u8) -> ThreadRow
    requires { t < 32 }
    ensures { result ≡ thread_at (kernel_of m.now) t }
{
    m.is_flat();
    thread_row(m, THREAD_ROWS + THREAD_ROW_BYTES * t as u16)
}

/// Replaces the row of the thread with identity t, t below 32. A thread in the ready list keeps its priority, and a sleeper the
/// tick that it waits for. Its links stay.
pub fn set_thread(m: &mut FlatMem, t: u8, row: &ThreadRow)
    requires number { t < 32 }
    requires queues { QueuesHold m.old }
    requires priority { Contains (kernel_of m.old).ready t → row.now.priority ≡ priority_of (kernel_of m.old) t }
    requires wakes { Contains (kernel_of m.old).sleepers t → wake_time_of row.now ≡ wake_time (kernel_of m.old) t }
    ensures leaves { Leaves m.old m.new (with_thread (kernel_of m.old) t row.now) }
    ensures queues { QueuesHold m.new }
{
    m.is_flat();
    put_thread_row(m, THREAD_ROWS + THREAD_ROW_BYTES * t as u16, row);
}

/// Replaces one saved register in the row of the thread with identity t, t below 32 and r below 16. It writes that register's word
/// and no other.
pub fn set_register(m: &mut FlatMem, t: u8, r: u8, value: u16)
    requires number { t < 32 }
    requires register { r < 16 }
    ensures leaves { Leaves m.old m.new (saved_register (kernel_of m.old) t r value) }
    ensures word { m.new ≡ with_word m.old (register_place t r) value }
{
    m.is_flat();
    m.set_word(
        THREAD_ROWS + THREAD_ROW_BYTES * t as u16 + WORD_BYTES * r as u16,
        value,
    );
}

/// The priority in the row of the thread with identity t, t below 32.
#[tactic(auto, using(crate::proofs::WordLemmas::priority_got))]
pub fn priority(m: &FlatMem, t: u8) -> u16
    requires { t < 32 }
    ensures { result ≡ priority_of (kernel_of m.now) t }
{
    m.is_flat();
    m.word(THREAD_ROWS + THREAD_ROW_BYTES * t as u16 + PRIORITY_AT)
}

/// The tick in the row of the thread with identity t, t below 32.
pub fn wake_time(m: &FlatMem, t: u8) -> u32
    requires { t < 32 }
    ensures { result ≡ wake_time (kernel_of m.now) t }
{
    let row = thread(m, t);
    row.wake_low as u32 + 65536 * row.wake_high as u32
}

/// The row that the bytes from an even address on are.
#[tactic(auto, using(crate::proofs::WordLemmas::thread_words_at))]
fn thread_row(m: &FlatMem, at: u16) -> ThreadRow
    requires aligned { at % 2 ≡ 0 }
    requires room { at + 48 ≤ 65536 }
    ensures { result ≡ thread_read (part m.now at 48) }
{
    m.is_flat();
    ThreadRow {
        regs: sixteen_words(m, at),
        state: m.word(at + 32),
        priority: m.word(at + 34),
        wake_low: m.word(at + 36),
        wake_high: m.word(at + 38),
        object: m.word(at + 40),
        mutex: m.word(at + 42),
    }
}

/// Writes a row from an even address on. The four bytes behind it, which link the thread, stay.
fn put_thread_row(m: &mut FlatMem, at: u16, row: &ThreadRow)
    requires aligned { at % 2 ≡ 0 }
    requires room { at + 44 ≤ 65536 }
    ensures put { m.new ≡ patch m.old at (thread_bytes row.now) }
    ensures registers { length row.now.regs ≡ 16 }
{
    m.is_flat();
    put_words(m, at, &row.regs);
    put_words(
        m,
        at + 32,
        &[
            row.state,
            row.priority,
            row.wake_low,
            row.wake_high,
            row.object,
            row.mutex,
        ],
    );
}
