//! The mutexes' rows, and the lists of those that wait on conditions and for lines.

ghost use Rattle.std.specs.Prelude.{◌≡◌, ◌+◌, ◌*◌, ◌%◌, ◌<◌, ◌≤◌, All, length};
ghost use Rattle.flat_mem.specs.Bytes.{patch};
ghost use Rattle.kernel_model.specs.Bytes.{part};
ghost use Rattle.kernel_model.specs.Kernel.{mutex_at, with_mutex, condition_at, with_condition, line_at, with_line};
ghost use Rattle.kernel_model.specs.Layout.{kernel_of, mutex_bytes, mutex_read};
ghost use Rattle.kernel_model.specs.Queues.{Leaves};

use crate::pieces::{list_at, put_list, put_words};
use crate::places::{
    CONDITION_LIST_BYTES, CONDITION_LISTS, LINE_LISTS, LIST_BYTES, MUTEX_ROW_BYTES, MUTEX_ROWS,
};
use arrayvec::ArrayVec;
use flat_mem::FlatMem;
use kernel_model::rows::MutexRow;

/// Application a's mutex i, a below 8 and i below 4. On any memory the owner is as it stands, and the waiters are the bytes before
/// the first FF.
#[tactic(auto, using(crate::proofs::TableLemmas::mutex_got))]
pub fn mutex(m: &FlatMem, a: u8, i: u8) -> MutexRow
    requires app { a < 8 }
    requires number { i < 4 }
    ensures { result ≡ mutex_at (kernel_of m.now) a i }
{
    m.is_flat();
    mutex_row(m, MUTEX_ROWS + MUTEX_ROW_BYTES * (4 * a as u16 + i as u16))
}

/// Replaces application a's mutex i, a below 8 and i below 4. Its waiters are below 32.
pub fn set_mutex(m: &mut FlatMem, a: u8, i: u8, row: &MutexRow)
    requires app { a < 8 }
    requires number { i < 4 }
    requires waiters { All (λ x. x < 32) row.now.waiters.items }
    ensures { Leaves m.old m.new (with_mutex (kernel_of m.old) a i row.now) }
{
    m.is_flat();
    put_mutex_row(
        m,
        MUTEX_ROWS + MUTEX_ROW_BYTES * (4 * a as u16 + i as u16),
        row,
    );
}

/// Who waits on application a's condition i, a below 8 and i below 4. On any memory it is the bytes before the first FF.
#[tactic(auto, using(crate::proofs::TableLemmas::condition_got))]
pub fn cond(m: &FlatMem, a: u8, i: u8) -> ArrayVec<u8, 4>
    requires app { a < 8 }
    requires number { i < 4 }
    ensures { result.items ≡ condition_at (kernel_of m.now) a i }
{
    m.is_flat();
    list_at(
        m,
        CONDITION_LISTS + CONDITION_LIST_BYTES * (4 * a as u16 + i as u16),
    )
}

/// Replaces the list of application a's condition i, a below 8 and i below 4. Its members are below 32.
pub fn set_cond(m: &mut FlatMem, a: u8, i: u8, list: &ArrayVec<u8, 4>)
    requires app { a < 8 }
    requires number { i < 4 }
    requires members { All (λ x. x < 32) list.now.items }
    ensures { Leaves m.old m.new (with_condition (kernel_of m.old) a i list.now.items) }
{
    m.is_flat();
    let _room = list.len();
    put_list(
        m,
        CONDITION_LISTS + CONDITION_LIST_BYTES * (4 * a as u16 + i as u16),
        list,
    );
}

/// Who waits for line n, n below 14. On any memory it is the bytes before the first FF.
#[tactic(auto, using(crate::proofs::TableLemmas::line_got))]
pub fn line(m: &FlatMem, n: u8) -> ArrayVec<u8, 32>
    requires { n < 14 }
    ensures { result.items ≡ line_at (kernel_of m.now) n }
{
    m.is_flat();
    list_at(m, LINE_LISTS + LIST_BYTES * n as u16)
}

/// Replaces the list of line n, n below 14. Its members are below 32.
pub fn set_line(m: &mut FlatMem, n: u8, list: &ArrayVec<u8, 32>)
    requires number { n < 14 }
    requires members { All (λ x. x < 32) list.now.items }
    ensures { Leaves m.old m.new (with_line (kernel_of m.old) n list.now.items) }
{
    m.is_flat();
    let _room = list.len();
    put_list(m, LINE_LISTS + LIST_BYTES * n as u16, list);
}

/// The row that the bytes from an even address on are.
#[tactic(auto, using(crate::proofs::WordLemmas::mutex_words_at))]
fn mutex_row(m: &FlatMem, at: u16) -> MutexRow
    requires aligned { at % 2 ≡ 0 }
    requires room { at + 8 ≤ 65536 }
    ensures { result ≡ mutex_read (part m.now at 8) }
{
    m.is_flat();
    MutexRow {
        owner: m.word(at),
        waiters: list_at(m, at + 2),
    }
}

/// Writes a row from an even address on.
fn put_mutex_row(m: &mut FlatMem, at: u16, row: &MutexRow)
    requires aligned { at % 2 ≡ 0 }
    requires room { at + 8 ≤ 65536 }
    ensures put { m.new ≡ patch m.old at (mutex_bytes row.now) }
    ensures waiters { length row.now.waiters.items ≤ 4 }
{
    m.is_flat();
    let _room = row.waiters.len();
    put_words(m, at, &[row.owner]);
    put_list(m, at + 2, &row.waiters);
    put_words(m, at + 6, &[0]);
}
