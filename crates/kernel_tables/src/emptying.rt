//! The memory that a node begins with.

ghost use Rattle.std.specs.Prelude.{◌≡◌, ◌+◌, ◌≤◌, ◌∷◌, []};
ghost use Rattle.flat_mem.specs.Bytes.{patch};
ghost use Rattle.kernel_model.specs.Layout.{layout, empty};
ghost use Rattle.kernel_tables.specs.Clearing.{Cleared, copies, repeated, vector_bytes};

use crate::pieces::{NONE, put_words};
use crate::places::{
    CONDITION_LISTS, FUNCTION_ROW_BYTES, FUNCTION_ROWS, MUTEX_ROW_BYTES, MUTEX_ROWS, SYSTEM_WORDS,
    THREAD_ROWS, UNUSED_END, UNUSED_WORDS,
};
use flat_mem::FlatMem;
use kernel_model::map::{FIRST_ROUTINE, KERNEL_LIMIT, KERNEL_TOP, TABLES_END, VECTORS};
use kernel_model::states;

/// Writes the empty kernel into the tables, and the interrupt vectors. All other bytes stay.
pub fn clear(m: &mut FlatMem)
    ensures { Cleared m.old m.new }
{
    m.is_flat();
    clear_tables(m);
    put_vectors(m);
}

/// Writes the empty kernel.
fn clear_tables(m: &mut FlatMem)
    ensures { m.new ≡ patch m.old 512 (layout empty) }
{
    m.is_flat();
    put_words(
        m,
        SYSTEM_WORDS,
        &[
            KERNEL_LIMIT,
            KERNEL_TOP,
            states::NONE,
            states::NONE,
            0,
            0,
            0,
            0,
        ],
    );
    fill(m, UNUSED_WORDS, 0, FUNCTION_ROWS - UNUSED_WORDS);
    free_functions(m);
    fill(m, THREAD_ROWS, 0, MUTEX_ROWS - THREAD_ROWS);
    free_mutexes(m);
    fill(m, CONDITION_LISTS, NONE, UNUSED_END - CONDITION_LISTS);
    fill(m, UNUSED_END, 0, TABLES_END - UNUSED_END);
}

/// Writes a byte into so many bytes from an address on.
fn fill(m: &mut FlatMem, at: u16, byte: u8, count: u16)
    requires { at + count ≤ 65536 }
    ensures { m.new ≡ patch m.old at (copies count byte) }
{
    m.is_flat();
    for i in 0..count {
        m.set_byte(at + i, byte);
    }
}

/// Writes the rows of no function.
fn free_functions(m: &mut FlatMem)
    ensures { m.new ≡ patch m.old 800 (repeated 64 (255 ∷ 255 ∷ 0 ∷ 0 ∷ [])) }
{
    m.is_flat();
    for i in 0..64 {
        put_words(m, FUNCTION_ROWS + FUNCTION_ROW_BYTES * i, &[0xFFFF, 0]);
    }
}

/// Writes the rows of free mutexes.
fn free_mutexes(m: &mut FlatMem)
    ensures { m.new ≡ patch m.old 2592 (repeated 32 (255 ∷ 255 ∷ 255 ∷ 255 ∷ 255 ∷ 255 ∷ 0 ∷ 0 ∷ [])) }
{
    m.is_flat();
    for i in 0..32 {
        put_words(
            m,
            MUTEX_ROWS + MUTEX_ROW_BYTES * i,
            &[0xFFFF, 0xFFFF, 0xFFFF, 0],
        );
    }
}

/// Writes the address of each line's routine.
#[tactic(auto, unfolding(crate::specs::Clearing::vector_bytes))]
fn put_vectors(m: &mut FlatMem)
    ensures { m.new ≡ patch m.old VECTORS vector_bytes }
{
    m.is_flat();
    put_words(
        m,
        VECTORS,
        &[
            FIRST_ROUTINE,
            FIRST_ROUTINE + 2,
            FIRST_ROUTINE + 4,
            FIRST_ROUTINE + 6,
            FIRST_ROUTINE + 8,
            FIRST_ROUTINE + 10,
            FIRST_ROUTINE + 12,
            FIRST_ROUTINE + 14,
            FIRST_ROUTINE + 16,
            FIRST_ROUTINE + 18,
            FIRST_ROUTINE + 20,
            FIRST_ROUTINE + 22,
            FIRST_ROUTINE + 24,
            FIRST_ROUTINE + 26,
        ],
    );
}
