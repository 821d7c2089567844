//! The rows of applications, modules and functions.

ghost use Rattle.std.specs.Prelude.{◌≡◌, ◌+◌, ◌%◌, ◌<◌, ◌≤◌};
ghost use Rattle.kernel_model.specs.Bytes.{part};
ghost use Rattle.kernel_model.specs.Kernel.{app_at, with_app, module_at, with_module, function_at, with_function};
ghost use Rattle.kernel_model.specs.Layout.{kernel_of, app_bytes, app_read, module_bytes, module_read, function_bytes, function_read};
ghost use Rattle.kernel_model.specs.Queues.{Leaves};

use crate::pieces::put_words;
use crate::places::{
    APP_ROW_BYTES, APP_ROWS, FUNCTION_ROW_BYTES, FUNCTION_ROWS, MODULE_ROW_BYTES, MODULE_ROWS,
};
use flat_mem::FlatMem;
use kernel_model::rows::{AppRow, FnRow, ModuleRow};

/// Application a's row, a below 8. On any memory its words are as they stand.
#[tactic(auto, using(crate::proofs::TableLemmas::app_got))]
pub fn app(m: &FlatMem, a: u8) -> AppRow
    requires { a < 8 }
    ensures { result ≡ app_at (kernel_of m.now) a }
{
    m.is_flat();
    app_row(m, APP_ROWS + APP_ROW_BYTES * a as u16)
}

/// Replaces application a's row, a below 8.
pub fn set_app(m: &mut FlatMem, a: u8, row: &AppRow)
    requires { a < 8 }
    ensures { Leaves m.old m.new (with_app (kernel_of m.old) a row.now) }
{
    m.is_flat();
    put_words(
        m,
        APP_ROWS + APP_ROW_BYTES * a as u16,
        &[
            row.state,
            row.code_lo,
            row.code_hi,
            row.lo,
            row.hi,
            row.z,
            row.stack,
            row.threads,
        ],
    );
}

/// Module k's row, k below 4. On any memory its words are as they stand.
#[tactic(auto, using(crate::proofs::TableLemmas::module_got))]
pub fn module(m: &FlatMem, k: u8) -> ModuleRow
    requires { k < 4 }
    ensures { result ≡ module_at (kernel_of m.now) k }
{
    m.is_flat();
    module_row(m, MODULE_ROWS + MODULE_ROW_BYTES * k as u16)
}

/// Replaces module k's row, k below 4.
pub fn set_module(m: &mut FlatMem, k: u8, row: &ModuleRow)
    requires { k < 4 }
    ensures { Leaves m.old m.new (with_module (kernel_of m.old) k row.now) }
{
    m.is_flat();
    put_words(
        m,
        MODULE_ROWS + MODULE_ROW_BYTES * k as u16,
        &[row.state, row.code_lo, row.code_hi, row.lo, row.hi, 0, 0, 0],
    );
}

/// The row of function number f, f below 64. On any memory its words are as they stand.
#[tactic(auto, using(crate::proofs::TableLemmas::function_got))]
pub fn function(m: &FlatMem, f: u8) -> FnRow
    requires { f < 64 }
    ensures { result ≡ function_at (kernel_of m.now) f }
{
    m.is_flat();
    function_row(m, FUNCTION_ROWS + FUNCTION_ROW_BYTES * f as u16)
}

/// Replaces the row of function number f, f below 64.
pub fn set_function(m: &mut FlatMem, f: u8, row: &FnRow)
    requires { f < 64 }
    ensures { Leaves m.old m.new (with_function (kernel_of m.old) f row.now) }
{
    m.is_flat();
    put_words(
        m,
        FUNCTION_ROWS + FUNCTION_ROW_BYTES * f as u16,
        &[row.module, row.address],
    );
}

/// The row that eight words from an even address on are.
#[tactic(auto, using(crate::proofs::WordLemmas::app_words_at))]
fn app_row(m: &FlatMem, at: u16) -> AppRow
    requires aligned { at % 2 ≡ 0 }
    requires room { at + 16 ≤ 65536 }
    ensures { result ≡ app_read (part m.now at 16) }
{
    m.is_flat();
    AppRow {
        state: m.word(at),
        code_lo: m.word(at + 2),
        code_hi: m.word(at + 4),
        lo: m.word(at + 6),
        hi: m.word(at + 8),
        z: m.word(at + 10),
        stack: m.word(at + 12),
        threads: m.word(at + 14),
    }
}

/// The row that five words from an even address on are.
#[tactic(auto, using(crate::proofs::WordLemmas::module_words_at))]
fn module_row(m: &FlatMem, at: u16) -> ModuleRow
    requires aligned { at % 2 ≡ 0 }
    requires room { at + 16 ≤ 65536 }
    ensures { result ≡ module_read (part m.now at 16) }
{
    m.is_flat();
    ModuleRow {
        state: m.word(at),
        code_lo: m.word(at + 2),
        code_hi: m.word(at + 4),
        lo: m.word(at + 6),
        hi: m.word(at + 8),
    }
}

/// The row that two words from an even address on are.
#[tactic(auto, using(crate::proofs::WordLemmas::function_words_at))]
fn function_row(m: &FlatMem, at: u16) -> FnRow
    requires aligned { at % 2 ≡ 0 }
    requires room { at + 4 ≤ 65536 }
    ensures { result ≡ function_read (part m.now at 4) }
{
    m.is_flat();
    FnRow {
        module: m.word(at),
        address: m.word(at + 2),
    }
}
