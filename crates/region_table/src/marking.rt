//! The bitmap of marks, a bit for each word of the code pool.

ghost use Rattle.std.specs.Prelude.{◌≡◌, ◌≢◌, ◌↔◌, ℕ, ◌+◌, ◌%◌, ◌<◌, ◌≤◌, length, IsTrue};
ghost use Rattle.std.specs.Int.{bit_at};
ghost use Rattle.kernel_model.specs.Layout.{kernel_of};
ghost use Rattle.place_model.specs.Placing.{domain_at};
ghost use Rattle.place_model.specs.Marking.{IsCodeWord, IsMarkBit, IsMarkOf, Marked};
ghost use Rattle.place_model.specs.Settled.{IsSettled};
ghost use Rattle.region_table.specs.Bits.{BitPut};
ghost use Rattle.code_model.specs.declared.object.TheConstants.{CODE_BYTES_MAX};

use crate::rows::domain_at;
use code_model::marks::Marks;
use flat_mem::FlatMem;
use kernel_model::laws::tables_stay;
use kernel_model::map::{BITMAP, CODE_POOL, CODE_POOL_END};
use place_model::places::Regions;

/// Makes the bits of the region's code exactly the marks: the word `n` bytes behind the code's start has its bit exactly where the
/// marks have the offset `n`. The code has even ends, lies in the code pool and has at most 16,384 bytes. Other bits and bytes
/// stay.
pub fn set_marks(m: &mut FlatMem, r: &Regions, marks: &Marks)
    requires from { CODE_POOL ≤ r.now.code_lo }
    requires to { r.now.code_hi ≤ CODE_POOL_END }
    requires up { r.now.code_lo ≤ r.now.code_hi }
    requires from_even { r.now.code_lo % 2 ≡ 0 }
    requires to_even { r.now.code_hi % 2 ≡ 0 }
    requires size { r.now.code_hi ≤ r.now.code_lo + CODE_BYTES_MAX }
    ensures marked { Marked m.old m.new r.now marks.now }
    ensures keeps { IsSettled m.old → IsSettled m.new }
{
    m.is_flat();
    let words = (r.code_hi - r.code_lo) / 2;
    for word in 0..words {
        put_bit_at(m, r.code_lo + 2 * word, marks.has(2 * word));
    }
}

/// Tells whether the address is a mark of the domain of a number below 12: an even address in its code whose bit is set.
pub fn is_marked(m: &FlatMem, dom: u8, at: u16) -> bool
    requires { dom < 12 }
    ensures { IsTrue result ↔ IsMarkOf m.now (domain_at (kernel_of m.now) dom).code.from (domain_at (kernel_of m.now) dom).code.to at }
{
    let code = domain_at(m, dom).code;
    if !is_code_word(at) {
        return false;
    }
    if at < code.from {
        return false;
    }
    if at >= code.to {
        return false;
    }
    has_bit_at(m, at)
}

/// Tells whether a word of the code pool lies at the address.
fn is_code_word(at: u16) -> bool
    ensures { IsTrue result ↔ IsCodeWord at }
{
    at % 2 == 0 && CODE_POOL <= at && at < CODE_POOL_END
}

/// The bit of a word of the code pool.
fn has_bit_at(m: &FlatMem, at: u16) -> bool
    requires { IsCodeWord at }
    ensures { IsTrue result ↔ IsMarkBit m.now at }
{
    has_bit(
        m.byte(BITMAP + (at - CODE_POOL) / 16),
        (at - CODE_POOL) / 2 % 8,
    )
}

/// Makes the bit of a word of the code pool 1 or 0.
fn put_bit_at(m: &mut FlatMem, at: u16, value: bool)
    requires word { IsCodeWord at }
    ensures { BitPut m.old m.new at value }
{
    tables_stay();
    m.is_flat();
    let byte_at = BITMAP + (at - CODE_POOL) / 16;
    let byte = with_bit(m.byte(byte_at), (at - CODE_POOL) / 2 % 8, value);
    m.set_byte(byte_at, byte);
}

/// Tells whether a bit of the byte is 1.
fn has_bit(byte: u8, bit: u16) -> bool
    requires { bit < 8 }
    ensures { IsTrue result ↔ (bit_at byte bit ≡ 1) }
{
    byte >> bit & 1 == 1
}

/// The byte with one bit 1 or 0.
fn with_bit(byte: u8, bit: u16, value: bool) -> u8
    requires { bit < 8 }
    ensures here { (bit_at result bit ≡ 1) ↔ IsTrue value }
    ensures others { (k : ℕ) → k < 8 → k ≢ bit → bit_at result k ≡ bit_at byte k }
{
    if value {
        set_bit(byte, bit)
    } else {
        clear_bit(byte, bit)
    }
}

/// The byte with one bit 1.
fn set_bit(byte: u8, bit: u16) -> u8
    requires { bit < 8 }
    ensures here { bit_at result bit ≡ 1 }
    ensures others { (k : ℕ) → k < 8 → k ≢ bit → bit_at result k ≡ bit_at byte k }
{
    byte | 1 << bit
}

/// The byte with one bit 0.
fn clear_bit(byte: u8, bit: u16) -> u8
    requires { bit < 8 }
    ensures here { bit_at result bit ≡ 0 }
    ensures others { (k : ℕ) → k < 8 → k ≢ bit → bit_at result k ≡ bit_at byte k }
{
    byte & !(1 << bit)
}
