//! A memory of 65,536 bytes, addressed by 16 bits, that reads and writes bytes and words.
//!
//! It stands on nothing. Contracts see a `FlatMem` as the list of its bytes; a word lies at an even address, low byte first, and
//! an access of a word takes its address with bit 0 cleared. `specs/Bytes.antt` has the words of the contracts.
//!
//! The bytes lie in one raw block. Its pointer is used in `from_box`, `into_box`, `cell` and `set_cell` alone, which are proved
//! by hand; all else is safe code over these.
#![tactic(auto)]

ghost use Rattle.std.specs.Prelude.{◌≡◌, ℕ, ◌+◌, ◌≤◌, ◌<◌, length, replicate, slice_index, slice_set, List, IfOk};
ghost use Rattle.flat_mem.specs.Bytes.{IsFlat, even, word_at, word_bytes, with_word, patch};

use std::alloc::{AllocError, Global};
use std::marker::Model;

/// How many bytes a memory has.
pub const MEMORY_BYTES: usize = 65536;

/// A memory of 65,536 bytes, in a block of its own: `new` takes it, and the drop frees it.
pub struct FlatMem {
    block: *mut u8,
    alloc: Global,
    ghost bytes: { List ℕ },
}

impl Model for FlatMem {
    ghost use Rattle.std.specs.Prelude.{List, ℕ};
    ghost use Rattle.flat_mem.specs.Bytes.{IsFlat};
    ghost use Rattle.flat_mem.specs.Block.{owns_block, lends_block};

    ghost Value = { List ℕ };

    ghost view = { λ memory. memory.bytes };

    ghost invariant = { λ memory. IsFlat memory.bytes };

    ghost also_owns = { λ memory. owns_block memory.alloc memory.block memory.bytes };

    ghost also_shares = { λ memory _ κ. lends_block memory.block memory.bytes κ };
}

impl FlatMem {
    /// A memory of zeroes.
    pub fn new(alloc: Global) -> Result<FlatMem, AllocError>
        ensures { IfOk result (λ m. m ≡ replicate 65536 0) }
    {
        let zeroes = zero_block(alloc)?;
        Ok(FlatMem::from_box(zeroes))
    }

    /// The memory whose block is a box's.
    fn from_box(bytes: Box<[u8; MEMORY_BYTES]>) -> FlatMem
        requires { IsFlat bytes.value }
        ensures { result ≡ bytes.value }
    {
        let (whole, alloc) = Box::into_raw_with_allocator(bytes);
        FlatMem {
            block: whole as *mut u8,
            alloc,
        }
    }

    /// The box of a memory's block, which frees it.
    fn into_box(self) -> Box<[u8; MEMORY_BYTES]>
        ensures { result.value ≡ self }
    {
        let FlatMem { block, alloc } = self;
        unsafe { Box::from_raw(alloc, block as *mut [u8; MEMORY_BYTES]) }
    }

    /// The byte at a place in the block.
    #[inline(always)]
    fn cell(&self, at: usize) -> u8
        requires { at < 65536 }
        ensures { result ≡ slice_index self.now at }
    {
        unsafe { *self.block.add(at) }
    }

    /// Writes the byte at a place in the block.
    #[inline(always)]
    fn set_cell(&mut self, at: usize, value: u8)
        requires { at < 65536 }
        ensures written { self.new ≡ slice_set self.old at value }
        ensures size { length self.new ≡ 65536 }
    {
        unsafe {
            *self.block.add(at) = value;
        }
    }

    /// The byte at an address.
    pub fn byte(&self, at: u16) -> u8
        ensures { result ≡ slice_index self.now at }
    {
        self.cell(at as usize)
    }

    /// Writes one byte.
    pub fn set_byte(&mut self, at: u16, value: u8)
        ensures written { self.new ≡ slice_set self.old at value }
        ensures size { length self.new ≡ 65536 }
    {
        self.set_cell(at as usize, value);
    }

    /// The word at an address with bit 0 cleared.
    pub fn word(&self, at: u16) -> u16
        ensures { result ≡ word_at self.now at }
    {
        let low = even(at);
        u16::from_le_bytes([self.cell(low), self.cell(low + 1)])
    }

    /// Writes a word at an address with bit 0 cleared.
    #[tactic(auto, using(crate::proofs::Patch::pair_as_patch))]
    pub fn set_word(&mut self, at: u16, value: u16)
        ensures written { self.new ≡ with_word self.old at value }
        ensures patched { self.new ≡ patch self.old (even at) (word_bytes value) }
        ensures size { length self.new ≡ 65536 }
    {
        let first = even(at);
        self.is_flat();
        let bytes = value.to_le_bytes();
        self.set_cell(first, bytes[0]);
        self.set_cell(first + 1, bytes[1]);
    }

    /// Writes bytes from an address on. They have to end by the memory's end.
    pub fn copy_in(&mut self, at: u16, from: &[u8])
        requires { at + length from.now ≤ 65536 }
        ensures patched { self.new ≡ patch self.old at from.now }
        ensures size { length self.new ≡ 65536 }
    {
        self.is_flat();
        for i in 0..from.len() {
            self.set_cell(at as usize + i, from[i]);
        }
    }

    /// What holds of every memory.
    pub fn is_flat(&self)
        ensures size { length self.now ≡ 65536 }
        ensures small { (k : ℕ) → slice_index self.now k < 256 }
    {
        let _ = &self.alloc;
    }
}

/// A block of zeroes.
#[tactic(auto, using(crate::proofs::Flat::zero_flat))]
fn zero_block(alloc: Global) -> Result<Box<[u8; MEMORY_BYTES]>, AllocError>
    ensures flat { IfOk result (λ b. IsFlat b.value) }
    ensures zero { IfOk result (λ b. b.value ≡ replicate 65536 0) }
{
    match Box::new(alloc, [0; MEMORY_BYTES]) {
        Ok(zeroes) => Ok(zeroes),
        Err(_) => Err(AllocError),
    }
}

/// An address with bit 0 cleared.
fn even(at: u16) -> usize
    ensures value { result ≡ even at }
    ensures inside { result + 1 < 65536 }
{
    at as usize / 2 * 2
}

impl Drop for FlatMem {
    fn drop(self) {
        drop(self.into_box());
    }
}
