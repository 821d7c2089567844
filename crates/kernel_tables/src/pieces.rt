//! Words and lists of bytes at an address: the pieces that rows are made of.

ghost use Rattle.std.specs.Prelude.{◌≡◌, ◌+◌, ◌*◌, ◌%◌, ◌<◌, ◌≤◌, length, take};
ghost use Rattle.flat_mem.specs.Bytes.{patch};
ghost use Rattle.kernel_model.specs.Bytes.{part, words_of, bytes_of, before_none, filled};

use arrayvec::ArrayVec;
use flat_mem::FlatMem;

/// What stands for no member in a list of bytes.
pub const NONE: u8 = 0xFF;

/// Writes words from an even address on.
pub fn put_words(m: &mut FlatMem, at: u16, words: &[u16])
    requires aligned { at % 2 ≡ 0 }
    requires room { at + 2 * length words.now ≤ 65536 }
    ensures { m.new ≡ patch m.old at (bytes_of words.now) }
{
    m.is_flat();
    for i in 0..words.len() {
        m.set_word(at + 2 * i as u16, words[i]);
    }
}

/// The sixteen words from an even address on.
pub fn sixteen_words(m: &FlatMem, at: u16) -> [u16; 16]
    requires aligned { at % 2 ≡ 0 }
    requires room { at + 32 ≤ 65536 }
    ensures { result ≡ words_of (part m.now at 32) }
{
    m.is_flat();
    let mut words = [0; 16];
    for i in 0..16 {
        words[i] = m.word(at + 2 * i as u16);
    }
    words
}

/// What stands before the first FF of `N` bytes from an address on.
pub fn list_at<const N: usize>(m: &FlatMem, at: u16) -> ArrayVec<u8, N>
    requires { at + N ≤ 65536 }
    ensures { result.items ≡ before_none (part m.now at N) }
{
    m.is_flat();
    let mut list = ArrayVec::new();
    for i in 0..N {
        let byte = m.byte(at + i as u16);
        if byte == NONE {
            return list;
        }
        list.push(byte);
    }
    list
}

/// Writes a list into `N` bytes from an address on, and FF into the rest of them.
pub fn put_list<const N: usize>(m: &mut FlatMem, at: u16, list: &ArrayVec<u8, N>)
    requires { at + N ≤ 65536 }
    ensures { m.new ≡ patch m.old at (filled N list.now.items) }
{
    m.copy_in(at, &list_bytes(list));
}

/// A list in `N` bytes, of which the rest is FF.
pub fn list_bytes<const N: usize>(list: &ArrayVec<u8, N>) -> [u8; N]
    ensures value { result ≡ filled N list.now.items }
    ensures size { length result ≡ N }
{
    let mut bytes = [NONE; N];
    let items = list.as_slice();
    bytes[..items.len()].copy_from_slice(items);
    bytes
}
