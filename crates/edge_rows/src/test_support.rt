//! Lists and texts for the tests.

use edge_io::calls::Calls;
use edge_io::name::Name;
use item_lists::lists::Bytes;
use std::alloc::{AllocError, Global};
use std::test::Fail;

/// A list of numbers of calls.
pub fn calls(alloc: Global, numbers: &[u32]) -> Result<Calls, AllocError> {
    let mut list = Calls::new(alloc);
    for number in numbers {
        list.push(*number)?;
    }
    Ok(list)
}

/// A text of so many bytes, each an `x`.
pub fn text(alloc: Global, size: u32) -> Result<Bytes, AllocError> {
    let mut bytes = Bytes::new(alloc);
    for _ in 0..size {
        bytes.push(b'x')?;
    }
    Ok(bytes)
}

/// The name of these bytes.
pub fn name_of(bytes: &[u8]) -> Result<Name, Fail> {
    Ok(Name::from_slice(bytes).ok_or("a name")?)
}
