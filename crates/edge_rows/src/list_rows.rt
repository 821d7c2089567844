//! Rows on names, words and lists.

use crate::test_support::{calls, text};
use edge_io::calls::{Calls, has_call};
use edge_io::name::Name;
use edge_io::words::Words;
use item_lists::lists::Bytes;
use std::alloc::{AllocError, Global};
use std::process::Abort;
use std::test::Fail;

/// How many bytes there are, and whether they are a name.
const SIZES: [(u32, bool); 4] = [(0, false), (1, true), (255, true), (256, false)];

/// Tells where so many bytes are a name or none, against what is wanted.
fn try_name(rt: &impl Abort, alloc: Global, size: u32, is_name: bool) -> Result<(), Fail> {
    let bytes = text(alloc, size)?;
    let name = Name::from_slice(bytes.as_slice());
    assert_eq!(rt; name.is_some(), is_name, "of {size} bytes");
    if let Some(name) = name {
        assert_eq!(rt; name.as_slice(), bytes.as_slice());
    }
    Ok(())
}

#[test]
fn names_have_1_to_255_bytes(rt: HostRuntime) -> Result<(), Fail> {
    for (size, is_name) in &SIZES {
        try_name(&rt, rt.alloc(), *size, *is_name)?;
    }
    Ok(())
}

/// Two words, the second of them empty.
fn two_words(alloc: Global) -> Result<Words, AllocError> {
    let mut words = Words::new(alloc);
    words.push(b"solo")?;
    words.push(b"")?;
    Ok(words)
}

/// Tells where the word at a place is another.
fn compare_word(rt: &impl Abort, words: &Words, at: usize, wanted: Option<&[u8]>) {
    assert_eq!(rt; words.word(at), wanted, "at {at}");
}

#[test]
fn words_are_kept_in_order(rt: HostRuntime) -> Result<(), Fail> {
    let words = two_words(rt.alloc())?;
    assert_eq!(rt; words.len(), 2);
    compare_word(&rt, &words, 0, Some(b"solo"));
    compare_word(&rt, &words, 1, Some(b""));
    compare_word(&rt, &words, 2, None);
    Ok(())
}

/// Two bytes, and three more.
fn five_bytes(alloc: Global) -> Result<Bytes, AllocError> {
    let mut bytes = Bytes::from_slice(alloc, b"ab")?;
    bytes.push(b'c')?;
    bytes.extend_from_slice(b"de")?;
    Ok(bytes)
}

/// Tells where a list of numbers isn't 3 and 7.
fn compare_calls(rt: &impl Abort, numbers: &Calls) {
    assert_eq!(rt; (numbers.len(), numbers.get(1)), (2, Some(7)));
    assert!(rt; has_call(numbers, 3) && !has_call(numbers, 4));
}

#[test]
fn lists_grow(rt: HostRuntime) -> Result<(), Fail> {
    let bytes = five_bytes(rt.alloc())?;
    assert_eq!(rt; bytes.as_slice(), b"abcde".as_slice());
    compare_calls(&rt, &calls(rt.alloc(), &[3, 7])?);
    Ok(())
}
