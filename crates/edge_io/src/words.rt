//! The words of a command line.

ghost use Rattle.std.specs.Prelude.{◌≡◌, ℕ, List, [], ◌∷◌, ◌++◌, length, slice_get, OnOk, OnErr};
ghost use Rattle.std.specs.Option.{option_copied};

use item_lists::lists::Bytes;
use std::alloc::{AllocError, Global};
use std::marker::Model;

/// A list of words, each a list of bytes.
#[derive(Drop)]
pub struct Words {
    items: Vec<Bytes>,
    alloc: Global,
}

impl Model for Words {
    ghost Value = { List (List ℕ) };

    ghost view = { λ words. words.items.items };
}

impl Words {
    /// The empty list.
    pub fn new(alloc: Global) -> Words
        ensures { result ≡ [] }
    {
        Words {
            items: Vec::new(alloc),
            alloc,
        }
    }

    /// Appends a word, or leaves the list where there is no memory.
    pub fn push(&mut self, word: &[u8]) -> Result<(), AllocError>
        ensures pushed { OnOk result (self.new ≡ self.old ++ word.now ∷ []) }
        ensures kept { OnErr result (self.new ≡ self.old) }
    {
        let word = Bytes::from_slice(self.alloc, word)?;
        self.items.push(word)?;
        Ok(())
    }

    /// How many words there are.
    pub fn len(&self) -> usize
        ensures { result ≡ length self.now }
    {
        self.items.len()
    }

    /// The word at a place, counted from 0. None exactly at or past the end.
    pub fn word(&self, at: usize) -> Option<&[u8]>
        ensures { option_copied result ≡ slice_get self.now at }
    {
        match self.items.get(at) {
            Some(word) => Some(word.as_slice()),
            None => None,
        }
    }
}
