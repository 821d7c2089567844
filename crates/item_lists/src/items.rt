//! Lists of values of one type.

ghost use Rattle.std.specs.Prelude.{◌≡◌, ◌<◌, ℕ, List, [], ◌∷◌, ◌++◌, length, slice_get, Some, IfOk, OnOk, OnErr};

use std::alloc::{AllocError, Global};
use std::marker::Model;

/// A list that grows at its end.
#[derive(Drop)]
pub struct Items<T: Drop> {
    items: Vec<T>,
}

impl<T: Drop> Model for Items<T> {
    ghost Value = { List T };

    ghost view = { λ list. list.items.items };
}

impl<T: Drop> Items<T> {
    /// The empty list.
    pub fn new(alloc: Global) -> Items<T>
        ensures { result ≡ [] }
    {
        Items {
            items: Vec::new(alloc),
        }
    }

    /// The empty list, with memory reserved for this many items.
    pub fn with_room(alloc: Global, room: usize) -> Result<Items<T>, AllocError>
        ensures { IfOk result (λ list. list ≡ []) }
    {
        Ok(Items {
            items: Vec::with_capacity(alloc, room)?,
        })
    }

    /// Appends an item, or leaves the list where there is no memory.
    pub fn push(&mut self, item: T) -> Result<(), AllocError>
        ensures pushed { OnOk result (self.new ≡ self.old ++ item ∷ []) }
        ensures kept { OnErr result (self.new ≡ self.old) }
    {
        self.items.push(item)?;
        Ok(())
    }

    /// How many there are.
    pub fn len(&self) -> usize
        ensures { result ≡ length self.now }
    {
        self.items.len()
    }

    /// The item at a place, counted from 0.
    pub fn at(&self, at: usize) -> &T
        requires { at < length self.now }
        ensures { slice_get self.now at ≡ Some result.now }
    {
        &self.items[at]
    }

    /// The items.
    pub fn as_slice(&self) -> &[T]
        ensures { result.now ≡ self.now }
    {
        self.items.as_slice()
    }
}

impl<T: Copy + Drop> Items<T> {
    /// The list of these items, or none where there is no memory.
    pub fn from_slice(alloc: Global, from: &[T]) -> Result<Items<T>, AllocError>
        ensures { IfOk result (λ list. list ≡ from.now) }
    {
        let items = Vec::from_slice(alloc, from)?;
        Ok(Items { items })
    }

    /// Appends these items, or leaves the list where there is no memory.
    pub fn extend_from_slice(&mut self, piece: &[T]) -> Result<(), AllocError>
        ensures extended { OnOk result (self.new ≡ self.old ++ piece.now) }
        ensures kept { OnErr result (self.new ≡ self.old) }
    {
        self.items.extend_from_slice(piece)?;
        Ok(())
    }

    /// The item at a place, counted from 0. None exactly at or past the end.
    pub fn get(&self, at: usize) -> Option<T>
        ensures { result ≡ slice_get self.now at }
    {
        self.items.get(at).copied()
    }
}
