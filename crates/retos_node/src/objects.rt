//! The list of accepted objects that a node is given.

ghost use Rattle.std.specs.Prelude.{◌≡◌, ◌<◌, ◌≤◌, ℕ, List, ◌∷◌, ◌++◌, [], length, slice_get, Some, OnOk, OnErr};
ghost use Rattle.code_model.specs.declared.object.Object.{Object};
ghost use Rattle.code_model.specs.Verdicts.{IsAccepted};
ghost use Rattle.load_model.specs.Loading.{Loadable};
ghost use Rattle.node_model.specs.Nodes.{IsFitting};

use code_model::marks::Marks;
use code_model::object::Object;
use std::alloc::{AllocError, Global};
use std::marker::Model;

/// How many objects a node may be given.
pub const MOST_OBJECTS: usize = 16;

/// An accepted object and the marks of its unit starts.
#[derive(Drop)]
pub(crate) struct Accepted {
    pub object: Object,
    pub marks: Marks,
}

/// A list of at most 16 accepted objects with their marks.
#[derive(Drop)]
pub struct ObjectList {
    items: Vec<Accepted>,
}

impl Model for ObjectList {
    ghost use Rattle.std.specs.Prelude.{List, ◌≤◌, length, map};
    ghost use Rattle.load_model.specs.Loading.{Loadable};
    ghost use Rattle.node_model.specs.Nodes.{IsFitting};

    ghost Value = { List Loadable };

    ghost view = { λ list. map (λ item. record { object = item.object; units = item.marks }) list.items.items };

    ghost invariant = { λ list. (length list.items.items ≤ 16) × IsFitting (map (λ item. record { object = item.object; units = item.marks }) list.items.items) };
}

impl ObjectList {
    /// The empty list.
    pub fn new(alloc: Global) -> ObjectList
        ensures { result ≡ [] }
    {
        ObjectList {
            items: Vec::new(alloc),
        }
    }

    /// Appends an object that was accepted with these marks, or leaves the list where there is no memory.
    pub fn push(&mut self, o: Object, marks: Marks) -> Result<(), AllocError>
        requires room { length self.old < 16 }
        requires accepted { IsAccepted o marks }
        ensures pushed { OnOk result (self.new ≡ self.old ++ (record { object = o; units = marks }) ∷ []) }
        ensures kept { OnErr result (self.new ≡ self.old) }
    {
        self.items.push(Accepted { object: o, marks })?;
        Ok(())
    }

    /// How many there are, at most 16.
    pub fn len(&self) -> usize
        ensures { result ≡ length self.now }
    {
        self.items.len()
    }

    /// The object at a place, counted from 0.
    pub fn object(&self, at: usize) -> &Object
        requires { at < length self.now }
        ensures { (units : List ℕ) × slice_get self.now at ≡ Some (record { object = result.now; units = units }) }
    {
        &self.items[at].object
    }

    /// The marks of the object at a place, counted from 0.
    pub fn marks(&self, at: usize) -> &Marks
        requires { at < length self.now }
        ensures { (object : Object) × slice_get self.now at ≡ Some (record { object = object; units = result.now }) }
    {
        &self.items[at].marks
    }

    /// The object and its marks at a place, counted from 0.
    pub(crate) fn item(&self, at: usize) -> &Accepted
        requires { at < length self.now }
        ensures found { slice_get self.now at ≡ Some (record { object = result.now.object; units = result.now.marks }) }
        ensures accepted { IsAccepted result.now.object result.now.marks }
    {
        &self.items[at]
    }

    /// There are at most 16, and each is accepted.
    pub(crate) fn are_accepted(&self)
        ensures few { length self.now ≤ 16 }
        ensures fitting { IsFitting self.now }
    {
        let _ = &self.items;
    }
}
