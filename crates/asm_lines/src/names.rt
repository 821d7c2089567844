//! Names, registers and what names stand for.

ghost use Rattle.std.specs.Prelude.{◌≡◌, ◌≤◌, ◌<◌, ◌++◌, [], ◌∷◌, List, length, false, true, is_some, IfSome, OnOk, OnErr};
ghost use Rattle.asm_model.specs.declared.name.Name.{Name};
ghost use Rattle.asm_model.specs.declared.name.Value.{Value};
ghost use Rattle.asm_model.specs.Names.{has_name_form, numbered_register, register_of, is_lo, is_hi, is_reserved, is_label, name_of, value_of, is_taken};

use crate::bytes::{Class, all, byte_at};
use crate::text::is_word;
use asm_model::name::{Name, Value};
use indexmap::IndexMap;
use msp_encode::registers::{PC, SP, SR};
use std::alloc::{AllocError, Global};
use std::marker::Model;

/// The largest number of bytes in a name.
const NAME_BYTES_MAX: usize = 32;

/// Whether a word is a letter or `_`, then letters, digits and `_`, at most 32 bytes.
#[tactic(auto, unfolding(asm_model::specs::Names::has_name_form))]
pub fn has_form(word: &[u8]) -> bool
    ensures value { result ≡ has_name_form word.now }
    ensures short { result ≡ true → length word.now ≤ 32 }
{
    let first = byte_at(word, 0);
    word.len() <= NAME_BYTES_MAX
        && (first.is_ascii_alphabetic() || first == b'_')
        && all(Class::Name, word)
}

/// The number of `R0` to `R9` and `R10` to `R15`.
#[tactic(auto, unfolding(asm_model::specs::Names::numbered_register))]
fn numbered(word: &[u8]) -> Option<u8>
    ensures value { result ≡ numbered_register word.now }
    ensures small { IfSome result (λ r. r < 16) }
{
    if byte_at(word, 0).to_ascii_uppercase() != b'R' {
        return None;
    }
    let (second, third) = (byte_at(word, 1), byte_at(word, 2));
    if word.len() == 2 {
        if b'0' <= second && second <= b'9' {
            Some(second - b'0')
        } else {
            None
        }
    } else if word.len() == 3 {
        if second == b'1' && b'0' <= third && third <= b'5' {
            Some(third - b'0' + 10)
        } else {
            None
        }
    } else {
        None
    }
}

/// The number of a register's name.
#[tactic(auto, unfolding(asm_model::specs::Names::register_of))]
pub(crate) fn register(word: &[u8]) -> Option<u8>
    ensures value { result ≡ register_of word.now }
    ensures small { IfSome result (λ r. r < 16) }
{
    if is_word(word, b"PC") {
        Some(PC)
    } else if is_word(word, b"SP") {
        Some(SP)
    } else if is_word(word, b"SR") {
        Some(SR)
    } else {
        numbered(word)
    }
}

/// Whether a word is the lower end of the region.
pub(crate) fn is_low(word: &[u8]) -> bool
    ensures { result ≡ is_lo word.now }
{
    word == b"LO".as_slice()
}

/// Whether a word is the upper end of the region.
pub(crate) fn is_high(word: &[u8]) -> bool
    ensures { result ≡ is_hi word.now }
{
    word == b"HI".as_slice()
}

/// Whether a word is a register's name, LO or HI.
#[tactic(auto, unfolding(asm_model::specs::Names::is_reserved))]
fn reserved(word: &[u8]) -> bool
    ensures { result ≡ is_reserved word.now }
{
    register(word).is_some() || is_low(word) || is_high(word)
}

/// Whether a word can be a label.
#[tactic(auto, unfolding(asm_model::specs::Names::is_label))]
pub(crate) fn can_be_label(word: &[u8]) -> bool
    ensures value { result ≡ is_label word.now }
    ensures short { result ≡ true → length word.now ≤ 32 }
{
    has_form(word) && !reserved(word)
}

/// A word as a name.
#[tactic(auto, unfolding(asm_model::specs::Names::name_of))]
pub fn name(word: &[u8]) -> Name
    requires { length word.now ≤ 32 }
    ensures { result ≡ name_of word.now }
{
    let mut bytes = [0; 32];
    bytes[..word.len()].copy_from_slice(word);
    Name { bytes }
}

/// The names that are defined, in the order of their lines. Contracts see the pairs.
#[derive(Drop)]
pub struct Names {
    map: IndexMap<Name, Value>,
}

impl Model for Names {
    ghost use Rattle.std.specs.Prelude.{List};
    ghost use Rattle.asm_model.specs.declared.name.Name.{Name};
    ghost use Rattle.asm_model.specs.declared.name.Value.{Value as Meaning};

    ghost Value = { List (Name × Meaning) };

    ghost view = { λ names. names.map.entries };
}

impl Names {
    /// No names.
    pub fn new(alloc: Global) -> Names
        ensures { result ≡ [] }
    {
        Names {
            map: IndexMap::new(alloc),
        }
    }

    /// What a name stands for.
    #[tactic(auto, unfolding(asm_model::specs::Names::value_of))]
    pub fn get(&self, name: Name) -> Option<Value>
        ensures { result ≡ value_of self.now name }
    {
        self.map.get(&name).copied()
    }

    /// Defines a name that isn't defined.
    #[tactic(auto, unfolding(asm_model::specs::Names::value_of))]
    pub fn define(&mut self, name: Name, value: Value) -> Result<(), AllocError>
        requires { is_some (value_of self.old name) ≡ false }
        ensures { OnOk result (self.new ≡ self.old ++ (name, value) ∷ []) }
    {
        self.map.insert(name, value)?;
        Ok(())
    }
}

/// Whether a word can't be defined, since it is there, or reserved.
#[tactic(auto, unfolding(asm_model::specs::Names::is_taken))]
pub fn taken(names: &Names, word: &[u8]) -> bool
    ensures { result ≡ is_taken names.now word.now }
{
    reserved(word) || has_form(word) && names.get(name(word)).is_some()
}
