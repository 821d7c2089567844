//! Numbers and expressions.

use super::name::Name;

/// A number as written: its sign and its size, which is 65,536 for all greater ones.
#[derive(Clone, Copy, Drop)]
pub struct Numeral {
    pub negative: bool,
    pub size: u32,
}

/// What an expression's word is added to.
#[derive(Clone, Copy, Drop)]
pub enum Base {
    /// Nothing: the expression is a number.
    Number,
    /// The address of the region's first byte.
    Lo,
    /// The address behind the region's last byte.
    Hi,
    /// The place of a label, which may be defined below.
    Label(Name),
}

/// An expression: a base and the word that is added to it.
#[derive(Clone, Copy, Drop)]
pub struct Expression {
    pub base: Base,
    pub word: u16,
    /// Whether the number in it is in its range.
    pub fits: bool,
}
