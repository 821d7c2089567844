//! The bytes that a step wrote.

ghost use Rattle.std.specs.Prelude.{◌≡◌, ◌<◌, ◌≤◌, [], length, position, slice_get};
ghost use Rattle.machine_model.specs.Pairs.{put_pair};
ghost use Rattle.machine_model.specs.Rising.{Lacks, IsRising, is_above};

use arrayvec::ArrayVec;
use std::marker::Model;

/// At most four pairs of an address and the byte written there, in rising address.
#[derive(Drop)]
pub struct Writes {
    pairs: ArrayVec<(u16, u8), 4>,
}

impl Model for Writes {
    ghost use Rattle.std.specs.Prelude.{List, ℕ, length, ◌≤◌};
    ghost use Rattle.machine_model.specs.Rising.{IsRising};

    ghost Value = { List (ℕ × ℕ) };

    ghost view = { λ writes. writes.pairs.items };

    ghost invariant = { λ writes. (length writes.pairs.items ≤ 4) × IsRising writes.pairs.items };
}

impl Writes {
    /// No pair.
    pub fn new() -> Writes
        ensures { result ≡ [] }
    {
        Writes {
            pairs: ArrayVec::new(),
        }
    }

    /// Puts a pair in its place by address. There have to be fewer than four, and none at this address.
    #[tactic(auto, using(crate::proofs::Placing::placing))]
    pub fn add(&mut self, at: u16, value: u8)
        requires room { length self.old < 4 }
        requires absent { Lacks at self.old }
        ensures { self.new ≡ put_pair (at, value) self.old }
    {
        let place = first_above(self.pairs.as_slice(), at).unwrap_or(self.pairs.len());
        self.pairs.insert(place, (at, value));
    }

    /// How many pairs there are.
    pub fn len(&self) -> usize
        ensures { result ≡ length self.now }
    {
        self.pairs.len()
    }

    /// The pair at a place, counted from 0. None exactly at or past the end.
    pub fn get(&self, at: usize) -> Option<(u16, u8)>
        ensures { result ≡ slice_get self.now at }
    {
        self.pairs.as_slice().get(at).copied()
    }

    /// What holds of every list of writes.
    pub fn is_rising(&self)
        ensures few { length self.now ≤ 4 }
        ensures rising { IsRising self.now }
    {
        let _ = &self.pairs;
    }
}

/// The place of the first pair of a higher address.
fn first_above(pairs: &[(u16, u8)], at: u16) -> Option<usize>
    ensures { result ≡ position (is_above at) pairs.now }
{
    pairs.iter().position(|pair| at < pair.0)
}
