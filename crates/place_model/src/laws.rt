//! What the gaps and places that are computed are. Each law is a function that does nothing, and its contract is the law.

ghost use Rattle.std.specs.Prelude.{◌≡◌, ℕ, ◌%◌, ◌↔◌, List, Contains, Option, None, Some, Result, Ok, Err};
ghost use Rattle.kernel_model.specs.declared.kinds.Kind.{Kind};
ghost use Rattle.kernel_model.specs.Kernel.{Kernel};
ghost use Rattle.place_model.specs.declared.places.Range.{Range};
ghost use Rattle.place_model.specs.declared.places.DomainRow.{DomainRow};
ghost use Rattle.place_model.specs.declared.places.Regions.{Regions};
ghost use Rattle.place_model.specs.declared.places.NoRoom.{NoRoom};
ghost use Rattle.place_model.specs.Gaps.{IsGap, gaps, place_in, IsPlace, HasNoPlace};
ghost use Rattle.place_model.specs.Placing.{free_from, placing, with_places, IsLeastFree, IsPlacing, IsInPools, IsRefusal};
ghost use Rattle.place_model.specs.Settled.{IsSettledKernel};

/// The gaps that are computed are exactly the maximal runs of addresses of the pool that no range has.
pub fn gaps_are_maximal_runs()
    ensures { (pool : Range) (rs : List Range) → (g : Range) → Contains (gaps pool rs) g ↔ IsGap pool rs g }
{}

/// A place is the start of the lowest gap that fits, or the pool's start where nothing is placed. There is none exactly where
/// something is to be placed and no gap is as long, and then the longest one's length is told.
pub fn places_are_lowest_gaps()
    ensures placed { (pool : Range) (rs : List Range) (need at : ℕ) → (place_in pool rs need ≡ Ok at) ↔ IsPlace pool rs need at }
    ensures refused { (pool : Range) (rs : List Range) (need gap : ℕ) → (place_in pool rs need ≡ Err gap) ↔ HasNoPlace pool rs need gap }
{}

/// The number that is chosen is the least one whose row is free.
pub fn numbers_are_least()
    ensures { (rows : List DomainRow) (first count number : ℕ) → free_from rows first count ≡ Some number → IsLeastFree rows first count number }
{}

/// What placing answers is the least free number and the lowest gaps, in the pools, or the first cause that there are none.
pub fn placings_are_lowest()
    ensures lowest { (k : Kernel) (kind : Kind) (c l : ℕ) (r : Regions) → placing k kind c l ≡ Ok r → IsPlacing k kind c l r }
    ensures inside { (k : Kernel) (kind : Kind) (c l : ℕ) (r : Regions) → placing k kind c l ≡ Ok r → IsInPools kind r }
    ensures refused { (k : Kernel) (kind : Kind) (c l : ℕ) (e : NoRoom) → placing k kind c l ≡ Err e → IsRefusal k kind c l e }
{}

/// Among domains with even ends in the pools that are apart, a placing of even lengths is even, and they stay so with it.
pub fn placings_keep_settled()
    ensures even { (k : Kernel) (kind : Kind) (c l : ℕ) (r : Regions) → IsSettledKernel k → placing k kind c l ≡ Ok r
        → (r.code_lo % 2 ≡ 0) × (r.lo % 2 ≡ 0) }
    ensures settled { (k : Kernel) (kind : Kind) (c l : ℕ) (r : Regions) → IsSettledKernel k → c % 2 ≡ 0 → l % 2 ≡ 0 → placing k kind c l ≡ Ok r
        → IsSettledKernel (with_places k r) }
{}
