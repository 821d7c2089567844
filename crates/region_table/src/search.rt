//! The gaps between ranges, the lowest that fits, and the longest.

ghost use Rattle.std.specs.Prelude.{◌≡◌, ℕ, ◌+◌, ◌<◌, ◌≤◌, ◌++◌, [], ◌∷◌, length, cond, min, max, nat_le, IfOk, ◌↔◌, Contains};
ghost use Rattle.place_model.specs.declared.places.Range.{Range};
ghost use Rattle.place_model.specs.Gaps.{holds, taken, size, begins_from, run_end, gaps, longest, lowest, place_in, IsGap};
ghost use Rattle.region_table.specs.Searching.{gaps_at, ends};

use arrayvec::ArrayVec;
use kernel_model::map::DOMAINS;
use place_model::laws::{gaps_are_maximal_runs, places_are_lowest_gaps};
use place_model::places::Range;

/// The most gaps that the ranges of the domains leave: one before each and one behind the last.
const GAPS: usize = DOMAINS + 1;

/// The place of so many bytes in a pool: the start of the lowest gap that is as long, and the pool's start for none. Else the
/// length of the longest gap.
pub fn place_in(pool: &Range, ranges: &ArrayVec<Range, DOMAINS>, need: u32) -> Result<u16, u16>
    requires { pool.now.from ≤ pool.now.to }
    ensures answer { result ≡ place_in pool.now ranges.now.items need }
    ensures inside { IfOk result (λ at. (pool.now.from ≤ at) × (at + need ≤ pool.now.to)) }
{
    places_are_lowest_gaps();
    if need == 0 {
        return Ok(pool.from);
    }
    let gaps = gaps(pool, ranges);
    let gap = longest(gaps.as_slice());
    if need > u32::from(gap) {
        return Err(gap);
    }
    Ok(lowest(pool.to, need, gaps.as_slice()))
}

/// The gaps that the ranges leave in a pool: the maximal runs of its addresses that no range has.
fn gaps(pool: &Range, ranges: &ArrayVec<Range, DOMAINS>) -> ArrayVec<Range, GAPS>
    ensures items { result.items ≡ gaps pool.now ranges.now.items }
    ensures runs { (g : Range) → Contains result.items g ↔ IsGap pool.now ranges.now.items g }
{
    gaps_are_maximal_runs();
    let taken = ranges.as_slice();
    let mut gaps = ArrayVec::new();
    push_gap(&mut gaps, pool, taken, pool.from);
    for r in taken {
        push_gap_behind(&mut gaps, pool, taken, r);
    }
    gaps
}

/// Appends the gap that begins behind a range, if the range has addresses and a gap does.
#[tactic(auto, unfolding(crate::specs::Searching::gaps_at))]
fn push_gap_behind(gaps: &mut ArrayVec<Range, GAPS>, pool: &Range, ranges: &[Range], r: &Range)
    requires { length gaps.old.items < 13 }
    ensures items { gaps.new.items ≡ gaps.old.items ++ gaps_at pool.now ranges.now (ends (r.now ∷ [])) }
    ensures size { length gaps.new.items ≤ length gaps.old.items + 1 }
{
    if r.from < r.to {
        push_gap(gaps, pool, ranges, r.to);
    }
}

/// Appends the gap that begins at an address, if one does.
#[tactic(auto, unfolding(crate::specs::Searching::gaps_at))]
fn push_gap(gaps: &mut ArrayVec<Range, GAPS>, pool: &Range, ranges: &[Range], at: u16)
    requires { length gaps.old.items < 13 }
    ensures items { gaps.new.items ≡ gaps.old.items ++ gaps_at pool.now ranges.now (at ∷ []) }
    ensures size { length gaps.new.items ≤ length gaps.old.items + 1 }
{
    if holds(pool, at) && !taken(ranges, at) {
        gaps.push(Range {
            from: at,
            to: run_end(pool, ranges, at),
        });
    }
}

/// Tells whether a range has the address.
fn holds(range: &Range, at: u16) -> bool
    ensures { result ≡ holds at range.now }
{
    range.from <= at && at < range.to
}

/// Tells whether some range has the address.
fn taken(ranges: &[Range], at: u16) -> bool
    ensures { result ≡ taken ranges.now at }
{
    for r in ranges {
        if holds(r, at) {
            return true;
        }
    }
    false
}

/// Where the run of free addresses from one on ends: at the first range above, or with the pool.
fn run_end(pool: &Range, ranges: &[Range], at: u16) -> u16
    ensures { result ≡ run_end pool.now ranges.now at }
{
    let mut end = pool.to;
    for r in ranges {
        end = sooner(end, r, at);
    }
    end
}

/// The lower of an end and of the start of a range that begins at an address or above it.
fn sooner(end: u16, range: &Range, at: u16) -> u16
    ensures { result ≡ cond (begins_from at range.now) (min end range.now.from) end }
{
    if at <= range.from && range.from < range.to {
        end.min(range.from)
    } else {
        end
    }
}

/// The length of the longest of some ranges, 0 where there is none.
#[tactic(auto, unfolding(place_model::specs::Gaps::longest))]
fn longest(gaps: &[Range]) -> u16
    ensures { result ≡ longest gaps.now }
{
    let mut most = 0;
    for gap in gaps {
        most = longer(most, gap);
    }
    most
}

/// The larger of a length and a range's.
fn longer(most: u16, gap: &Range) -> u16
    ensures { result ≡ max most (size gap.now) }
{
    most.max(size(gap))
}

/// How many addresses a range has.
fn size(range: &Range) -> u16
    ensures { result ≡ size range.now }
{
    range.to.saturating_sub(range.from)
}

/// The lowest start of the ranges that have so many addresses, or the end.
#[tactic(auto, unfolding(place_model::specs::Gaps::lowest))]
fn lowest(end: u16, need: u32, gaps: &[Range]) -> u16
    ensures { result ≡ lowest end need gaps.now }
{
    let mut first = end;
    for gap in gaps {
        first = lower(first, need, gap);
    }
    first
}

/// The lower of an address and of the start of a range that has so many addresses.
fn lower(first: u16, need: u32, gap: &Range) -> u16
    ensures { result ≡ cond (nat_le need (size gap.now)) (min first gap.now.from) first }
{
    if need <= u32::from(size(gap)) {
        first.min(gap.from)
    } else {
        first
    }
}
