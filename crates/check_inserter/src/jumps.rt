//! Jumps of one word: which they are, and their offsets.

ghost use Rattle.std.specs.Prelude.{◌≡◌, ℕ, ◌+◌, ◌*◌, ◌<◌, ◌≤◌, ◌++◌, [], ◌∷◌, true, length, map, IfOk, OnOk};
ghost use Rattle.code_model.specs.Fields.{fields};
ghost use Rattle.insert_model.specs.Units.{target_offset};
ghost use Rattle.insert_model.specs.Layout.{Jumps, words_before, longest, span_between, is_near, is_near_in, is_short, sized, final_offset, final};
ghost use Rattle.source_faults.specs.Read.{IsWhole, IsSource};
ghost use Rattle.check_inserter.specs.Places.{ArePlaces};

use crate::units::target_offset;
use code_model::object::Object;
use insert_model::laws::short_jumps_fit;
use insert_model::line::Line;
use msp_encode::instr::Instr;
use std::alloc::{AllocError, Global};

/// The most words that a jump of one word goes ahead, and back, over what stands behind it.
const NEAR: usize = 512;

/// No jump is one word: for each line none.
pub(crate) fn long_jumps(alloc: Global, lines: &[Line]) -> Result<Vec<Option<i16>>, AllocError>
    ensures { IfOk result (λ v. v.items ≡ map longest lines.now) }
{
    let offsets = vec![in alloc; None; lines.len()]?;
    Ok(offsets)
}

/// For each line 0 if it is a jump of one word, by the places of the layout in which no jump is one word.
pub(crate) fn short_jumps(
    alloc: Global,
    o: &Object,
    lines: &[Line],
    long: &[usize],
) -> Result<Vec<Option<i16>>, AllocError>
    requires version { 2 ≤ o.now.version }
    requires source { IsSource o.now lines.now }
    requires places { ArePlaces longest (fields o.now) long.now }
    ensures { IfOk result (λ v. v.items ≡ map (sized (fields o.now)) lines.now) }
{
    let mut offsets = Vec::new(alloc);
    for line in lines {
        push_offset(&mut offsets, short_jump(o, line, long))?;
    }
    Ok(offsets)
}

/// Appends an offset.
fn push_offset(offsets: &mut Vec<Option<i16>>, offset: Option<i16>) -> Result<(), AllocError>
    ensures { OnOk result (offsets.new.items ≡ offsets.old.items ++ offset ∷ []) }
{
    offsets.push(offset)?;
    Ok(())
}

/// 0 if a line is a jump of one word.
fn short_jump(o: &Object, line: &Line, long: &[usize]) -> Option<i16>
    requires version { 2 ≤ o.now.version }
    requires whole { IsWhole o.now line.now }
    requires places { ArePlaces longest (fields o.now) long.now }
    ensures { result ≡ sized (fields o.now) line.now }
{
    if is_near_line(o, line, long) {
        Some(0)
    } else {
        None
    }
}

/// Tells whether a line is a jump whose target is near.
fn is_near_line(o: &Object, line: &Line, long: &[usize]) -> bool
    requires whole { IsWhole o.now line.now }
    requires places { ArePlaces longest (fields o.now) long.now }
    ensures { result ≡ is_near_in longest (fields o.now) line.now line.now.instr }
{
    match line.instr {
        Instr::Jump { offset, .. } => {
            let target = target_offset(line.at, offset);
            is_near(long[line.at], words_before(o, long, target))
        }
        _ => false,
    }
}

/// Tells whether a jump at one place reaches another.
fn is_near(from: usize, to: usize) -> bool
    ensures { result ≡ is_near from to }
{
    if from < to {
        to - from <= NEAR
    } else {
        from - to < NEAR
    }
}

/// How many words of a layout stand before the unit of what an offset names.
pub(crate) fn words_before(o: &Object, places: &[usize], offset: u16) -> usize
    ghost js: { Jumps }
    requires { ArePlaces js (fields o.now) places.now }
    ensures { result ≡ words_before js (fields o.now) offset }
{
    let place = usize::min(usize::from(offset / 2), o.code.len());
    places[place]
}

/// For each line the offset of its jump if that is one word, by the places of the final layout.
pub(crate) fn final_jumps(
    alloc: Global,
    o: &Object,
    lines: &[Line],
    short: &[Option<i16>],
    places: &[usize],
) -> Result<Vec<Option<i16>>, AllocError>
    requires source { IsSource o.now lines.now }
    requires short { short.now ≡ map (sized (fields o.now)) lines.now }
    requires places { ArePlaces (sized (fields o.now)) (fields o.now) places.now }
    ensures { IfOk result (λ v. v.items ≡ map (final (fields o.now)) lines.now) }
{
    let mut offsets = Vec::new(alloc);
    for (i, line) in lines.iter().enumerate() {
        push_offset(&mut offsets, final_jump(o, line, short[i], places))?;
    }
    Ok(offsets)
}

/// The offset of a line's jump if that is one word.
fn final_jump(o: &Object, line: &Line, short: Option<i16>, places: &[usize]) -> Option<i16>
    requires whole { IsWhole o.now line.now }
    requires short { short ≡ sized (fields o.now) line.now }
    requires places { ArePlaces (sized (fields o.now)) (fields o.now) places.now }
    ensures { result ≡ final (fields o.now) line.now }
{
    match short {
        None => None,
        Some(_) => Some(final_offset(o, line, places)),
    }
}

/// The offset of a line that is a jump of one word.
fn final_offset(o: &Object, line: &Line, places: &[usize]) -> i16
    requires whole { IsWhole o.now line.now }
    requires short { is_short (fields o.now) line.now ≡ true }
    requires places { ArePlaces (sized (fields o.now)) (fields o.now) places.now }
    ensures { result ≡ final_offset (fields o.now) line.now line.now.instr }
{
    short_jumps_fit();
    match line.instr {
        Instr::Jump { offset, .. } => {
            let target = target_offset(line.at, offset);
            span_between(places[line.at], words_before(o, places, target))
        }
        _ => 0,
    }
}

/// The words from behind a jump at one place to another.
fn span_between(from: usize, to: usize) -> i16
    requires ahead { to ≤ from + 512 }
    requires back { from < to + 512 }
    ensures { result ≡ span_between from to }
{
    if from < to {
        (to - from - 1) as i16
    } else {
        -1 - (from - to) as i16
    }
}
