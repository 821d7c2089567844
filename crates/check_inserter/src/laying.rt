//! Laying the units one after another.

ghost use Rattle.std.specs.Prelude.{◌≡◌, ℕ, ◌+◌, ◌*◌, ◌<◌, ◌≤◌, ◌++◌, length, map, replicate, OnOk, IfOk, MatchResult, MatchOption};
ghost use Rattle.code_model.specs.Fields.{fields};
ghost use Rattle.insert_model.specs.Source.{lines};
ghost use Rattle.insert_model.specs.Layout.{Jumps, longest, sized};
ghost use Rattle.insert_model.specs.Faults.{most_words, Passes};
ghost use Rattle.check_inserter.specs.Named.{AreTargets};
ghost use Rattle.check_inserter.specs.Fitting.{AreOffsets};
ghost use Rattle.source_faults.specs.Read.{IsRow, IsSource};
ghost use Rattle.check_inserter.specs.Places.{ArePlaces, IsLaidIn, IsFinal, IsLaid, IsUnlaid};

use crate::group_units::put_group;
use crate::groups::later;
use crate::jumps::{final_jumps, long_jumps, short_jumps};
use crate::named::targets;
use code_model::marks::Marks;
use code_model::object::{CODE_WORDS_MAX, Object};
use insert_model::fault::{InsertFault, InsertKind};
use insert_model::laws::{short_jumps_fit, sizes_alike};
use insert_model::line::Line;
use insert_model::piece::Word;
use std::alloc::{AllocError, Global};

/// The words of the units, and for each source word and the place behind the last how many of them stand before the units of
/// the groups that start there or behind.
#[derive(Drop)]
pub(crate) struct Laid {
    pub words: Vec<Word>,
    pub places: Vec<usize>,
}

/// Lays the units in the final layout, or tells which group's unit passes the most words first.
pub(crate) fn lay(alloc: Global, o: &Object, lines: &[Line]) -> Result<Laid, InsertFault>
    requires { IsSource o.now lines.now }
    ensures { MatchResult result (λ laid. IsLaid o.now laid) (λ e. IsUnlaid o.now e) }
{
    let laid = lay_final(alloc, o, lines)?;
    match passing(o, &laid) {
        None => Ok(laid),
        Some(at) => Err(too_large(at)),
    }
}

/// The final layout. In version 1 it is the one in which no jump is one word.
fn lay_final(alloc: Global, o: &Object, lines: &[Line]) -> Result<Laid, AllocError>
    requires { IsSource o.now lines.now }
    ensures { IfOk result (λ laid. IsFinal o.now laid) }
{
    sizes_alike();
    let targets = targets(o, lines);
    let offsets = long_jumps(alloc, lines)?;
    let long = lay_units(alloc, o, lines, &targets, &offsets)?;
    if o.version < 2 {
        Ok(long)
    } else {
        lay_shorter(alloc, o, lines, &targets, &long.places)
    }
}

/// The final layout, by the places of the one in which no jump is one word.
fn lay_shorter(
    alloc: Global,
    o: &Object,
    lines: &[Line],
    targets: &Marks,
    long: &[usize],
) -> Result<Laid, AllocError>
    requires version { 2 ≤ o.now.version }
    requires source { IsSource o.now lines.now }
    requires targets { AreTargets o.now targets.now }
    requires places { ArePlaces longest (fields o.now) long.now }
    ensures { IfOk result (λ laid. IsFinal o.now laid) }
{
    let short = short_jumps(alloc, o, lines, long)?;
    let sized = lay_units(alloc, o, lines, targets, &short)?;
    lay_placed(alloc, o, lines, targets, &short, &sized.places)
}

/// The final layout, by its places.
fn lay_placed(
    alloc: Global,
    o: &Object,
    lines: &[Line],
    targets: &Marks,
    short: &[Option<i16>],
    places: &[usize],
) -> Result<Laid, AllocError>
    requires source { IsSource o.now lines.now }
    requires targets { AreTargets o.now targets.now }
    requires short { short.now ≡ map (sized (fields o.now)) lines.now }
    requires places { ArePlaces (sized (fields o.now)) (fields o.now) places.now }
    ensures { IfOk result (λ laid. IsFinal o.now laid) }
{
    sizes_alike();
    short_jumps_fit();
    let offsets = final_jumps(alloc, o, lines, short, places)?;
    let laid = lay_units(alloc, o, lines, targets, &offsets)?;
    Ok(laid)
}

/// Lays the units of all groups, where each line has the offset of its jump if that is one word.
fn lay_units(
    alloc: Global,
    o: &Object,
    lines: &[Line],
    targets: &Marks,
    offsets: &[Option<i16>],
) -> Result<Laid, AllocError>
    ghost js: { Jumps }
    requires source { IsSource o.now lines.now }
    requires targets { AreTargets o.now targets.now }
    requires offsets { offsets.now ≡ map js lines.now }
    requires small { AreOffsets offsets.now }
    ensures { IfOk result (λ laid. IsLaidIn js o.now laid) }
{
    let size = usize::from(o.static_bytes());
    let mut words = Vec::new(alloc);
    let mut places = Vec::new(alloc);
    let mut skip = 0;
    for (i, line) in lines.iter().enumerate() {
        if skip == 0 {
            let behind = &lines[i + 1..];
            skip = later(o, targets, line, behind);
            put_places(&mut places, words.len(), 1)?;
            put_group(&mut words, size, offsets[i], line, &behind[..skip])?;
            put_places(&mut places, words.len(), line.instr.words() - 1)?;
        } else {
            skip -= 1;
            put_places(&mut places, words.len(), line.instr.words())?;
        }
    }
    put_places(&mut places, words.len(), 1)?;
    Ok(Laid { words, places })
}

/// Appends a place so many times.
fn put_places(places: &mut Vec<usize>, place: usize, times: usize) -> Result<(), AllocError>
    ensures { OnOk result (places.new.items ≡ places.old.items ++ replicate times place) }
{
    for _round in 0..times {
        places.push(place)?;
    }
    Ok(())
}

/// The place of the first line of the first group whose unit passes the most words.
fn passing(o: &Object, laid: &Laid) -> Option<usize>
    requires row { IsRow 0 (lines (fields o.now)) (length o.now.code) }
    requires laid { IsFinal o.now laid.now }
    ensures { MatchOption result (length laid.now.words.items ≤ most_words) (λ at. (at < CODE_WORDS_MAX) × Passes o.now (2 * at)) }
{
    sizes_alike();
    for at in 0..o.code.len() {
        if laid.places[at + 1] > CODE_WORDS_MAX {
            return Some(at);
        }
    }
    None
}

/// The fault of a group whose unit passes the most words, by the place of its first line.
fn too_large(at: usize) -> InsertFault
    requires { at < CODE_WORDS_MAX }
    ensures { result ≡ InsertFault.At InsertKind.TooLarge (2 * at) }
{
    InsertFault::At {
        kind: InsertKind::TooLarge,
        offset: 2 * at as u32,
    }
}
