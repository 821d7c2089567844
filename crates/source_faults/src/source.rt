//! Reading the source instructions.

ghost use Rattle.std.specs.Prelude.{◌≡◌, ◌<◌, ◌≤◌, ◌*◌, ◌+◌, ◌%◌, ◌^◌, ℕ, [], ◌∷◌, ◌++◌, true, nat_lt, if◌then◌else◌, length, slice_index_or, None, IfOk, OnOk, MatchResult};
ghost use Rattle.code_model.specs.declared.object.TheConstants.{CODE_WORDS_MAX};
ghost use Rattle.code_model.specs.declared.parts.Reloc.{Reloc};
ghost use Rattle.code_model.specs.Form.{RelocFits};
ghost use Rattle.insert_model.specs.declared.line.Line.{Line};
ghost use Rattle.msp_encode.specs.Spelled.{count};
ghost use Rattle.insert_model.specs.Source.{on_word, line_at, own, word_in};
ghost use Rattle.source_faults.specs.Read.{AreKinds, IsSource, IsUnread};
ghost use Rattle.static_checker.specs.Spots.{IsSpot};

use code_laws::starts_apart;
use code_model::object::Object;
use code_model::parts::{RelKind, Reloc};
use insert_model::fault::{InsertFault, InsertKind};
use insert_model::laws::{instruction_size, line_stands};
use insert_model::line::Line;
use insert_model::piece::Piece;
use msp_encode::instr::Instr;
use msp_encode::laws::legal_by_cases;
use static_checker::spot::{Spot, spot_at};
use std::alloc::{AllocError, Global};

/// The source instructions of an object, in order, or the place where none is spelled.
pub fn read_lines(alloc: Global, o: &Object) -> Result<Vec<Line>, InsertFault>
    ensures { MatchResult result (λ v. IsSource o.now v.items) (λ e. IsUnread o.now e) }
{
    legal_by_cases();
    starts_apart();
    line_stands();
    let kinds = kinds(alloc, o)?;
    let mut lines = Vec::new(alloc);
    let mut at = 0;
    while at < o.code.len() {
        match spot_at(&o.code, at) {
            None => return Err(undecoded(at)),
            Some(spot) => {
                instruction_size();
                push_line(&mut lines, line_of(o, &kinds, &spot))?;
                at += spot.words;
            }
        }
    }
    Ok(lines)
}

/// Appends a line.
fn push_line(lines: &mut Vec<Line>, line: Line) -> Result<(), AllocError>
    ensures { OnOk result (lines.new.items ≡ lines.old.items ++ line ∷ []) }
{
    lines.push(line)?;
    Ok(())
}

/// The fault of a place where no instruction is spelled.
fn undecoded(at: usize) -> InsertFault
    requires { at < CODE_WORDS_MAX }
    ensures { result ≡ InsertFault.At InsertKind.NotDecoded (2 * at) }
{
    InsertFault::At {
        kind: InsertKind::NotDecoded,
        offset: 2 * at as u32,
    }
}

/// The line of what stands at a place.
fn line_of(o: &Object, kinds: &[Option<RelKind>], spot: &Spot) -> Line
    requires kinds { AreKinds o.now kinds.now }
    requires spot { IsSpot o.now.code spot.now.at spot.now }
    requires words { spot.now.words ≡ count spot.now.instr }
    ensures { result ≡ line_at o.now.relocs spot.now.at spot.now.instr }
{
    Line {
        at: spot.at,
        instr: spot.instr,
        first: kinds[spot.at],
        second: kind_within(kinds, spot, 1),
        third: kind_within(kinds, spot, 2),
    }
}

/// The relocation of one of the words at a place, counted from 0, if there are so many.
fn kind_within(kinds: &[Option<RelKind>], spot: &Spot, word: usize) -> Option<RelKind>
    requires within { spot.now.at + spot.now.words ≤ length kinds.now }
    requires small { length kinds.now ≤ CODE_WORDS_MAX }
    requires one { word < 3 }
    ensures { result ≡ (if nat_lt word spot.now.words then slice_index_or kinds.now (spot.now.at + word) None else None) }
{
    if word < spot.words {
        kinds[spot.at + word]
    } else {
        None
    }
}

/// The relocation of each code word.
fn kinds(alloc: Global, o: &Object) -> Result<Vec<Option<RelKind>>, AllocError>
    ensures { IfOk result (λ v. AreKinds o.now v.items) }
{
    let mut kinds = vec![in alloc; None; o.code.len()]?;
    for reloc in o.relocs.as_slice() {
        note(&mut kinds, reloc);
    }
    Ok(kinds)
}

/// Notes a relocation at its word, if that is a code word.
fn note(kinds: &mut [Option<RelKind>], reloc: &Reloc)
    requires even { reloc.now.offset % 2 ≡ 0 }
    requires within { reloc.now.in_code ≡ true → reloc.now.offset < 2 * length kinds.old }
    ensures { (k : ℕ) → k < length kinds.old → slice_index_or kinds.new k None ≡ on_word k (slice_index_or kinds.old k None) reloc.now }
{
    if reloc.in_code {
        kinds[usize::from(reloc.offset / 2)] = Some(reloc.kind);
    }
}

/// A line's instruction as it stands, with the relocations of its operands.
pub fn own(line: &Line) -> Piece
    ensures { result ≡ own line.now }
{
    let instr = line.instr;
    match instr {
        Instr::Two { src, .. } => {
            if src.words() == 0 {
                Piece {
                    instr,
                    source: None,
                    destination: line.second,
                }
            } else {
                Piece {
                    instr,
                    source: line.second,
                    destination: line.third,
                }
            }
        }
        Instr::One { .. } => Piece {
            instr,
            source: line.second,
            destination: None,
        },
        Instr::Reti | Instr::Jump { .. } => Piece {
            instr,
            source: None,
            destination: None,
        },
    }
}

/// The word at an offset of bytes.
pub fn word_in(bytes: &[u8], at: usize) -> u16
    requires { at + 2 ≤ length bytes.now }
    ensures { result ≡ word_in bytes.now at }
{
    u16::from_le_bytes([bytes[at], bytes[at + 1]])
}
