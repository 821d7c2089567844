//! The unit of each source instruction.

ghost use Rattle.std.specs.Prelude.{◌≡◌, ◌<◌, ◌++◌, ◌<ℤ◌, pos, OnOk};
ghost use Rattle.msp_encode.specs.Spelling.{SrcFits, DstFits, InstrFits, TakesWidth};
ghost use Rattle.insert_model.specs.Words.{unit_words};
ghost use Rattle.insert_model.specs.Units.{popping, setting_sp, writing, two_unit, changing, calling_value, calling, one_unit, target_offset, jump_unit, unit};
ghost use Rattle.check_inserter.specs.Fitting.{AimFits};
ghost use Rattle.code_model.specs.declared.object.TheConstants.{CODE_WORDS_MAX};

use crate::guards::{
    branch, give_sp, growth_guard, jump, plain, pop_guard, pop_r4, sp_guard, store_guard, take_sp,
};
use crate::operands::{aim, aim_one, from_r4, into_r4, is_plain_pop, through_r4};
use crate::words::{put_both, put_pieces};
use code_model::parts::RelKind;
use insert_model::aim::Aim;
use insert_model::line::Line;
use insert_model::piece::{Piece, Word};
use kernel_model::entries::{CALLS, GOES};
use msp_encode::instr::{Cond, Dst, Instr, Op1, Op2, Src, Width};
use msp_encode::registers::{CHECKED, PC, SP};
use source_faults::source::own;
use std::alloc::AllocError;

/// Appends the words of a line's unit, beside a static part of `size` bytes.
#[tactic(auto, unfolding(insert_model::specs::Units::unit))]
pub(crate) fn put_unit(out: &mut Vec<Word>, size: usize, line: &Line) -> Result<(), AllocError>
    requires fits { InstrFits line.now.instr }
    requires within { line.now.at < CODE_WORDS_MAX }
    ensures { OnOk result (out.new.items ≡ out.old.items ++ unit_words (unit size line.now)) }
{
    let piece = own(line);
    match line.instr {
        Instr::Two {
            op,
            width,
            src,
            dst,
        } => put_two(out, size, op, width, src, dst, piece),
        Instr::One { op, width, src } => put_one(out, size, op, width, src, piece),
        Instr::Reti => put_pieces(out, &[piece]),
        Instr::Jump { cond, offset } => put_jump(out, target_offset(line.at, offset), cond),
    }
}

/// Appends the unit of an operation of two operands.
fn put_two(
    out: &mut Vec<Word>,
    size: usize,
    op: Op2,
    width: Width,
    src: Src,
    dst: Dst,
    piece: Piece,
) -> Result<(), AllocError>
    requires src { SrcFits src }
    requires dst { DstFits dst }
    requires piece { InstrFits piece.instr }
    ensures { OnOk result (out.new.items ≡ out.old.items ++ unit_words (two_unit size op width src dst piece)) }
{
    if src.pops(SP) {
        put_popping(out, op, width, dst, piece)
    } else if op.writes() {
        put_writing(
            out,
            op,
            width,
            src,
            piece,
            aim(size, dst, piece.destination),
        )
    } else {
        put_pieces(out, &[piece])
    }
}

/// Appends the unit of an operation whose source is @SP+.
fn put_popping(
    out: &mut Vec<Word>,
    op: Op2,
    width: Width,
    dst: Dst,
    piece: Piece,
) -> Result<(), AllocError>
    requires dst { DstFits dst }
    requires piece { InstrFits piece.instr }
    ensures { OnOk result (out.new.items ≡ out.old.items ++ unit_words (popping op width dst piece)) }
{
    if dst.is_reg(PC) {
        put_both(out, &pop_guard(), &[pop_r4(), branch(GOES, None)])
    } else if is_plain_pop(op, width, dst) {
        put_both(out, &pop_guard(), &[piece])
    } else {
        put_both(
            out,
            &pop_guard(),
            &[pop_r4(), from_r4(op, width, dst, piece.destination)],
        )
    }
}

/// Appends the unit of an operation that writes where `aim` tells.
fn put_writing(
    out: &mut Vec<Word>,
    op: Op2,
    width: Width,
    src: Src,
    piece: Piece,
    aim: Aim,
) -> Result<(), AllocError>
    requires src { SrcFits src }
    requires piece { InstrFits piece.instr }
    requires aim { AimFits aim }
    ensures { OnOk result (out.new.items ≡ out.old.items ++ unit_words (writing op width src piece aim)) }
{
    match aim {
        Aim::ToPc => {
            if src.is_immediate() {
                put_pieces(out, &[piece])
            } else {
                put_pieces(
                    out,
                    &[
                        into_r4(Op2::Mov, Width::Wide, src, piece.source),
                        branch(GOES, None),
                    ],
                )
            }
        }
        Aim::ToSp => put_setting_sp(out, op, width, src, piece.source),
        Aim::ToMemory { base, index, kind } => put_both(
            out,
            &store_guard(base, index, kind),
            &[through_r4(op, width, src, piece.source)],
        ),
        Aim::Elsewhere => put_pieces(out, &[piece]),
    }
}

/// Appends the unit of an operation that writes SP.
fn put_setting_sp(
    out: &mut Vec<Word>,
    op: Op2,
    width: Width,
    src: Src,
    kind: Option<RelKind>,
) -> Result<(), AllocError>
    requires { SrcFits src }
    ensures { OnOk result (out.new.items ≡ out.old.items ++ unit_words (setting_sp op width src kind)) }
{
    put_both(
        out,
        &[take_sp(), into_r4(op, width, src, kind)],
        &sp_guard(),
    )?;
    put_pieces(out, &[give_sp()])?;
    Ok(())
}

/// Appends the unit of an operation of one operand.
fn put_one(
    out: &mut Vec<Word>,
    size: usize,
    op: Op1,
    width: Width,
    src: Src,
    piece: Piece,
) -> Result<(), AllocError>
    requires src { SrcFits src }
    requires width { TakesWidth op width }
    requires piece { InstrFits piece.instr }
    ensures { OnOk result (out.new.items ≡ out.old.items ++ unit_words (one_unit size op width src piece)) }
{
    match op {
        Op1::Push => put_both(out, &growth_guard(), &[piece]),
        Op1::Call => put_call(out, src, piece),
        Op1::Rrc | Op1::Swpb | Op1::Rra | Op1::Sxt => {
            put_changing(out, op, width, piece, aim_one(size, src, piece.source))
        }
    }
}

/// Appends the unit of RRC, RRA, SWPB or SXT.
fn put_changing(
    out: &mut Vec<Word>,
    op: Op1,
    width: Width,
    piece: Piece,
    aim: Aim,
) -> Result<(), AllocError>
    requires width { TakesWidth op width }
    requires piece { InstrFits piece.instr }
    requires aim { AimFits aim }
    ensures { OnOk result (out.new.items ≡ out.old.items ++ unit_words (changing op width piece aim)) }
{
    match aim {
        Aim::ToMemory { base, index, kind } => put_both(
            out,
            &store_guard(base, index, kind),
            &[plain(Instr::One {
                op,
                width,
                src: Src::Indirect(CHECKED),
            })],
        ),
        Aim::ToPc | Aim::ToSp | Aim::Elsewhere => put_pieces(out, &[piece]),
    }
}

/// Appends the unit of a call.
fn put_call(out: &mut Vec<Word>, src: Src, piece: Piece) -> Result<(), AllocError>
    requires src { SrcFits src }
    requires piece { InstrFits piece.instr }
    ensures { OnOk result (out.new.items ≡ out.old.items ++ unit_words (calling src piece)) }
{
    if src.is_immediate() {
        put_both(out, &growth_guard(), &[piece])
    } else {
        put_call_of_value(out, src, piece.source)
    }
}

/// Appends the unit of a call of a value.
fn put_call_of_value(out: &mut Vec<Word>, src: Src, kind: Option<RelKind>) -> Result<(), AllocError>
    requires { SrcFits src }
    ensures { OnOk result (out.new.items ≡ out.old.items ++ unit_words (calling_value src kind)) }
{
    put_both(
        out,
        &[into_r4(Op2::Mov, Width::Wide, src, kind)],
        &growth_guard(),
    )?;
    put_pieces(
        out,
        &[plain(Instr::One {
            op: Op1::Call,
            width: Width::Wide,
            src: Src::Immediate(CALLS),
        })],
    )?;
    Ok(())
}

/// Appends the unit of a jump to an offset: a branch, with a jump over it where it isn't always taken.
fn put_jump(out: &mut Vec<Word>, offset: u16, cond: Cond) -> Result<(), AllocError>
    ensures { OnOk result (out.new.items ≡ out.old.items ++ unit_words (jump_unit offset cond)) }
{
    let branch = branch(offset, Some(RelKind::Code));
    match cond {
        Cond::Always => put_pieces(out, &[branch]),
        _ => put_pieces(out, &[jump(cond, 1), jump(Cond::Always, 2), branch]),
    }
}

/// The offset that a jump at a place names, or 0 for one before the code.
pub(crate) fn target_offset(at: usize, offset: i16) -> u16
    requires place { at < CODE_WORDS_MAX }
    requires range { offset <ℤ pos 512 }
    ensures { result ≡ target_offset at offset }
{
    let target = at as i32 + 1 + i32::from(offset);
    if target < 0 { 0 } else { 2 * target as u16 }
}
