//! Operands of source instructions: what they ask for, and pieces with R4 in an operand's place.

ghost use Rattle.std.specs.Prelude.{◌≡◌};
ghost use Rattle.msp_encode.specs.Spelling.{SrcFits, DstFits};
ghost use Rattle.insert_model.specs.Units.{is_static, absolute_aim, aim, aim_one, is_wide_move, is_free, is_plain_pop, into_r4, through_r4, from_r4};
ghost use Rattle.check_inserter.specs.Fitting.{AimFits};

use code_model::parts::RelKind;
use insert_model::aim::Aim;
use insert_model::piece::Piece;
use msp_encode::instr::{Dst, Instr, Op2, Src, Width};
use msp_encode::registers::{CHECKED, PC, SP};

/// What a destination asks for.
pub(crate) fn aim(size: usize, dst: Dst, kind: Option<RelKind>) -> Aim
    requires { DstFits dst }
    ensures is { result ≡ aim size dst kind }
    ensures fits { AimFits result }
{
    match dst {
        Dst::Reg(PC) => Aim::ToPc,
        Dst::Reg(SP) => Aim::ToSp,
        Dst::Reg(_) | Dst::Symbolic(_) => Aim::Elsewhere,
        Dst::Indexed(base, index) => Aim::ToMemory { base, index, kind },
        Dst::Absolute(index) => absolute_aim(size, index, kind),
    }
}

/// What the operand of RRC, RRA, SWPB or SXT asks for.
pub(crate) fn aim_one(size: usize, src: Src, kind: Option<RelKind>) -> Aim
    requires { SrcFits src }
    ensures is { result ≡ aim_one size src kind }
    ensures fits { AimFits result }
{
    match src {
        Src::Indexed(base, index) => Aim::ToMemory { base, index, kind },
        Src::Indirect(base) => Aim::ToMemory {
            base,
            index: 0,
            kind: None,
        },
        Src::Absolute(index) => absolute_aim(size, index, kind),
        Src::Reg(_) | Src::Symbolic(_) | Src::AutoInc(_) | Src::Immediate(_) | Src::Const(_) => {
            Aim::Elsewhere
        }
    }
}

/// What an absolute operand asks for.
fn absolute_aim(size: usize, index: u16, kind: Option<RelKind>) -> Aim
    ensures is { result ≡ absolute_aim size index kind }
    ensures fits { AimFits result }
{
    if is_static(size, index, kind) {
        Aim::Elsewhere
    } else {
        Aim::ToMemory {
            base: 3,
            index,
            kind,
        }
    }
}

/// Tells whether an absolute operand lies in a static part of so many bytes.
fn is_static(size: usize, index: u16, kind: Option<RelKind>) -> bool
    ensures { result ≡ is_static size index kind }
{
    match kind {
        Some(RelKind::Data) => usize::from(index) < size,
        None | Some(RelKind::Code | RelKind::Lo | RelKind::Hi) => false,
    }
}

/// Tells whether a pop is of a whole word into one of R6 to R15.
pub(crate) fn is_plain_pop(op: Op2, width: Width, dst: Dst) -> bool
    ensures { result ≡ is_plain_pop op width dst }
{
    is_wide_move(op, width) && is_free(dst)
}

fn is_wide_move(op: Op2, width: Width) -> bool
    ensures { result ≡ is_wide_move op width }
{
    matches!((op, width), (Op2::Mov, Width::Wide))
}

fn is_free(dst: Dst) -> bool
    ensures { result ≡ is_free dst }
{
    match dst {
        Dst::Reg(register) => 6 <= register,
        _ => false,
    }
}

/// An operation on R4.
pub(crate) fn into_r4(op: Op2, width: Width, src: Src, kind: Option<RelKind>) -> Piece
    ensures { result ≡ into_r4 op width src kind }
{
    Piece {
        instr: Instr::Two {
            op,
            width,
            src,
            dst: Dst::Reg(CHECKED),
        },
        source: kind,
        destination: None,
    }
}

/// An operation on what R4 points to.
pub(crate) fn through_r4(op: Op2, width: Width, src: Src, kind: Option<RelKind>) -> Piece
    ensures { result ≡ through_r4 op width src kind }
{
    Piece {
        instr: Instr::Two {
            op,
            width,
            src,
            dst: Dst::Indexed(CHECKED, 0),
        },
        source: kind,
        destination: None,
    }
}

/// An operation with R4 as its source.
pub(crate) fn from_r4(op: Op2, width: Width, dst: Dst, kind: Option<RelKind>) -> Piece
    ensures { result ≡ from_r4 op width dst kind }
{
    Piece {
        instr: Instr::Two {
            op,
            width,
            src: Src::Reg(CHECKED),
            dst,
        },
        source: None,
        destination: kind,
    }
}
