//! Forms of source instructions.

ghost use Rattle.std.specs.Prelude.{◌↔◌, IsTrue};
ghost use Rattle.insert_model.specs.Faults.{SetsPc, IsSymbolicSrc, IsSymbolicDst, IsAutoInc, IsMemory};

use msp_encode::instr::{Dst, Instr, Src};
use msp_encode::registers::PC;

/// Tells whether a source is symbolic.
pub(crate) fn is_symbolic_src(src: Src) -> bool
    ensures { IsTrue result ↔ IsSymbolicSrc src }
{
    matches!(src, Src::Symbolic(_))
}

/// Tells whether a destination is symbolic.
pub(crate) fn is_symbolic_dst(dst: Dst) -> bool
    ensures { IsTrue result ↔ IsSymbolicDst dst }
{
    matches!(dst, Dst::Symbolic(_))
}

/// Tells whether a source is in autoincrement mode.
pub(crate) fn is_auto_inc(src: Src) -> bool
    ensures { IsTrue result ↔ IsAutoInc src }
{
    matches!(src, Src::AutoInc(_))
}

/// Tells whether a destination is memory.
pub(crate) fn is_memory(dst: Dst) -> bool
    ensures { IsTrue result ↔ IsMemory dst }
{
    !matches!(dst, Dst::Reg(_))
}

/// Tells whether an instruction moves a word to PC.
pub(crate) fn sets_pc(i: Instr) -> bool
    ensures { IsTrue result ↔ SetsPc i }
{
    match i {
        Instr::Two { op, width, dst, .. } => op.is_mov() && width.is_wide() && dst.is_reg(PC),
        _ => false,
    }
}
