//! The guards, as pieces.

ghost use Rattle.std.specs.Prelude.{◌≡◌, ◌<◌, ℕ};
ghost use Rattle.msp_encode.specs.Spelling.{SrcFits, DstFits};
ghost use Rattle.insert_model.specs.Guards.{plain, mov, cmp, jump, on_r4, branch, save, restore, take_sp, pop_r4, give_sp, base, region_guard, store_guard, wide_guard, growth_guard, pop_guard, sp_guard};
ghost use Rattle.code_model.specs.Guards.{high_word};
ghost use Rattle.check_inserter.specs.Fitting.{AllFit};

use code_model::guards::Reach;
use code_model::parts::RelKind;
use insert_model::piece::Piece;
use kernel_model::entries::{STACK_FAULT, STORE_FAULT};
use kernel_model::map::{STACK_LIMIT, STACK_TOP};
use msp_encode::instr::{Cg, Cond, Dst, Instr, Op2, Src, Width};
use msp_encode::registers::{CHECKED, CONSTANTS, KEPT_STATUS, PC, SP, SR};

/// An instruction without relocations.
pub(crate) fn plain(instr: Instr) -> Piece
    ensures { result ≡ plain instr }
{
    Piece {
        instr,
        source: None,
        destination: None,
    }
}

/// A move of a word.
fn mov(src: Src, dst: Dst) -> Piece
    ensures { result ≡ mov src dst }
{
    plain(Instr::Two {
        op: Op2::Mov,
        width: Width::Wide,
        src,
        dst,
    })
}

/// A comparison of words.
fn cmp(src: Src, dst: Dst) -> Piece
    ensures { result ≡ cmp src dst }
{
    plain(Instr::Two {
        op: Op2::Cmp,
        width: Width::Wide,
        src,
        dst,
    })
}

/// A jump over so many words.
pub(crate) fn jump(cond: Cond, offset: i16) -> Piece
    ensures { result ≡ jump cond offset }
{
    plain(Instr::Jump { cond, offset })
}

/// An operation of an immediate word on R4.
fn on_r4(op: Op2, word: u16, kind: Option<RelKind>) -> Piece
    ensures { result ≡ on_r4 op word kind }
{
    Piece {
        instr: Instr::Two {
            op,
            width: Width::Wide,
            src: Src::Immediate(word),
            dst: Dst::Reg(CHECKED),
        },
        source: kind,
        destination: None,
    }
}

/// A move of an immediate word to PC.
pub(crate) fn branch(word: u16, kind: Option<RelKind>) -> Piece
    ensures { result ≡ branch word kind }
{
    Piece {
        instr: Instr::Two {
            op: Op2::Mov,
            width: Width::Wide,
            src: Src::Immediate(word),
            dst: Dst::Reg(PC),
        },
        source: kind,
        destination: None,
    }
}

/// Keeps the flags in R5.
fn save() -> Piece
    ensures { result ≡ save }
{
    mov(Src::Reg(SR), Dst::Reg(KEPT_STATUS))
}

/// Gives the flags back from R5.
fn restore() -> Piece
    ensures { result ≡ restore }
{
    mov(Src::Reg(KEPT_STATUS), Dst::Reg(SR))
}

/// Takes SP into R4.
pub(crate) fn take_sp() -> Piece
    ensures { result ≡ take_sp }
{
    mov(Src::Reg(SP), Dst::Reg(CHECKED))
}

/// Pops a word into R4.
pub(crate) fn pop_r4() -> Piece
    ensures { result ≡ pop_r4 }
{
    mov(Src::AutoInc(SP), Dst::Reg(CHECKED))
}

/// Makes R4 the stack pointer.
pub(crate) fn give_sp() -> Piece
    ensures { result ≡ give_sp }
{
    mov(Src::Reg(CHECKED), Dst::Reg(SP))
}

/// A base register, or 0 for R3.
fn base(register: u8) -> Src
    requires { register < 16 }
    ensures is { result ≡ base register }
    ensures fits { SrcFits result }
{
    if register == CONSTANTS {
        Src::Const(Cg::Zero)
    } else {
        Src::Reg(register)
    }
}

/// Keeps an address at an index from a base in the region, whose end is added to a word.
fn region_guard(register: u8, index: u16, high: u16, kind: Option<RelKind>) -> [Piece; 9]
    requires { register < 16 }
    ensures is { result ≡ region_guard register index high kind }
    ensures fit { AllFit result }
{
    [
        save(),
        mov(base(register), Dst::Reg(CHECKED)),
        on_r4(Op2::Add, index, kind),
        on_r4(Op2::Cmp, 0, Some(RelKind::Lo)),
        jump(Cond::Nc, 3),
        on_r4(Op2::Cmp, high, Some(RelKind::Hi)),
        jump(Cond::Nc, 2),
        branch(STORE_FAULT, None),
        restore(),
    ]
}

/// Keeps a store at an index from a base in the region.
pub(crate) fn store_guard(register: u8, index: u16, kind: Option<RelKind>) -> [Piece; 9]
    requires { register < 16 }
    ensures is { result ≡ store_guard register index kind }
    ensures fit { AllFit result }
{
    region_guard(register, index, 0, kind)
}

/// Keeps stores in the region that reach so far from an index from a base.
pub(crate) fn wide_guard(
    reach: Reach,
    register: u8,
    index: u16,
    kind: Option<RelKind>,
) -> [Piece; 9]
    requires { register < 16 }
    ensures is { result ≡ wide_guard reach register index kind }
    ensures fit { AllFit result }
{
    region_guard(register, index, high_word(reach), kind)
}

/// The word that the region's end is added to.
fn high_word(reach: Reach) -> u16
    ensures { result ≡ high_word reach }
{
    match reach {
        Reach::Two => 0xFFFE,
        Reach::Four => 0xFFFC,
        Reach::Six => 0xFFFA,
    }
}

/// Keeps a push in the stack.
pub(crate) fn growth_guard() -> [Piece; 5]
    ensures is { result ≡ growth_guard }
    ensures fit { AllFit result }
{
    [
        save(),
        cmp(Src::Absolute(STACK_LIMIT), Dst::Reg(SP)),
        jump(Cond::C, 2),
        branch(STACK_FAULT, None),
        restore(),
    ]
}

/// Keeps a pop in the stack.
pub(crate) fn pop_guard() -> [Piece; 5]
    ensures is { result ≡ pop_guard }
    ensures fit { AllFit result }
{
    [
        save(),
        cmp(Src::Reg(SP), Dst::Absolute(STACK_TOP)),
        jump(Cond::Ne, 2),
        branch(STACK_FAULT, None),
        restore(),
    ]
}

/// Keeps a new stack pointer, which is in R4, in the stack.
pub(crate) fn sp_guard() -> [Piece; 7]
    ensures is { result ≡ sp_guard }
    ensures fit { AllFit result }
{
    [
        save(),
        cmp(Src::Absolute(STACK_LIMIT), Dst::Reg(CHECKED)),
        jump(Cond::Nc, 3),
        cmp(Src::Reg(CHECKED), Dst::Absolute(STACK_TOP)),
        jump(Cond::C, 2),
        branch(STACK_FAULT, None),
        restore(),
    ]
}
