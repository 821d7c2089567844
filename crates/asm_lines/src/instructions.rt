//! What an instruction's operands give.

ghost use Rattle.std.specs.Prelude.{◌≡◌, true};
ghost use Rattle.asm_model.specs.declared.expression.Base.TheVariants as base;
ghost use Rattle.asm_model.specs.Words.{operands_of};
ghost use Rattle.asm_model.specs.Instructions.{generated, source_by, immediate, constant_or_immediate, value_source, source_of, destination_of, is_legal, operation, two_piece, one_piece, constant_source, program_counter, popped, names_place, label_of, jump_piece, single_piece, double_piece, piece_of_none, piece_of_one, piece_of_two, instruction_of};

use crate::bytes::is_empty;
use crate::names::{Names, can_be_label, name};
use crate::operands::operand;
use crate::text::{cut, trim};
use asm_model::expression::{Base, Expression};
use asm_model::fault::AsmKind;
use asm_model::mnemonic::MnemonicForm;
use asm_model::name::{Name, Value};
use asm_model::operand::{Destination, Operand, Source};
use asm_model::piece::Piece;
use msp_encode::instr::{Cg, Cond, Dst, Instr, Op1, Op2, Src, Width};
use msp_encode::legal;
use msp_encode::registers::{PC, SP};

/// The constant that the generator has for a number.
#[tactic(auto, unfolding(asm_model::specs::Instructions::generated))]
fn constant(n: u16) -> Option<Cg>
    ensures { result ≡ generated n }
{
    match n {
        0 => Some(Cg::Zero),
        1 => Some(Cg::One),
        2 => Some(Cg::Two),
        4 => Some(Cg::Four),
        8 => Some(Cg::Eight),
        0xFFFF => Some(Cg::AllOnes),
        _ => None,
    }
}

/// An immediate source.
fn as_immediate(e: Expression) -> Source
    ensures { result ≡ immediate e }
{
    Source {
        src: Src::Immediate(e.word),
        base: e.base,
        fits: e.fits,
    }
}

/// The source of `#expression`.
fn as_value(constants: bool, e: Expression) -> Source
    ensures { result ≡ value_source constants e.base e }
{
    if !constants {
        return as_immediate(e);
    }
    match (e.base, constant(e.word)) {
        (Base::Number, Some(constant)) => Source {
            src: Src::Const(constant),
            base: Base::Number,
            fits: e.fits,
        },
        _ => as_immediate(e),
    }
}

/// A source without names.
fn plain_source(src: Src) -> Source
    ensures { result ≡ source_by src base.Number true }
{
    Source {
        src,
        base: Base::Number,
        fits: true,
    }
}

/// An operand as a source.
fn source(constants: bool, operand: Operand) -> Source
    ensures { result ≡ source_of constants operand }
{
    match operand {
        Operand::Reg(r) => plain_source(Src::Reg(r)),
        Operand::Indirect(r) => plain_source(Src::Indirect(r)),
        Operand::AutoInc(r) => plain_source(Src::AutoInc(r)),
        Operand::Indexed(r, e) => Source {
            src: Src::Indexed(r, e.word),
            base: e.base,
            fits: e.fits,
        },
        Operand::Symbolic(e) => Source {
            src: Src::Symbolic(e.word),
            base: e.base,
            fits: e.fits,
        },
        Operand::Absolute(e) => Source {
            src: Src::Absolute(e.word),
            base: e.base,
            fits: e.fits,
        },
        Operand::Value(e) => as_value(constants, e),
        Operand::Immediate(e) => as_immediate(e),
    }
}

/// An operand as a destination.
fn destination(operand: Operand) -> Option<Destination>
    ensures { result ≡ destination_of operand }
{
    let (dst, base, fits) = match operand {
        Operand::Reg(r) => (Dst::Reg(r), Base::Number, true),
        Operand::Indexed(r, e) => (Dst::Indexed(r, e.word), e.base, e.fits),
        Operand::Symbolic(e) => (Dst::Symbolic(e.word), e.base, e.fits),
        Operand::Absolute(e) => (Dst::Absolute(e.word), e.base, e.fits),
        Operand::Indirect(_) | Operand::AutoInc(_) | Operand::Value(_) | Operand::Immediate(_) => {
            return None;
        }
    };
    Some(Destination { dst, base, fits })
}

/// Whether an instruction has a spelling and is no jump.
fn is_spelled(i: &Instr) -> bool
    ensures { result ≡ is_legal i.now }
{
    match i {
        Instr::Jump { .. } => false,
        _ => legal(i),
    }
}

/// An instruction that has a spelling and whose numbers are in their ranges.
#[tactic(auto, unfolding(asm_model::specs::Instructions::operation))]
fn checked(instr: Instr, source: Base, destination: Base, fits: bool) -> Result<Piece, AsmKind>
    ensures { result ≡ operation instr source destination fits }
{
    if !is_spelled(&instr) {
        Err(AsmKind::BadOperand)
    } else if !fits {
        Err(AsmKind::NumberRange)
    } else {
        Ok(Piece::Operation {
            instr,
            source,
            destination,
        })
    }
}

/// An operation of two operands.
fn of_two(op: Op2, width: Width, s: Source, d: Option<Destination>) -> Result<Piece, AsmKind>
    ensures { result ≡ two_piece op width s d }
{
    match d {
        None => Err(AsmKind::BadOperand),
        Some(d) => {
            let instr = Instr::Two {
                op,
                width,
                src: s.src,
                dst: d.dst,
            };
            checked(instr, s.base, d.base, s.fits && d.fits)
        }
    }
}

/// An operation of one operand.
fn of_one(op: Op1, width: Width, s: Source) -> Result<Piece, AsmKind>
    ensures { result ≡ one_piece op width s }
{
    let instr = Instr::One {
        op,
        width,
        src: s.src,
    };
    checked(instr, s.base, Base::Number, s.fits)
}

/// PC as a destination.
fn to_program_counter() -> Option<Destination>
    ensures { result ≡ program_counter }
{
    Some(Destination {
        dst: Dst::Reg(PC),
        base: Base::Number,
        fits: true,
    })
}

/// Whether what a name stands for may be a place, which may be defined below.
fn may_be_place(value: Option<Value>) -> bool
    ensures { result ≡ names_place value }
{
    !matches!(value, Some(Value::Number(_)))
}

/// A label's name that isn't one of a number.
#[tactic(auto, unfolding(asm_model::specs::Instructions::label_of))]
pub fn label(names: &Names, word: &[u8]) -> Option<Name>
    ensures { result ≡ label_of names.now word.now }
{
    if !can_be_label(word) {
        return None;
    }
    let name = name(word);
    if may_be_place(names.get(name)) {
        Some(name)
    } else {
        None
    }
}

/// A jump to a label.
fn jump(cond: Cond, target: Option<Name>) -> Result<Piece, AsmKind>
    ensures { result ≡ jump_piece cond target }
{
    match target {
        None => Err(AsmKind::BadOperand),
        Some(target) => Ok(Piece::Jump { cond, target }),
    }
}

/// A mnemonic of one operand that is no jump.
fn with_operand(
    form: MnemonicForm,
    width: Width,
    operand: Option<Operand>,
) -> Result<Piece, AsmKind>
    ensures { result ≡ single_piece form width operand }
{
    let Some(o) = operand else {
        return Err(AsmKind::BadOperand);
    };
    match form {
        MnemonicForm::One(op) => of_one(op, width, source(op.takes_constant(), o)),
        MnemonicForm::Constant(op, constant) => {
            of_two(
                op,
                width,
                plain_source(Src::Const(constant)),
                destination(o),
            )
        }
        MnemonicForm::Twice(op) => of_two(op, width, source(false, o), destination(o)),
        MnemonicForm::Pop => of_two(
            Op2::Mov,
            width,
            plain_source(Src::AutoInc(SP)),
            destination(o),
        ),
        MnemonicForm::Branch => of_two(Op2::Mov, width, source(false, o), to_program_counter()),
        MnemonicForm::Two(_) | MnemonicForm::Jump(_) | MnemonicForm::Alone(_) => Err(
            AsmKind::BadOperand,
        ),
    }
}

/// Two operands of an operation.
fn with_operands(
    op: Op2,
    width: Width,
    first: Option<Operand>,
    second: Option<Operand>,
) -> Result<Piece, AsmKind>
    ensures { result ≡ double_piece op width first second }
{
    match (first, second) {
        (Some(a), Some(b)) => of_two(op, width, source(true, a), destination(b)),
        _ => Err(AsmKind::BadOperand),
    }
}

/// A mnemonic without operands.
fn on_none(form: MnemonicForm) -> Result<Piece, AsmKind>
    ensures { result ≡ piece_of_none form }
{
    match form {
        MnemonicForm::Alone(instr) => checked(instr, Base::Number, Base::Number, true),
        _ => Err(AsmKind::BadOperand),
    }
}

/// A mnemonic with one operand.
fn on_one(names: &Names, form: MnemonicForm, width: Width, word: &[u8]) -> Result<Piece, AsmKind>
    ensures { result ≡ piece_of_one names.now form width word.now }
{
    match form {
        MnemonicForm::Jump(cond) => jump(cond, label(names, word)),
        MnemonicForm::Two(_) | MnemonicForm::Alone(_) => Err(AsmKind::BadOperand),
        _ => with_operand(form, width, operand(names, word)),
    }
}

/// A mnemonic with two operands.
fn on_two(
    names: &Names,
    form: MnemonicForm,
    width: Width,
    first: &[u8],
    second: &[u8],
) -> Result<Piece, AsmKind>
    ensures { result ≡ piece_of_two names.now form width first.now second.now }
{
    match form {
        MnemonicForm::Two(op) => with_operands(
            op,
            width,
            operand(names, first),
            operand(names, second),
        ),
        _ => Err(AsmKind::BadOperand),
    }
}

/// The instruction of a mnemonic with the operands behind it.
#[tactic(auto, unfolding(asm_model::specs::Instructions::instruction_of, asm_model::specs::Words::operands_of))]
pub fn instruction(
    names: &Names,
    form: MnemonicForm,
    width: Width,
    rest: &[u8],
) -> Result<Piece, AsmKind>
    ensures { result ≡ instruction_of names.now form width (operands_of rest.now) }
{
    if is_empty(rest) {
        return on_none(form);
    }
    let (first, behind) = cut(rest, b',');
    let Some(behind) = behind else {
        return on_one(names, form, width, trim(first));
    };
    let (second, behind) = cut(behind, b',');
    match behind {
        None => on_two(names, form, width, trim(first), trim(second)),
        Some(_) => Err(AsmKind::BadOperand),
    }
}
