//! The first word of a statement.

ghost use Rattle.std.specs.Prelude.{◌≡◌, ◌-◌, take, drop, length, option_map};
ghost use Rattle.msp_encode.specs.declared.instr.Src.TheVariants as src;
ghost use Rattle.msp_encode.specs.declared.instr.Width.TheVariants.{Wide, Byte};
ghost use Rattle.asm_model.specs.Mnemonics.{two_of, one_of, condition_of, constant_of, single_of, alone_on, alone_of, form_of, one_takes_bytes, takes_bytes, takes_words, where_taken, without_width, stem, suffix, mnemonic_of, directive_of, keyword_of};

use crate::text::is_word;
use asm_model::mnemonic::{Directive, Keyword, MnemonicForm};
use msp_encode::instr::{Cg, Cond, Dst, Instr, Op1, Op2, Src, Width};
use msp_encode::registers::{CONSTANTS, PC, SP, SR};

/// An operation of two operands.
#[tactic(auto, unfolding(asm_model::specs::Mnemonics::two_of))]
fn two(w: &[u8]) -> Option<Op2>
    ensures { result ≡ two_of w.now }
{
    if is_word(w, b"MOV") {
        Some(Op2::Mov)
    } else if is_word(w, b"ADD") {
        Some(Op2::Add)
    } else if is_word(w, b"ADDC") {
        Some(Op2::Addc)
    } else if is_word(w, b"SUBC") {
        Some(Op2::Subc)
    } else if is_word(w, b"SUB") {
        Some(Op2::Sub)
    } else if is_word(w, b"CMP") {
        Some(Op2::Cmp)
    } else if is_word(w, b"DADD") {
        Some(Op2::Dadd)
    } else if is_word(w, b"BIT") {
        Some(Op2::Bit)
    } else if is_word(w, b"BIC") {
        Some(Op2::Bic)
    } else if is_word(w, b"BIS") {
        Some(Op2::Bis)
    } else if is_word(w, b"XOR") {
        Some(Op2::Xor)
    } else if is_word(w, b"AND") {
        Some(Op2::And)
    } else {
        None
    }
}

/// An operation of one operand.
#[tactic(auto, unfolding(asm_model::specs::Mnemonics::one_of))]
fn one(w: &[u8]) -> Option<Op1>
    ensures { result ≡ one_of w.now }
{
    if is_word(w, b"RRC") {
        Some(Op1::Rrc)
    } else if is_word(w, b"SWPB") {
        Some(Op1::Swpb)
    } else if is_word(w, b"RRA") {
        Some(Op1::Rra)
    } else if is_word(w, b"SXT") {
        Some(Op1::Sxt)
    } else if is_word(w, b"PUSH") {
        Some(Op1::Push)
    } else if is_word(w, b"CALL") {
        Some(Op1::Call)
    } else {
        None
    }
}

/// When a jump is taken.
#[tactic(auto, unfolding(asm_model::specs::Mnemonics::condition_of))]
fn condition(w: &[u8]) -> Option<Cond>
    ensures { result ≡ condition_of w.now }
{
    if is_word(w, b"JNE") {
        Some(Cond::Ne)
    } else if is_word(w, b"JNZ") {
        Some(Cond::Ne)
    } else if is_word(w, b"JEQ") {
        Some(Cond::Eq)
    } else if is_word(w, b"JZ") {
        Some(Cond::Eq)
    } else if is_word(w, b"JNC") {
        Some(Cond::Nc)
    } else if is_word(w, b"JLO") {
        Some(Cond::Nc)
    } else if is_word(w, b"JC") {
        Some(Cond::C)
    } else if is_word(w, b"JHS") {
        Some(Cond::C)
    } else if is_word(w, b"JN") {
        Some(Cond::N)
    } else if is_word(w, b"JGE") {
        Some(Cond::Ge)
    } else if is_word(w, b"JL") {
        Some(Cond::L)
    } else if is_word(w, b"JMP") {
        Some(Cond::Always)
    } else {
        None
    }
}

/// An emulated operation of a destination, with its constant.
#[tactic(auto, unfolding(asm_model::specs::Mnemonics::constant_of))]
fn constant(w: &[u8]) -> Option<MnemonicForm>
    ensures { result ≡ constant_of w.now }
{
    if is_word(w, b"ADC") {
        Some(MnemonicForm::Constant(Op2::Addc, Cg::Zero))
    } else if is_word(w, b"CLR") {
        Some(MnemonicForm::Constant(Op2::Mov, Cg::Zero))
    } else if is_word(w, b"DADC") {
        Some(MnemonicForm::Constant(Op2::Dadd, Cg::Zero))
    } else if is_word(w, b"DEC") {
        Some(MnemonicForm::Constant(Op2::Sub, Cg::One))
    } else if is_word(w, b"DECD") {
        Some(MnemonicForm::Constant(Op2::Sub, Cg::Two))
    } else if is_word(w, b"INC") {
        Some(MnemonicForm::Constant(Op2::Add, Cg::One))
    } else if is_word(w, b"INCD") {
        Some(MnemonicForm::Constant(Op2::Add, Cg::Two))
    } else if is_word(w, b"INV") {
        Some(MnemonicForm::Constant(Op2::Xor, Cg::AllOnes))
    } else if is_word(w, b"SBC") {
        Some(MnemonicForm::Constant(Op2::Subc, Cg::Zero))
    } else if is_word(w, b"TST") {
        Some(MnemonicForm::Constant(Op2::Cmp, Cg::Zero))
    } else {
        None
    }
}

/// An emulated operation whose operand is written once.
#[tactic(auto, unfolding(asm_model::specs::Mnemonics::single_of))]
fn single(w: &[u8]) -> Option<MnemonicForm>
    ensures { result ≡ single_of w.now }
{
    if is_word(w, b"RLA") {
        Some(MnemonicForm::Twice(Op2::Add))
    } else if is_word(w, b"RLC") {
        Some(MnemonicForm::Twice(Op2::Addc))
    } else if is_word(w, b"POP") {
        Some(MnemonicForm::Pop)
    } else if is_word(w, b"BR") {
        Some(MnemonicForm::Branch)
    } else {
        None
    }
}

/// An operation on words of a source into a register.
fn into_register(op: Op2, src: Src, register: u8) -> Option<MnemonicForm>
    ensures { result ≡ alone_on op src register }
{
    Some(MnemonicForm::Alone(Instr::Two {
        op,
        width: Width::Wide,
        src,
        dst: Dst::Reg(register),
    }))
}

/// An operation of a constant on SR.
fn on_status(op: Op2, constant: Cg) -> Option<MnemonicForm>
    ensures { result ≡ alone_on op (src.Const constant) 2 }
{
    into_register(op, Src::Const(constant), SR)
}

/// An instruction without operand.
#[tactic(auto, unfolding(asm_model::specs::Mnemonics::alone_of))]
fn alone(w: &[u8]) -> Option<MnemonicForm>
    ensures { result ≡ alone_of w.now }
{
    if is_word(w, b"RETI") {
        Some(MnemonicForm::Alone(Instr::Reti))
    } else if is_word(w, b"NOP") {
        into_register(Op2::Mov, Src::Const(Cg::Zero), CONSTANTS)
    } else if is_word(w, b"RET") {
        into_register(Op2::Mov, Src::AutoInc(SP), PC)
    } else if is_word(w, b"CLRC") {
        on_status(Op2::Bic, Cg::One)
    } else if is_word(w, b"CLRN") {
        on_status(Op2::Bic, Cg::Four)
    } else if is_word(w, b"CLRZ") {
        on_status(Op2::Bic, Cg::Two)
    } else if is_word(w, b"DINT") {
        on_status(Op2::Bic, Cg::Eight)
    } else if is_word(w, b"SETC") {
        on_status(Op2::Bis, Cg::One)
    } else if is_word(w, b"SETN") {
        on_status(Op2::Bis, Cg::Four)
    } else if is_word(w, b"SETZ") {
        on_status(Op2::Bis, Cg::Two)
    } else if is_word(w, b"EINT") {
        on_status(Op2::Bis, Cg::Eight)
    } else {
        None
    }
}

/// The form of a mnemonic without its width.
#[tactic(auto, unfolding(asm_model::specs::Mnemonics::form_of))]
fn form(w: &[u8]) -> Option<MnemonicForm>
    ensures { result ≡ form_of w.now }
{
    if let Some(op) = two(w) {
        return Some(MnemonicForm::Two(op));
    }
    if let Some(op) = one(w) {
        return Some(MnemonicForm::One(op));
    }
    if let Some(cond) = condition(w) {
        return Some(MnemonicForm::Jump(cond));
    }
    if let Some(form) = constant(w) {
        return Some(form);
    }
    if let Some(form) = single(w) {
        return Some(form);
    }
    alone(w)
}

/// Whether `.B` may be written.
fn has_byte_form(form: MnemonicForm) -> bool
    ensures { result ≡ takes_bytes form }
{
    match form {
        MnemonicForm::One(op) => matches!(op, Op1::Rrc | Op1::Rra | Op1::Push),
        MnemonicForm::Two(_)
        | MnemonicForm::Constant(_, _)
        | MnemonicForm::Twice(_)
        | MnemonicForm::Pop => true,
        MnemonicForm::Jump(_) | MnemonicForm::Branch | MnemonicForm::Alone(_) => false,
    }
}

/// Whether `.W` may be written.
fn has_word_form(form: MnemonicForm) -> bool
    ensures { result ≡ takes_words form }
{
    match form {
        MnemonicForm::Two(_)
        | MnemonicForm::One(_)
        | MnemonicForm::Constant(_, _)
        | MnemonicForm::Twice(_)
        | MnemonicForm::Pop => true,
        MnemonicForm::Jump(_) | MnemonicForm::Branch | MnemonicForm::Alone(_) => false,
    }
}

/// A mnemonic with `.B` behind it.
fn of_bytes(w: &[u8]) -> Option<Keyword>
    ensures { result ≡ where_taken takes_bytes Byte (form_of w.now) }
{
    match form(w) {
        Some(form) if has_byte_form(form) => Some(Keyword::Mnemonic(form, Width::Byte)),
        _ => None,
    }
}

/// A mnemonic with `.W` behind it.
fn of_words(w: &[u8]) -> Option<Keyword>
    ensures { result ≡ where_taken takes_words Wide (form_of w.now) }
{
    match form(w) {
        Some(form) if has_word_form(form) => Some(Keyword::Mnemonic(form, Width::Wide)),
        _ => None,
    }
}

/// A mnemonic, with `.B`, `.W` or neither behind it.
#[tactic(auto, unfolding(asm_model::specs::Mnemonics::mnemonic_of))]
fn mnemonic(word: &[u8]) -> Option<Keyword>
    ensures { result ≡ mnemonic_of word.now }
{
    let (stem, suffix) = word.split_at(word.len().saturating_sub(2));
    if is_word(suffix, b".B") {
        return of_bytes(stem);
    }
    if is_word(suffix, b".W") {
        return of_words(stem);
    }
    match form(word) {
        None => None,
        Some(form) => Some(Keyword::Mnemonic(form, Width::Wide)),
    }
}

/// A directive.
#[tactic(auto, unfolding(asm_model::specs::Mnemonics::directive_of))]
fn directive(w: &[u8]) -> Option<Directive>
    ensures { result ≡ directive_of w.now }
{
    if is_word(w, b".APP") {
        Some(Directive::App)
    } else if is_word(w, b".MODULE") {
        Some(Directive::Module)
    } else if is_word(w, b".VERSION") {
        Some(Directive::Version)
    } else if is_word(w, b".EQU") {
        Some(Directive::Equ)
    } else if is_word(w, b".ENTRY") {
        Some(Directive::Entry)
    } else if is_word(w, b".EXPORT") {
        Some(Directive::Export)
    } else if is_word(w, b".CODE") {
        Some(Directive::Code)
    } else if is_word(w, b".DATA") {
        Some(Directive::Data)
    } else if is_word(w, b".ZERO") {
        Some(Directive::Zero)
    } else if is_word(w, b".WORD") {
        Some(Directive::Word)
    } else if is_word(w, b".BYTE") {
        Some(Directive::Byte)
    } else if is_word(w, b".SPACE") {
        Some(Directive::Space)
    } else {
        None
    }
}

/// The first word of a statement, if it is known.
#[tactic(auto, unfolding(asm_model::specs::Mnemonics::keyword_of))]
pub fn keyword(word: &[u8]) -> Option<Keyword>
    ensures { result ≡ keyword_of word.now }
{
    match directive(word) {
        Some(directive) => Some(Keyword::Directive(directive)),
        None => mnemonic(word),
    }
}
