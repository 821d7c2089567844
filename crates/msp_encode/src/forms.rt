//! Forms of instructions: what their operations and operands do, and how many words they have.

ghost use Rattle.std.specs.Prelude.{◌≡◌, ◌+◌, ◌↔◌, ◌≤◌, IsTrue, length, not};
ghost use Rattle.msp_encode.specs.Forms.{writes, Writes, Tests, IsMov, IsBisOrBic, changes, Changes, Stacks, IsCall, IsAlways, IsWide, const_value, is_src, SrcIs, is_dst, DstIs, pops, Pops, is_immediate, IsImmediate, IsReti, IsJmp, WritesReg};
ghost use Rattle.msp_encode.specs.Legality.{takes_constant, takes_immediate};
ghost use Rattle.msp_encode.specs.Spelling.{src_words, dst_words, words_after, TakesConst, TakesImmediate};

use crate::instr::{Cg, Cond, Dst, Instr, Op1, Op2, Src, Width};

impl Op2 {
    /// Tells whether the operation writes its destination: CMP and BIT don't.
    #[inline(always)]
    pub fn writes(self) -> bool
        ensures is { result ≡ writes self }
        ensures says { IsTrue result ↔ Writes self }
    {
        !self.tests()
    }

    /// Tells whether the operation is CMP or BIT, which set flags alone.
    #[inline(always)]
    pub fn tests(self) -> bool
        ensures is { result ≡ not (writes self) }
        ensures says { IsTrue result ↔ Tests self }
    {
        matches!(self, Op2::Cmp | Op2::Bit)
    }

    /// Tells whether the operation is MOV.
    pub fn is_mov(self) -> bool
        ensures { IsTrue result ↔ IsMov self }
    {
        matches!(self, Op2::Mov)
    }

    /// Tells whether the operation is BIS or BIC.
    pub fn is_bis_or_bic(self) -> bool
        ensures { IsTrue result ↔ IsBisOrBic self }
    {
        matches!(self, Op2::Bis | Op2::Bic)
    }
}

impl Op1 {
    /// Tells whether the operation writes its operand: PUSH and CALL don't.
    #[inline(always)]
    pub fn changes(self) -> bool
        ensures is { result ≡ changes self }
        ensures says { IsTrue result ↔ Changes self }
    {
        !self.stacks()
    }

    /// Tells whether the operation pushes a word: PUSH and CALL do.
    #[inline(always)]
    pub fn stacks(self) -> bool
        ensures is { result ≡ not (changes self) }
        ensures says { IsTrue result ↔ Stacks self }
    {
        matches!(self, Op1::Push | Op1::Call)
    }

    /// Tells whether the operation takes a generated constant: PUSH alone does.
    pub fn takes_constant(self) -> bool
        ensures is { result ≡ takes_constant self }
        ensures says { IsTrue result ↔ TakesConst self }
    {
        matches!(self, Op1::Push)
    }

    /// Tells whether the operation takes an immediate: PUSH and CALL do.
    pub fn takes_immediate(self) -> bool
        ensures is { result ≡ takes_immediate self }
        ensures says { IsTrue result ↔ TakesImmediate self }
    {
        matches!(self, Op1::Push | Op1::Call)
    }

    /// Tells whether the operation is CALL.
    pub fn is_call(self) -> bool
        ensures { IsTrue result ↔ IsCall self }
    {
        matches!(self, Op1::Call)
    }
}

impl Cond {
    /// Tells whether a jump is always taken.
    pub fn is_always(self) -> bool
        ensures { IsTrue result ↔ IsAlways self }
    {
        matches!(self, Cond::Always)
    }
}

impl Width {
    /// Tells whether an operation is of words.
    pub fn is_wide(self) -> bool
        ensures { IsTrue result ↔ IsWide self }
    {
        matches!(self, Width::Wide)
    }
}

impl Cg {
    /// The value of the constant, as a word.
    #[inline(always)]
    pub fn value(self) -> u16
        ensures { result ≡ const_value self }
    {
        match self {
            Cg::Zero => 0,
            Cg::One => 1,
            Cg::Two => 2,
            Cg::Four => 4,
            Cg::Eight => 8,
            Cg::AllOnes => 0xFFFF,
        }
    }
}

impl Src {
    /// Tells whether the operand is this register.
    pub fn is_reg(&self, register: u8) -> bool
        ensures is { result ≡ is_src self.now register }
        ensures says { IsTrue result ↔ SrcIs self.now register }
    {
        match self {
            Src::Reg(n) => *n == register,
            _ => false,
        }
    }

    /// Tells whether the operand is what this register points to, with its increment.
    pub fn pops(&self, register: u8) -> bool
        ensures is { result ≡ pops self.now register }
        ensures says { IsTrue result ↔ Pops self.now register }
    {
        match self {
            Src::AutoInc(n) => *n == register,
            _ => false,
        }
    }

    /// Tells whether the operand is an immediate.
    pub fn is_immediate(&self) -> bool
        ensures is { result ≡ is_immediate self.now }
        ensures says { IsTrue result ↔ IsImmediate self.now }
    {
        matches!(self, Src::Immediate(_))
    }

    /// How many words the operand has behind the instruction word, 0 or 1.
    #[inline(always)]
    pub fn words(&self) -> usize
        ensures is { result ≡ length (src_words self.now) }
        ensures most { result ≤ 1 }
    {
        match self {
            Src::Indexed(_, _) | Src::Symbolic(_) | Src::Absolute(_) | Src::Immediate(_) => 1,
            Src::Reg(_) | Src::Indirect(_) | Src::AutoInc(_) | Src::Const(_) => 0,
        }
    }
}

impl Dst {
    /// Tells whether the operand is this register.
    pub fn is_reg(&self, register: u8) -> bool
        ensures is { result ≡ is_dst self.now register }
        ensures says { IsTrue result ↔ DstIs self.now register }
    {
        match self {
            Dst::Reg(n) => *n == register,
            _ => false,
        }
    }

    /// How many words the operand has behind the instruction word, 0 or 1.
    #[inline(always)]
    pub fn words(&self) -> usize
        ensures is { result ≡ length (dst_words self.now) }
        ensures most { result ≤ 1 }
    {
        match self {
            Dst::Indexed(_, _) | Dst::Symbolic(_) | Dst::Absolute(_) => 1,
            Dst::Reg(_) => 0,
        }
    }
}

impl Instr {
    /// How many words the instruction has, 1 to 3.
    #[inline(always)]
    pub fn words(&self) -> usize
        ensures is { result ≡ 1 + length (words_after self.now) }
        ensures most { result ≤ 3 }
    {
        match self {
            Instr::Two { src, dst, .. } => 1 + src.words() + dst.words(),
            Instr::One { src, .. } => 1 + src.words(),
            Instr::Reti | Instr::Jump { .. } => 1,
        }
    }

    /// Tells whether the instruction is RETI.
    pub fn is_reti(&self) -> bool
        ensures { IsTrue result ↔ IsReti self.now }
    {
        matches!(self, Instr::Reti)
    }

    /// Tells whether the instruction is JMP.
    pub fn is_jmp(&self) -> bool
        ensures { IsTrue result ↔ IsJmp self.now }
    {
        match self {
            Instr::Jump { cond, .. } => cond.is_always(),
            _ => false,
        }
    }

    /// Tells whether the operation's destination, or the operand that it changes, is this register.
    pub fn writes_reg(&self, register: u8) -> bool
        ensures { IsTrue result ↔ WritesReg self.now register }
    {
        match self {
            Instr::Two { op, dst, .. } => op.writes() && dst.is_reg(register),
            Instr::One { op, src, .. } => op.changes() && src.is_reg(register),
            _ => false,
        }
    }
}
