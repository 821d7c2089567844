//! The fields of an instruction word.

ghost use Rattle.std.specs.Prelude.{◌≡◌, ◌/◌, ◌%◌, ◌^◌, ◌<◌};
ghost use Rattle.msp_encode.specs.Spelling.{width_code};

use msp_encode::instr::Width;

/// Bits 15 to 12: the operation of two operands.
pub(crate) fn two_code(word: u16) -> u8
    ensures { result ≡ word / 4096 }
{
    (word >> 12) as u8
}

/// Bits 11 to 8: the source's register in a word of two operands.
pub(crate) fn high_register(word: u16) -> u8
    ensures { result ≡ word / 256 % 16 }
{
    (word >> 8 & 15) as u8
}

/// Bits 3 to 0: the destination's register, or that of a single operand.
pub(crate) fn low_register(word: u16) -> u8
    ensures { result ≡ word % 16 }
{
    (word & 15) as u8
}

/// Bits 5 and 4: the source's mode.
pub(crate) fn source_mode(word: u16) -> u8
    ensures { result ≡ word / 16 % 4 }
{
    (word >> 4 & 3) as u8
}

/// Bit 7: the destination's mode.
pub(crate) fn destination_mode(word: u16) -> u8
    ensures { result ≡ word / 128 % 2 }
{
    (word >> 7 & 1) as u8
}

/// Bits 9 to 7: the operation of one operand.
pub(crate) fn one_code(word: u16) -> u8
    ensures { result ≡ word / 128 % 8 }
{
    (word >> 7 & 7) as u8
}

/// Bits 12 to 10: a jump's condition.
pub(crate) fn jump_code(word: u16) -> u8
    ensures { result ≡ word / 1024 % 8 }
{
    (word >> 10 & 7) as u8
}

/// Bit 6: whether the operation is of bytes.
pub(crate) fn width(word: u16) -> Width
    ensures { word / 64 % 2 ≡ width_code result }
{
    if word >> 6 & 1 == 1 {
        Width::Byte
    } else {
        Width::Wide
    }
}
