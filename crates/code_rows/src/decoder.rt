//! Readings worked out by hand, and every first word.

use msp_decode::{NoInstr, decode};
use msp_encode::encode;
use msp_encode::instr::{Cg, Dst, Instr, Op2, Src, Width};
use std::process::Abort;

/// MOV of a source into R6, on words.
fn mov(src: Src) -> Instr {
    Instr::Two {
        op: Op2::Mov,
        width: Width::Wide,
        src,
        dst: Dst::Reg(6),
    }
}

#[test]
fn readings_are_those_of_the_instruction_tables(rt: HostRuntime) {
    assert_eq!(rt; decode(0x4036, 1, 0, 3), Ok((mov(Src::Immediate(1)), 2)));
    assert_eq!(rt; decode(0x4316, 0, 0, 1), Ok((mov(Src::Const(Cg::One)), 1)));
    assert_eq!(rt; decode(0x4036, 0, 0, 1), Err(NoInstr::Short));
    assert_eq!(rt; decode(0x4026, 0, 0, 3), Err(NoInstr::Unknown));
}

/// Whether an instruction begins with a word; it then encodes to the words that it was read from.
fn is_encoded_again(rt: &impl Abort, word: u16) -> bool {
    let words = [word, 0x1234, 0xfedc];
    match decode(words[0], words[1], words[2], 4) {
        Err(_) => false,
        Ok((i, n)) => {
            assert_eq!(rt;
                encode(&i).as_slice(),
                &words[..usize::from(n)],
                "at {word:04x}"
            );
            true
        }
    }
}

/// 24 operations and widths of two operands with 63 sources and 31 destinations, 519 words of one
/// operand (twice 56 for RRC and for RRA, 56 for SWPB and for SXT, twice 63 for PUSH, 57 for CALL),
/// RETI, and 8 conditions with 1024 offsets.
const FIRST_WORDS: u32 = 24 * 63 * 31 + 519 + 1 + 8 * 1024;

#[test]
fn each_first_word_is_encoded_again(rt: HostRuntime) {
    let mut count: u32 = 0;
    for word in 0..0x1_0000_u32 {
        if is_encoded_again(&rt, word as u16) {
            count += 1;
        }
    }
    assert_eq!(rt; count, FIRST_WORDS);
}
