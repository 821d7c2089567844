//! Encodings worked out by hand.

use msp_encode::instr::{Cg, Dst, Instr, Op1, Op2, Src, Width};
use msp_encode::{encode, legal};

/// An operation of two operands on words, into a register.
fn into_register(op: Op2, src: Src, register: u8) -> Instr {
    Instr::Two {
        op,
        width: Width::Wide,
        src,
        dst: Dst::Reg(register),
    }
}

#[test]
fn encodings_are_those_of_the_instruction_tables(rt: HostRuntime) {
    let push = Instr::One {
        op: Op1::Push,
        width: Width::Wide,
        src: Src::Reg(6),
    };
    let table: [(Instr, [u16; 2], usize); 5] = [
        (
            into_register(Op2::Mov, Src::Const(Cg::One), 6),
            [0x4316, 0],
            1,
        ),
        (
            into_register(Op2::Mov, Src::Immediate(5), 6),
            [0x4036, 0x0005],
            2,
        ),
        (
            into_register(Op2::Cmp, Src::Const(Cg::Eight), 6),
            [0x9236, 0],
            1,
        ),
        (push, [0x1206, 0], 1),
        (
            into_register(Op2::Mov, Src::Const(Cg::Zero), 3),
            [0x4303, 0],
            1,
        ),
    ];
    for (i, words, length) in table {
        assert!(rt; legal(&i), "no spelling for {i:?}");
        assert!(rt; length <= 2);
        assert_eq!(rt; encode(&i).as_slice(), &words[..length], "at {i:?}");
    }
}
