//! MSP430 instructions and how they are spelled in words (SLAU049, CPU chapter, "MSP430 Instruction Set").
//!
//! `Instr` is an instruction as data. `specs/Spelling.antt` says which one to three words spell it: a
//! table of cases on the fields of the first word, which encoder and decoder share and neither
//! follows. `legal` tells the instructions that have a spelling, and `encode` gives it; that it is the
//! only one is a law of `specs/Laws.antt`, which a caller has by calling `laws`. `specs/Spelled.antt` has the
//! words as a list (`spelling`), which are those that spell a legal instruction. `forms` has what an operation and
//! an operand do, and how many words they have.
#![tactic(auto)]

pub mod encoder;
pub mod forms;
pub mod instr;
pub mod laws;
pub mod legality;
pub mod registers;

pub use encoder::encode;
pub use legality::legal;
