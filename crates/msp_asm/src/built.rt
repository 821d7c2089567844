//! What the second pass builds.

ghost use Rattle.std.specs.Prelude.{◌≡◌};
ghost use Rattle.asm_model.specs.SecondPass.{empty_output};
ghost use Rattle.msp_asm.specs.Given.{output_of};

use code_model::lists::{CodeWords, Exports, Relocs};
use item_lists::lists::Bytes;
use std::alloc::Global;

/// The parts of an object so far.
#[derive(Drop)]
pub(crate) struct Built {
    pub code: CodeWords,
    pub initialised: Bytes,
    pub code_relocs: Relocs,
    pub data_relocs: Relocs,
    pub entry: u16,
    pub exports: Exports,
}

/// Nothing.
pub(crate) fn nothing(alloc: Global) -> Built
    ensures { output_of result ≡ empty_output }
{
    Built {
        code: CodeWords::new(alloc),
        initialised: Bytes::new(alloc),
        code_relocs: Relocs::new(alloc),
        data_relocs: Relocs::new(alloc),
        entry: 0,
        exports: Exports::new(alloc),
    }
}
