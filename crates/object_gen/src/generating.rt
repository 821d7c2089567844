//! All blocks, and the object.

ghost use Rattle.std.specs.Prelude.{◌≡◌, ℕ, ◌<◌, [], slice_index, IfOk, OnOk};
ghost use Rattle.code_model.specs.Fields.{fields};
ghost use Rattle.gen_model.specs.Draws.{state};
ghost use Rattle.gen_model.specs.Generated.{settings, blocks, code_of, relocs_from, generated};

use crate::choosing::next_block;
use crate::draws::Draws;
use crate::source::Source;
use code_model::lists::Exports;
use code_model::object::Object;
use code_model::parts::Kind;
use gen_model::block::Block;
use gen_model::laws::generated_meets_the_form;
use item_lists::lists::Bytes;
use std::alloc::{AllocError, Global};

/// How many registers are set at first.
const SETTINGS: u8 = 6;

/// How many blocks are drawn.
const DRAWN_BLOCKS: usize = 450;

/// The most words that the blocks have together.
const WORDS_MOST: usize = 1814;

/// The most relocations.
const RELOCS_MOST: usize = 451;

/// The bytes of its static part, all zeroed.
const ZEROED_BYTES: u16 = 64;

/// The bytes of its stack.
const STACK_BYTES: u16 = 256;

/// Sets R6 to R11 to draws.
fn put_settings(source: &mut Source, draws: &mut Draws) -> Result<(), AllocError>
    requires no_code { source.old.code ≡ [] }
    requires no_relocs { source.old.relocs ≡ [] }
    ensures state { OnOk result (draws.new.x ≡ state draws.old.x 6) }
    ensures code { OnOk result (source.new.code ≡ code_of (settings draws.old.x 0 6)) }
    ensures relocs { OnOk result (source.new.relocs ≡ relocs_from 0 (settings draws.old.x 0 6)) }
{
    for k in 0..SETTINGS {
        let value = draws.next();
        source.put(Block::Set { to: 6 + k, value })?;
    }
    Ok(())
}

/// All blocks of a number.
fn put_blocks(source: &mut Source, n: u32) -> Result<(), AllocError>
    requires no_code { source.old.code ≡ [] }
    requires no_relocs { source.old.relocs ≡ [] }
    ensures code { OnOk result (source.new.code ≡ code_of (blocks n)) }
    ensures relocs { OnOk result (source.new.relocs ≡ relocs_from 0 (blocks n)) }
{
    let mut draws = Draws { x: n };
    put_settings(source, &mut draws)?;
    for j in 0..DRAWN_BLOCKS {
        source.put(next_block(&mut draws))?;
    }
    source.put(Block::Restart)?;
    Ok(())
}

/// Words have 16 bits.
fn words_fit(words: &[u16])
    ensures { (k : ℕ) → slice_index words.now k < 65536 }
{}

/// The source object of a number.
pub fn generate(alloc: Global, n: u32) -> Result<Object, AllocError>
    ensures { IfOk result (λ o. fields o ≡ generated n) }
{
    let mut source = Source::with_room(alloc, WORDS_MOST, RELOCS_MOST)?;
    put_blocks(&mut source, n)?;
    words_fit(source.code.as_slice());
    generated_meets_the_form();
    Ok(Object {
        kind: Kind::App,
        version: 1,
        code: source.code,
        init: Bytes::new(alloc),
        zeroed: ZEROED_BYTES,
        stack: STACK_BYTES,
        threads: 1,
        entry: 0,
        relocs: source.relocs,
        exports: Exports::new(alloc),
    })
}
