//! The code so far.

ghost use Rattle.std.specs.Prelude.{◌≡◌, ◌<◌, ◌≤◌, [], ◌∷◌, ◌++◌, length, IfOk, OnOk};
ghost use Rattle.gen_model.specs.Blocks.{words, of_word, relocs_at};
ghost use Rattle.object_gen.specs.Given.{Fits};
ghost use Rattle.code_model.specs.declared.object.TheConstants.{CODE_WORDS_MAX};

use code_model::lists::{CodeWords, Relocs};
use code_model::parts::{RelKind, Reloc};
use gen_model::block::Block;
use kernel_model::entries::EMITS;
use std::alloc::{AllocError, Global};

/// Code words and their relocations.
#[derive(Drop)]
pub(crate) struct Source {
    pub code: CodeWords,
    pub relocs: Relocs,
}

impl Source {
    /// Nothing, with memory reserved for so many words and relocations.
    pub(crate) fn with_room(
        alloc: Global,
        words: usize,
        relocs: usize,
    ) -> Result<Source, AllocError>
        ensures code { IfOk result (λ source. source.code ≡ []) }
        ensures relocs { IfOk result (λ source. source.relocs ≡ []) }
    {
        Ok(Source {
            code: CodeWords::with_room(alloc, words)?,
            relocs: Relocs::with_room(alloc, relocs)?,
        })
    }

    /// Appends a word.
    fn word(&mut self, word: u16) -> Result<(), AllocError>
        ensures code { OnOk result (self.new.code ≡ self.old.code ++ word ∷ []) }
        ensures relocs { self.new.relocs ≡ self.old.relocs }
    {
        self.code.push(word)
    }

    /// Appends a word that is relocated.
    fn relocated(&mut self, kind: RelKind, word: u16) -> Result<(), AllocError>
        requires { length self.old.code < CODE_WORDS_MAX }
        ensures code { OnOk result (self.new.code ≡ self.old.code ++ word ∷ []) }
        ensures relocs { OnOk result (self.new.relocs ≡ self.old.relocs ++ of_word (length self.old.code) kind ∷ []) }
    {
        let offset = 2 * self.code.len() as u16;
        self.relocs.push(Reloc {
            in_code: true,
            kind,
            offset,
        })?;
        self.code.push(word)
    }

    /// Appends a block.
    pub(crate) fn put(&mut self, block: Block) -> Result<(), AllocError>
        requires room { length self.old.code ≤ 8188 }
        requires fits { Fits block }
        ensures code { OnOk result (self.new.code ≡ self.old.code ++ words block) }
        ensures relocs { OnOk result (self.new.relocs ≡ self.old.relocs ++ relocs_at (length self.old.code) block) }
    {
        match block {
            Block::Set { to, value } => {
                self.word(0x4030 + to as u16)?;
                self.word(value)
            }
            Block::Add { from, to } => self.word(0x5000 + 256 * from as u16 + to as u16),
            Block::Xor { from, to } => self.word(0xE000 + 256 * from as u16 + to as u16),
            Block::Keep { from, place } => {
                self.word(0x4082 + 256 * from as u16)?;
                self.relocated(RelKind::Data, place)
            }
            Block::Store { from, place } => {
                self.word(0x403C)?;
                self.relocated(RelKind::Data, place)?;
                self.word(0x408C + 256 * from as u16)?;
                self.word(0)
            }
            Block::Pass { from, to } => {
                self.word(0x1200 + from as u16)?;
                self.word(0x4130 + to as u16)
            }
            Block::Halve { to } => self.word(0x1100 + to as u16),
            Block::Skip { from, to } => {
                self.word(0x2001)?;
                self.word(0x4000 + 256 * from as u16 + to as u16)
            }
            Block::Emit { from } => {
                self.word(0x400C + 256 * from as u16)?;
                self.word(0x12B0)?;
                self.word(EMITS)
            }
            Block::Restart => {
                self.word(0x4030)?;
                self.relocated(RelKind::Code, 0)
            }
        }
    }
}
