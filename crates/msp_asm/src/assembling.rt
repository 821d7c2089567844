//! The two passes over a source, and the object.

ghost use Rattle.std.specs.Prelude.{◌≡◌, ℕ, ◌<◌, ◌≤◌, ◌++◌, length, slice_index, IfOk};
ghost use Rattle.code_model.specs.Fields.{fields, Meets};
ghost use Rattle.asm_model.specs.Lines.{lines_of};
ghost use Rattle.asm_model.specs.Drafts.{first_progress, draft_by};
ghost use Rattle.asm_model.specs.FirstPass.{first_pass};
ghost use Rattle.asm_model.specs.SecondPass.{empty_output, known_from, second_pass};
ghost use Rattle.asm_model.specs.Assembled.{has_starts, is_whole, version_number, fields_for, GivesObject};
ghost use Rattle.asm_model.specs.Sound.{IsSound};
ghost use Rattle.msp_asm.specs.Given.{fault_at, FirstGives, SecondGives, output_of};

use crate::built::{Built, nothing};
use crate::drafts::{Pieces, Stop, start};
use crate::first_pass::put_line;
use crate::second_pass::put;
use asm_lines::names::Names;
use asm_lines::text::cut_line;
use asm_model::fault::{AsmFault, AsmKind};
use asm_model::laws::{drafts_are_sound, results_meet_the_form};
use asm_model::progress::{Header, Progress, Version};
use code_model::lists::Relocs;
use code_model::object::Object;
use code_model::parts::{Kind, Reloc};
use std::alloc::{AllocError, Global};

/// The fault of a line where the assembler stops.
fn at(line: u32, stop: Stop) -> AsmFault
    ensures { result ≡ fault_at line stop }
{
    match stop {
        Stop::Kind(kind) => AsmFault::At { line, kind },
        Stop::Memory => AsmFault::Memory,
    }
}

/// The first pass: the names and pieces of all lines, or the first line with a fault.
fn first(names: &mut Names, pieces: &mut Pieces, source: &[u8]) -> Result<Progress, AsmFault>
    requires { length source.now ≤ 1048576 }
    ensures { FirstGives result (first_pass 1 (lines_of source.now) (draft_by first_progress names.old pieces.old)) names.new pieces.new }
{
    let mut p = start();
    let mut line: u32 = 0;
    let mut next = Some(source);
    'lines: while let Some(text) = next {
        line += 1;
        let (bytes, behind) = cut_line(text);
        p = match put_line(line, p, names, pieces, bytes) {
            Ok(p) => p,
            Err(stop) => return Err(at(line, stop)),
        };
        next = behind;
    }
    Ok(p)
}

/// Whether an application's entry or a module's first export is there.
fn started(p: Progress) -> bool
    ensures { result ≡ has_starts p p.header }
{
    match p.header {
        None => false,
        Some(Header::App { .. }) => p.entered,
        Some(Header::Module) => p.least_export != 0,
    }
}

/// Whether nothing is missing.
#[tactic(auto, unfolding(asm_model::specs::Assembled::is_whole))]
fn whole(p: Progress) -> bool
    ensures { result ≡ is_whole p }
{
    started(p) && p.code != 0
}

/// The second pass: what the pieces give, or the first line with a fault.
fn second(alloc: Global, names: &Names, p: Progress, pieces: &Pieces) -> Result<Built, AsmFault>
    requires { IsSound (draft_by p names.now pieces.now) }
    ensures { SecondGives result (second_pass (known_from names.now p) pieces.now empty_output) }
{
    let mut out = nothing(alloc);
    for placed in pieces.as_slice() {
        match put(names, p, &mut out, &placed.piece) {
            Ok(()) => {}
            Err(stop) => return Err(at(placed.line, stop)),
        }
    }
    Ok(out)
}

/// All relocations: those of code, then those of static data.
fn join(code: Relocs, others: &[Reloc]) -> Result<Relocs, AllocError>
    ensures { IfOk result (λ relocs. relocs ≡ code ++ others.now) }
{
    let mut relocs = code;
    for reloc in others {
        relocs.push(*reloc)?;
    }
    Ok(relocs)
}

/// Words have 16 bits.
fn words_fit(words: &[u16])
    ensures { (k : ℕ) → slice_index words.now k < 65536 }
{}

/// Bytes have 8 bits.
fn bytes_fit(bytes: &[u8])
    ensures { (k : ℕ) → slice_index bytes.now k < 256 }
{}

/// The number of a version.
fn version_number(version: Version) -> u8
    ensures { result ≡ version_number version }
{
    match version {
        Version::One => 1,
        Version::Two => 2,
    }
}

/// The object of these parts.
fn object(p: Progress, out: Built) -> Result<Object, AllocError>
    requires { ((k : ℕ) → slice_index out.code k < 65536) → ((k : ℕ) → slice_index out.initialised k < 256) → Meets (fields_for p (output_of out) p.header) }
    ensures { IfOk result (λ o. fields o ≡ fields_for p (output_of out) p.header) }
{
    words_fit(out.code.as_slice());
    bytes_fit(out.initialised.as_slice());
    let relocs = join(out.code_relocs, out.data_relocs.as_slice())?;
    let (kind, stack, threads) = match p.header {
        Some(Header::App { stack, threads }) => (Kind::App, stack, threads),
        _ => (Kind::Module, 0, 0),
    };
    Ok(Object {
        kind,
        version: version_number(p.version),
        code: out.code,
        init: out.initialised,
        zeroed: p.zeroed,
        stack,
        threads,
        entry: out.entry,
        relocs,
        exports: out.exports,
    })
}

/// The object of a source of at most 1,048,576 bytes, or exactly its first fault with its line. The
/// source is gone over once, and what it defines once more.
#[tactic(auto, unfolding(asm_model::specs::Assembled::assembled))]
pub fn assemble(alloc: Global, source: &[u8]) -> Result<Object, AsmFault>
    requires { length source.now ≤ 1048576 }
    ensures { GivesObject source.now result }
{
    let mut names = Names::new(alloc);
    let mut pieces = Pieces::new(alloc);
    let p = match first(&mut names, &mut pieces, source) {
        Ok(p) => p,
        Err(fault) => return Err(fault),
    };
    if !whole(p) {
        return Err(AsmFault::At {
            line: 0,
            kind: AsmKind::BadDirective,
        });
    }
    drafts_are_sound();
    let out = match second(alloc, &names, p, &pieces) {
        Ok(out) => out,
        Err(fault) => return Err(fault),
    };
    results_meet_the_form();
    match object(p, out) {
        Ok(o) => Ok(o),
        Err(_) => Err(AsmFault::Memory),
    }
}
