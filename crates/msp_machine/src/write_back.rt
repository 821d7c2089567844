//! How results are written: to a register or to memory.

ghost use Rattle.std.specs.Prelude.{◌≡◌, [], ◌∷◌, slice_set};
ghost use Rattle.machine_model.specs.Memory.{put_all};
ghost use Rattle.machine_model.specs.Operands.{stored, put_context, put_pairs, IsPlace};

use crate::regs::Regs;
use flat_mem::FlatMem;
use machine_model::place::Place;
use machine_model::writes::Writes;
use msp_encode::instr::Width;

/// Writes a byte to memory.
fn store_byte(at: u16, value: u8, m: &mut FlatMem) -> Writes
    ensures written { result ≡ (at, value) ∷ [] }
    ensures memory { m.new ≡ slice_set m.old at value }
{
    m.set_byte(at, value);
    let mut written = Writes::new();
    written.add(at, value);
    written
}

/// Writes a word to memory, at an address with bit 0 cleared.
fn store_word(at: u16, value: u16, m: &mut FlatMem) -> Writes
    ensures written { result ≡ stored Width.Wide at value }
    ensures memory { m.new ≡ put_all m.old (stored Width.Wide at value) }
{
    m.set_word(at, value);
    let low = at / 2 * 2;
    let bytes = value.to_le_bytes();
    let mut written = Writes::new();
    written.add(low, bytes[0]);
    written.add(low + 1, bytes[1]);
    written
}

/// Writes a word, or the low byte of a word, to memory.
pub(crate) fn store(width: Width, at: u16, value: u16, m: &mut FlatMem) -> Writes
    ensures written { result ≡ stored width at value }
    ensures memory { m.new ≡ put_all m.old (stored width at value) }
{
    match width {
        Width::Wide => store_word(at, value, m),
        Width::Byte => store_byte(at, (value % 256) as u8, m),
    }
}

/// Puts a value into its place.
#[tactic(auto, unfolding(machine_model::specs::Operands::put_context, machine_model::specs::Operands::put_pairs))]
pub(crate) fn put(width: Width, place: Place, value: u16, m: &mut FlatMem, r: &mut Regs) -> Writes
    requires { IsPlace place }
    ensures context { r.new ≡ put_context place value r.old }
    ensures written { result ≡ put_pairs width place value }
    ensures memory { m.new ≡ put_all m.old (put_pairs width place value) }
{
    match place {
        Place::InReg(n) => {
            r.set(n, value);
            Writes::new()
        }
        Place::At(at) => store(width, at, value, m),
    }
}
