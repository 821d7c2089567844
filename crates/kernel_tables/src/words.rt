//! The kernel's words.

ghost use Rattle.std.specs.Prelude.{◌≡◌};
ghost use Rattle.kernel_model.specs.Kernel.{word_of, with_word};
ghost use Rattle.kernel_model.specs.Layout.{kernel_of};
ghost use Rattle.kernel_model.specs.Queues.{Leaves};
ghost use Rattle.kernel_tables.specs.Places.{place_of};

use flat_mem::FlatMem;
use kernel_model::map::{STACK_LIMIT, STACK_TOP};
use kernel_model::rows::SysWord;

/// A word of the kernel, as it stands.
#[tactic(auto, using(crate::proofs::SystemLemmas::word_got))]
pub fn get(m: &FlatMem, w: SysWord) -> u16
    ensures { result ≡ word_of (kernel_of m.now) w }
{
    m.is_flat();
    m.word(place(w))
}

/// Replaces a word of the kernel.
pub fn put(m: &mut FlatMem, w: SysWord, value: u16)
    ensures { Leaves m.old m.new (with_word (kernel_of m.old) w value) }
{
    m.is_flat();
    m.set_word(place(w), value);
}

/// The address of a word.
fn place(w: SysWord) -> u16
    ensures { result ≡ place_of w }
{
    match w {
        SysWord::CurLim => STACK_LIMIT,
        SysWord::CurTop => STACK_TOP,
        SysWord::Running => 0x0204,
        SysWord::Module => 0x0206,
        SysWord::Budget => 0x0208,
        SysWord::Pending => 0x020A,
        SysWord::TickLow => 0x020C,
        SysWord::TickHigh => 0x020E,
    }
}
