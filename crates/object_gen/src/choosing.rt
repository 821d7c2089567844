//! Which block three draws give.

ghost use Rattle.std.specs.Prelude.{◌≡◌, ◌/◌, ◌≤◌};
ghost use Rattle.gen_model.specs.Draws.{stepped};
ghost use Rattle.gen_model.specs.Blocks.{register, place, chosen};
ghost use Rattle.object_gen.specs.Given.{Fits};

use crate::draws::Draws;
use gen_model::block::Block;

/// One of R6 to R11.
fn register_of(x: u16) -> u8
    ensures is { result ≡ register x }
    ensures most { result ≤ 11 }
{
    6 + (x % 6) as u8
}

/// An even offset below 64.
fn place_of(x: u16) -> u16
    ensures { result ≡ place x }
{
    2 * (x % 32)
}

/// The block of three draws: the first says what it is, the others its registers and numbers.
#[tactic(auto, unfolding(gen_model::specs::Blocks::chosen))]
pub(crate) fn choose(a: u16, b: u16, c: u16) -> Block
    ensures is { result ≡ chosen a b c }
    ensures fits { Fits result }
{
    let from = register_of(c);
    let to = register_of(b);
    match a % 8 {
        0 => Block::Add { from, to },
        1 => Block::Xor { from, to },
        2 => Block::Keep {
            from,
            place: place_of(b),
        },
        3 => Block::Store {
            from: to,
            place: place_of(c),
        },
        4 => Block::Pass { from, to },
        5 => Block::Halve { to },
        6 => Block::Skip { from, to },
        _ => Block::Emit { from },
    }
}

/// The next block.
pub(crate) fn next_block(draws: &mut Draws) -> Block
    ensures state { draws.new.x ≡ stepped (stepped (stepped draws.old.x)) }
    ensures is { result ≡ chosen (stepped draws.old.x / 65536)
        (stepped (stepped draws.old.x) / 65536)
        (stepped (stepped (stepped draws.old.x)) / 65536) }
    ensures fits { Fits result }
{
    let a = draws.next();
    let b = draws.next();
    let c = draws.next();
    choose(a, b, c)
}
