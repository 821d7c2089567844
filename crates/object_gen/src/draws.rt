//! The numbers that are drawn.

ghost use Rattle.std.specs.Prelude.{◌≡◌, ◌/◌};
ghost use Rattle.gen_model.specs.Draws.{stepped};

/// The factor of a step.
const FACTOR: u32 = 1664525;

/// What a step adds.
const INCREMENT: u32 = 1013904223;

/// A source of draws: its state.
#[derive(Drop)]
pub(crate) struct Draws {
    pub x: u32,
}

impl Draws {
    /// The next draw: the upper 16 bits of the state behind this one.
    pub(crate) fn next(&mut self) -> u16
        ensures state { self.new.x ≡ stepped self.old.x }
        ensures drawn { result ≡ stepped self.old.x / 65536 }
    {
        let behind = self.x.wrapping_mul(FACTOR).wrapping_add(INCREMENT);
        let drawn = (behind / 65536) as u16;
        self.x = behind;
        drawn
    }
}
