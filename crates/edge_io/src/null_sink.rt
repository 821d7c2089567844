//! A sink that keeps nothing.

ghost use Rattle.std.specs.Prelude.{◌≡◌, None, Ok, length};

use crate::sink::{Failed, Sink};

/// A sink that takes every piece whole and tells no bytes. It never fails.
#[derive(Clone, Copy, Debug)]
pub struct NullSink;

impl Sink for NullSink {
    ghost state = { λ _. record { bytes = None; faults = 0 } };

    ghost called = { λ _ piece answer _. answer ≡ Ok (length piece) };

    fn write(&mut self, piece: &[u8]) -> Result<usize, Failed>
        ensures { result ≡ Ok (length piece.now) }
    {
        Ok(piece.len())
    }
}
