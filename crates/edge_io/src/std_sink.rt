//! Standard streams. They tell no contents; what the system takes is trusted.

ghost use Rattle.std.specs.Prelude.{◌≡◌, ◌≤◌, None, IfOk, length};
ghost use Rattle.edge_io.specs.Memory.{is_fault, up_if};

use crate::counts::one_up;
use crate::sink::{Failed, Sink};
use std::io::Write;
use std::marker::Model;

/// A standard stream, which contracts see as its count of faults.
#[derive(Drop)]
pub struct StdSink<W: Write + Drop> {
    stream: W,
    faults: u64,
}

impl<W: Write + Drop> Model for StdSink<W> {
    ghost use Rattle.std.specs.Prelude.{ℕ};

    ghost Value = { ℕ };

    ghost view = { λ s. s.faults };
}

impl<W: Write + Drop> StdSink<W> {
    /// The sink of a stream, with no fault yet.
    pub fn new(stream: W) -> StdSink<W>
        ensures { result ≡ 0 }
    {
        StdSink { stream, faults: 0 }
    }
}

impl<W: Write + Drop> Sink for StdSink<W> {
    ghost state = { λ faults. record { bytes = None; faults = faults } };

    ghost called = { λ _ _ _ _. Unit {0} };

    fn write(&mut self, piece: &[u8]) -> Result<usize, Failed>
        ensures size { IfOk result (λ n. n ≤ length piece.now) }
        ensures after { self.new ≡ up_if (is_fault result piece.now) self.old }
    {
        match self.stream.write(piece) {
            Ok(count) => {
                if count == 0 && !piece.is_empty() {
                    self.faults = one_up(self.faults);
                }
                Ok(count)
            }
            Err(_) => {
                self.faults = one_up(self.faults);
                Err(Failed)
            }
        }
    }
}
