//! A sink, which takes bytes in order.

ghost use Rattle.std.specs.Prelude.{◌≡◌, ◌≤◌, ℕ, List, length, IfOk, OnErr};
ghost use Rattle.std.specs.declared.result.Result.{Result};
ghost use Rattle.edge_io.specs.declared.sink.Failed.{Failed};
ghost use Rattle.edge_io.specs.Known.{SinkState, appended, taken};
ghost use Rattle.edge_io.specs.Causes.{WriteCause};

/// A write failed, and the count of faults rose.
#[derive(Clone, Copy, Debug, PartialEq, Eq)]
pub struct Failed;

/// The bytes written, where it tells them, and a count of faults that never falls.
pub trait Sink {
    /// What the sink means.
    ghost state: { Self → SinkState };

    /// How a write of a piece and its answer lead from one sink to another.
    ghost called: { Self → List ℕ → Result ℕ Failed → Self → Type 0 };

    /// Appends the first bytes of the piece, as many as it likes. Failed, or 0 of a nonempty piece, only where the count
    /// rose; nothing was then appended.
    fn write(&mut self, piece: &[u8]) -> Result<usize, Failed>
        ensures size { IfOk result (λ n. n ≤ length piece.now) }
        ensures bytes { (state self.new).bytes ≡ appended (state self.old).bytes (taken result piece.now) }
        ensures kept { OnErr result ((state self.new).bytes ≡ (state self.old).bytes) }
        ensures cause { WriteCause (state self.old).faults (state self.new).faults result piece.now }
        ensures call { called self.old piece.now result self.new };
}
