//! What holds of the runs of booted objects, for callers: a law is a function that does nothing.

ghost use Rattle.node_model.specs.Nodes.{BootedRunLaw};
ghost use Rattle.trace_model.specs.declared.scripts.Script.{Script};

use crate::step_laws::next_law;
use node_laws::{booted_is_sound, runs_are_sound};

/// Each run of accepted objects that boot is sound, under every script: each of its systems is sound, and each of its records is
/// confined by the system before it and keeps the others.
pub fn booted_runs_are_sound()
    ensures { (t : Script) → BootedRunLaw t }
{
    booted_is_sound();
    next_law();
    runs_are_sound();
}
