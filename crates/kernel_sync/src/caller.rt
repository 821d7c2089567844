//! The running thread, by its application and its number there.

ghost use Rattle.std.specs.Prelude.{◌≡◌, ◌<◌};
ghost use Rattle.kernel_model.specs.Layout.{kernel_of};
ghost use Rattle.kernel_model.specs.Running.{ThreadRuns};
ghost use Rattle.kernel_model.specs.Sync.{own_app, own_number, owns};

use flat_mem::FlatMem;
use kernel_tables::mutex;
use kernel_threads::{THREADS_OF_APP, running};

/// The greatest number of a mutex, and of a condition.
pub const LAST_NUMBER: u16 = 3;

/// The running thread's application, below 8.
pub fn own_app(m: &FlatMem) -> u8
    requires { ThreadRuns (kernel_of m.now) }
    ensures value { result ≡ own_app (kernel_of m.now) }
    ensures below { result < 8 }
{
    running(m) / THREADS_OF_APP
}

/// Its number there, below 4.
pub fn own_number(m: &FlatMem) -> u8
    requires { ThreadRuns (kernel_of m.now) }
    ensures value { result ≡ own_number (kernel_of m.now) }
    ensures below { result < 4 }
{
    running(m) % THREADS_OF_APP
}

/// Tells whether the running thread owns mutex i of its application, i below 4.
pub fn owns(m: &FlatMem, i: u8) -> bool
    requires number { i < 4 }
    requires runs { ThreadRuns (kernel_of m.now) }
    ensures { result ≡ owns (kernel_of m.now) i }
{
    mutex(m, own_app(m), i).owner == u16::from(own_number(m))
}
