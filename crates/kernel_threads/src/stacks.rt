//! Who runs, and the limits of its stack.

ghost use Rattle.std.specs.Prelude.{◌≡◌, ◌<◌};
ghost use Rattle.kernel_model.specs.Layout.{kernel_of};
ghost use Rattle.kernel_model.specs.Queues.{Leaves};
ghost use Rattle.kernel_model.specs.Words.{none, none_running, running, running_module, stack_high, stack_low, with_running};
ghost use Rattle.kernel_model.specs.Running.{DomainRuns, running_domain};
ghost use Rattle.kernel_threads.specs.Stacks.{HasStack};

use flat_mem::FlatMem;
use kernel_model::map::{APPS, KERNEL_LIMIT, KERNEL_TOP, THREADS_OF_APP};
use kernel_model::states::NONE;
use kernel_tables::{SysWord, app, get, put};

/// How far the limit is above the stack's lowest address.
const LIMIT_MARGIN: u16 = 6;

/// The identity of the running thread, below 32.
pub fn running(m: &FlatMem) -> u8
    requires { running (kernel_of m.now) < 32 }
    ensures { result ≡ running (kernel_of m.now) }
{
    get(m, SysWord::Running) as u8
}

/// The number of the running domain, below 12: 8 plus the module's, or that of the running thread's application.
pub fn running_domain(m: &FlatMem) -> u8
    requires { DomainRuns (kernel_of m.now) }
    ensures { result ≡ running_domain (kernel_of m.now) }
{
    let module = get(m, SysWord::Module);
    if module == NONE {
        (get(m, SysWord::Running) / u16::from(THREADS_OF_APP)) as u8
    } else {
        APPS + module as u8
    }
}

/// The address of the stack of the thread with identity t, t below 32.
fn stack_low(m: &FlatMem, t: u8) -> u16
    requires number { t < 32 }
    requires stack { HasStack (kernel_of m.now) t }
    ensures { result ≡ stack_low (kernel_of m.now) t }
{
    let row = app(m, t / THREADS_OF_APP);
    row.lo + row.z + u16::from(t % THREADS_OF_APP) * row.stack
}

/// The address behind the stack of the thread with identity t, t below 32.
pub fn stack_high(m: &FlatMem, t: u8) -> u16
    requires number { t < 32 }
    requires stack { HasStack (kernel_of m.now) t }
    ensures { result ≡ stack_high (kernel_of m.now) t }
{
    stack_low(m, t) + app(m, t / THREADS_OF_APP).stack
}

/// Lets the thread with identity t run, t below 32, with the limits of its stack. No module runs.
pub fn run(m: &mut FlatMem, t: u8)
    requires number { t < 32 }
    requires no_module { running_module (kernel_of m.old) ≡ none }
    requires stack { HasStack (kernel_of m.old) t }
    ensures { Leaves m.old m.new (with_running (kernel_of m.old) t) }
{
    let limit = stack_low(m, t) + LIMIT_MARGIN;
    let top = stack_high(m, t);
    put(m, SysWord::Running, u16::from(t));
    put(m, SysWord::CurLim, limit);
    put(m, SysWord::CurTop, top);
}

/// Lets no thread run, with the limits of the kernel's stack.
pub fn run_none(m: &mut FlatMem)
    ensures { Leaves m.old m.new (none_running (kernel_of m.old)) }
{
    put(m, SysWord::Running, NONE);
    put(m, SysWord::CurLim, KERNEL_LIMIT);
    put(m, SysWord::CurTop, KERNEL_TOP);
}
