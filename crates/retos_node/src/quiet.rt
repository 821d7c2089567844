//! Whether nothing runs any more, and nothing more comes.

ghost use Rattle.std.specs.Prelude.{◌≡◌, ◌≤◌, ◌==◌, ◌&&◌, nat_le, true, false, IsTrue};
ghost use Rattle.std.specs.List.{list_any};
ghost use Rattle.kernel_model.specs.Layout.{kernel_of};
ghost use Rattle.kernel_model.specs.Queues.{QueuesHold};
ghost use Rattle.node_model.specs.Runs.{is_live_app, is_serving};
ghost use Rattle.script_schedule.specs.Readiness.{IsReady};
ghost use Rattle.retos_node.specs.Underway.{quiet_in, rests_in};

use crate::stepping::{FIRST_ROUTINE, LAST_ROUTINE};
use flat_mem::FlatMem;
use kernel_model::map::APPS;
use kernel_model::states::LIVE;
use kernel_tables::laws::kernel_fits;
use kernel_tables::{SysWord, app, get, ready};
use kernel_threads::NONE;
use msp_machine::Regs;
use msp_machine::regs::PC;
use script_schedule::schedule::Schedule;
use trace_model::scripts::Script;

/// Whether a run is at its quiet end, after so many steps.
#[inline(always)]
pub(crate) fn is_quiet(
    m: &FlatMem,
    r: &Regs,
    script: &Script,
    schedule: &Schedule,
    made: u32,
) -> bool
    requires queues { QueuesHold m.now }
    requires ready { IsReady script.now made schedule.now }
    ensures { result ≡ quiet_in script.now made (kernel_of m.now) r.now }
{
    if get(m, SysWord::Running) != NONE {
        return false;
    }
    rests(m, r, script, schedule, made)
}

/// The same where no thread runs. It stands alone, since mostly one does.
#[cold]
#[inline(never)]
fn rests(m: &FlatMem, r: &Regs, script: &Script, schedule: &Schedule, made: u32) -> bool
    requires queues { QueuesHold m.now }
    requires ready { IsReady script.now made schedule.now }
    ensures { result ≡ rests_in script.now made (kernel_of m.now) r.now }
{
    !schedule.has_later(script, made)
        && (script.everys.is_empty() || !has_live_app(m))
        && get(m, SysWord::Pending) == 0
        && !is_serving(r.get(PC))
        && ready(m).is_empty()
}

/// Whether a vector routine is at an address.
fn is_serving(pc: u16) -> bool
    ensures { result ≡ is_serving pc }
{
    FIRST_ROUTINE <= pc && pc <= LAST_ROUTINE
}

/// Whether an application is live.
fn has_live_app(m: &FlatMem) -> bool
    ensures { result ≡ list_any is_live_app (kernel_of m.now).apps }
{
    kernel_fits(m);
    for a in 0..APPS {
        if app(m, a).state == LIVE {
            return true;
        }
    }
    false
}
