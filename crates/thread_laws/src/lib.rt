//! What the kernel's calls on threads do keeps it orderly, and its domains apart, and at ticks and lines exactly the right threads
//! wake: laws of the definitions of `kernel_model`, for the layers above. Each is used by calling it.
#![tactic(auto)]

ghost use Rattle.thread_laws.specs.Facts.{ReadyLaw, RunningLaw, UnlistedLaw};
ghost use Rattle.thread_laws.specs.Waits.{SleptLaw, TickedLaw, WaitingLineLaw, WokenLineLaw};
ghost use Rattle.thread_laws.specs.Wakings.{LineLaw, NextLaw, SleepersLaw, TickLaw, WaitersLaw};
ghost use Rattle.thread_laws.specs.Laws.{BegunLaw, DispatchedLaw, EndLaw, EndedLaw, EndedLocksLaw, ExitedLaw, FrontLaw, PriorityLaw, SavedLaw};

/// The running thread's row says that it runs, it is in neither queue, and it is one of a live application's.
pub fn running_thread()
    ensures { RunningLaw }
{}

/// A ready thread's row says so, and it doesn't sleep.
pub fn ready_thread()
    ensures { ReadyLaw }
{}

/// A thread that isn't live is in neither queue.
pub fn free_thread_is_unlisted()
    ensures { UnlistedLaw }
{}

/// Saving the running thread's registers keeps the kernel settled.
pub fn saved_is_settled()
    ensures { SavedLaw }
{}

/// So does moving the running thread to the front.
pub fn front_is_settled()
    ensures { FrontLaw }
{}

/// And to the end.
pub fn end_is_settled()
    ensures { EndLaw }
{}

/// So does a dispatch.
pub fn dispatched_is_settled()
    ensures { DispatchedLaw }
{}

/// So does a thread that begins.
pub fn begun_is_settled()
    ensures { BegunLaw }
{}

/// So does another priority of the running thread.
pub fn priority_is_settled()
    ensures { PriorityLaw }
{}

/// So does the end of an application.
pub fn ended_is_settled()
    ensures { EndedLaw }
{}

/// It frees the application's mutexes, and nobody waits for them or for its conditions.
pub fn end_frees_locks()
    ensures { EndedLocksLaw }
{}

/// The end of the running thread keeps the kernel settled.
pub fn exited_is_settled()
    ensures { ExitedLaw }
{}

/// So does the running thread's sleep.
pub fn slept_is_settled()
    ensures { SleptLaw }
{}

/// So does a tick.
pub fn ticked_is_settled()
    ensures { TickedLaw }
{}

/// So does the running thread's wait for a line.
pub fn waiting_line_is_settled()
    ensures { WaitingLineLaw }
{}

/// And the waking of all that wait for one.
pub fn woken_line_is_settled()
    ensures { WokenLineLaw }
{}

/// The first sleepers, taken out of their list, are distinct threads in neither queue.
pub fn sleepers_may_wake()
    ensures { SleepersLaw }
{}

/// So are those that wait for a line.
pub fn waiters_may_wake()
    ensures { WaitersLaw }
{}

/// When the first of such threads goes to the end of the ready list, the others stay such.
pub fn next_may_wake()
    ensures { NextLaw }
{}

/// At a tick exactly the sleepers whose time has come wake, in their order, and nothing else moves.
pub fn tick_wakes_the_due()
    ensures { TickLaw }
{}

/// Exactly those that wait for a line wake with it, in their order, and nothing else moves.
pub fn line_wakes_its_waiters()
    ensures { LineLaw }
{}
