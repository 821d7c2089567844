//! Placing objects and starting their threads.

ghost use Rattle.std.specs.Prelude.{◌≡◌, ◌<◌, ◌+◌, ℕ, List, length, replicate, slice_get, Some, IfOk, IfErr, OnOk, MatchResult, Ok, Err};
ghost use Rattle.code_model.specs.Verdicts.{IsAccepted};
ghost use Rattle.kernel_model.specs.Layout.{kernel_of};
ghost use Rattle.kernel_model.specs.Queues.{Leaves};
ghost use Rattle.load_model.specs.Loading.{Loaded, loaded_kernel, places_of};
ghost use Rattle.place_model.specs.declared.places.Regions.{Regions};
ghost use Rattle.place_model.specs.Settled.{IsSettled};
ghost use Rattle.node_model.specs.BootCode.{IsCleared};
ghost use Rattle.node_model.specs.Booting.{begun_system, booted};
ghost use Rattle.node_model.specs.Laws.{IsLoading};
ghost use Rattle.node_model.specs.Nodes.{IsBootRefusal};
ghost use Rattle.node_model.specs.Systems.{System};
ghost use Rattle.retos_node.specs.Boots.{IsStarting, IsUnderway, StartsTo};

use crate::objects::ObjectList;
use code_model::marks::Marks;
use code_model::object::Object;
use code_model::parts::Kind;
use flat_mem::FlatMem;
use kernel_model::map::APPS;
use kernel_model::states::FREE;
use kernel_modules::load_module;
use kernel_tables::{app, clear};
use kernel_threads::laws::contexts_are_taken;
use kernel_threads::{dispatch, start};
use msp_machine::Regs;
use node_laws::boot::{boot_begins, boot_goes_on, threads_begin};
use node_laws::code::memory_is_shown;
use node_laws::{dispatch_is_sound, started_is_sound};
use place_model::places::NoRoom;
use reloc_loader::load;
use std::alloc::{AllocError, Global};

/// The number of the object of a domain that isn't there.
pub(crate) const NOBODY: u8 = 255;

/// Why objects aren't placed: the first of them for which there is no room, and why.
#[derive(Clone, Copy, Drop)]
pub(crate) struct Unplaced {
    pub object: u8,
    pub cause: NoRoom,
}

/// A memory with the empty kernel and the vectors, and else 0.
pub(crate) fn cleared(alloc: Global) -> Result<FlatMem, AllocError>
    ensures { IfOk result (λ m. IsCleared (replicate 65536 0) m) }
{
    let mut m = FlatMem::new(alloc)?;
    clear(&mut m);
    m.is_flat();
    Ok(m)
}

/// Places the objects in their order, and notes whose domains they are; or tells the first that doesn't fit.
pub(crate) fn place_all(
    m: &mut FlatMem,
    owner: &mut [u8; 12],
    objects: &ObjectList,
) -> Result<(), Unplaced>
    requires { IsUnderway m.old owner.old objects.now 0 }
    ensures placed { OnOk result (IsUnderway m.new owner.new objects.now (length objects.now)) }
    ensures refused { IfErr result (λ e. IsBootRefusal (booted objects.now) e.object e.cause) }
{
    objects.are_accepted();
    for i in 0..objects.len() {
        match place_one(m, owner, objects, i) {
            Ok(()) => {}
            Err(cause) => {
                return Err(Unplaced {
                    object: i as u8,
                    cause,
                });
            }
        }
    }
    Ok(())
}

/// Places the object with this number in the list.
fn place_one(
    m: &mut FlatMem,
    owner: &mut [u8; 12],
    objects: &ObjectList,
    i: usize,
) -> Result<(), NoRoom>
    requires number { i < length objects.now }
    requires underway { IsUnderway m.old owner.old objects.now i }
    ensures placed { OnOk result (IsUnderway m.new owner.new objects.now (i + 1)) }
    ensures refused { IfErr result (λ cause. IsBootRefusal (booted objects.now) i cause) }
{
    boot_begins();
    boot_goes_on();
    memory_is_shown();
    objects.are_accepted();
    let item = objects.item(i);
    match load_object(m, &item.object, &item.marks) {
        Ok(n) => {
            m.is_flat();
            owner[n as usize] = i as u8;
            Ok(())
        }
        Err(cause) => Err(cause),
    }
}

/// Loads an object of either kind, and answers its number.
fn load_object(m: &mut FlatMem, o: &Object, marks: &Marks) -> Result<u8, NoRoom>
    requires accepted { IsAccepted o.now marks.now }
    requires settled { IsSettled m.old }
    ensures answer { MatchResult result
        (λ n. (r : Regions) × (places_of (kernel_of m.old) o.now ≡ Ok r) × (r.dom ≡ n)
        × Loaded m.old m.new (loaded_kernel (o.now).kind (kernel_of m.old) o.now r)
        (record { object = o.now; units = marks.now }) r)
        (λ e. (places_of (kernel_of m.old) o.now ≡ Err e) × (m.new ≡ m.old)) }
    ensures number { IfOk result (λ n. n < 12) }
{
    match o.kind {
        Kind::App => load(m, o, marks),
        Kind::Module => load_module(m, o, marks),
    }
}

/// Starts thread 0 of each application, in rising number, and lets one run.
pub(crate) fn begin(m: &mut FlatMem, r: &mut Regs)
    requires { IsStarting m.old 0 }
    ensures left { (s : System) → IsLoading s → kernel_of m.old ≡ s.kernel → Leaves m.old m.new (begun_system s).kernel }
    ensures registers { (s : System) → IsLoading s → kernel_of m.old ≡ s.kernel → r.new ≡ (begun_system s).context }
{
    threads_begin();
    started_is_sound();
    dispatch_is_sound();
    contexts_are_taken();
    start_all(m);
    dispatch(m, r, None);
}

/// Starts thread 0 of each application, in rising number.
fn start_all(m: &mut FlatMem)
    requires { IsStarting m.old 0 }
    ensures starting { IsStarting m.new 8 }
    ensures starts { StartsTo m.old m.new 0 8 }
{
    for a in 0..APPS {
        start_next(m, a);
    }
}

/// Starts thread 0 of the application with this number, if there is one.
fn start_next(m: &mut FlatMem, a: u8)
    requires number { a < 8 }
    requires starting { IsStarting m.old a }
    ensures starting { IsStarting m.new (a + 1) }
    ensures starts { StartsTo m.old m.new a (a + 1) }
{
    threads_begin();
    if app(m, a).state != FREE {
        start(m, a);
    }
}
