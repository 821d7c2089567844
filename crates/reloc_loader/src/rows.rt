//! The lengths of an object's code and region, and an application's rows.

ghost use Rattle.std.specs.Prelude.{◌≡◌, ◌%◌, ◌≤◌};
ghost use Rattle.kernel_model.specs.declared.kinds.Kind.TheVariants.{App};
ghost use Rattle.kernel_model.specs.Kernel.{Kernel};
ghost use Rattle.kernel_model.specs.Layout.{kernel_of};
ghost use Rattle.kernel_model.specs.Queues.{Leaves};
ghost use Rattle.place_model.specs.Placing.{with_places};
ghost use Rattle.load_model.specs.Domains.{code_length, region_length};
ghost use Rattle.load_model.specs.Loading.{loaded_app, ArePlaces};
ghost use Rattle.reloc_loader.specs.Loading.{with_row};
ghost use Rattle.code_model.specs.declared.object.TheConstants.{CODE_BYTES_MAX};

use code_model::object::Object;
use code_model::parts::Kind;
use flat_mem::FlatMem;
use kernel_model::map::THREADS_OF_APP;
use kernel_model::states::LIVE;
use kernel_tables::{AppRow, set_app, set_register};
use load_model::regions_are_even;
use msp_encode::registers::PC;
use region_table::Regions;

/// The bytes of the code.
pub fn code_bytes(o: &Object) -> u16
    ensures size { result ≡ code_length o.now }
    ensures least { 2 ≤ result }
    ensures most { result ≤ CODE_BYTES_MAX }
{
    2 * o.code.len() as u16
}

/// The bytes of the region: the static part, and a stack for each thread. A module has no threads.
pub fn region_bytes(o: &Object) -> u32
    ensures size { result ≡ region_length o.now }
    ensures even { result % 2 ≡ 0 }
{
    regions_are_even();
    u32::from(o.static_bytes()) + u32::from(o.threads) * u32::from(o.stack)
}

/// Fills the row of an object that is placed. A module's row has its places, and gets nothing more.
pub fn put_rows(m: &mut FlatMem, o: &Object, r: &Regions)
    requires { ArePlaces o.now r.now }
    ensures { (k : Kernel) → kernel_of m.old ≡ with_places k r.now → Leaves m.old m.new (with_row (o.now).kind k o.now r.now) }
{
    match o.kind {
        Kind::App => put_app(m, o, r),
        Kind::Module => {}
    }
}

/// Fills an application's row, and keeps the entry's address in the row of its thread 0.
fn put_app(m: &mut FlatMem, o: &Object, r: &Regions)
    requires app { (o.now).kind ≡ App }
    requires places { ArePlaces o.now r.now }
    ensures { Leaves m.old m.new (loaded_app (kernel_of m.old) o.now r.now) }
{
    set_app(
        m,
        r.dom,
        &AppRow {
            state: LIVE,
            code_lo: r.code_lo,
            code_hi: r.code_hi,
            lo: r.lo,
            hi: r.hi,
            z: o.static_bytes(),
            stack: o.stack,
            threads: u16::from(o.threads),
        },
    );
    set_register(m, THREADS_OF_APP * r.dom, PC, r.code_lo + o.entry);
}
