//! The rows of the domains: read once, and one of them filled.

ghost use Rattle.std.specs.Prelude.{◌≡◌, ◌+◌, ◌-◌, ◌<◌, ◌≤◌, ◌++◌, length, map};
ghost use Rattle.kernel_model.specs.Layout.{kernel_of};
ghost use Rattle.kernel_model.specs.Queues.{Leaves};
ghost use Rattle.place_model.specs.Placing.{app_domain, module_domain, domain_rows, domain_at, placed_app, placed_module, with_places};

use arrayvec::ArrayVec;
use flat_mem::FlatMem;
use kernel_model::map::{APPS, DOMAINS, MODULES};
use kernel_model::states::LIVE;
use kernel_tables::laws::kernel_fits;
use kernel_tables::{AppRow, ModuleRow, app, module, set_app, set_module};
use place_model::places::{DomainRow, Range, Regions};

/// The twelve rows, by the domain's number.
pub fn domain_rows(m: &FlatMem) -> ArrayVec<DomainRow, DOMAINS>
    ensures value { result.items ≡ domain_rows (kernel_of m.now) }
    ensures size { length result.items ≡ 12 }
{
    let mut rows = ArrayVec::new();
    push_apps(m, &mut rows);
    push_modules(m, &mut rows);
    rows
}

/// Appends the applications' rows.
fn push_apps(m: &FlatMem, rows: &mut ArrayVec<DomainRow, DOMAINS>)
    requires { length rows.old.items + 8 ≤ 12 }
    ensures items { rows.new.items ≡ rows.old.items ++ map app_domain (kernel_of m.now).apps }
    ensures size { length rows.new.items ≡ length rows.old.items + 8 }
{
    kernel_fits(m);
    for a in 0..APPS {
        rows.push(app_domain(&app(m, a)));
    }
}

/// Appends the modules' rows.
fn push_modules(m: &FlatMem, rows: &mut ArrayVec<DomainRow, DOMAINS>)
    requires { length rows.old.items + 4 ≤ 12 }
    ensures items { rows.new.items ≡ rows.old.items ++ map module_domain (kernel_of m.now).modules }
    ensures size { length rows.new.items ≡ length rows.old.items + 4 }
{
    kernel_fits(m);
    for i in 0..MODULES {
        rows.push(module_domain(&module(m, i)));
    }
}

/// What an application's row says of it as a domain.
fn app_domain(row: &AppRow) -> DomainRow
    ensures { result ≡ app_domain row.now }
{
    DomainRow {
        state: row.state,
        code: Range {
            from: row.code_lo,
            to: row.code_hi,
        },
        region: Range {
            from: row.lo,
            to: row.hi,
        },
    }
}

/// What a module's row says of it as a domain.
fn module_domain(row: &ModuleRow) -> DomainRow
    ensures { result ≡ module_domain row.now }
{
    DomainRow {
        state: row.state,
        code: Range {
            from: row.code_lo,
            to: row.code_hi,
        },
        region: Range {
            from: row.lo,
            to: row.hi,
        },
    }
}

/// The row of the domain of a number below 12.
pub fn domain_at(m: &FlatMem, dom: u8) -> DomainRow
    requires { dom < 12 }
    ensures { result ≡ domain_at (kernel_of m.now) dom }
{
    if dom < APPS {
        app_domain(&app(m, dom))
    } else {
        module_domain(&module(m, dom - APPS))
    }
}

/// Makes the row of the domain live, with its places.
pub fn fill(m: &mut FlatMem, r: &Regions)
    requires { r.now.dom < 12 }
    ensures { Leaves m.old m.new (with_places (kernel_of m.old) r.now) }
{
    if r.dom < APPS {
        set_app(m, r.dom, &app_row(r));
    } else {
        set_module(m, r.dom - APPS, &module_row(r));
    }
}

/// The row of an application with these places. What it has beside them isn't known here, and is 0.
fn app_row(r: &Regions) -> AppRow
    ensures { result ≡ placed_app r.now }
{
    AppRow {
        state: LIVE,
        code_lo: r.code_lo,
        code_hi: r.code_hi,
        lo: r.lo,
        hi: r.hi,
        z: 0,
        stack: 0,
        threads: 0,
    }
}

/// The row of a module with these places.
fn module_row(r: &Regions) -> ModuleRow
    ensures { result ≡ placed_module r.now }
{
    ModuleRow {
        state: LIVE,
        code_lo: r.code_lo,
        code_hi: r.code_hi,
        lo: r.lo,
        hi: r.hi,
    }
}
