//! A module is loaded, with its functions.

ghost use Rattle.std.specs.Prelude.{◌≡◌, ◌<◌, ◌+◌, ◌≤◌, ℕ, MatchResult, IfOk, IfErr, OnOk, Some, Err, Ok};
ghost use Rattle.std.specs.List.{fold};
ghost use Rattle.code_model.specs.Verdicts.{IsAccepted};
ghost use Rattle.kernel_model.specs.declared.kinds.Kind.TheVariants.{Module};
ghost use Rattle.kernel_model.specs.Kernel.{module_at};
ghost use Rattle.kernel_model.specs.Layout.{kernel_of};
ghost use Rattle.kernel_model.specs.Queues.{Leaves};
ghost use Rattle.place_model.specs.declared.places.Regions.{Regions};
ghost use Rattle.place_model.specs.Placing.{placing, domain_rows, first_number, number_count, IsLeastFree, IsPlacing, IsRefusal};
ghost use Rattle.place_model.specs.Settled.{IsSettled};
ghost use Rattle.load_model.specs.Domains.{code_length, region_length};
ghost use Rattle.load_model.specs.Loading.{places_of, loaded_kernel, with_export, taken_number, unless_taken, Loaded};
ghost use Rattle.kernel_model.specs.Modules.{HasKnownModules};
ghost use Rattle.kernel_modules.specs.Refusals.{NoneTaken, IsModuleRefusal};

use code_model::marks::Marks;
use code_model::object::Object;
use code_model::parts::Kind;
use flat_mem::FlatMem;
use kernel_model::map::APPS;
use kernel_tables::{FnRow, function, module, set_function};
use kernel_threads::NONE;
use load_model::{loaded_is_settled, tables_stand_apart};
use place_model::laws::{numbers_are_least, placings_are_lowest};
use region_table::{NoRoom, free_row};
use reloc_loader::put_module;

/// Loads a module that was accepted with these marks, with its functions, of which no module has exported one, and answers its
/// number, the least free one of 8 to 11. It gets the lowest gap of each pool that fits. A function's row gets the module and
/// the address that its offset is at. Refusals leave memory as it was: first that each module's row is in use, then that a
/// function of the module is one that a live or ended module has exported, with the least such number, then that no gap is as
/// long as the code, and then that none is as long as the region, with the length of the longest. Memory is settled before and
/// after.
pub fn load_module(m: &mut FlatMem, o: &Object, marks: &Marks) -> Result<u8, NoRoom>
    requires of_module { (o.now).kind ≡ Module }
    requires accepted { IsAccepted o.now marks.now }
    requires settled { IsSettled m.old }
    ensures answer { MatchResult result
        (λ n. (r : Regions) × (places_of (kernel_of m.old) o.now ≡ Ok r) × (r.dom ≡ n)
        × Loaded m.old m.new (loaded_kernel Module (kernel_of m.old) o.now r) (record { object = o.now; units = marks.now }) r)
        (λ e. (places_of (kernel_of m.old) o.now ≡ Err e) × (m.new ≡ m.old)) }
    ensures number { IfOk result (λ n. IsLeastFree (domain_rows (kernel_of m.old)) (first_number Module) (number_count Module) n) }
    ensures lowest { IfOk result (λ n. (r : Regions) × (r.dom ≡ n) × IsPlacing (kernel_of m.old) Module (code_length o.now) (region_length o.now) r
        × Loaded m.old m.new (loaded_kernel Module (kernel_of m.old) o.now r) (record { object = o.now; units = marks.now }) r) }
    ensures untaken { OnOk result (NoneTaken (kernel_of m.old) o.now) }
    ensures cause { IfErr result (λ e. IsModuleRefusal (kernel_of m.old) o.now e) }
    ensures known { HasKnownModules (kernel_of m.old) → HasKnownModules (kernel_of m.new) }
    ensures settled { IsSettled m.new }
{
    numbers_are_least();
    placings_are_lowest();
    match taken_number(m, o) {
        Some(number) => Err(cause_where_taken(m, number)),
        None => put_with_functions(m, o, marks),
    }
}

/// Loads a module with its functions, of which none is taken.
fn put_with_functions(m: &mut FlatMem, o: &Object, marks: &Marks) -> Result<u8, NoRoom>
    requires of_module { (o.now).kind ≡ Module }
    requires accepted { IsAccepted o.now marks.now }
    requires settled { IsSettled m.old }
    ensures answer { MatchResult result
        (λ n. (r : Regions) × (placing (kernel_of m.old) Module (code_length o.now) (region_length o.now) ≡ Ok r) × (r.dom ≡ n)
        × Loaded m.old m.new (loaded_kernel Module (kernel_of m.old) o.now r) (record { object = o.now; units = marks.now }) r)
        (λ e. (placing (kernel_of m.old) Module (code_length o.now) (region_length o.now) ≡ Err e) × (m.new ≡ m.old)) }
    ensures number { IfOk result (λ n. IsLeastFree (domain_rows (kernel_of m.old)) (first_number Module) (number_count Module) n) }
    ensures lowest { IfOk result (λ n. (r : Regions) × (r.dom ≡ n) × IsPlacing (kernel_of m.old) Module (code_length o.now) (region_length o.now) r
        × Loaded m.old m.new (loaded_kernel Module (kernel_of m.old) o.now r) (record { object = o.now; units = marks.now }) r) }
    ensures cause { IfErr result (λ e. IsRefusal (kernel_of m.old) Module (code_length o.now) (region_length o.now) e) }
    ensures known { HasKnownModules (kernel_of m.old) → HasKnownModules (kernel_of m.new) }
    ensures settled { IsSettled m.new }
{
    loaded_is_settled();
    tables_stand_apart();
    match put_module(m, o, marks) {
        Err(cause) => Err(cause),
        Ok(n) => {
            m.is_flat();
            put_functions(m, o, n - APPS);
            m.is_flat();
            Ok(n)
        }
    }
}

/// The least number of the module's functions that a module has exported.
fn taken_number(m: &FlatMem, o: &Object) -> Option<u8>
    ensures { result ≡ taken_number (kernel_of m.now) o.now }
{
    for export in o.exports.as_slice() {
        if function(m, export.number).module != NONE {
            return Some(export.number);
        }
    }
    None
}

/// Why a module is refused of which the function with this number is taken: because each row is in use, or else because it is.
fn cause_where_taken(m: &FlatMem, number: u8) -> NoRoom
    ensures { (c r : ℕ) → unless_taken (Some number) (placing (kernel_of m.now) Module c r) ≡ Err result }
{
    match free_row(m, Kind::Module) {
        Some(_) => NoRoom::Taken { number },
        None => NoRoom::Slots,
    }
}

/// Writes the functions of the module with this number, below 4, which is placed.
fn put_functions(m: &mut FlatMem, o: &Object, i: u8)
    requires number { i < 4 }
    requires room { (module_at (kernel_of m.old) i).code_lo + code_length o.now ≤ 65536 }
    ensures { Leaves m.old m.new (fold (with_export i (module_at (kernel_of m.old) i).code_lo) (kernel_of m.old) (o.now).exports) }
{
    let at = module(m, i).code_lo;
    for export in o.exports.as_slice() {
        let row = FnRow {
            module: u16::from(i),
            address: at + export.offset,
        };
        set_function(m, export.number, &row);
    }
}
