//! Loading.

ghost use Rattle.std.specs.Prelude.{◌≡◌, MatchResult, IfOk, IfErr, OnErr, Err, Ok};
ghost use Rattle.kernel_model.specs.declared.kinds.Kind.TheVariants.{App, Module};
ghost use Rattle.code_model.specs.Verdicts.{IsAccepted};
ghost use Rattle.kernel_model.specs.Layout.{kernel_of};
ghost use Rattle.kernel_model.specs.Queues.{Leaves};
ghost use Rattle.place_model.specs.declared.places.Regions.{Regions};
ghost use Rattle.place_model.specs.Placing.{placing, with_places, domain_rows, first_number, number_count, IsLeastFree, IsPlacing, IsRefusal};
ghost use Rattle.place_model.specs.Settled.{IsSettled};
ghost use Rattle.load_model.specs.Domains.{code_length, region_length};
ghost use Rattle.load_model.specs.Loading.{places_of, loaded_kernel, placed_row, ArePlaces, Loaded};
ghost use Rattle.reloc_loader.specs.Loading.{with_row, HasImages};

use crate::rows::{code_bytes, put_rows, region_bytes};
use crate::sections::{Section, put_section};
use code_model::marks::Marks;
use code_model::object::Object;
use flat_mem::FlatMem;
use load_model::{image_lengths, loaded_is_settled, region_is_words, tables_stand_apart};
use place_model::laws::{placings_are_lowest, placings_keep_settled};
use region_table::{NoRoom, Regions, place, set_marks};

/// Loads an application that was accepted with these marks, and answers its number, the least free one of 0 to 7. It gets the
/// lowest gap of each pool that fits. Its row gets the places, the size of the static part, the stack's size and the number of
/// threads; register R0 in the row of its thread 0 keeps the entry's address; the bits of its code become the marks; its code
/// and its initialised bytes stand relocated, and the rest of its region is 0. Refusals, in the order slots, code, region,
/// leave memory as it was: no row is free, or no gap is as long, with the length of the longest. Memory is settled before and
/// after: among ranges with even ends the lowest gaps are even too.
pub fn load(m: &mut FlatMem, o: &Object, marks: &Marks) -> Result<u8, NoRoom>
    requires app { (o.now).kind ≡ App }
    requires accepted { IsAccepted o.now marks.now }
    requires settled { IsSettled m.old }
    ensures answer { MatchResult result
        (λ n. (r : Regions) × (places_of (kernel_of m.old) o.now ≡ Ok r) × (r.dom ≡ n)
        × Loaded m.old m.new (loaded_kernel App (kernel_of m.old) o.now r) (record { object = o.now; units = marks.now }) r)
        (λ e. (places_of (kernel_of m.old) o.now ≡ Err e) × (m.new ≡ m.old)) }
    ensures number { IfOk result (λ n. IsLeastFree (domain_rows (kernel_of m.old)) (first_number App) (number_count App) n) }
    ensures lowest { IfOk result (λ n. (r : Regions) × (r.dom ≡ n) × IsPlacing (kernel_of m.old) App (code_length o.now) (region_length o.now) r
        × Loaded m.old m.new (loaded_kernel App (kernel_of m.old) o.now r) (record { object = o.now; units = marks.now }) r) }
    ensures cause { IfErr result (λ e. IsRefusal (kernel_of m.old) App (code_length o.now) (region_length o.now) e) }
    ensures keeps { IsSettled m.new }
{
    match loaded(m, o, marks) {
        Err(cause) => Err(cause),
        Ok(r) => Ok(r.dom),
    }
}

/// Loads a module that was accepted with these marks, without its functions, and answers its number, the least free one of 8 to
/// 11. Its places, marks, code and region, and its refusals, are as an application's, and its row gets the places. Its region
/// is its static part alone, and where that is empty it stands at 2000. Memory is settled before and after.
pub fn put_module(m: &mut FlatMem, o: &Object, marks: &Marks) -> Result<u8, NoRoom>
    requires of_module { (o.now).kind ≡ Module }
    requires accepted { IsAccepted o.now marks.now }
    requires settled { IsSettled m.old }
    ensures answer { MatchResult result
        (λ n. (r : Regions) × (placing (kernel_of m.old) Module (code_length o.now) (region_length o.now) ≡ Ok r) × (r.dom ≡ n)
        × Loaded m.old m.new (placed_row (kernel_of m.old) r) (record { object = o.now; units = marks.now }) r)
        (λ e. (placing (kernel_of m.old) Module (code_length o.now) (region_length o.now) ≡ Err e) × (m.new ≡ m.old)) }
    ensures number { IfOk result (λ n. IsLeastFree (domain_rows (kernel_of m.old)) (first_number Module) (number_count Module) n) }
    ensures lowest { IfOk result (λ n. (r : Regions) × (r.dom ≡ n) × IsPlacing (kernel_of m.old) Module (code_length o.now) (region_length o.now) r
        × Loaded m.old m.new (placed_row (kernel_of m.old) r) (record { object = o.now; units = marks.now }) r) }
    ensures cause { IfErr result (λ e. IsRefusal (kernel_of m.old) Module (code_length o.now) (region_length o.now) e) }
    ensures keeps { IsSettled m.new }
{
    match loaded(m, o, marks) {
        Err(cause) => Err(cause),
        Ok(places) => Ok(places.dom),
    }
}

/// Loads any object with any marks, accepted or not, a module without its functions, as `load` and `put_module` load accepted ones,
/// and answers its places: the least free number of its kind, and the lowest gaps that fit. Refusals leave memory as it was, and
/// memory is settled before and after.
pub fn loaded(m: &mut FlatMem, o: &Object, marks: &Marks) -> Result<Regions, NoRoom>
    requires settled { IsSettled m.old }
    ensures answer { result ≡ placing (kernel_of m.old) (o.now).kind (code_length o.now) (region_length o.now) }
    ensures number { IfOk result (λ r. IsLeastFree (domain_rows (kernel_of m.old)) (first_number (o.now).kind) (number_count (o.now).kind) r.dom) }
    ensures lowest { IfOk result (λ r. IsPlacing (kernel_of m.old) (o.now).kind (code_length o.now) (region_length o.now) r) }
    ensures cause { IfErr result (λ e. IsRefusal (kernel_of m.old) (o.now).kind (code_length o.now) (region_length o.now) e) }
    ensures loaded { IfOk result (λ r.
        Loaded m.old m.new (with_row (o.now).kind (kernel_of m.old) o.now r) (record { object = o.now; units = marks.now }) r) }
    ensures refused { OnErr result (m.new ≡ m.old) }
    ensures keeps { IsSettled m.new }
{
    m.is_flat();
    tables_stand_apart();
    loaded_is_settled();
    match place_object(m, o) {
        Err(cause) => Err(cause),
        Ok(r) => {
            put_rows(m, o, &r);
            m.is_flat();
            fill(m, o, marks, &r);
            Ok(r)
        }
    }
}

/// Places an object: its row has the places, and nothing else.
fn place_object(m: &mut FlatMem, o: &Object) -> Result<Regions, NoRoom>
    requires settled { IsSettled m.old }
    ensures answer { result ≡ placing (kernel_of m.old) (o.now).kind (code_length o.now) (region_length o.now) }
    ensures number { IfOk result (λ r. IsLeastFree (domain_rows (kernel_of m.old)) (first_number (o.now).kind) (number_count (o.now).kind) r.dom) }
    ensures lowest { IfOk result (λ r. IsPlacing (kernel_of m.old) (o.now).kind (code_length o.now) (region_length o.now) r) }
    ensures cause { IfErr result (λ e. IsRefusal (kernel_of m.old) (o.now).kind (code_length o.now) (region_length o.now) e) }
    ensures places { IfOk result (λ r. ArePlaces o.now r) }
    ensures row { IfOk result (λ r. Leaves m.old m.new (with_places (kernel_of m.old) r)) }
    ensures refused { OnErr result (m.new ≡ m.old) }
{
    placings_are_lowest();
    placings_keep_settled();
    place(m, o.kind, code_bytes(o), region_bytes(o))
}

/// Writes the marks, the code and the region of an object that is placed.
fn fill(m: &mut FlatMem, o: &Object, marks: &Marks, r: &Regions)
    requires { ArePlaces o.now r.now }
    ensures { Loaded m.old m.new (kernel_of m.old) (record { object = o.now; units = marks.now }) r.now }
{
    set_marks(m, r, marks);
    put_images(m, o, r);
}

/// Writes the code and the region.
fn put_images(m: &mut FlatMem, o: &Object, r: &Regions)
    requires { ArePlaces o.now r.now }
    ensures { HasImages m.old m.new o.now r.now }
{
    m.is_flat();
    image_lengths();
    region_is_words();
    let code = Section {
        in_code: true,
        at: r.code_lo,
        words: o.code.len(),
    };
    let next = put_section(m, o, r, &code, 0);
    let region = Section {
        in_code: false,
        at: r.lo,
        words: usize::from((r.hi - r.lo) / 2),
    };
    let _all = put_section(m, o, r, &region, next);
}
