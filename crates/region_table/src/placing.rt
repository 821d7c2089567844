//! Placing: the least free number of the kind, and the lowest gaps of the two pools.

ghost use Rattle.std.specs.Prelude.{◌≡◌, ◌%◌, ◌+◌, ◌<◌, ◌≤◌, ◌++◌, [], ◌∷◌, length, IfOk, IfErr, OnErr, IfSome, Some, Ok};
ghost use Rattle.kernel_model.specs.Layout.{kernel_of};
ghost use Rattle.kernel_model.specs.Queues.{Leaves};
ghost use Rattle.place_model.specs.Placing.{placing, placed_among, with_places, pool_range, ranges, range_in, free_from, free_number, with_number, with_code, domain_rows, first_number, number_count, IsLeastFree, IsPlacing, IsRefusal};
ghost use Rattle.place_model.specs.Settled.{IsSettled};
ghost use Rattle.code_model.specs.declared.object.TheConstants.{CODE_BYTES_MAX};

use crate::rows::{domain_rows, fill};
use crate::search::place_in;
use arrayvec::ArrayVec;
use code_model::parts::Kind;
use flat_mem::FlatMem;
use kernel_model::map::{
    APPS, CODE_POOL, CODE_POOL_END, DATA_POOL, DATA_POOL_END, DOMAINS, MODULES,
};
use kernel_model::states::FREE;
use place_model::laws::{numbers_are_least, placings_are_lowest, placings_keep_settled};
use place_model::places::{DomainRow, NoRoom, Pool, Range, Regions};

/// Places so many bytes of code and of region, both even, the code at most 16,384 bytes: takes the least free row of the kind and
/// the lowest gap of each pool that fits, and fills the row. A gap is a maximal run of addresses that no domain has. Refusals leave
/// memory as it was, and name the first cause that stands: no row of the kind is free, no gap is as long as the code, or none is as
/// long as the region, with the length of the longest gap.
pub fn place(m: &mut FlatMem, kind: Kind, code_len: u16, region_len: u32) -> Result<Regions, NoRoom>
    requires code_even { code_len % 2 ≡ 0 }
    requires code_some { 2 ≤ code_len }
    requires code_most { code_len ≤ CODE_BYTES_MAX }
    requires region_even { region_len % 2 ≡ 0 }
    ensures answer { result ≡ placing (kernel_of m.old) kind code_len region_len }
    ensures number { IfOk result (λ r. IsLeastFree (domain_rows (kernel_of m.old)) (first_number kind) (number_count kind) r.dom) }
    ensures lowest { IfOk result (λ r. IsPlacing (kernel_of m.old) kind code_len region_len r) }
    ensures cause { IfErr result (λ e. IsRefusal (kernel_of m.old) kind code_len region_len e) }
    ensures placed { IfOk result (λ r. Leaves m.old m.new (with_places (kernel_of m.old) r)) }
    ensures refused { OnErr result (m.new ≡ m.old) }
    ensures keeps { IsSettled m.old → IsSettled m.new }
{
    numbers_are_least();
    placings_are_lowest();
    placings_keep_settled();
    let rows = domain_rows(m);
    match placed_among(rows.as_slice(), kind, code_len, region_len) {
        Ok(r) => {
            fill(m, &r);
            Ok(r)
        }
        Err(cause) => Err(cause),
    }
}

/// The least number of the kind whose row is free, 0 to 7 for an application and 8 to 11 for a module.
pub fn free_row(m: &FlatMem, kind: Kind) -> Option<u8>
    ensures { result ≡ free_number (domain_rows (kernel_of m.now)) kind }
{
    free_number(domain_rows(m).as_slice(), kind)
}

/// The number and the places among the twelve rows, or the first cause that there are none.
fn placed_among(
    rows: &[DomainRow],
    kind: Kind,
    code_len: u16,
    region_len: u32,
) -> Result<Regions, NoRoom>
    requires { length rows.now ≡ 12 }
    ensures answer { result ≡ placed_among rows.now kind code_len region_len }
    ensures number { IfOk result (λ r. r.dom < 12) }
{
    match free_number(rows, kind) {
        Some(dom) => placed_at(rows, dom, code_len, region_len),
        None => Err(NoRoom::Slots),
    }
}

/// The same with the number.
fn placed_at(rows: &[DomainRow], dom: u8, code_len: u16, region_len: u32) -> Result<Regions, NoRoom>
    requires { length rows.now ≡ 12 }
    ensures answer { result ≡ with_number rows.now code_len region_len (Some dom) }
    ensures number { IfOk result (λ r. r.dom ≡ dom) }
{
    let need = u32::from(code_len);
    let code = ranges(Pool::Code, rows);
    match place_in(&pool_range(Pool::Code), &code, need) {
        Ok(code_lo) => region_placed(rows, dom, code_lo, code_len, region_len),
        Err(gap) => Err(NoRoom::Code {
            need,
            gap: u32::from(gap),
        }),
    }
}

/// The same with the number and the code's place.
fn region_placed(
    rows: &[DomainRow],
    dom: u8,
    code_lo: u16,
    code_len: u16,
    region_len: u32,
) -> Result<Regions, NoRoom>
    requires size { length rows.now ≡ 12 }
    requires room { code_lo + code_len < 65536 }
    ensures answer { result ≡ with_code rows.now dom code_len region_len (Ok code_lo) }
    ensures number { IfOk result (λ r. r.dom ≡ dom) }
{
    let region = ranges(Pool::Data, rows);
    match place_in(&pool_range(Pool::Data), &region, region_len) {
        Ok(lo) => Ok(Regions {
            dom,
            code_lo,
            code_hi: code_lo + code_len,
            lo,
            hi: lo + region_len as u16,
        }),
        Err(gap) => Err(NoRoom::Region {
            need: region_len,
            gap: u32::from(gap),
        }),
    }
}

/// The addresses of a pool.
fn pool_range(pool: Pool) -> Range
    ensures { result ≡ pool_range pool }
{
    match pool {
        Pool::Code => Range {
            from: CODE_POOL,
            to: CODE_POOL_END,
        },
        Pool::Data => Range {
            from: DATA_POOL,
            to: DATA_POOL_END,
        },
    }
}

/// What the domains have of a pool.
fn ranges(pool: Pool, rows: &[DomainRow]) -> ArrayVec<Range, DOMAINS>
    requires { length rows.now ≤ 12 }
    ensures { result.items ≡ ranges pool rows.now }
{
    let mut ranges = ArrayVec::new();
    for row in rows {
        push_range(&mut ranges, pool, row);
    }
    ranges
}

/// Appends what a domain has of a pool, if its row is in use.
fn push_range(list: &mut ArrayVec<Range, DOMAINS>, pool: Pool, row: &DomainRow)
    requires { length list.old.items < 12 }
    ensures items { list.new.items ≡ list.old.items ++ ranges pool (row.now ∷ []) }
    ensures size { length list.new.items ≤ length list.old.items + 1 }
{
    if row.state != FREE {
        list.push(range_in(pool, row));
    }
}

/// What a domain has of a pool.
fn range_in(pool: Pool, row: &DomainRow) -> Range
    ensures { result ≡ range_in pool row.now }
{
    match pool {
        Pool::Code => row.code,
        Pool::Data => row.region,
    }
}

/// The least number of the kind whose row is free.
fn free_number(rows: &[DomainRow], kind: Kind) -> Option<u8>
    requires { length rows.now ≡ 12 }
    ensures answer { result ≡ free_number rows.now kind }
    ensures below { IfSome result (λ n. n < 12) }
{
    match kind {
        Kind::App => free_from(rows, 0, APPS),
        Kind::Module => free_from(rows, APPS, MODULES),
    }
}

/// The least of so many numbers from one on whose row is free.
fn free_from(rows: &[DomainRow], first: u8, count: u8) -> Option<u8>
    requires inside { first + count ≤ length rows.now }
    requires size { length rows.now ≤ 12 }
    ensures answer { result ≡ free_from rows.now first count }
    ensures below { IfSome result (λ n. n < first + count) }
{
    for number in first..first + count {
        if rows[usize::from(number)].state == FREE {
            return Some(number);
        }
    }
    None
}
