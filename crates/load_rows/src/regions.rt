//! Places and marks worked out by hand, from the pools' addresses.

use code_model::parts::Kind;
use flat_mem::FlatMem;
use kernel_fixture::memories::marks_at;
use kernel_tables::{AppRow, ModuleRow, app, clear, module, set_app, set_module};
use region_table::{NoRoom, Regions, is_marked, place, set_marks};
use std::test::Fail;

/// An application's row in use with these places.
fn app_row(code_lo: u16, code_hi: u16, lo: u16, hi: u16) -> AppRow {
    AppRow {
        state: 1,
        code_lo,
        code_hi,
        lo,
        hi,
        z: 0,
        stack: 0,
        threads: 0,
    }
}

/// Places code and a region whose lengths are those of objects. None where they aren't.
fn try_place(
    m: &mut FlatMem,
    kind: Kind,
    code_len: u16,
    region_len: u32,
) -> Option<Result<Regions, NoRoom>> {
    if code_len < 2 || code_len > 16384 || code_len % 2 != 0 || region_len % 2 != 0 {
        return None;
    }
    Some(place(m, kind, code_len, region_len))
}

/// The number and the four places, in this order.
fn regions(
    dom: u8,
    code_lo: u16,
    code_hi: u16,
    lo: u16,
    hi: u16,
) -> Option<Result<Regions, NoRoom>> {
    Some(Ok(Regions {
        dom,
        code_lo,
        code_hi,
        lo,
        hi,
    }))
}

/// The refusal for want of code.
fn no_code(need: u32, gap: u32) -> Option<Result<Regions, NoRoom>> {
    Some(Err(NoRoom::Code { need, gap }))
}

/// The refusal for want of a region.
fn no_region(need: u32, gap: u32) -> Option<Result<Regions, NoRoom>> {
    Some(Err(NoRoom::Region { need, gap }))
}

#[test]
fn objects_of_different_sizes_stand_one_behind_the_other(rt: HostRuntime) -> Result<(), Fail> {
    let mut m = FlatMem::new(rt.alloc())?;
    clear(&mut m);
    // lengths of code and region, and the places
    let cases: [(Kind, u16, u32, u8, u16, u16, u16, u16); 6] = [
        (Kind::Module, 6, 0, 8, 0x6000, 0x6006, 0x2000, 0x2000),
        (Kind::App, 66, 16, 0, 0x6006, 0x6048, 0x2000, 0x2010),
        (Kind::App, 142, 64, 1, 0x6048, 0x60D6, 0x2010, 0x2050),
        (Kind::Module, 2, 10, 9, 0x60D6, 0x60D8, 0x2050, 0x205A),
        (Kind::App, 16384, 98, 2, 0x60D8, 0xA0D8, 0x205A, 0x20BC),
        (Kind::Module, 2, 0, 10, 0xA0D8, 0xA0DA, 0x2000, 0x2000),
    ];
    for (kind, code, region, dom, code_lo, code_hi, lo, hi) in cases {
        assert_eq!(rt;
            try_place(&mut m, kind, code, region),
            regions(dom, code_lo, code_hi, lo, hi),
            "number {dom}"
        );
    }
    assert_eq!(rt; app(&m, 1), app_row(0x6048, 0x60D6, 0x2010, 0x2050));
    assert_eq!(rt;
        module(&m, 1),
        ModuleRow {
            state: 1,
            code_lo: 0x60D6,
            code_hi: 0x60D8,
            lo: 0x2050,
            hi: 0x205A,
        }
    );
    Ok(())
}

#[test]
fn a_ninth_application_and_a_fifth_module_have_no_row(rt: HostRuntime) -> Result<(), Fail> {
    let mut m = FlatMem::new(rt.alloc())?;
    clear(&mut m);
    for n in 0..8 {
        let code_lo = 0x6000 + 2 * n as u16;
        let lo = 0x2000 + 16 * n as u16;
        assert_eq!(rt;
            try_place(&mut m, Kind::App, 2, 16),
            regions(n, code_lo, code_lo + 2, lo, lo + 16),
            "application {n}"
        );
    }
    // no row comes before no code
    assert_eq!(rt;
        try_place(&mut m, Kind::App, 2, 16),
        Some(Err(NoRoom::Slots))
    );
    assert_eq!(rt;
        try_place(&mut m, Kind::App, 16384, 99998),
        Some(Err(NoRoom::Slots))
    );
    for n in 0..4 {
        let code_lo = 0x6010 + 4 * n as u16;
        assert_eq!(rt;
            try_place(&mut m, Kind::Module, 4, 0),
            regions(8 + n, code_lo, code_lo + 4, 0x2000, 0x2000),
            "module {n}"
        );
    }
    assert_eq!(rt;
        try_place(&mut m, Kind::Module, 4, 0),
        Some(Err(NoRoom::Slots))
    );
    Ok(())
}

#[test]
fn the_lowest_gap_that_fits_is_taken(rt: HostRuntime) -> Result<(), Fail> {
    // code stands at 6000, 6030 and 6070, regions at 2000, 2040 and 20A0; so the gaps have 32 and 48 bytes, and 32 and 80
    let cases: [(u16, u32, u16, u16); 8] = [
        (32, 32, 0x6010, 0x2020),
        (30, 30, 0x6010, 0x2020),
        (34, 32, 0x6040, 0x2020),
        (32, 34, 0x6010, 0x2050),
        (48, 80, 0x6040, 0x2050),
        (50, 82, 0x6080, 0x20B0),
        (2, 0, 0x6010, 0x2000),
        (16384, 16208, 0x6080, 0x20B0),
    ];
    for (code, region, code_lo, lo) in cases {
        let mut m = FlatMem::new(rt.alloc())?;
        clear(&mut m);
        set_app(&mut m, 0, &app_row(0x6000, 0x6010, 0x2000, 0x2020));
        set_app(&mut m, 2, &app_row(0x6030, 0x6040, 0x2040, 0x2050));
        set_app(&mut m, 3, &app_row(0x6070, 0x6080, 0x20A0, 0x20B0));
        let Some(Ok(r)) = try_place(&mut m, Kind::App, code, region) else {
            assert!(rt; false, "{code} and {region}");
            continue;
        };
        assert_eq!(rt;
            (r.dom, r.code_lo, r.lo),
            (1, code_lo, lo),
            "{code} and {region}"
        );
    }
    Ok(())
}

#[test]
fn refusals_name_what_is_needed_and_the_longest_gap(rt: HostRuntime) -> Result<(), Fail> {
    // what stands, then lengths of code and region, then the refusal
    let full = app_row(0x6000, 0xE000, 0x2000, 0x6000);
    let none = app_row(0x6000, 0x6000, 0x2000, 0x2000);
    let middle = app_row(0x6020, 0xDFF6, 0x2008, 0x5FF0);
    let halves = app_row(0xA000, 0xA002, 0x4000, 0x4002);
    let cases = [
        (full, 2, 16, no_code(2, 0)),
        (full, 2, 0, no_code(2, 0)),
        (none, 2, 16386, no_region(16386, 16384)),
        (none, 16384, 4294967294, no_region(4294967294, 16384)),
        (middle, 34, 16, no_code(34, 32)),
        (middle, 34, 99998, no_code(34, 32)),
        (middle, 32, 18, no_region(18, 16)),
        (halves, 16384, 8194, no_region(8194, 8192)),
    ];
    for (row, code, region, want) in cases {
        let mut m = FlatMem::new(rt.alloc())?;
        clear(&mut m);
        set_app(&mut m, 0, &row);
        assert_eq!(rt;
            try_place(&mut m, Kind::App, code, region),
            want,
            "{code} and {region}"
        );
        assert_eq!(rt;
            (app(&m, 0), app(&m, 1).state),
            (row, 0),
            "{code} and {region}"
        );
    }
    Ok(())
}

#[test]
fn ranges_without_addresses_and_free_rows_hold_nothing(rt: HostRuntime) -> Result<(), Fail> {
    let mut m = FlatMem::new(rt.alloc())?;
    clear(&mut m);
    // a free row with places, a range that runs backwards, and one around the pool's end
    let mut free = app_row(0x6000, 0x7000, 0x2000, 0x3000);
    free.state = 0;
    set_app(&mut m, 0, &free);
    set_app(&mut m, 1, &app_row(0x8000, 0x6100, 0x3000, 0x2100));
    set_app(&mut m, 2, &app_row(0xDFF0, 0xFFFF, 0x5FF0, 0x6010));
    set_module(
        &mut m,
        0,
        &ModuleRow {
            state: 2,
            code_lo: 0x6004,
            code_hi: 0x6008,
            lo: 0x2000,
            hi: 0x2000,
        },
    );
    assert_eq!(rt;
        try_place(&mut m, Kind::App, 4, 16368),
        regions(0, 0x6000, 0x6004, 0x2000, 0x5FF0)
    );
    assert_eq!(rt; try_place(&mut m, Kind::Module, 4, 2), no_region(2, 0));
    Ok(())
}

/// Addresses behind the second marking, and whether each is marked.
const MARKED: [(u16, bool); 9] = [
    (0x600E, false),
    (0x6010, false),
    (0x6013, false),
    (0x6014, true),
    (0x6015, false),
    (0x6016, false),
    (0x6032, false),
    (0x6034, false),
    (0x8014, false),
];

#[test]
fn marks_replace_the_old_ones_of_the_code_alone(rt: HostRuntime) -> Result<(), Fail> {
    let mut m = FlatMem::new(rt.alloc())?;
    clear(&mut m);
    // a neighbour on each side has all bits set
    m.copy_in(0x1100, &[0xFF; 4]);
    let r = Regions {
        dom: 0,
        code_lo: 0x6010,
        code_hi: 0x6034,
        lo: 0x2000,
        hi: 0x2010,
    };
    set_app(&mut m, 0, &app_row(r.code_lo, r.code_hi, r.lo, r.hi));
    set_marks(&mut m, &r, &marks_at(&[0, 2, 14, 16, 34, 36]));
    assert_eq!(rt;
        (
            m.byte(0x10FF),
            m.byte(0x1100),
            m.byte(0x1101),
            m.byte(0x1102),
            m.byte(0x1103),
            m.byte(0x1104)
        ),
        (0, 0xFF, 0x83, 0x01, 0xFE, 0)
    );
    set_marks(&mut m, &r, &marks_at(&[4]));
    assert_eq!(rt;
        (
            m.byte(0x1100),
            m.byte(0x1101),
            m.byte(0x1102),
            m.byte(0x1103),
            m.byte(0x1104)
        ),
        (0xFF, 0x04, 0x00, 0xFC, 0)
    );
    for (at, want) in MARKED {
        assert_eq!(rt; is_marked(&m, 0, at), want, "at {at:#x}");
    }
    Ok(())
}

/// Rows, also rows that no placing makes: the application's code, the module's, the address, and the two answers.
const IN_THEIR_ROWS: [(u16, u16, u16, u16, u16, bool, bool); 10] = [
    (0x6000, 0x6010, 0xDFFE, 0xE000, 0xDFFE, false, true),
    (0x6000, 0x6010, 0xDFFE, 0xE000, 0x6000, true, false),
    (0x6000, 0x6010, 0xDFFE, 0xE000, 0x600E, true, false),
    (0x6000, 0x6010, 0x6002, 0x600E, 0x6000, true, false),
    (0x6000, 0x6010, 0x6002, 0x600E, 0x6002, true, true),
    (0x6000, 0x6010, 0x6002, 0x600E, 0x600E, true, false),
    (0x6000, 0x6010, 0x6002, 0x600E, 0x6003, false, false),
    (0x0000, 0xFFFF, 0x6010, 0x6000, 0x6000, true, false),
    (0x0000, 0xFFFF, 0x0000, 0xFFFE, 0x5FFE, false, false),
    (0x0000, 0xFFFF, 0x0000, 0xFFFE, 0xE000, false, false),
];

#[test]
fn marks_lie_in_the_row_s_code_and_in_the_pool(rt: HostRuntime) -> Result<(), Fail> {
    let mut m = FlatMem::new(rt.alloc())?;
    clear(&mut m);
    let r = Regions {
        dom: 11,
        code_lo: 0xDFFE,
        code_hi: 0xE000,
        lo: 0x2000,
        hi: 0x2000,
    };
    set_marks(&mut m, &r, &marks_at(&[0]));
    assert_eq!(rt;
        (m.byte(0x18FE), m.byte(0x18FF), m.byte(0x1900)),
        (0, 0x80, 0)
    );
    m.copy_in(0x1100, &[0xFF; 2]);
    for (code_lo, code_hi, lo, hi, at, app_has, module_has) in IN_THEIR_ROWS {
        set_app(&mut m, 3, &app_row(code_lo, code_hi, 0x2000, 0x2010));
        set_module(
            &mut m,
            3,
            &ModuleRow {
                state: 1,
                code_lo: lo,
                code_hi: hi,
                lo: 0x2000,
                hi: 0x2000,
            },
        );
        assert_eq!(rt;
            (is_marked(&m, 3, at), is_marked(&m, 11, at)),
            (app_has, module_has),
            "{code_lo:#x} to {code_hi:#x}, {lo:#x} to {hi:#x}, at {at:#x}"
        );
    }
    Ok(())
}
