//! Loaded objects, worked out by hand from the places that they get.

ghost use Rattle.std.specs.Prelude.{IfOk};
ghost use Rattle.place_model.specs.Settled.{IsSettled};

use code_model::marks::Marks;
use code_model::object::Object;
use flat_mem::FlatMem;
use kernel_fixture::memories::{copy, marks_at, same};
use kernel_tables::{AppRow, ModuleRow, app, clear, function, module};
use object_form::reading::read_object;
use object_parts::parts::{CODE, DATA, HI, LO};
use object_parts::texts::{APP, Head, Lists, MODULE};
use reloc_loader::laws::cleared_is_settled;
use reloc_loader::{NoRoom, Regions, loaded};
use std::alloc::{AllocError, Global};
use std::test::Fail;

/// What stands in memory where nothing is written.
const OLD: u8 = 0xAA;

/// The sections of relocations.
const IN_CODE: u8 = 0;

const IN_INIT: u8 = 1;

/// `JMP` to itself.
const JUMPS: [u16; 1] = [0x3FFF];

/// Emits 5 and exits: two guarded calls and `JMP` to itself.
const EMITS: [u16; 21] = [
    0x403C, 0x0005, 0x4205, 0x9211, 0x0200, 0x2C02, 0x4030, 0xF002, 0x4502, 0x12B0, 0xF024, 0x4205,
    0x9211, 0x0200, 0x2C02, 0x4030, 0xF002, 0x4502, 0x12B0, 0xF008, 0x3FFF,
];

const SMALL: Head = Head {
    version: 1,
    kind: APP,
    zeroed: 0,
    stack: 16,
    threads: 1,
    entry: 0,
};

/// The text of an object. A module exports its first instruction as function 5.
fn text(
    alloc: Global,
    head: &Head,
    code: &[u16],
    init: &[u8],
    relocs: &[(u8, u8, u16)],
) -> Result<Vec<u8>, AllocError> {
    let exports: &[(u8, u16)] = if head.kind == MODULE { &[(5, 0)] } else { &[] };
    let lists = Lists {
        code,
        init,
        relocs,
        exports,
    };
    object_parts::texts::text(alloc, head, &lists)
}

/// Memory with the empty kernel over old bytes.
fn start(alloc: Global) -> Result<FlatMem, AllocError>
    ensures { IfOk result (λ m. IsSettled m) }
{
    let mut m = FlatMem::new(alloc)?;
    for at in 0..0xFFFFu16 {
        m.set_byte(at, OLD);
    }
    cleared_is_settled();
    clear(&mut m);
    Ok(m)
}

/// What became of a text.
#[derive(Clone, Copy, PartialEq, Eq, Debug, Drop)]
enum Answer {
    NoObject,
    Refused(NoRoom),
    At(Regions),
}

/// Loads a text's object with marks at these offsets, accepted or not.
fn put_marked(m: &mut FlatMem, alloc: Global, text: &[u8], offsets: &[u16]) -> Answer
    requires { IsSettled m.old }
    ensures { IsSettled m.new }
{
    match read_object(alloc, text) {
        Err(_) => Answer::NoObject,
        Ok(o) => put_object(m, &o, &marks_at(offsets)),
    }
}

/// Loads a text's object with no marks.
fn put(m: &mut FlatMem, alloc: Global, text: &[u8]) -> Answer
    requires { IsSettled m.old }
    ensures { IsSettled m.new }
{
    put_marked(m, alloc, text, &[])
}

fn put_object(m: &mut FlatMem, o: &Object, marks: &Marks) -> Answer
    requires { IsSettled m.old }
    ensures { IsSettled m.new }
{
    match loaded(m, o, marks) {
        Err(cause) => Answer::Refused(cause),
        Ok(r) => Answer::At(r),
    }
}

/// One relocation, and what its word becomes.
const RELOCATED: [(u8, u8, u16, u16); 18] = [
    (IN_CODE, CODE, 0, 0x7111),
    (IN_CODE, CODE, 4, 0x5FF0),
    (IN_CODE, CODE, 8, 0x4000),
    (IN_CODE, DATA, 0, 0x3111),
    (IN_CODE, DATA, 4, 0x1FF0),
    (IN_CODE, DATA, 8, 0x0000),
    (IN_CODE, LO, 0, 0x3111),
    (IN_CODE, LO, 4, 0x1FF0),
    (IN_CODE, LO, 8, 0x0000),
    (IN_CODE, HI, 0, 0x313B),
    (IN_CODE, HI, 4, 0x201A),
    (IN_CODE, HI, 8, 0x002A),
    (IN_INIT, CODE, 0, 0x7234),
    (IN_INIT, CODE, 2, 0x5FFF),
    (IN_INIT, CODE, 4, 0xE000),
    (IN_INIT, DATA, 0, 0x3234),
    (IN_INIT, DATA, 2, 0x1FFF),
    (IN_INIT, DATA, 4, 0xA000),
];

/// The code at 6000 and the initialised bytes at 2000, as words.
const WORDS: [(u16, u16); 8] = [
    (0x6000, 0x1111),
    (0x6002, 0x2222),
    (0x6004, 0xFFF0),
    (0x6006, 0x3333),
    (0x6008, 0xE000),
    (0x2000, 0x1234),
    (0x2002, 0xFFFF),
    (0x2004, 0x8000),
];

/// Ten bytes of static data and two stacks of 16: the region is 2000 to 2029.
const TWO_THREADS: Head = Head {
    version: 1,
    kind: APP,
    zeroed: 4,
    stack: 16,
    threads: 2,
    entry: 2,
};

const MIXED_CODE: [u16; 5] = [0x1111, 0x2222, 0xFFF0, 0x3333, 0xE000];

const MIXED_INIT: [u8; 6] = [0x34, 0x12, 0xFF, 0xFF, 0x00, 0x80];

#[test]
fn a_relocation_adds_to_its_word_alone(rt: HostRuntime) -> Result<(), Fail> {
    let alloc = rt.alloc();
    for (section, kind, offset, want) in RELOCATED {
        let relocs = [(section, kind, offset)];
        let text = text(alloc, &TWO_THREADS, &MIXED_CODE, &MIXED_INIT, &relocs)?;
        let mut m = start(alloc)?;
        let at = Regions {
            dom: 0,
            code_lo: 0x6000,
            code_hi: 0x600A,
            lo: 0x2000,
            hi: 0x202A,
        };
        assert_eq!(rt; put(&mut m, alloc, &text), Answer::At(at));
        let base: u16 = if section == IN_CODE { 0x6000 } else { 0x2000 };
        for (place, word) in WORDS {
            let is_here = place.wrapping_sub(base) == offset;
            let value = if is_here { want } else { word };
            assert_eq!(rt; m.word(place), value, "at {place:#x}, {relocs:?}");
        }
    }
    Ok(())
}

#[test]
fn relocations_of_both_sections_stand_together(rt: HostRuntime) -> Result<(), Fail> {
    let alloc = rt.alloc();
    let relocs = [
        (IN_CODE, CODE, 0),
        (IN_CODE, LO, 2),
        (IN_CODE, HI, 8),
        (IN_INIT, DATA, 0),
        (IN_INIT, CODE, 4),
    ];
    let text = text(alloc, &TWO_THREADS, &MIXED_CODE, &MIXED_INIT, &relocs)?;
    let mut m = start(alloc)?;
    let _at = put(&mut m, alloc, &text);
    let words: [(u16, u16); 9] = [
        (0x6000, 0x7111),
        (0x6002, 0x4222),
        (0x6004, 0xFFF0),
        (0x6006, 0x3333),
        (0x6008, 0x002A),
        (0x600A, 0xAAAA),
        (0x2000, 0x3234),
        (0x2002, 0xFFFF),
        (0x2004, 0xE000),
    ];
    for (place, word) in words {
        assert_eq!(rt; m.word(place), word, "at {place:#x}");
    }
    Ok(())
}

#[test]
fn the_rest_of_the_region_is_zero(rt: HostRuntime) -> Result<(), Fail> {
    let alloc = rt.alloc();
    let head = Head {
        version: 1,
        kind: APP,
        zeroed: 2,
        stack: 18,
        threads: 3,
        entry: 0,
    };
    // 5 initialised and 2 zeroed bytes, rounded up to 8, and three stacks: the region is 2000 to 203D
    let text = text(alloc, &head, &JUMPS, &[1, 2, 3, 4, 5], &[])?;
    let mut m = start(alloc)?;
    let _at = put(&mut m, alloc, &text);
    let bytes: [u8; 6] = [1, 2, 3, 4, 5, 0];
    for at in 0x1FF0..0x2050u16 {
        let want = if at < 0x2000 || at >= 0x203E {
            OLD
        } else if at < 0x2005 {
            bytes[(at - 0x2000) as usize]
        } else {
            0
        };
        assert_eq!(rt; m.byte(at), want, "at {at:#x}");
    }
    Ok(())
}

#[test]
fn the_row_and_the_entry_are_kept(rt: HostRuntime) -> Result<(), Fail> {
    let alloc = rt.alloc();
    let mut m = start(alloc)?;
    let first = text(alloc, &SMALL, &EMITS, &[], &[])?;
    let second = text(alloc, &TWO_THREADS, &MIXED_CODE, &MIXED_INIT, &[])?;
    let _first = put(&mut m, alloc, &first);
    let _second = put(&mut m, alloc, &second);
    let row = AppRow {
        state: 1,
        code_lo: 0x602A,
        code_hi: 0x6034,
        lo: 0x2010,
        hi: 0x203A,
        z: 10,
        stack: 16,
        threads: 2,
    };
    assert_eq!(rt; app(&m, 1), row);
    assert_eq!(rt; app(&m, 2).state, 0);
    // registers R0 and R1 of thread 0 of both, and R0 of another thread
    let words: [(u16, u16); 5] = [
        (0x0420, 0x6000),
        (0x0422, 0),
        (0x04E0, 0x602C),
        (0x04E2, 0),
        (0x0510, 0),
    ];
    for (place, word) in words {
        assert_eq!(rt; m.word(place), word, "at {place:#x}");
    }
    Ok(())
}

#[test]
fn the_marks_are_those_of_the_unit_starts(rt: HostRuntime) -> Result<(), Fail> {
    let alloc = rt.alloc();
    let mut m = start(alloc)?;
    let first = text(alloc, &SMALL, &EMITS, &[], &[])?;
    let second = text(alloc, &SMALL, &JUMPS, &[], &[])?;
    let _first = put_marked(&mut m, alloc, &first, &[0x0000, 0x0004, 0x0016, 0x0028]);
    // units start at 6000, 6004, 6016 and 6028; old bits stand behind word 20
    let bytes: [(u16, u8); 5] = [
        (0x10FF, OLD),
        (0x1100, 0x05),
        (0x1101, 0x08),
        (0x1102, 0xB0),
        (0x1103, OLD),
    ];
    for (at, byte) in bytes {
        assert_eq!(rt; m.byte(at), byte, "at {at:#x}");
    }
    // the second one's only word is 602A, bit 21
    let _second = put_marked(&mut m, alloc, &second, &[0x0000]);
    assert_eq!(rt; (m.byte(0x1102), m.byte(0x1103)), (0xB0, OLD));
    Ok(())
}

/// A module without static data.
const BARE: Head = Head {
    version: 1,
    kind: MODULE,
    zeroed: 0,
    stack: 0,
    threads: 0,
    entry: 0,
};

/// Gives back its argument plus one.
const ADDS: [u16; 3] = [0x531C, 0x4030, 0xF026];

#[test]
fn a_modules_row_has_its_places_alone(rt: HostRuntime) -> Result<(), Fail> {
    let alloc = rt.alloc();
    let mut m = start(alloc)?;
    let app_text = text(alloc, &SMALL, &JUMPS, &[], &[])?;
    let bare_text = text(alloc, &BARE, &ADDS, &[], &[])?;
    let _app = put(&mut m, alloc, &app_text);
    // an empty region stands at 2000, also where another one does
    let at = Regions {
        dom: 8,
        code_lo: 0x6002,
        code_hi: 0x6008,
        lo: 0x2000,
        hi: 0x2000,
    };
    assert_eq!(rt; put(&mut m, alloc, &bare_text), Answer::At(at));
    let row = ModuleRow {
        state: 1,
        code_lo: 0x6002,
        code_hi: 0x6008,
        lo: 0x2000,
        hi: 0x2000,
    };
    assert_eq!(rt; module(&m, 0), row);
    // its functions are left to the caller
    assert_eq!(rt; function(&m, 5).module, 0xFFFF);
    Ok(())
}

#[test]
fn a_module_stands_relocated_with_its_marks(rt: HostRuntime) -> Result<(), Fail> {
    let alloc = rt.alloc();
    let mut m = start(alloc)?;
    let head = Head { zeroed: 3, ..BARE };
    let relocs = [(IN_CODE, CODE, 4), (IN_CODE, HI, 8), (IN_INIT, DATA, 2)];
    let text = text(alloc, &head, &MIXED_CODE, &MIXED_INIT, &relocs)?;
    let _at = put_marked(&mut m, alloc, &text, &[2]);
    let words: [(u16, u16); 7] = [
        (0x6000, 0x1111),
        (0x6004, 0x5FF0),
        (0x6008, 0x000A),
        (0x2000, 0x1234),
        (0x2002, 0x1FFF),
        (0x2006, 0),
        (0x2008, 0),
    ];
    for (place, word) in words {
        assert_eq!(rt; m.word(place), word, "at {place:#x}");
    }
    // its mark is 6002, bit 1, and its region ends at 200A
    assert_eq!(rt; (m.byte(0x1100) % 32, m.byte(0x200A)), (0x02, OLD));
    Ok(())
}

/// How many applications of a text are loaded before one is refused, why that is, and whether the refusal left memory as it was.
fn refused(alloc: Global, text: &[u8]) -> Result<(u8, Answer, bool), AllocError> {
    let mut m = start(alloc)?;
    for count in 0..9u8 {
        let old = copy(alloc, &m)?;
        let answer = put(&mut m, alloc, text);
        match answer {
            Answer::At(_) => {}
            _ => return Ok((count, answer, same(&old, &m))),
        }
    }
    Ok((9, Answer::NoObject, false))
}

#[test]
fn refusals_leave_memory_as_it_was(rt: HostRuntime) -> Result<(), Fail> {
    let alloc = rt.alloc();
    let small = text(alloc, &SMALL, &JUMPS, &[], &[])?;
    assert_eq!(rt;
        refused(alloc, &small)?,
        (8, Answer::Refused(NoRoom::Slots), true)
    );
    // two codes of 16,384 bytes fill the pool
    let mut code = Vec::new(alloc);
    for _ in 0..8192u16 {
        code.push(0x3FFF)?;
    }
    let long = text(alloc, &SMALL, &code, &[], &[])?;
    let no_code = NoRoom::Code {
        need: 16384,
        gap: 0,
    };
    assert_eq!(rt; refused(alloc, &long)?, (2, Answer::Refused(no_code), true));
    let head = Head {
        version: 1,
        kind: APP,
        zeroed: 16384,
        stack: 1024,
        threads: 4,
        entry: 0,
    };
    let wide = text(alloc, &head, &JUMPS, &[], &[])?;
    let no_region = NoRoom::Region {
        need: 20480,
        gap: 16384,
    };
    assert_eq!(rt;
        refused(alloc, &wide)?,
        (0, Answer::Refused(no_region), true)
    );
    Ok(())
}

#[test]
fn modules_are_refused_as_applications_are(rt: HostRuntime) -> Result<(), Fail> {
    let alloc = rt.alloc();
    let small = text(alloc, &BARE, &ADDS, &[], &[])?;
    assert_eq!(rt;
        refused(alloc, &small)?,
        (4, Answer::Refused(NoRoom::Slots), true)
    );
    let mut code = Vec::new(alloc);
    for _ in 0..8192u16 {
        code.push(0x3FFF)?;
    }
    let long = text(alloc, &BARE, &code, &[], &[])?;
    let no_code = NoRoom::Code {
        need: 16384,
        gap: 0,
    };
    assert_eq!(rt; refused(alloc, &long)?, (2, Answer::Refused(no_code), true));
    let head = Head {
        zeroed: 10001,
        ..BARE
    };
    let wide = text(alloc, &head, &JUMPS, &[], &[])?;
    let no_region = NoRoom::Region {
        need: 10002,
        gap: 6382,
    };
    assert_eq!(rt;
        refused(alloc, &wide)?,
        (1, Answer::Refused(no_region), true)
    );
    Ok(())
}
