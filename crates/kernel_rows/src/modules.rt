//! What calls of two modules leave of a caller and of the registers, and modules that are loaded, worked out by hand.

ghost use Rattle.std.specs.Prelude.{◌≡◌, IfOk};
ghost use Rattle.code_model.specs.Verdicts.{IsAccepted};
ghost use Rattle.kernel_model.specs.declared.kinds.Kind.TheVariants.{Module};
ghost use Rattle.place_model.specs.Settled.{IsSettled};

use crate::calls::{Answer, Call, make, try_make};
use code_model::marks::Marks;
use code_model::object::Object;
use code_model::parts::Kind;
use flat_mem::FlatMem;
use kernel_fixture::memories::{copy, same, two_apps, words_of};
use kernel_modules::{NoRoom, load_module};
use kernel_tables::{FnRow, ModuleRow, SysWord, function, get, module, thread};
use kernel_threads::{Code, NONE};
use msp_machine::Regs;
use object_form::reading::read_object;
use object_parts::texts::{Head, Lists, MODULE};
use region_table::is_marked;
use static_checker::{Verdict, check};
use std::alloc::{AllocError, Global};
use std::process::Abort;
use std::test::Fail;

/// The text of a module with so many zeroed bytes. Exports are number and offset.
fn text(
    alloc: Global,
    zeroed: u16,
    code: &[u16],
    exports: &[(u8, u16)],
) -> Result<Vec<u8>, AllocError> {
    let head = Head {
        version: 1,
        kind: MODULE,
        zeroed,
        stack: 0,
        threads: 0,
        entry: 0,
    };
    let lists = Lists {
        code,
        init: &[],
        relocs: &[],
        exports,
    };
    object_parts::texts::text(alloc, &head, &lists)
}

/// Adds one to its argument, and returns.
const ADDS: [u16; 3] = [0x531C, 0x4030, 0xF026];

/// Two jumps, each to itself.
const JUMPS: [u16; 2] = [0x3FFF, 0x3FFF];

/// Memory with two applications, module 0 at 6020, which exported function 5 at its start, and module 1 at 6026, which exported
/// function 63 at 6028. Nothing runs.
fn two_modules(alloc: Global) -> Result<FlatMem, AllocError>
    ensures { IfOk result (λ m. IsSettled m) }
{
    let mut m = two_apps(alloc)?;
    let adds = text(alloc, 0, &ADDS, &[(5, 0)])?;
    let _ = put(&mut m, alloc, &adds);
    let jumps = text(alloc, 0, &JUMPS, &[(63, 2)])?;
    let _ = put(&mut m, alloc, &jumps);
    Ok(m)
}

/// What became of a text.
#[derive(Clone, Copy, PartialEq, Eq, Debug, Drop)]
enum Outcome {
    /// It is no module's that the checker accepts.
    NoModule,
    Refused(NoRoom),
    At(u8),
}

/// Loads the module of a text.
fn put(m: &mut FlatMem, alloc: Global, text: &[u8]) -> Outcome
    requires { IsSettled m.old }
    ensures { IsSettled m.new }
{
    match read_object(alloc, text) {
        Err(_) => Outcome::NoModule,
        Ok(o) => put_object(m, &o),
    }
}

fn put_object(m: &mut FlatMem, o: &Object) -> Outcome
    requires { IsSettled m.old }
    ensures { IsSettled m.new }
{
    match o.kind {
        Kind::App => Outcome::NoModule,
        Kind::Module => match check(o) {
            Verdict::Refused { .. } => Outcome::NoModule,
            Verdict::Accepted(marks) => put_module(m, o, &marks),
        },
    }
}

fn put_module(m: &mut FlatMem, o: &Object, marks: &Marks) -> Outcome
    requires of_module { (o.now).kind ≡ Module }
    requires accepted { IsAccepted o.now marks.now }
    requires settled { IsSettled m.old }
    ensures { IsSettled m.new }
{
    match load_module(m, o, marks) {
        Ok(n) => Outcome::At(n),
        Err(cause) => Outcome::Refused(cause),
    }
}

/// Lets thread 0 begin and run.
fn begin(rt: &impl Abort, m: &mut FlatMem, r: &mut Regs)
    requires { IsSettled m.old }
    ensures { IsSettled m.new }
{
    try_make(rt, m, r, Call::Start(0));
    try_make(rt, m, r, Call::Dispatch(None));
}

/// The caller's limit and top, who runs, the running module and its count, outside of a call.
const OUTSIDE: [u16; 5] = [0x2008, 0x2012, 0, NONE, 0];

/// The caller's registers with a function's number.
fn caller_registers(number: u16) -> [u16; 16] {
    [
        0x600A, 0x2010, 8, 0, 0x0444, 0x0555, 0x0666, 0x0777, 0x0888, 0x0999, 0x0AAA, 0x0BBB,
        number, 0x0DDD, 0x0EEE, 0x0FFF,
    ]
}

fn set_all(r: &mut Regs, words: &[u16; 16]) {
    for n in 0..16u8 {
        r.set(n, words[n as usize]);
    }
}

/// The limit, the top, the running thread, the running module and its count.
fn state(m: &FlatMem) -> [u16; 5] {
    [
        get(m, SysWord::CurLim),
        get(m, SysWord::CurTop),
        get(m, SysWord::Running),
        get(m, SysWord::Module),
        get(m, SysWord::Budget),
    ]
}

#[test]
fn a_module_begins_with_two_words_of_its_caller_and_gives_one_back(
    rt: HostRuntime,
) -> Result<(), Fail> {
    // function, module, address
    for (number, callee, pc) in [(5, 0, 0x6020), (63, 1, 0x6028)] {
        let mut m = two_modules(rt.alloc())?;
        let mut r = Regs::new();
        begin(&rt, &mut m, &mut r);
        assert_eq!(rt; state(&m), OUTSIDE);
        set_all(&mut r, &caller_registers(number));
        assert_eq!(rt; make(&mut m, &mut r, Call::Enter), Answer::Made, "{number}");
        let begun = [
            pc, 0x1100, 0, 0, 0, 0, 0, 0, 0, 0, 0, 0, 0x0DDD, 0x0EEE, 0, 0,
        ];
        assert_eq!(rt; words_of(&r), begun, "{number}");
        assert_eq!(rt; state(&m), [0x1006, 0x1100, 0, callee, 0], "{number}");
        let caller = thread(&m, 0);
        let regs = caller.regs;
        assert_eq!(rt;
            (regs, caller.state),
            (caller_registers(number), 7),
            "{number}"
        );
        r.set(12, 42);
        assert_eq!(rt; make(&mut m, &mut r, Call::Leave), Answer::Made, "{number}");
        let mut back = caller_registers(0);
        back[13] = 42;
        let caller = thread(&m, 0);
        let regs = caller.regs;
        assert_eq!(rt; (regs, caller.state), (back, 2), "{number}");
        assert_eq!(rt; state(&m), OUTSIDE, "{number}");
    }
    Ok(())
}

#[test]
fn a_module_that_ends_is_entered_no_more(rt: HostRuntime) -> Result<(), Fail> {
    let mut m = two_modules(rt.alloc())?;
    let mut r = Regs::new();
    begin(&rt, &mut m, &mut r);
    set_all(&mut r, &caller_registers(5));
    assert_eq!(rt; make(&mut m, &mut r, Call::Enter), Answer::Made);
    assert_eq!(rt; make(&mut m, &mut r, Call::EndModule), Answer::Made);
    let caller = thread(&m, 0);
    let regs = caller.regs;
    assert_eq!(rt; (regs, caller.state), (caller_registers(6), 2));
    assert_eq!(rt; state(&m), OUTSIDE);
    let ended = module(&m, 0);
    assert_eq!(rt;
        (ended.state, ended.code_lo, ended.code_hi),
        (2, 0x6020, 0x6026)
    );
    set_all(&mut r, &caller_registers(5));
    assert_eq!(rt;
        make(&mut m, &mut r, Call::Enter),
        Answer::Refused(Code::ModuleEnded)
    );
    assert_eq!(rt; (words_of(&r), state(&m)), (caller_registers(5), OUTSIDE));
    set_all(&mut r, &caller_registers(63));
    assert_eq!(rt; make(&mut m, &mut r, Call::Enter), Answer::Made);
    Ok(())
}

#[test]
fn a_number_that_no_module_exported_is_refused(rt: HostRuntime) -> Result<(), Fail> {
    let mut m = two_modules(rt.alloc())?;
    let mut r = Regs::new();
    begin(&rt, &mut m, &mut r);
    for number in [0, 6, 62, 64, 0xFFFF] {
        set_all(&mut r, &caller_registers(number));
        assert_eq!(rt;
            make(&mut m, &mut r, Call::Enter),
            Answer::Refused(Code::NoFunction),
            "{number}"
        );
        assert_eq!(rt;
            (words_of(&r), state(&m)),
            (caller_registers(number), OUTSIDE),
            "{number}"
        );
    }
    Ok(())
}

#[test]
fn a_module_stands_with_its_functions_and_marks(rt: HostRuntime) -> Result<(), Fail> {
    let alloc = rt.alloc();
    let mut m = two_apps(alloc)?;
    let text = text(alloc, 3, &[0x531C, 0x4030, 0xF026], &[(5, 0), (9, 2)])?;
    assert_eq!(rt; put(&mut m, alloc, &text), Outcome::At(8));
    let row = ModuleRow {
        state: 1,
        code_lo: 0x6020,
        code_hi: 0x6026,
        lo: 0x2066,
        hi: 0x206A,
    };
    assert_eq!(rt; module(&m, 0), row);
    let functions: [(u8, u16, u16); 4] = [
        (5, 0, 0x6020),
        (9, 0, 0x6022),
        (4, NONE, 0),
        (10, NONE, 0),
    ];
    for (number, module, address) in functions {
        assert_eq!(rt; function(&m, number), FnRow { module, address }, "{number}");
    }
    // the third word is the branch's target
    for (at, want) in [(0x6020, true), (0x6022, true), (0x6024, false)] {
        assert_eq!(rt; is_marked(&m, 8, at), want, "{at:#x}");
    }
    Ok(())
}

#[test]
fn four_modules_are_loaded_and_no_fifth(rt: HostRuntime) -> Result<(), Fail> {
    let alloc = rt.alloc();
    let mut m = two_apps(alloc)?;
    let first = text(alloc, 0, &[0x3FFF], &[(5, 0)])?;
    let second = text(alloc, 0, &[0x3FFF], &[(6, 0)])?;
    let third = text(alloc, 0, &[0x3FFF], &[(7, 0)])?;
    let fourth = text(alloc, 0, &[0x3FFF], &[(8, 0)])?;
    assert_eq!(rt; put(&mut m, alloc, &first), Outcome::At(8));
    assert_eq!(rt; put(&mut m, alloc, &second), Outcome::At(9));
    assert_eq!(rt; put(&mut m, alloc, &third), Outcome::At(10));
    assert_eq!(rt; put(&mut m, alloc, &fourth), Outcome::At(11));
    assert_eq!(rt; function(&m, 8).address, 0x6026);
    // a taken function comes behind a want of rows
    let old = copy(alloc, &m)?;
    assert_eq!(rt; put(&mut m, alloc, &first), Outcome::Refused(NoRoom::Slots));
    assert_eq!(rt; same(&old, &m), true);
    Ok(())
}

/// 8,192 jumps, each to itself.
fn long_code(alloc: Global) -> Result<Vec<u16>, AllocError> {
    let mut code = Vec::new(alloc);
    for _ in 0..8192u16 {
        code.push(0x3FFF)?;
    }
    Ok(code)
}

#[test]
fn the_least_taken_function_comes_before_the_gaps(rt: HostRuntime) -> Result<(), Fail> {
    let alloc = rt.alloc();
    let mut m = two_modules(alloc)?;
    let mut r = Regs::new();
    // module 0 ends, and its function stays taken
    begin(&rt, &mut m, &mut r);
    set_all(&mut r, &caller_registers(5));
    assert_eq!(rt; make(&mut m, &mut r, Call::Enter), Answer::Made);
    assert_eq!(rt; make(&mut m, &mut r, Call::EndModule), Answer::Made);
    let old = copy(alloc, &m)?;
    let code = long_code(alloc)?;
    let both = text(alloc, 16384, &code, &[(4, 0), (5, 0), (63, 0)])?;
    let last = text(alloc, 16384, &code, &[(4, 0), (62, 0), (63, 0)])?;
    assert_eq!(rt;
        put(&mut m, alloc, &both),
        Outcome::Refused(NoRoom::Taken { number: 5 })
    );
    assert_eq!(rt;
        put(&mut m, alloc, &last),
        Outcome::Refused(NoRoom::Taken { number: 63 })
    );
    assert_eq!(rt; same(&old, &m), true);
    Ok(())
}

#[test]
fn a_module_larger_than_the_gap_left_is_refused(rt: HostRuntime) -> Result<(), Fail> {
    let alloc = rt.alloc();
    let mut m = two_apps(alloc)?;
    let code = long_code(alloc)?;
    let first = text(alloc, 0, &code, &[(5, 0)])?;
    let second = text(alloc, 16384, &code, &[(6, 0)])?;
    let third = text(alloc, 16384, &[0x3FFF], &[(7, 0)])?;
    assert_eq!(rt; put(&mut m, alloc, &first), Outcome::At(8));
    let old = copy(alloc, &m)?;
    let no_code = NoRoom::Code {
        need: 16384,
        gap: 16352,
    };
    assert_eq!(rt; put(&mut m, alloc, &second), Outcome::Refused(no_code));
    let no_region = NoRoom::Region {
        need: 16384,
        gap: 16282,
    };
    assert_eq!(rt; put(&mut m, alloc, &third), Outcome::Refused(no_region));
    assert_eq!(rt; same(&old, &m), true);
    Ok(())
}
