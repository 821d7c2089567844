//! Worked rows of `check`, of the object's form, and of writes that fail.

use crate::test_support::{Case, GUARDED_STORE, SELF_JUMP, application, try_failing, try_stored};
use item_lists::lists::Bytes;
use std::alloc::Global;
use std::process::Abort;
use std::test::Fail;

/// Code words, and what a check of them prints.
const BY_RULES: [(&[u16], &str, &str, u8); 4] = [
    (
        &[0xC232, 0x3FFF],
        "",
        "retos: x.o: check rule 5 at 0000\n",
        1,
    ),
    (&[0xC312, 0x3FFF], "x.o: accepted 2 words 2 units\n", "", 0),
    (
        &[0x1206, 0x1300, 0x3FFF],
        "",
        "retos: x.o: check rule 9 at 0000\n",
        1,
    ),
    (
        &[0x1206, 0x0000, 0x3FFF],
        "",
        "retos: x.o: check rule 1 at 0002\n",
        1,
    ),
];

#[test]
fn check_answers_by_the_rules(rt: HostRuntime) -> Result<(), Fail> {
    for (code, out, err, status) in &BY_RULES {
        let text = application(rt.alloc(), code, &[])?;
        let case = Case {
            line: "check x.o",
            out,
            err,
            status: *status,
        };
        try_stored(&rt, rt.alloc(), &[(b"x.o", text.as_slice())], &case)?;
    }
    Ok(())
}

/// The self-jump with a count of no code words, and without its code.
const NO_CODE: [u8; 20] = [
    0x52, 0x45, 0x54, 0x4F, 1, 1, 0, 0, 0, 0, 0, 0, 0x10, 0, 1, 0, 0, 0, 0, 0,
];

/// Tells where a text isn't refused with this line, by `check` or by `solo`.
fn try_malformed(rt: &impl Abort, alloc: Global, text: &[u8], err: &str) -> Result<(), Fail> {
    for line in ["check x.o", "solo x.o 9"] {
        let case = Case {
            line,
            out: "",
            err,
            status: 1,
        };
        try_stored(rt, alloc, &[(b"x.o", text)], &case)?;
    }
    Ok(())
}

#[test]
fn malformed_objects_are_refused_at_their_place(rt: HostRuntime) -> Result<(), Fail> {
    let mut longer = Bytes::from_slice(rt.alloc(), &GUARDED_STORE)?;
    longer.push(0)?;
    try_malformed(&rt, rt.alloc(), &NO_CODE, "retos: x.o: form limit at 6\n")?;
    try_malformed(&rt, rt.alloc(), &[], "retos: x.o: form short at 0\n")?;
    let short = &GUARDED_STORE[..67];
    try_malformed(&rt, rt.alloc(), short, "retos: x.o: form short at 67\n")?;
    let longer = longer.as_slice();
    try_malformed(&rt, rt.alloc(), longer, "retos: x.o: form trailing at 68\n")
}

/// A check of sixteen objects.
const SIXTEEN: Case = Case {
    line: "check j.o j.o j.o j.o j.o j.o j.o j.o j.o j.o j.o j.o j.o j.o j.o j.o",
    out: "j.o: accepted 1 words 1 units\nj.o: accepted 1 words 1 units\nj.o: accepted 1 words 1 units\n\
j.o: accepted 1 words 1 units\nj.o: accepted 1 words 1 units\nj.o: accepted 1 words 1 units\n\
j.o: accepted 1 words 1 units\nj.o: accepted 1 words 1 units\nj.o: accepted 1 words 1 units\n\
j.o: accepted 1 words 1 units\nj.o: accepted 1 words 1 units\nj.o: accepted 1 words 1 units\n\
j.o: accepted 1 words 1 units\nj.o: accepted 1 words 1 units\nj.o: accepted 1 words 1 units\n\
j.o: accepted 1 words 1 units\n",
    err: "",
    status: 0,
};

#[test]
fn check_takes_16_objects(rt: HostRuntime) -> Result<(), Fail> {
    try_stored(&rt, rt.alloc(), &[(b"j.o", &SELF_JUMP)], &SIXTEEN)
}

/// Words, the number of the write that fails, and what stands on out then.
const OUT_FAULTS: [(&str, u32, &str); 6] = [
    ("check s.o p.o m.o", 0, ""),
    ("check s.o p.o m.o", 1, "s.o: accepted 18 words 3 units\n"),
    (
        "check s.o p.o m.o",
        2,
        "s.o: accepted 18 words 3 units\np.o: accepted 9 words 2 units\n",
    ),
    ("solo s.o 100", 0, ""),
    ("solo s.o 100", 1, "a0 6000 6024 2000 2010\n"),
    (
        "solo s.o 100",
        2,
        "a0 6000 6024 2000 2010\n10 a0.t0 fault store 2010\n",
    ),
];

#[test]
fn each_line_is_a_write_of_its_own(rt: HostRuntime) -> Result<(), Fail> {
    for (line, write, out) in &OUT_FAULTS {
        let case = Case {
            line,
            out,
            err: "retos: write fault\n",
            status: 4,
        };
        try_failing(&rt, rt.alloc(), &[], &[*write], &case)?;
    }
    Ok(())
}
