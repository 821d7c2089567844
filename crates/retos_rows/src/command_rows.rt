use crate::test_support::{
    Case, Stored, compare_err, compare_status, leave_among, sink, try_cases, try_failing,
    try_stored, unwritten,
};
use item_lists::lists::Bytes;
use std::test::Fail;

/// Runs of applications alone.
const SOLO_CASES: [Case; 5] = [
    Case {
        line: "solo j.o 3",
        out: "a0 6000 6002 2000 2010\nend limit 3 emits 0 faults 0\n",
        err: "",
        status: 0,
    },
    Case {
        line: "solo s.o 100",
        out: "a0 6000 6024 2000 2010\n10 a0.t0 fault store 2010\nend quiet 10 emits 0 faults 1\n",
        err: "",
        status: 6,
    },
    Case {
        line: "solo e.o 100",
        out: "a0 6000 602A 2000 2010\n7 a0.t0 emit 0005\n13 a0.t0 exit last\nend quiet 13 emits 1 faults 0\n",
        err: "",
        status: 0,
    },
    Case {
        line: "solo low.o 100",
        out: "a0 6000 6024 2000 2010\n8 a0.t0 fault store 1FFF\nend quiet 8 emits 0 faults 1\n",
        err: "",
        status: 6,
    },
    Case {
        line: "solo j.o 10000000",
        out: "a0 6000 6002 2000 2010\nend limit 10000000 emits 0 faults 0\n",
        err: "",
        status: 0,
    },
];

#[test]
fn solo_runs_accepted_applications(rt: HostRuntime) -> Result<(), Fail> {
    try_cases(&rt, rt.alloc(), &SOLO_CASES)
}

/// What is refused, and its line.
const REFUSED: [Case; 11] = [
    Case {
        line: "solo u.o 9",
        out: "",
        err: "retos: u.o: check rule 6 at 0004\n",
        status: 1,
    },
    Case {
        line: "solo m.o 9",
        out: "",
        err: "retos: m.o: not an application\n",
        status: 1,
    },
    Case {
        line: "solo none.o 9",
        out: "",
        err: "retos: none.o: absent\n",
        status: 1,
    },
    Case {
        line: "check short.o",
        out: "",
        err: "retos: short.o: form short at 67\n",
        status: 1,
    },
    Case {
        line: "check empty.o",
        out: "",
        err: "retos: empty.o: form short at 0\n",
        status: 1,
    },
    Case {
        line: "solo j.o 10000001",
        out: "",
        err: "retos: words\n",
        status: 2,
    },
    Case {
        line: "solo j.o 0",
        out: "",
        err: "retos: words\n",
        status: 2,
    },
    Case {
        line: "solo j.o 010",
        out: "",
        err: "retos: words\n",
        status: 2,
    },
    Case {
        line: "solo -j.o 1",
        out: "",
        err: "retos: words\n",
        status: 2,
    },
    Case {
        line: "",
        out: "",
        err: "retos: words\n",
        status: 2,
    },
    Case {
        line: "check",
        out: "",
        err: "retos: words\n",
        status: 2,
    },
];

#[test]
fn what_is_refused_is_named(rt: HostRuntime) -> Result<(), Fail> {
    try_cases(&rt, rt.alloc(), &REFUSED)
}

/// Checks of one object and of several.
const CHECK_CASES: [Case; 4] = [
    Case {
        line: "check e.o",
        out: "e.o: accepted 21 words 4 units\n",
        err: "",
        status: 0,
    },
    Case {
        line: "check s.o p.o m.o",
        out: "s.o: accepted 18 words 3 units\np.o: accepted 9 words 2 units\nm.o: accepted 3 words 2 units\n",
        err: "",
        status: 0,
    },
    Case {
        line: "check s.o u.o m.o",
        out: "",
        err: "retos: u.o: check rule 6 at 0004\n",
        status: 1,
    },
    Case {
        line: "check j.o j.o j.o j.o j.o j.o j.o j.o j.o j.o j.o j.o j.o j.o j.o j.o j.o",
        out: "",
        err: "retos: words\n",
        status: 2,
    },
];

#[test]
fn check_prints_once_all_are_accepted(rt: HostRuntime) -> Result<(), Fail> {
    try_cases(&rt, rt.alloc(), &CHECK_CASES)
}

/// The first read of an object fails.
const READ_FAULT: Case = Case {
    line: "solo s.o 100",
    out: "",
    err: "retos: s.o: read fault\n",
    status: 3,
};

/// The third read fails, which is the second object's first.
const SECOND_READ_FAULT: Case = Case {
    line: "check j.o s.o",
    out: "",
    err: "retos: s.o: read fault\n",
    status: 3,
};

/// The second write of out fails.
const OUT_FAULT: Case = Case {
    line: "solo s.o 100",
    out: "a0 6000 6024 2000 2010\n",
    err: "retos: write fault\n",
    status: 4,
};

#[test]
fn failing_reads_and_writes_are_told(rt: HostRuntime) -> Result<(), Fail> {
    try_failing(&rt, rt.alloc(), &[0], &[], &READ_FAULT)?;
    try_failing(&rt, rt.alloc(), &[2], &[], &SECOND_READ_FAULT)?;
    try_failing(&rt, rt.alloc(), &[], &[1], &OUT_FAULT)
}

#[test]
fn a_refusal_that_cannot_be_written_is_a_write_fault(rt: HostRuntime) -> Result<(), Fail> {
    let line = "solo none.o 9";
    let mut left = unwritten(rt.alloc(), sink(rt.alloc(), &[])?, &[0])?;
    leave_among(rt.alloc(), &[], line, &mut left)?;
    compare_status(&rt, &left, 4, line);
    compare_err(&rt, &left, "", line);
    Ok(())
}

/// An object of 1,048,577 bytes.
const TOO_LONG: Case = Case {
    line: "check big.o",
    out: "",
    err: "retos: big.o: too long\n",
    status: 1,
};

#[test]
fn more_than_a_mebibyte_is_too_long(rt: HostRuntime) -> Result<(), Fail> {
    let mut whole = Bytes::new(rt.alloc());
    for _ in 0..1_048_577u32 {
        whole.push(0)?;
    }
    let stored: [Stored; 1] = [(b"big.o", whole.as_slice())];
    try_stored(&rt, rt.alloc(), &stored, &TOO_LONG)
}
