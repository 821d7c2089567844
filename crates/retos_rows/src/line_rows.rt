//! Worked rows of interrupts: lines at the steps of guards, picks, and lines that come together.

use crate::test_nodes::{Source, try_run};
use crate::test_support::{
    Case, CodeReloc, EMITS, PUSHES, SELF_JUMP, Stored, application, try_stored, try_stored_pieces,
};
use std::test::Fail;

/// Lines of that run.
const LOWEST: [&str; 2] = [
    "\n36 a0.t0 int 1 6010 2000:08 2001:00 2002:10 2003:60\n37 kernel line 1\n",
    "\n43 a0.t0 fault stack 2004\nend quiet 43 emits 0 faults 1\n",
];

#[test]
fn an_interrupt_may_write_the_lowest_bytes_of_a_stack(rt: HostRuntime) -> Result<(), Fail> {
    let stored: [Stored; 2] = [(b"s", b"at 36 raise 1"), (b"x.o", &PUSHES)];
    let line = "run --all s 100 x.o";
    try_stored_pieces(&rt, rt.alloc(), &stored, line, &LOWEST, 6)
}

/// A guarded store at the region's lower end, with interrupts that push in the same region's stack.
const STORE_LOW: [u16; 18] = [
    0x4036, 0, 0x4205, 0x4604, 0x5034, 0, 0x9034, 0, 0x2803, 0x9034, 0, 0x2802, 0x4030, 0xF000,
    0x4502, 0x4384, 0, 0x3FFF,
];

/// A script, and the line of its interrupt.
const AT_EACH_STEP: [(&[u8], &str); 9] = [
    (
        b"at 2 raise 1",
        "\n2 a0.t0 int 1 6004 200C:08 200D:00 200E:04 200F:60\n",
    ),
    (
        b"at 3 raise 1",
        "\n3 a0.t0 int 1 6006 200C:08 200D:00 200E:06 200F:60\n",
    ),
    (
        b"at 4 raise 1",
        "\n4 a0.t0 int 1 6008 200C:08 200D:00 200E:08 200F:60\n",
    ),
    (
        b"at 5 raise 1",
        "\n5 a0.t0 int 1 600C 200C:08 200D:00 200E:0C 200F:60\n",
    ),
    (
        b"at 6 raise 1",
        "\n6 a0.t0 int 1 6010 200C:0B 200D:00 200E:10 200F:60\n",
    ),
    (
        b"at 7 raise 1",
        "\n7 a0.t0 int 1 6012 200C:0B 200D:00 200E:12 200F:60\n",
    ),
    (
        b"at 8 raise 1",
        "\n8 a0.t0 int 1 6016 200C:0C 200D:00 200E:16 200F:60\n",
    ),
    (
        b"at 9 raise 1",
        "\n9 a0.t0 int 1 601C 200C:0C 200D:00 200E:1C 200F:60\n",
    ),
    (
        b"at 10 raise 1",
        "\n10 a0.t0 int 1 601E 200C:08 200D:00 200E:1E 200F:60\n",
    ),
];

/// The flags that each interrupt pushes: C and Z after the comparison with the lower end, N after the one with the upper end, and
/// none again at the store.
#[test]
fn an_interrupt_at_each_step_of_a_guard_changes_nothing(rt: HostRuntime) -> Result<(), Fail> {
    let relocs: [CodeReloc; 3] = [(3, 0x0002), (3, 0x000E), (4, 0x0014)];
    let text = application(rt.alloc(), &STORE_LOW, &relocs)?;
    for (script, accepted) in &AT_EACH_STEP {
        let stored: [Stored; 2] = [(b"s", script), (b"x.o", text.as_slice())];
        let pieces = [*accepted, "\n12 a0.t0 601E 4384 2000:00 2001:00\n"];
        let line = "run --all s 13 x.o";
        try_stored_pieces(&rt, rt.alloc(), &stored, line, &pieces, 0)?;
    }
    Ok(())
}

/// The second application is picked where the first is next.
const PICKED: Case = Case {
    line: "run s 100 x.o x.o",
    out: "a0 6000 602A 2000 2010\na1 602A 6054 2010 2020\n7 a0.t0 emit 0005\n14 a1.t0 emit 0005\n\
20 a1.t0 exit last\n26 a0.t0 exit last\nend quiet 26 emits 2 faults 0\n",
    err: "",
    status: 0,
};

/// The pick of a step serves that step's dispatch.
#[test]
fn a_pick_chooses_who_runs(rt: HostRuntime) -> Result<(), Fail> {
    let stored: [Stored; 2] = [(b"s", b"at 7 pick 1"), (b"x.o", &EMITS)];
    try_stored(&rt, rt.alloc(), &stored, &PICKED)
}

/// Raises all lines at step 2.
const ALL_LINES: &[u8] =
    b"at 2 raise 0\nat 2 raise 1\nat 2 raise 2\nat 2 raise 3\nat 2 raise 4\nat 2 raise 5\nat 2 raise 6\n\
at 2 raise 7\nat 2 raise 8\nat 2 raise 9\nat 2 raise 10\nat 2 raise 11\nat 2 raise 12\nat 2 raise 13\n";

/// The whole of that run.
const ALL_ACCEPTED: &str =
    "a0 6000 6002 2000 2010\n1 a0.t0 6000 3FFF\n2 a0.t0 int 13 6000 200C:08 200D:00 200E:00 200F:60\n\
3 kernel line 13\n4 a0.t0 int 12 6000 200C:08 200D:00 200E:00 200F:60\n5 kernel line 12\n\
6 a0.t0 int 11 6000 200C:08 200D:00 200E:00 200F:60\n7 kernel line 11\n\
8 a0.t0 int 10 6000 200C:08 200D:00 200E:00 200F:60\n9 kernel line 10\n\
10 a0.t0 int 9 6000 200C:08 200D:00 200E:00 200F:60\n11 kernel line 9\n\
12 a0.t0 int 8 6000 200C:08 200D:00 200E:00 200F:60\n13 kernel line 8\n\
14 a0.t0 int 7 6000 200C:08 200D:00 200E:00 200F:60\n15 kernel line 7\n\
16 a0.t0 int 6 6000 200C:08 200D:00 200E:00 200F:60\n17 kernel line 6\n\
18 a0.t0 int 5 6000 200C:08 200D:00 200E:00 200F:60\n19 kernel line 5\n\
20 a0.t0 int 4 6000 200C:08 200D:00 200E:00 200F:60\n21 kernel line 4\n\
22 a0.t0 int 3 6000 200C:08 200D:00 200E:00 200F:60\n23 kernel line 3\n\
24 a0.t0 int 2 6000 200C:08 200D:00 200E:00 200F:60\n25 kernel line 2\n\
26 a0.t0 int 1 6000 200C:08 200D:00 200E:00 200F:60\n27 kernel line 1\n\
28 a0.t0 int 0 6000 200C:08 200D:00 200E:00 200F:60\n29 kernel line 0\n30 a0.t0 6000 3FFF\n31 a0.t0 6000 3FFF\n\
end limit 31 emits 0 faults 0\n";

/// Fourteen lines are accepted from the highest to the lowest, and each pushes the same four bytes.
#[test]
fn fourteen_lines_come_one_after_the_other(rt: HostRuntime) -> Result<(), Fail> {
    let stored: [Stored; 2] = [(b"s", ALL_LINES), (b"x.o", &SELF_JUMP)];
    let line = "run --all s 31 x.o";
    try_stored_pieces(&rt, rt.alloc(), &stored, line, &[ALL_ACCEPTED], 0)
}

// The steps and the order of the rows below are those of a model of the node that was written from its description, apart from
// this program.

/// Each thread sleeps for a tick, tells who it is, and exits.
const SLEEPS: &[u8] =
    b".app 32 4\n.entry main\nmain: MOV #nap,R12\nMOV #3,R13\nCALL #0xF00A\nMOV #nap,R12\nMOV #3,R13\nCALL #0xF00A\n\
MOV #nap,R12\nMOV #3,R13\nCALL #0xF00A\nnap: MOV #1,R12\nCALL #0xF00E\nCALL #0xF012\nMOV R13,R12\nCALL #0xF024\n\
CALL #0xF008\nstay: JMP stay\n";

/// What those threads print.
const WOKEN: Case = Case {
    line: "run s 3000 a.o a.o a.o a.o a.o a.o a.o a.o",
    out: "a0 6000 609E 2000 2080\na1 609E 613C 2080 2100\na2 613C 61DA 2100 2180\na3 61DA 6278 2180 2200\n\
a4 6278 6316 2200 2280\na5 6316 63B4 2280 2300\na6 63B4 6452 2300 2380\na7 6452 64F0 2380 2400\n\
1514 a0.t0 emit 0000\n1520 a0.t0 exit\n1533 a1.t0 emit 0100\n1539 a1.t0 exit\n1552 a2.t0 emit 0200\n\
1558 a2.t0 exit\n1571 a3.t0 emit 0300\n1577 a3.t0 exit\n1590 a4.t0 emit 0400\n1596 a4.t0 exit\n\
1609 a5.t0 emit 0500\n1615 a5.t0 exit\n1628 a6.t0 emit 0600\n1634 a6.t0 exit\n1647 a7.t0 emit 0700\n\
1653 a7.t0 exit\n1666 a0.t1 emit 0001\n1672 a0.t1 exit\n1685 a0.t2 emit 0002\n1691 a0.t2 exit\n\
1704 a0.t3 emit 0003\n1710 a0.t3 exit last\n1723 a1.t1 emit 0101\n1729 a1.t1 exit\n1742 a1.t2 emit 0102\n\
1748 a1.t2 exit\n1761 a1.t3 emit 0103\n1767 a1.t3 exit last\n1780 a2.t1 emit 0201\n1786 a2.t1 exit\n\
1799 a2.t2 emit 0202\n1805 a2.t2 exit\n1818 a2.t3 emit 0203\n1824 a2.t3 exit last\n1837 a3.t1 emit 0301\n\
1843 a3.t1 exit\n1856 a3.t2 emit 0302\n1862 a3.t2 exit\n1875 a3.t3 emit 0303\n1881 a3.t3 exit last\n\
1894 a4.t1 emit 0401\n1900 a4.t1 exit\n1913 a4.t2 emit 0402\n1919 a4.t2 exit\n1932 a4.t3 emit 0403\n\
1938 a4.t3 exit last\n1951 a5.t1 emit 0501\n1957 a5.t1 exit\n1970 a5.t2 emit 0502\n1976 a5.t2 exit\n\
1989 a5.t3 emit 0503\n1995 a5.t3 exit last\n2008 a6.t1 emit 0601\n2014 a6.t1 exit\n2027 a6.t2 emit 0602\n\
2033 a6.t2 exit\n2046 a6.t3 emit 0603\n2052 a6.t3 exit last\n2065 a7.t1 emit 0701\n2071 a7.t1 exit\n\
2084 a7.t2 emit 0702\n2090 a7.t2 exit\n2103 a7.t3 emit 0703\n2109 a7.t3 exit last\n\
end quiet 2109 emits 32 faults 0\n",
    err: "",
    status: 0,
};

/// Eight applications of four threads.
#[test]
fn a_tick_wakes_32_sleepers_in_their_order(rt: HostRuntime) -> Result<(), Fail> {
    let sources = [Source {
        name: b"a.o",
        text: SLEEPS,
    }];
    try_run(&rt, rt.alloc(), &sources, b"at 1500 raise 0", &WOKEN)
}

/// Waits for line 5 over and over, and emits 55 after each time.
const WAITS: &[u8] =
    b".app 32 1\n.entry main\nmain: MOV #5,R12\nCALL #0xF020\nMOV #0x55,R12\nCALL #0xF024\nBR #main\n";

/// Each step of that run.
const TAKEN: Case = Case {
    line: "run --all s 60 a.o",
    out: "a0 6000 6030 2000 2020\n1 a0.t0 6000 403C\n2 a0.t0 6004 4205\n3 a0.t0 6006 9211\n4 a0.t0 600A 2C02\n\
5 a0.t0 6010 4502\n6 a0.t0 6012 12B0 201E:16 201F:60\n7 a0.t0 entry line\n8 idle\n9 idle\n10 idle\n11 idle\n\
12 idle int 5 F07E 10FC:08 10FD:00 10FE:7E 10FF:F0\n13 kernel line 5\n14 a0.t0 6016 403C\n15 a0.t0 601A 4205\n\
16 a0.t0 601C 9211\n17 a0.t0 6020 2C02\n18 a0.t0 6026 4502\n19 a0.t0 6028 12B0 201E:2C 201F:60\n\
20 a0.t0 emit 0055\n21 a0.t0 602C 4030\n22 a0.t0 6000 403C\n23 a0.t0 6004 4205\n24 a0.t0 6006 9211\n\
25 a0.t0 600A 2C02\n26 a0.t0 6010 4502\n27 a0.t0 6012 12B0 201E:16 201F:60\n28 a0.t0 entry line\n29 idle\n\
30 idle int 9 F07E 10FC:08 10FD:00 10FE:7E 10FF:F0\n31 kernel line 9\n\
32 idle int 5 F07E 10FC:08 10FD:00 10FE:7E 10FF:F0\n33 kernel line 5\n\
34 a0.t0 int 7 6016 201C:08 201D:00 201E:16 201F:60\n35 kernel line 7\n36 a0.t0 6016 403C\n37 a0.t0 601A 4205\n\
38 a0.t0 601C 9211\n39 a0.t0 6020 2C02\n40 a0.t0 6026 4502\n41 a0.t0 6028 12B0 201E:2C 201F:60\n\
42 a0.t0 emit 0055\n43 a0.t0 602C 4030\n44 a0.t0 6000 403C\n45 a0.t0 6004 4205\n46 a0.t0 6006 9211\n\
47 a0.t0 600A 2C02\n48 a0.t0 6010 4502\n49 a0.t0 6012 12B0 201E:16 201F:60\n50 a0.t0 entry line\n\
end quiet 50 emits 2 faults 0\n",
    err: "",
    status: 0,
};

/// Line 5 comes while the node is idle, beside line 9, and once more while it pends; line 7 comes in the routine of line 5.
#[test]
fn a_line_is_taken_once_however_often_it_pends(rt: HostRuntime) -> Result<(), Fail> {
    let script: &[u8] =
        b"at 12 raise 5\nat 30 raise 9\nat 30 raise 5\nat 31 raise 5\nat 33 raise 7\n";
    let sources = [Source {
        name: b"a.o",
        text: WAITS,
    }];
    try_run(&rt, rt.alloc(), &sources, script, &TAKEN)
}

/// Emits who it is over and over, and yields between.
const TELLS: &[u8] =
    b".app 32 1\n.entry main\nmain: CALL #0xF012\nMOV R13,R12\nCALL #0xF024\nCALL #0xF00C\nJMP main\n";

/// The order in which five applications tell who they are.
const MIXED: Case = Case {
    line: "run s 400 a.o a.o a.o a.o a.o",
    out: "a0 6000 603C 2000 2020\na1 603C 6078 2020 2040\na2 6078 60B4 2040 2060\na3 60B4 60F0 2060 2080\n\
a4 60F0 612C 2080 20A0\n19 a1.t0 emit 0100\n45 a1.t0 emit 0100\n64 a2.t0 emit 0200\n84 a0.t0 emit 0000\n\
110 a4.t0 emit 0400\n117 a1.t0 emit 0100\n124 a2.t0 emit 0200\n144 a0.t0 emit 0000\n164 a0.t0 emit 0000\n\
177 a3.t0 emit 0300\n209 a2.t0 emit 0200\n250 a1.t0 emit 0100\n257 a3.t0 emit 0300\n271 a0.t0 emit 0000\n\
303 a4.t0 emit 0400\n324 a1.t0 emit 0100\n343 a0.t0 emit 0000\n350 a3.t0 emit 0300\n370 a2.t0 emit 0200\n\
390 a4.t0 emit 0400\nend limit 400 emits 20 faults 0\n",
    err: "",
    status: 0,
};

/// x(0) is 2026, x(s) is (1664525 * x(s-1) + 1013904223) mod 2^32, and step s picks x(s) div 65536 modulo the ready threads.
#[test]
fn mixed_picks_follow_their_formula(rt: HostRuntime) -> Result<(), Fail> {
    let sources = [Source {
        name: b"a.o",
        text: TELLS,
    }];
    try_run(&rt, rt.alloc(), &sources, b"mix 2026", &MIXED)
}

/// Thread 1 overwrites what thread 0 has pushed, where an interrupt comes between a call of the kernel and its entry.
const BETWEEN: &[u8] =
    b".app 32 2\n.entry main\nmain: MOV #evil,R12\nMOV #3,R13\nCALL #0xF00A\nCALL #0xF00C\nstay: JMP stay\n\
evil: MOV #LO,R6\nMOV #0x1234,30(R6)\nCALL #0xF00C\nstay2: JMP stay2\n";

/// The fault of that thread.
const NO_RETURN: Case = Case {
    line: "run s 100 a.o",
    out: "a0 6000 606A 2000 2040\n32 a0.t0 fault return 1234\nend quiet 32 emits 0 faults 1\n",
    err: "",
    status: 6,
};

/// The interrupted thread's own entry then finds an address of no code.
#[test]
fn an_address_overwritten_before_its_entry_is_no_return(rt: HostRuntime) -> Result<(), Fail> {
    let sources = [Source {
        name: b"a.o",
        text: BETWEEN,
    }];
    let script = b"at 14 raise 1\nat 15 pick 1";
    try_run(&rt, rt.alloc(), &sources, script, &NO_RETURN)
}
