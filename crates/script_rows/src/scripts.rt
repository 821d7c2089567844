//! Scripts of a few lines, and the lines that break a rule.

use read_script::read_script;
use std::alloc::Global;
use std::test::*;
use trace_model::scripts::{At, AtKind, Ats, Every, Script, ScriptFault};

/// The most bytes of a script.
const TEXT_MAX: usize = 1_048_576;

/// Texts whose last line is the first that breaks a rule, with its number.
const FAULTS: [(u32, &str); 44] = [
    // A step falls, a step has a second pick, `mix` stands twice.
    (2, "at 5 raise 1\nat 4 raise 1"),
    (4, "at 9 pick 1\n# at 8\n\nat 8 pick 2"),
    (3, "at 5 pick 1\nat 5 raise 2\nat 5 pick 1"),
    (2, "mix 0\nmix 0"),
    // Words of no line, too few of them and too many.
    (1, "rise 5 1"),
    (1, "EVERY 5 1"),
    (1, "everyone 5 1"),
    (1, "eve 5 1"),
    (1, "every"),
    (1, "every 5"),
    (1, "every 5 1 1"),
    (1, "at"),
    (1, "at 5"),
    (1, "at 5 raise"),
    (1, "at 5 raise 1 1"),
    (1, "at 5 pick"),
    (1, "at 5 pick 1 #"),
    (1, "at 5 fall 1"),
    (1, "mix"),
    (1, "mix 5 # five"),
    (1, "mix\x0B5"),
    // Signs, leading zeros, other digits.
    (1, "every +5 1"),
    (1, "every 05 1"),
    (1, "at -5 raise 1"),
    (1, "at 5 raise 01"),
    (1, "at 5 raise 1."),
    (1, "mix 00"),
    (1, "mix 0x10"),
    (1, "mix 1:"),
    (1, "mix 1/"),
    // Numbers out of their ranges, however many digits they have.
    (1, "every 0 1"),
    (1, "every 10000001 1"),
    (1, "every 5 14"),
    (1, "at 0 raise 1"),
    (1, "at 10000001 pick 1"),
    (1, "at 5 raise 14"),
    (1, "at 5 raise 257"),
    (1, "at 5 pick 4294967296"),
    (1, "mix 4294967296"),
    (1, "mix 99999999999999999999"),
    (1, "every 18446744073709551621 1"),
    // Bytes over 7F, in a comment too; a CR that isn't the last before LF.
    (2, "mix 5\n# caf\u{e9}"),
    (1, "mix\u{a0}5"),
    (1, "mix 5\r\r"),
];

/// The first line of a text that breaks a rule, if there is one.
fn faulty_line(alloc: Global, text: &[u8]) -> Option<u32> {
    if text.len() > TEXT_MAX {
        return None;
    }
    match read_script(alloc, text) {
        Err(ScriptFault::At { line }) => Some(line),
        _ => None,
    }
}

#[test]
fn each_rule_that_is_broken_is_named_in_the_middle_and_in_a_last_line_without_lf(
    rt: HostRuntime,
) -> Result<(), Fail> {
    for (line, text) in FAULTS {
        assert_eq!(rt;
            faulty_line(rt.alloc(), text.as_bytes()),
            Some(line),
            "{text:?}"
        );
        let middle = format!(in rt.alloc(); "{text}\nmix 1\nmix 1\n")?;
        assert_eq!(rt;
            faulty_line(rt.alloc(), middle.as_str().as_bytes()),
            Some(line),
            "{text:?}"
        );
    }
    Ok(())
}

#[test]
fn a_last_line_without_lf_keeps_its_cr(rt: HostRuntime) -> Result<(), Fail> {
    assert_eq!(rt; faulty_line(rt.alloc(), b"mix 5\r\n"), None);
    assert_eq!(rt; faulty_line(rt.alloc(), b"mix 5\n\r\n\r"), Some(3));
    assert_eq!(rt; faulty_line(rt.alloc(), b"mix 5\n# five\r"), None);
    Ok(())
}

/// Whether a script is of these lines.
fn is_of(script: &Script, ats: &[At], everys: &[Every], mix: Option<u32>) -> bool {
    if script.ats.len() != ats.len() {
        return false;
    }
    for i in 0..ats.len() {
        if script.ats.get(i) != Some(ats[i]) {
            return false;
        }
    }
    script.everys.as_slice() == everys && script.mix == mix
}

fn raise(step: u32, line: u8) -> At {
    At {
        step,
        what: AtKind::Raise(line),
    }
}

fn pick(step: u32, number: u32) -> At {
    At {
        step,
        what: AtKind::Pick(number),
    }
}

#[test]
fn an_empty_text_is_an_empty_script(rt: HostRuntime) -> Result<(), Fail> {
    let script = read_script(rt.alloc(), b"")?;
    assert!(rt; is_of(&script, &[], &[], None));
    Ok(())
}

#[test]
fn comments_blanks_and_both_ends_of_lines_are_read(rt: HostRuntime) -> Result<(), Fail> {
    let script = read_script(
        rt.alloc(),
        b"# first\r\n\r\n \t \n\tevery\t3  0 \r\n\t#\x01 second\nat 3 raise 13\n#\nat 3 pick 7\r\n\
at 3 raise 13\nat 4 pick 7\n mix 0",
    )?;
    let ats = [raise(3, 13), pick(3, 7), raise(3, 13), pick(4, 7)];
    assert!(rt; is_of(&script, &ats, &[Every { period: 3, line: 0 }], Some(0)));
    Ok(())
}

#[test]
fn both_ends_of_each_range_are_read(rt: HostRuntime) -> Result<(), Fail> {
    let script = read_script(
        rt.alloc(),
        b"every 1 0\nevery 10000000 13\nat 1 raise 0\nat 1 pick 0\nat 10000000 raise 13\n\
at 10000000 pick 4294967295\nmix 4294967295\n",
    )?;
    let ats = [
        raise(1, 0),
        pick(1, 0),
        raise(10_000_000, 13),
        pick(10_000_000, u32::MAX),
    ];
    let everys = [
        Every { period: 1, line: 0 },
        Every {
            period: 10_000_000,
            line: 13,
        },
    ];
    assert!(rt; is_of(&script, &ats, &everys, Some(u32::MAX)));
    Ok(())
}

#[test]
fn sixteen_every_lines_are_read_and_a_seventeenth_is_named(rt: HostRuntime) -> Result<(), Fail> {
    let mut text = String::new(rt.alloc());
    for _ in 0..16u8 {
        text.push_str("every 2 1\n")?;
    }
    let all = text.as_str().as_bytes();
    assert!(rt; all.len() <= TEXT_MAX);
    let script = read_script(rt.alloc(), all)?;
    assert!(rt; is_of(&script, &[], &[Every { period: 2, line: 1 }; 16], None));
    text.push_str("every 2 1")?;
    assert_eq!(rt; faulty_line(rt.alloc(), text.as_str().as_bytes()), Some(17));
    Ok(())
}

#[test]
fn a_text_of_a_mebibyte_is_read(rt: HostRuntime) -> Result<(), Fail> {
    let mut text = String::new(rt.alloc());
    for _ in 0..80_659u32 {
        text.push_str("at 1 raise 1\n")?;
    }
    text.push_str("#########")?;
    let all = text.as_str().as_bytes();
    assert_eq!(rt; all.len(), TEXT_MAX);
    let script = read_script(rt.alloc(), all)?;
    assert_eq!(rt; script.ats.len(), 80_659);
    assert_eq!(rt; script.ats.get(80_658), Some(raise(1, 1)));
    Ok(())
}

#[test]
fn a_list_of_at_lines_grows_at_its_end(rt: HostRuntime) -> Result<(), Fail> {
    let mut ats = Ats::new(rt.alloc());
    assert_eq!(rt; ats.len(), 0);
    assert_eq!(rt; ats.get(0), None);
    ats.push(raise(3, 13))?;
    ats.push(pick(3, u32::MAX))?;
    assert_eq!(rt; ats.len(), 2);
    assert_eq!(rt; ats.get(0), Some(raise(3, 13)));
    assert_eq!(rt; ats.get(1), Some(pick(3, u32::MAX)));
    assert_eq!(rt; ats.get(2), None);
    Ok(())
}
