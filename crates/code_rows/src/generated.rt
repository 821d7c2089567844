//! Objects whose words were worked out apart.

use code_model::object::Object;
use code_model::parts::{RelKind, Reloc};
use object_gen::generate;

/// Whether words stand at a place of the code.
fn has_words(o: &Object, at: usize, words: &[u16]) -> bool {
    match o.code.as_slice().get(at..) {
        Some(rest) => rest.starts_with(words),
        None => false,
    }
}

/// Whether a code word at an offset is relocated so.
fn is_relocated(o: &Object, kind: RelKind, offset: u16) -> bool {
    let wanted = Reloc {
        in_code: true,
        kind,
        offset,
    };
    o.relocs.as_slice().contains(&wanted)
}

#[test]
fn zero_gives_its_words(rt: HostRuntime) {
    let o = generate(rt.alloc(), 0).expect(&rt, "memory");
    assert_eq!(rt; o.code.len(), 925);
    assert_eq!(rt; o.relocs.len(), 124);
    assert!(rt;
        has_words(
            &o,
            0,
            &[
                0x4036, 0x3C6E, 0x4037, 0x4750, 0x4038, 0xD1CC, 0x4039, 0xAAF9, 0x403A, 0x6252,
                0x403B, 0x9F2E
            ]
        )
    );
    assert!(rt; has_words(&o, 12, &[0x2001, 0x470B]));
    assert!(rt; has_words(&o, 14, &[0x5708]));
    assert!(rt; has_words(&o, 15, &[0x403C, 0x0034, 0x4A8C, 0x0000]));
    assert!(rt; has_words(&o, 21, &[0x4A0C, 0x12B0, 0xF024]));
    assert!(rt; has_words(&o, 24, &[0x1108]));
    assert!(rt; has_words(&o, 31, &[0xEB0A]));
    assert!(rt; has_words(&o, 36, &[0x1208, 0x4136]));
    assert!(rt; has_words(&o, 38, &[0x4782, 0x0024]));
    assert!(rt; has_words(&o, 923, &[0x4030, 0x0000]));
    assert!(rt; is_relocated(&o, RelKind::Data, 32));
    assert!(rt; is_relocated(&o, RelKind::Code, 1848));
}

#[test]
fn the_greatest_number_gives_its_words(rt: HostRuntime) {
    let o = generate(rt.alloc(), 4294967295).expect(&rt, "memory");
    assert_eq!(rt; o.code.len(), 935);
    assert_eq!(rt; o.relocs.len(), 125);
    assert!(rt;
        has_words(
            &o,
            0,
            &[
                0x4036, 0x3C55, 0x4037, 0x3017, 0x4038, 0x2283, 0x4039, 0xA17F, 0x403A, 0xB7B5,
                0x403B, 0xDFC4
            ]
        )
    );
    assert!(rt; has_words(&o, 931, &[0x1208, 0x413B]));
    assert!(rt; has_words(&o, 933, &[0x4030, 0x0000]));
    assert!(rt; is_relocated(&o, RelKind::Data, 28));
    assert!(rt; is_relocated(&o, RelKind::Code, 1868));
}
