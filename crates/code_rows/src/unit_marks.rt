//! Marks of the words of an object's code.

use code_model::marks::Marks;

#[test]
fn marks_are_kept_word_by_word(rt: HostRuntime) {
    let mut marks = Marks::new();
    assert!(rt; !marks.has(0));
    marks.set(14);
    marks.set(16);
    marks.set(16382);
    marks.set(16);
    for (offset, want) in [
        (0, false),
        (12, false),
        (14, true),
        (16, true),
        (18, false),
        (16380, false),
        (16382, true),
    ] {
        assert!(rt; offset % 2 == 0 && offset < 16384);
        assert_eq!(rt; marks.has(offset), want, "at {offset}");
    }
}
