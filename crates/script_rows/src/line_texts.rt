//! Numbers and words in the text of a line.

use line_text::line::Line;

#[test]
fn numbers_are_decimal_and_words_hexadecimal(rt: HostRuntime) {
    for (number, word, text) in [
        (0, 0, "0 0000"),
        (10_000_000, 0xF07E, "10000000 F07E"),
        (4_294_967_295, 0x1FAB, "4294967295 1FAB"),
    ] {
        let mut line = Line::new();
        line.push_decimal(number);
        line.push_text(b" ");
        line.push_word(word);
        assert_eq!(rt; line.as_slice(), text.as_bytes());
    }
}
