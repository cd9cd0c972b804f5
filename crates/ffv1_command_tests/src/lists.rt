//! Lines, words and numbers of texts.
use ffv1_texts::{first_line, read_number, split_at_byte, words_of};
use std::alloc::Global;

/// Whether a line has these words.
fn has_words(alloc: Global, line: &[u8], wanted: &[&[u8]]) -> bool {
    match words_of(alloc, line) {
        Ok(words) => words.as_slice() == wanted,
        Err(_) => false,
    }
}

/// Lines, and their words.
static LINES: [(&[u8], &[&[u8]]); 3] = [
    (b"4096 300000", &[b"4096", b"300000"]),
    (b" a  b", &[b"", b"a", b"", b"b"]),
    (b"", &[b""]),
];

#[test]
fn spaces_part_words(rt: HostRuntime) {
    for &(line, words) in &LINES {
        assert!(rt; has_words(rt.alloc(), line, words));
    }
}

#[test]
fn line_feeds_end_lines(rt: HostRuntime) {
    let lines = (first_line(b"a b\n\nc"), first_line(b"c"));
    let wanted: ((&[u8], &[u8]), (&[u8], &[u8])) = ((b"a b", b"\nc"), (b"c", b""));
    assert!(rt; lines == wanted && split_at_byte(b"c", b' ').is_none());
}

/// Texts, and the numbers that they write.
static NUMBERS: [(&[u8], Option<u64>); 5] = [
    (b"18446744073709551615", Some(u64::MAX)),
    (b"18446744073709551616", None),
    (b"007", Some(7)),
    (b"", None),
    (b"1x", None),
];

#[test]
fn digits_write_numbers(rt: HostRuntime) {
    for &(text, number) in &NUMBERS {
        assert!(rt; read_number(text) == number);
    }
}
