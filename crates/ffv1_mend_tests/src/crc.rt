//! CRC-32, and elements that begin with it.
use crate::element::{OTHER, changed};
use ebml::{crc32, element_left, passes_crc32};

#[test]
fn crc32_of_known_bytes(rt: HostRuntime) {
    let known = (
        crc32(b""),
        crc32(b"a"),
        crc32(b"abc"),
        crc32(b"123456789"),
        crc32(b"The quick brown fox jumps over the lazy dog"),
    );
    assert!(rt; known == (0, 0xE8B7BE43, 0x352441C2, 0xCBF43926, 0x414FA339));
}

#[test]
fn elements_pass_where_nothing_is_left(rt: HostRuntime) {
    let passed = [
        passes_crc32(&changed(&[])),
        passes_crc32(&changed(OTHER)),
        passes_crc32(&[0xBF, 0x84, 0, 0, 0, 0]),
        passes_crc32(&changed(&[(499, 1)])),
        passes_crc32(&changed(&[(0, 1)])),
        passes_crc32(&[0xBF, 0x84, 0, 0, 0]),
    ];
    let left = (
        element_left(&changed(&[])),
        element_left(&changed(&[(1, 1)])),
    );
    assert!(rt; (passed, left) == ([true, true, true, false, false, false], (0, 0)));
}
