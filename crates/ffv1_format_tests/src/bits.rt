//! The bits of bytes, and places in them.
use ffv1_bits::Bits;

#[test]
fn bits_come_most_significant_first(rt: HostRuntime) {
    let mut bits = Bits::new(&[0xB6, 0x0F]);
    let first = (bits.take(3), bits.bit(), bits.fork().take(8));
    let places = (bits.place(), bits.left());
    let last = (bits.take(12), bits.bit(), bits.place(), bits.left());
    let wanted = ((Some(5), Some(true), Some(0x60)), (4, 12));
    assert!(rt; ((first, places), last) == (wanted, (Some(0x60F), None, 16, 0)));
}

/// How many of the bits of `FF FF FF` are taken next, what they are, and the place after them.
static TAKEN: [(u32, Option<u32>, usize); 4] = [
    (1, Some(1), 1),
    (24, None, 1),
    (0, Some(0), 1),
    (23, Some(0x7F_FFFF), 24),
];

#[test]
fn too_few_bits_leave_the_place(rt: HostRuntime) {
    let mut bits = Bits::new(&[0xFF; 3]);
    for &(count, taken, place) in &TAKEN {
        let read = (bits.take(count), bits.place());
        assert!(rt; read == (taken, place));
    }
}

/// Whether there were so many bits to skip.
fn is_skipped(bits: &mut Bits<'_>, count: usize) -> bool {
    let is_there = bits.left() >= count;
    if is_there {
        bits.skip(count);
    }
    is_there
}

#[test]
fn a_look_ahead_reads_nothing(rt: HostRuntime) {
    let mut bits = Bits::new(&[0xB6, 0x0F, 0x12, 0x34, 0x56, 0x78, 0x9A, 0xBC, 0xDE]);
    let first = bits.peek();
    let second = (
        is_skipped(&mut bits, 4),
        bits.peek(),
        bits.place(),
        bits.left(),
    );
    let last = (is_skipped(&mut bits, 12), bits.peek(), bits.take(12));
    let wanted = (
        Some(0xB6_0F12_3456_789A),
        (true, Some(0x60_F123_4567_89AB), 4, 68),
        (true, None, Some(0x123)),
    );
    assert!(rt; (first, second, last) == wanted);
}
