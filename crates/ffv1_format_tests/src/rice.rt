//! Codes of samples, states of contexts, and words of runs.
ghost use Rattle.std.specs.Prelude.{◌≤◌, length};

use ffv1_bits::Bits;
use ffv1_rice::{CodeFault, RunIndex, RunWord, VlcState, fold};
use std::test::*;

/// What reading a word of a line with so many samples left returns, after `skipped` bits and `words` whole words, and
/// the index and the place after it.
fn word_after(
    bytes: &[u8],
    skipped: u32,
    words: u32,
    left: u32,
) -> (Result<RunWord, CodeFault>, usize, usize)
    requires bytes { length bytes.now ≤ 8 }
    requires skipped { skipped ≤ 8 }
    requires left { (1 ≤ left) × (left ≤ 65535) }
{
    let mut index = RunIndex::start();
    let mut bits = Bits::new(bytes);
    let _ = bits.take(skipped);
    for _ in 0..words {
        let _ = index.read(&mut bits, 65535);
    }
    let word = index.read(&mut bits, left);
    (word, index.index(), bits.place())
}

/// The parameter before each of three codes of -1, and the state after it.
static MINUS_ONES: [(u32, (i32, u32, i32, u32)); 3] = [
    (2, (-1, 5, 0, 2)),
    (2, (-2, 6, 0, 3)),
    (1, (-3, 7, 0, 4)),
];

#[test]
fn three_codes_from_the_start(rt: HostRuntime) {
    let mut bits = Bits::new(&[0xB6]);
    let mut state = VlcState::start();
    for &(k, parts) in &MINUS_ONES {
        let read = (state.k(), state.decode(&mut bits, false), state.parts());
        assert!(rt; read == (k, Ok(-1), parts));
    }
    assert!(rt; bits.left() == 0);
}

/// What the first state reads of bytes, for a level or not.
static FIRST_CODES: [(&[u8], bool, Result<i32, CodeFault>); 11] = [
    (&[0x80], true, Ok(1)),
    (&[0x80], false, Ok(0)),
    (&[0xA0], true, Ok(-1)),
    // the longest short code, the shortest escape, and one that a short code spells
    (&[0x00, 0x1C], false, Ok(-24)),
    (&[0x00, 0x02, 0x50], false, Ok(24)),
    (&[0x00, 0x02, 0x40], false, Err(CodeFault::EscapeNotNeeded)),
    (&[0x00, 0x0F, 0x50], false, Err(CodeFault::CodeTooLarge)),
    // six zeros and two ones, of which a third bit is missing
    (&[0x03], false, Err(CodeFault::Truncated)),
    // a level counts one more
    (&[0x00, 0x0F, 0x40], true, Ok(-128)),
    (&[0x00, 0x0F, 0x30], true, Err(CodeFault::LevelTooLarge)),
    (&[0x00, 0x0F, 0x30], false, Ok(127)),
];

#[test]
fn codes_of_the_first_state(rt: HostRuntime) {
    for &(bytes, level, code) in &FIRST_CODES {
        let returned = VlcState::start().decode(&mut Bits::new(bytes), level);
        assert!(rt; returned == code);
    }
}

/// What the first state reads of bytes at a coded depth, for a level or not.
static DEEP_CODES: [(&[u8], u32, bool, Result<i32, CodeFault>); 9] = [
    // a short code is the same at each depth
    (&[0xA0], 9, false, Ok(-1)),
    // the shortest escape has nine bits after the zeros
    (&[0x00, 0x01, 0x28], 9, false, Ok(24)),
    (
        &[0x00, 0x01, 0x20],
        9,
        false,
        Err(CodeFault::EscapeNotNeeded),
    ),
    (&[0x00, 0x0F, 0xA0], 9, false, Ok(-256)),
    (&[0x00, 0x0F, 0xA8], 9, false, Err(CodeFault::CodeTooLarge)),
    (&[0x00, 0x0F, 0x98], 9, true, Err(CodeFault::LevelTooLarge)),
    (&[0x00, 0x0F, 0x98], 9, false, Ok(255)),
    (&[0x00, 0x0F, 0xFF, 0xA0], 17, false, Ok(-65536)),
    (&[0x00, 0x0F, 0xFF], 17, false, Err(CodeFault::Truncated)),
];

#[test]
fn codes_at_greater_depths(rt: HostRuntime) {
    for &(bytes, depth, level, code) in &DEEP_CODES {
        assert!(rt; 8 <= depth && depth <= 17);
        let returned = VlcState::start().decode_at(&mut Bits::new(bytes), depth, level);
        assert!(rt; returned == code);
    }
}

#[test]
fn parameter_of_16(rt: HostRuntime) {
    // twelve zeros and a suffix of 17 bits, and then a one and 16 zeros
    let mut bits = Bits::new(&[0x00, 0x0F, 0xFF, 0xA4, 0x00, 0x00]);
    let mut state = VlcState::start();
    let first = (
        state.decode_at(&mut bits, 17, false),
        state.parts(),
        state.k(),
    );
    let last = (
        state.decode_at(&mut bits, 17, false),
        state.parts(),
        state.k(),
    );
    assert!(rt; first == (Ok(-65536), (-1, 65540, -1, 2), 16));
    assert!(rt; (last, bits.left()) == ((Ok(-1), (-1, 65540, -1, 3), 15), 2));
}

#[test]
fn value_3_from_the_start(rt: HostRuntime) {
    let mut state = VlcState::start();
    let code = state.decode(&mut Bits::new(&[0x60]), false);
    assert!(rt; (code, state.parts(), state.k()) == (Ok(3), (0, 7, 1, 2), 2));
}

/// The state after codes of a difference, all of them 0, or `None` where one of them is another.
fn state_after_zeros(bits: &mut Bits<'_>, codes: u32) -> Option<(i32, u32, i32, u32)> {
    let mut state = VlcState::start();
    for _ in 0..codes {
        if state.decode(bits, false) != Ok(0) {
            return None;
        }
    }
    Some(state.parts())
}

#[test]
fn codes_of_128_zeros(rt: HostRuntime) {
    // `100`, `10` twice, and 125 ones
    let mut bytes = [0xFFu8; 17];
    bytes[0] = 0x95;
    bytes[16] = 0xF0;
    let mut bits = Bits::new(&bytes);
    let state = state_after_zeros(&mut bits, 128);
    assert!(rt; (state, bits.left()) == (Some((0, 2, 0, 65)), 4));
}

#[test]
fn parameters_of_7_and_6(rt: HostRuntime) {
    // twelve zeros and `11110100`, and then `10000000`
    let mut bits = Bits::new(&[0x00, 0x0F, 0x48, 0x00]);
    let mut state = VlcState::start();
    let first = (state.decode(&mut bits, false), state.parts(), state.k());
    // where the parameter is 7, what stands for 256 is refused in either form
    let escape = state.decode(&mut Bits::new(&[0x00, 0x0F, 0x50]), false);
    let short = state.decode(&mut Bits::new(&[0x20, 0x00]), false);
    let last = (state.decode(&mut bits, false), state.parts(), state.k());
    let states = (
        (Ok(-128), (-1, 132, -1, 2), 7),
        (Ok(-1), (-1, 132, -1, 3), 6),
    );
    let refused = (
        Err(CodeFault::EscapeNotNeeded),
        Err(CodeFault::CodeTooLarge),
    );
    assert!(rt; ((first, last), (escape, short)) == (states, refused));
}

#[test]
fn lines_of_zeros(rt: HostRuntime) {
    let mut bits = Bits::new(&[0xFC]);
    let mut index = RunIndex::start();
    let words = [
        index.read(&mut bits, 8),
        index.read(&mut bits, 7),
        index.read(&mut bits, 6),
        index.read(&mut bits, 5),
        index.read(&mut bits, 4),
        index.read(&mut bits, 2),
    ];
    let (one, two) = (Ok(RunWord::Full(1)), Ok(RunWord::Full(2)));
    assert!(rt; (words, index.index()) == ([one, one, one, one, two, two], 6));
}

/// Bytes, the bits and the whole words that are passed over, how many samples are left, the word, the index and the place.
type Word = (
    &'static [u8],
    u32,
    u32,
    u32,
    Result<RunWord, CodeFault>,
    usize,
    usize,
);

static WORDS: [Word; 10] = [
    (&[0xFC], 0, 5, 1, Ok(RunWord::ToEnd), 5, 6),
    (&[0xFA], 0, 5, 1, Ok(RunWord::ToEnd), 4, 7),
    (&[0xF4], 0, 4, 5, Ok(RunWord::Rest(1)), 3, 6),
    (&[0xF4], 0, 4, 1, Ok(RunWord::ToEnd), 3, 6),
    (&[0xF8], 0, 4, 1, Ok(RunWord::ToEnd), 4, 5),
    (&[0xF8], 0, 4, 2, Ok(RunWord::Full(2)), 5, 5),
    // the index is at most 32
    (&[0xFF; 5], 0, 32, 65535, Ok(RunWord::ToEnd), 32, 33),
    // a word may end the bits, and one that is cut leaves the index and the place
    (&[0x00], 7, 0, 3, Ok(RunWord::Rest(0)), 0, 8),
    (&[0x00], 8, 0, 3, Err(CodeFault::Truncated), 0, 8),
    (&[0x03, 0xFD], 6, 8, 9, Err(CodeFault::Truncated), 8, 14),
];

#[test]
fn words_after_whole_ones(rt: HostRuntime) {
    for &(bytes, skipped, words, left, word, index, place) in &WORDS {
        assert!(rt; bytes.len() <= 8 && skipped <= 8 && 1 <= left && left <= 65535);
        assert!(rt; word_after(bytes, skipped, words, left) == (word, index, place));
    }
}

/// Differences, their depth, and what is left of them in so many bits.
static FOLDED: [(i32, u32, i32); 12] = [
    (0, 8, 0),
    (127, 8, 127),
    (128, 8, -128),
    (-128, 8, -128),
    (-129, 8, 127),
    (255, 8, -1),
    (-255, 8, 1),
    (255, 9, 255),
    (256, 9, -256),
    (-257, 9, 255),
    (-65537, 17, 65535),
    (i32::MIN, 17, 0),
];

#[test]
fn fold_keeps_so_many_bits(rt: HostRuntime) {
    for &(d, depth, folded) in &FOLDED {
        assert!(rt; 8 <= depth && depth <= 17);
        assert!(rt; fold(d, depth) == folded);
    }
}
