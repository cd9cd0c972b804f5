//! Places of a splice, a row for each way in which one comes to stand: of three copies of a recorded frame.
use ffv1_splice::{Place, Spliced, Standing, splice};
use ffv1_test_frames::{BLACK, RECORDED};
use std::alloc::Global;

/// Bytes of the frame that are changed: the place of each, and the mask of its bits that are turned.
type Changes = &'static [(usize, u8)];

/// What is shown, the bytes that are changed in each of three copies, how the frame's four slices stand, from its end, and the bytes that
/// are changed in what is spliced.
type Row = (&'static str, [Changes; 3], [Standing; 4], Changes);

const SETTLED: Standing = Standing::Settled;

/// The second slice, lost with its footer: its content is damaged, and the footer gives a size beyond the frame.
const SECOND_LOST: Changes = &[(60, 0x01), (107, 0x80)];

/// The third, lost so, and a bit of the first.
const THIRD_LOST: Changes = &[(20, 0x01), (150, 0x01), (219, 0x80)];

/// The third, lost so, and every third of 14 bytes of the first, three apart.
const THIRD_LOST_AND_ONE: Changes = &[
    (1, 1),
    (10, 1),
    (19, 1),
    (28, 1),
    (37, 1),
    (150, 1),
    (219, 0x80),
];

/// The next of them.
const THIRD_LOST_AND_OTHER: Changes = &[
    (4, 1),
    (13, 1),
    (22, 1),
    (31, 1),
    (40, 1),
    (150, 1),
    (219, 0x80),
];

/// And the rest.
const THIRD_LOST_AND_THIRD: Changes = &[(7, 1), (16, 1), (25, 1), (34, 1), (150, 1), (219, 0x80)];

static ROWS: [Row; 7] = [
    (
        "walk down: each slice is whole in some copy",
        [&[(39, 1)], &[(103, 1)], &[(209, 1), (286, 1)]],
        [SETTLED; 4],
        &[],
    ),
    (
        "walk up: the slice below one that is lost is settled, and the lost one is undivided",
        [SECOND_LOST, SECOND_LOST, SECOND_LOST],
        [SETTLED, SETTLED, Standing::Undivided, SETTLED],
        SECOND_LOST,
    ),
    (
        "repaired: the third slice has one wrong bit in all copies",
        [&[(150, 1)], &[(150, 1)], &[(150, 1)]],
        [SETTLED, Standing::Repaired(896), SETTLED, SETTLED],
        &[],
    ),
    (
        "voted: each of 15 bytes of the third slice, seven apart, is wrong in one copy",
        [
            &[(120, 1), (141, 1), (162, 1), (183, 1), (204, 1)],
            &[(127, 1), (148, 1), (169, 1), (190, 1), (211, 1)],
            &[(134, 1), (155, 1), (176, 1), (197, 1), (218, 1)],
        ],
        [SETTLED, Standing::Voted(6), SETTLED, SETTLED],
        &[],
    ),
    (
        "crossed and woven: the first slice is damaged elsewhere in one copy, and the second is settled after it",
        [THIRD_LOST, THIRD_LOST, &[(30, 1), (150, 1), (219, 0x80)]],
        [SETTLED, Standing::Undivided, SETTLED, Standing::Woven(4)],
        &[(150, 1), (219, 0x80)],
    ),
    (
        "crossed and repaired: one bit of the first slice is wrong in all copies",
        [THIRD_LOST, THIRD_LOST, THIRD_LOST],
        [
            SETTLED,
            Standing::Undivided,
            SETTLED,
            Standing::Repaired(424),
        ],
        &[(150, 1), (219, 0x80)],
    ),
    (
        "crossed and voted: each of 14 bytes of the first slice, three apart, is wrong in one copy",
        [
            THIRD_LOST_AND_ONE,
            THIRD_LOST_AND_OTHER,
            THIRD_LOST_AND_THIRD,
        ],
        [SETTLED, Standing::Undivided, SETTLED, Standing::Voted(8)],
        &[(150, 1), (219, 0x80)],
    ),
];

/// The frame where these bytes are changed.
fn changed(changes: &[(usize, u8)]) -> [u8; 336] {
    let mut copy = RECORDED;
    for (place, mask) in changes {
        if let Some(byte) = copy.get_mut(*place) {
            *byte ^= *mask;
        }
    }
    copy
}

/// The frame's slices, from its end, that stand so.
fn places([last, third, second, first]: [Standing; 4]) -> [Place; 4] {
    [
        place(227, 336, last),
        place(115, 227, third),
        place(53, 115, second),
        place(0, 53, first),
    ]
}

fn place(start: usize, end: usize, standing: Standing) -> Place {
    Place {
        start,
        end,
        standing,
    }
}

/// Whether copies that are changed so are spliced to slices that stand so, and to these bytes.
fn gives(
    alloc: Global,
    [one, other, third]: [Changes; 3],
    standings: [Standing; 4],
    payload: Changes,
) -> bool {
    let copies = (changed(one), changed(other), changed(third));
    match splice(alloc, &[&copies.0, &copies.1, &copies.2]) {
        Ok(spliced) => is_splice(&spliced, &places(standings), &changed(payload)),
        Err(_) => false,
    }
}

/// Whether a splice covers the frame with these places, and has these bytes.
fn is_splice(spliced: &Spliced, places: &[Place], payload: &[u8]) -> bool {
    spliced.places() == places && spliced.front() == 0 && spliced.payload() == payload
}

#[test]
fn places_stand_so(rt: HostRuntime) {
    for &(shown, copies, standings, payload) in &ROWS {
        assert!(rt; gives(rt.alloc(), copies, standings, payload), "{shown}");
    }
}

/// A frame of 132 small slices: 65 times one with a wrong bit and a whole one, then one that is lost with its footer, and a whole one.
fn row_of_slices() -> [u8; 1452] {
    let mut frame = [0; 1452];
    for (place, byte) in frame.iter_mut().enumerate() {
        let damaged = match (place / 11, place % 11) {
            (slice, 0) if slice % 2 == 0 => 1,
            (130, 3) => 0x80,
            _ => 0,
        };
        *byte = BLACK.get(place % 11).copied().unwrap_or(0) ^ damaged;
    }
    frame
}

/// How its slices stand, from its end, where 64 that are damaged are crossed: the 65th lies in the hole, under the lost one.
fn crossed_64() -> [Place; 130] {
    let mut places = [place(1441, 1452, SETTLED); 130];
    for (k, stands) in places.iter_mut().enumerate() {
        let slice = 129_usize.wrapping_sub(k);
        let start = slice.wrapping_mul(11);
        let standing = match slice % 2 {
            0 => Standing::Repaired(88),
            _ => SETTLED,
        };
        match k {
            0 => {}
            1 => *stands = place(1408, 1441, Standing::Undivided),
            _ => *stands = place(start, start.wrapping_add(11), standing),
        }
    }
    places
}

#[test]
fn at_most_64_lost_slices_are_crossed(rt: HostRuntime) {
    let spliced = splice(rt.alloc(), &[&row_of_slices()]);
    let is_crossed = match &spliced {
        Ok(spliced) => spliced.places() == crossed_64().as_slice() && spliced.front() == 0,
        Err(_) => false,
    };
    assert!(rt; is_crossed);
}
