//! The splice of copies of a recorded frame, as the call gives it, and as the command writes and reports it.
use ffv1_commands::{CliFault, CommandPath, run_splice};
use ffv1_splice::{Place, SpliceFault, Spliced, Standing, splice};
use ffv1_test_frames::RECORDED;
use std::alloc::Global;

/// The places of its slices, from its end, that stand so.
fn places(standings: [Standing; 4]) -> [Place; 4] {
    let [last, third, second, first] = standings;
    [
        Place {
            start: 227,
            end: 336,
            standing: last,
        },
        Place {
            start: 115,
            end: 227,
            standing: third,
        },
        Place {
            start: 53,
            end: 115,
            standing: second,
        },
        Place {
            start: 0,
            end: 53,
            standing: first,
        },
    ]
}

/// Bytes of the frame that are changed: the place of each, and the mask of its bits that are turned.
type Changes = &'static [(usize, u8)];

/// Damage in the first slice and the third.
const FIRST_COPY: Changes = &[(39, 1), (209, 1)];

/// Damage in the second slice and the last.
const SECOND_COPY: Changes = &[(103, 1), (286, 1)];

/// Two bits of the first slice and of the third, so that no single bit can be what is wrong.
const TWO_BITS: Changes = &[(39, 3), (209, 3)];

/// The first slice changed so that it passes its parity: by a multiple of the parity's polynomial.
const OTHER_FIRST_SLICE: Changes = &[(10, 0x01), (11, 0x04), (12, 0xC1), (13, 0x1D), (14, 0xB7)];

/// A footer of the second slice that gives a size beyond the frame.
const SIZE_DAMAGED: Changes = &[(107, 0x80)];

/// A footer of the first slice that does.
const FIRST_SIZE_DAMAGED: Changes = &[(45, 0x80)];

/// Such a slice whose content is damaged too: the second.
const LOST: Changes = &[(60, 0x01), (107, 0x80)];

/// And the first.
const FIRST_LOST: Changes = &[(20, 0x01), (45, 0x80)];

/// The third so, whose footer leads beyond the frame too.
const THIRD_LOST: Changes = &[(150, 0x01), (219, 0x80)];

/// And damage in the first slice besides, whose footer stands.
const THIRD_LOST_FIRST_HURT: Changes = &[(20, 0x03), (150, 0x01), (219, 0x80)];

/// The same elsewhere in the first slice.
const THIRD_LOST_FIRST_HURT_ELSEWHERE: Changes = &[(30, 0x01), (150, 0x01), (219, 0x80)];

/// A footer of the third slice that gives a start within the second.
const SIZE_TOO_LARGE: Changes = &[(221, 0xF8)];

/// The frame where these bytes are changed.
fn changed(changes: &[(usize, u8)]) -> [u8; 336] {
    let mut copy = RECORDED;
    for (place, mask) in changes {
        if let Some(byte) = copy.get_mut(*place) {
            *byte ^= *mask;
        }
    }
    copy
}

/// Whether a splice has these places, this front and these bytes.
fn is_splice(spliced: &Spliced, places: &[Place], front: usize, payload: &[u8]) -> bool {
    spliced.places() == places && spliced.front() == front && spliced.payload() == payload
}

/// Whether two copies, in either order, are spliced to these places and this front, and to these bytes.
fn gives(
    alloc: Global,
    (one, other): (&[u8], &[u8]),
    places: &[Place],
    front: usize,
    payload: &[u8],
) -> bool {
    let spliced = splice(alloc, &[one, other]);
    let turned = splice(alloc, &[other, one, other]);
    match (&spliced, &turned) {
        (Ok(spliced), Ok(turned)) => {
            is_splice(spliced, places, front, payload) && is_splice(turned, places, front, payload)
        }
        _ => false,
    }
}

/// The same of two copies where these bytes are changed: their slices stand so, and what is spliced is the frame where
/// those of the payload are changed.
fn changed_give(
    alloc: Global,
    (one, other): (Changes, Changes),
    standings: [Standing; 4],
    payload: Changes,
) -> bool {
    let copies = (changed(one), changed(other));
    let (places, payload) = (places(standings), changed(payload));
    gives(alloc, (&copies.0, &copies.1), &places, 0, &payload)
}

/// What is shown, the bytes that are changed in two copies, how their slices stand, and the bytes that are changed in what is
/// spliced.
type Row = (&'static str, (Changes, Changes), [Standing; 4], Changes);

const SETTLED: Standing = Standing::Settled;

/// Damage in the second slice alone.
const SECOND_ALONE: Changes = &[(103, 1)];

static ROWS: [Row; 15] = [
    (
        "slices that a copy has are settled",
        (FIRST_COPY, SECOND_COPY),
        [SETTLED; 4],
        &[],
    ),
    (
        "a size that a copy has is settled",
        (SIZE_DAMAGED, &[]),
        [SETTLED; 4],
        &[],
    ),
    (
        "slices that no copy has are missing",
        (TWO_BITS, TWO_BITS),
        [SETTLED, Standing::Missing, SETTLED, Standing::Missing],
        TWO_BITS,
    ),
    (
        "a bit that is wrong in all copies is repaired",
        (SECOND_ALONE, SECOND_ALONE),
        [SETTLED, SETTLED, Standing::Repaired(496), SETTLED],
        &[],
    ),
    (
        "a bit of each of two slices that is wrong in all copies is repaired",
        (FIRST_COPY, FIRST_COPY),
        [
            SETTLED,
            Standing::Repaired(896),
            SETTLED,
            Standing::Repaired(424),
        ],
        &[],
    ),
    (
        "another bit of one byte in each copy is repaired",
        (&[(230, 1)], &[(230, 2)]),
        [Standing::Repaired(1744), SETTLED, SETTLED, SETTLED],
        &[],
    ),
    (
        "slices that no copy has whole are woven",
        (&[(230, 1)], &[(295, 1)]),
        [Standing::Woven(4), SETTLED, SETTLED, SETTLED],
        &[],
    ),
    (
        "bytes of one region are woven",
        (&[(230, 1)], &[(231, 1)]),
        [Standing::Woven(4), SETTLED, SETTLED, SETTLED],
        &[],
    ),
    (
        "a byte that is wrong in all copies is missing: of two bytes the lesser is given",
        (&[(230, 3)], &[(230, 12)]),
        [Standing::Missing, SETTLED, SETTLED, SETTLED],
        &[(230, 3)],
    ),
    (
        "slices that differ and pass are disputed",
        (&[], OTHER_FIRST_SLICE),
        [SETTLED, SETTLED, SETTLED, Standing::Disputed],
        &[],
    ),
    (
        "a size that all copies lost follows from its place",
        (SIZE_DAMAGED, SIZE_DAMAGED),
        [SETTLED, SETTLED, Standing::Woven(1), SETTLED],
        &[],
    ),
    (
        "a slice that all copies lost with its size is undivided",
        (LOST, LOST),
        [SETTLED, SETTLED, Standing::Undivided, SETTLED],
        LOST,
    ),
    (
        "places go on over a slice that all copies lost, to one that is woven",
        (THIRD_LOST_FIRST_HURT, THIRD_LOST_FIRST_HURT_ELSEWHERE),
        [SETTLED, Standing::Undivided, SETTLED, Standing::Woven(4)],
        THIRD_LOST,
    ),
    (
        "places go on over a slice that all copies lost, to one that is missing",
        (THIRD_LOST_FIRST_HURT, THIRD_LOST_FIRST_HURT),
        [SETTLED, Standing::Undivided, SETTLED, Standing::Missing],
        THIRD_LOST_FIRST_HURT,
    ),
    (
        "a footer in the hole that leads below it reports no start",
        (SIZE_TOO_LARGE, &[(120, 1)]),
        [SETTLED, Standing::Woven(4), SETTLED, SETTLED],
        &[],
    ),
];

#[test]
fn slices_of_changed_copies_stand_so(rt: HostRuntime) {
    for &(shown, copies, standings, payload) in &ROWS {
        assert!(rt;
            changed_give(rt.alloc(), copies, standings, payload),
            "{shown}"
        );
    }
}

/// Whether the splice of two copies with this damage has the frame's bytes, and is not given back.
fn is_repaired(alloc: Global, changes: Changes) -> bool {
    let copy = changed(changes);
    match splice(alloc, &[&copy, &copy]) {
        Ok(spliced) => spliced.payload() == RECORDED.as_slice() && !spliced.is_given_back(),
        Err(_) => false,
    }
}

#[test]
fn what_is_repaired_is_not_given_back(rt: HostRuntime) {
    assert!(rt; is_repaired(rt.alloc(), SECOND_ALONE) && is_repaired(rt.alloc(), FIRST_COPY));
}

#[test]
fn a_front_where_no_start_is_reported_is_not_divided(rt: HostRuntime) {
    let copy = changed(FIRST_LOST);
    let places = places([SETTLED; 4]);
    assert!(rt; gives(rt.alloc(), (&copy, &copy), &places[..3], 53, &copy));
}

#[test]
fn copies_of_another_length_are_reported(rt: HostRuntime) {
    let fault = splice(rt.alloc(), &[&RECORDED, &RECORDED, &RECORDED[..335]]).err();
    assert!(rt; fault == Some(SpliceFault::OtherLength(2)));
}

/// Whether the command returns this for two copies, writes these bytes and prints these lines.
fn reports(
    alloc: Global,
    (one, other): (&[u8], &[u8]),
    returned: bool,
    payload: &[u8],
    lines: &str,
) -> bool {
    let (mut out, mut printed) = (Vec::new(alloc), Vec::new(alloc));
    let gave = run_splice(alloc, &mut [one, other], &mut out, &mut printed);
    gave.ok() == Some(returned)
        && out.as_slice() == payload
        && printed.as_slice() == lines.as_bytes()
}

/// What is changed in two copies, what the command returns for them, what is changed in the frame that it writes, and what it
/// prints.
type Reported = (Changes, Changes, bool, Changes, &'static str);

static REPORTED: [Reported; 7] = [
    (
        FIRST_COPY,
        SECOND_COPY,
        true,
        &[],
        "227..336 settled\n115..227 settled\n53..115 settled\n0..53 settled\nend whole\n",
    ),
    (
        TWO_BITS,
        TWO_BITS,
        false,
        TWO_BITS,
        "227..336 settled\n115..227 missing\n53..115 settled\n0..53 missing\nend whole\n",
    ),
    (
        FIRST_COPY,
        FIRST_COPY,
        false,
        &[],
        "227..336 settled\n115..227 repaired 896\n53..115 settled\n0..53 repaired 424\nend whole\n",
    ),
    (
        &[(230, 1)],
        &[(320, 1)],
        true,
        &[],
        "227..336 woven 4\n115..227 settled\n53..115 settled\n0..53 settled\nend whole\n",
    ),
    (
        FIRST_SIZE_DAMAGED,
        FIRST_SIZE_DAMAGED,
        true,
        &[],
        "227..336 settled\n115..227 settled\n53..115 settled\n0..53 woven 1\nend whole\n",
    ),
    (
        LOST,
        LOST,
        false,
        LOST,
        "227..336 settled\n115..227 settled\n53..115 undivided\n0..53 settled\nend whole\n",
    ),
    (
        FIRST_LOST,
        FIRST_LOST,
        false,
        FIRST_LOST,
        "227..336 settled\n115..227 settled\n53..115 settled\nend broken at 53\n",
    ),
];

/// Whether the command returns, writes and prints for two changed copies what the row has.
fn reports_of_changed(alloc: Global, reported: &Reported) -> bool {
    let &(one, other, returned, payload, lines) = reported;
    let copies = (changed(one), changed(other));
    reports(
        alloc,
        (&copies.0, &copies.1),
        returned,
        &changed(payload),
        lines,
    )
}

#[test]
fn the_command_writes_and_reports_the_splice(rt: HostRuntime) {
    for reported in &REPORTED {
        assert!(rt; reports_of_changed(rt.alloc(), reported));
    }
    assert!(rt; reports(rt.alloc(), (&[], &[]), true, &[], "end whole\n"));
}

/// Whether the command reports that the second copy is not as long as the first, and writes nothing.
fn other_length_is_reported(alloc: Global) -> bool {
    let (mut out, mut printed) = (Vec::new(alloc), Vec::new(alloc));
    let mut copies = [RECORDED.as_slice(), &RECORDED[1..]];
    let gave = run_splice(alloc, &mut copies, &mut out, &mut printed);
    matches!(gave, Err(CliFault::Splice(CommandPath::Copy(1))))
        && out.is_empty()
        && printed.is_empty()
}

#[test]
fn the_command_reports_a_copy_of_another_length(rt: HostRuntime) {
    assert!(rt; other_length_is_reported(rt.alloc()));
}
