//! Two holding files that are joined as streams: beside `join`, cut and changed at every byte, on devices that fail.
use crate::hold::{SECOND, read_back, written};
use crate::holding::held_of;
use crate::streams::{Failing, has_taken, narrow_sink};
use ffv1_hold::{FromRead, FromWrite, HoldFileFault, Holding, Join, Sink, Source, join_streams};
use ffv1_test_frames::{BLACK, DARK, ONE_TILE};
use std::alloc::Global;
use std::io::ErrorKind;

/// Another copy with the first of them, and junk after it.
const TWICE: [u8; 19] = [
    0xFD, 0xF6, 0x80, 0, 0, 3, 0, 0x1C, 0x3E, 0xA0, 0x9B, 0, 0, 0, 0, 0, 0, 0, 0,
];

/// The file of version 1 of the first of them.
const FIRST: [u8; 56] = [
    0x46, 0x46, 0x56, 0x31, 0x48, 0x4C, 0x44, 1, 0, 0, 0, 1, 0, 0, 0, 1, 0, 0, 0, 0x11, 0x56, 0x2B,
    0x83, 0xBD, 0xC5, 0x3A, 0x74, 0xE9, 0xD3, 0xA7, 0x4E, 0x9D, 0x26, 0x60, 0x98, 0x8D, 0xE6, 1, 0,
    0, 0, 0, 0, 0x0B, 0xFD, 0xF6, 0x80, 0, 0, 3, 0, 0x1C, 0x3E, 0xA0, 0x9B, 0,
];

/// The file of the holding of these copies, of frames of this width and one line, if it is written.
fn file_of(alloc: Global, copies: &[&[u8]], width: u32) -> Option<Vec<u8>> {
    match held_of(alloc, &ONE_TILE, (width, 1), copies) {
        Some(holding) => written(alloc, &holding),
        None => None,
    }
}

/// What two files come to as streams, and what was written.
fn merged(alloc: Global, left: &[u8], right: &[u8]) -> (Result<(), HoldFileFault>, Vec<u8>) {
    let mut sink = FromWrite::new(Vec::new(alloc));
    let returned = join_streams(
        alloc,
        &mut FromRead::new(left),
        &mut FromRead::new(right),
        &mut sink,
    );
    (returned, sink.into_inner())
}

/// The file of a holding that the one of a file is joined to, if there is one.
fn joined_file(alloc: Global, whole: &mut Holding, file: &[u8]) -> Option<Vec<u8>> {
    let joined = match read_back(alloc, file) {
        Ok(other) => whole.join_with(&other).is_ok(),
        Err(_) => false,
    };
    if joined { written(alloc, whole) } else { None }
}

/// Whether a file is that of the union of two files' holdings.
fn is_union(alloc: Global, file: &[u8], left: &[u8], right: &[u8]) -> bool {
    let union = match read_back(alloc, left) {
        Ok(mut whole) => joined_file(alloc, &mut whole, right),
        Err(_) => None,
    };
    match union {
        Some(union) => union.as_slice() == file,
        None => false,
    }
}

/// The copies of no slice, of each of two, of both, and of one in two copies.
static COPIES: [&[&[u8]]; 5] = [
    &[],
    &[&BLACK],
    &[&DARK],
    &[&BLACK, &DARK],
    &[&BLACK, &TWICE],
];

/// Whether two files are refused as streams, and leave no file; or `None` where they leave one, or do not come to what `join`
/// makes.
fn is_refused(alloc: Global, left: &[u8], right: &[u8]) -> Option<bool> {
    let (returned, file) = merged(alloc, left, right);
    let is_right = match returned {
        Ok(()) => is_union(alloc, &file, left, right),
        Err(_) => read_back(alloc, &file).is_err(),
    };
    is_right.then_some(returned.is_err())
}

/// Whether a file and each of those copies' files, and one of version 1, come to what `join` makes.
fn come_to_union(alloc: Global, left: &[u8]) -> bool {
    for &copies in &COPIES {
        let is_union = match file_of(alloc, copies, 1) {
            Some(right) => is_refused(alloc, left, &right) == Some(false),
            None => false,
        };
        if !is_union {
            return false;
        }
    }
    is_refused(alloc, left, &FIRST) == Some(false)
}

#[test]
fn streams_come_to_what_join_makes(rt: HostRuntime) {
    for &copies in &COPIES {
        let is_union = match file_of(rt.alloc(), copies, 1) {
            Some(left) => come_to_union(rt.alloc(), &left),
            None => false,
        };
        assert!(rt; is_union);
    }
    assert!(rt; come_to_union(rt.alloc(), &FIRST));
}

/// Whether a cut file among two is reported, and what was written is a front of their union's file, without its end.
fn is_cut_off(alloc: Global, left: &[u8], right: &[u8], union: &[u8]) -> bool {
    let (returned, file) = merged(alloc, left, right);
    returned == Err(HoldFileFault::Truncated)
        && file.len() < union.len()
        && union.starts_with(&file)
}

/// Whether a cut of the first file at any place is reported beside the second file, as either input.
fn each_cut_is_reported(alloc: Global, both: &[u8], one: &[u8]) -> bool {
    for place in 0..both.len() {
        let front = &both[..place];
        if !is_cut_off(alloc, front, one, both) || !is_cut_off(alloc, one, front, both) {
            return false;
        }
    }
    true
}

#[test]
fn a_cut_input_leaves_no_end(rt: HostRuntime) {
    let is_reported = match file_of(rt.alloc(), &[&DARK], 1) {
        Some(dark) => each_cut_is_reported(rt.alloc(), &SECOND, &dark),
        None => false,
    };
    assert!(rt; is_reported);
}

/// Whether the file of both slices is refused where a byte of it is changed, beside another file, as either input; or `None`
/// where it is refused as one of them alone.
fn is_refused_changed(alloc: Global, other: &[u8], place: usize) -> Option<bool> {
    let mut changed = SECOND;
    if let Some(byte) = changed.get_mut(place) {
        *byte ^= 0xFF;
    }
    let is_first = is_refused(alloc, &changed, other);
    if is_refused(alloc, other, &changed) == is_first {
        is_first
    } else {
        None
    }
}

/// At how many places it is.
fn count_refused(alloc: Global, other: &[u8]) -> Option<usize> {
    let mut refused = 0usize;
    for place in 0..SECOND.len() {
        let is_refused = is_refused_changed(alloc, other, place)?;
        refused = refused.saturating_add(usize::from(is_refused));
    }
    Some(refused)
}

#[test]
fn a_changed_byte_leaves_no_file(rt: HostRuntime) {
    let refused = match file_of(rt.alloc(), &[&DARK], 1) {
        Some(dark) => count_refused(rt.alloc(), &dark),
        None => None,
    };
    // Of 146 bytes, but a changed digest is another copy's: there are two of 32 bytes.
    assert!(rt; refused == Some(82));
}

/// Whether a sink that fails after so many bytes of a file of 146 has that front of it, and no more of its entries, which
/// end at 91 and 145, was read than is needed.
fn has_front(alloc: Global, file: &[u8], right: &[u8], room: usize) -> bool {
    let mut sink = narrow_sink(alloc, room);
    let mut left = FromRead::new(file);
    let returned = join_streams(alloc, &mut left, &mut FromRead::new(right), &mut sink);
    let lead = if room < 91 {
        91
    } else if room < 145 {
        145
    } else {
        146
    };
    has_taken(sink, room, file) && returned == Err(HoldFileFault::Write) && left.taken() <= lead
}

/// Whether sinks that fail, each after another number of bytes, have those fronts, and no more was read than is needed.
fn each_front_is_left(alloc: Global, file: &[u8], right: &[u8]) -> bool {
    for room in 0..file.len() {
        if !has_front(alloc, file, right, room) {
            return false;
        }
    }
    file.len() == 146
}

#[test]
fn a_failed_write_leaves_a_front_and_reads_no_further(rt: HostRuntime) {
    let is_left = match file_of(rt.alloc(), &[&BLACK], 1) {
        Some(black) => each_front_is_left(rt.alloc(), &SECOND, &black),
        None => false,
    };
    assert!(rt; is_left);
}

/// What a file that fails after its bytes comes to with another one, as the first or the second input, and what was written.
fn failed(
    alloc: Global,
    file: &[u8],
    other: &[u8],
    is_second: bool,
) -> (Result<(), HoldFileFault>, Vec<u8>) {
    let mut failing = FromRead::new(Failing {
        bytes: file,
        kind: ErrorKind::Other,
        times: 1,
    });
    let mut whole = FromRead::new(other);
    let mut sink = FromWrite::new(Vec::new(alloc));
    let returned = if is_second {
        join_streams(alloc, &mut whole, &mut failing, &mut sink)
    } else {
        join_streams(alloc, &mut failing, &mut whole, &mut sink)
    };
    (returned, sink.into_inner())
}

/// Whether the failure of a file among two is reported, and what was written is a front of their union's file, without its end.
fn is_failure_reported(
    alloc: Global,
    file: &[u8],
    other: &[u8],
    union: &[u8],
    is_second: bool,
) -> bool {
    let (returned, front) = failed(alloc, file, other, is_second);
    returned == Err(HoldFileFault::Read) && front.as_slice() != union && union.starts_with(&front)
}

/// Whether a failure of the first file at any place is reported beside the second file, as either input.
fn each_failure_is_reported(alloc: Global, both: &[u8], one: &[u8]) -> bool {
    for place in 0..=both.len() {
        let front = &both[..place];
        if !is_failure_reported(alloc, front, one, both, false)
            || !is_failure_reported(alloc, front, one, both, true)
        {
            return false;
        }
    }
    true
}

#[test]
fn an_input_that_fails_is_reported_and_leaves_no_end(rt: HostRuntime) {
    let is_reported = match file_of(rt.alloc(), &[&DARK], 1) {
        Some(dark) => each_failure_is_reported(rt.alloc(), &SECOND, &dark),
        None => false,
    };
    assert!(rt; is_reported);
}

/// What joining a file, after which tries are interrupted so many times in a row, with itself returns.
fn interrupted(alloc: Global, file: &[u8], times: u32) -> Result<(), HoldFileFault> {
    let mut left = FromRead::new(Failing {
        bytes: file,
        kind: ErrorKind::Interrupted,
        times,
    });
    let mut sink = FromWrite::new(Vec::new(alloc));
    join_streams(alloc, &mut left, &mut FromRead::new(file), &mut sink)
}

#[test]
fn interrupted_streams_are_tried_again(rt: HostRuntime) {
    let tried = match file_of(rt.alloc(), &[&BLACK], 1) {
        Some(black) => (
            interrupted(rt.alloc(), &black, 64),
            interrupted(rt.alloc(), &black, 65),
        ),
        None => (Ok(()), Ok(())),
    };
    assert!(rt; tried == (Ok(()), Err(HoldFileFault::Read)));
}

/// Whether a file is reported to be of another reel than that of frames of two samples, and nothing is written.
fn is_of_other_reel(alloc: Global, file: &[u8]) -> bool {
    let (returned, written) = match file_of(alloc, &[], 2) {
        Some(other) => merged(alloc, file, &other),
        None => (Ok(()), Vec::new(alloc)),
    };
    returned == Err(HoldFileFault::OtherReel) && written.is_empty()
}

#[test]
fn heads_of_two_reels_are_reported_before_anything_is_written(rt: HostRuntime) {
    let is_reported = match file_of(rt.alloc(), &[&BLACK], 1) {
        Some(black) => is_of_other_reel(rt.alloc(), &black),
        None => false,
    };
    assert!(rt; is_reported);
}
