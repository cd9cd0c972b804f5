//! Frames, records and holding files of the suite, cut at every place and with every eight bytes zeroed, through the
//! calls that take them.
use crate::hold::{is_file_of, written};
use crate::suite::{Made, frame_of};
use ffv1_hold::{FromRead, HoldFileFault, Holding, TileState, read_hold};
use ffv1_picture::{Decoder, TileOutcome, picture};
use ffv1_range::{Setup, SetupFault};
use ffv1_slice::{Chain, slice_of};
use ffv1_vectors::{SUITE_NUMBERS, SuiteCase, SuiteTables, cut, suite_case, zero};
use std::alloc::Global;

/// Bytes that are cut at a place, or from a place on zeroed for eight bytes; the bytes themselves where there are not so many.
fn damaged(alloc: Global, bytes: &[u8], place: usize, is_cut: bool) -> Option<Vec<u8>> {
    if is_cut && place < bytes.len() {
        return cut(alloc, bytes, place).ok();
    }
    if !is_cut && bytes.len() >= 8 && place <= bytes.len() - 8 {
        return zero(alloc, bytes, place, place + 8).ok();
    }
    bytes.to_vec(alloc).ok()
}

/// The slice of a tile that is found in a payload, the last one.
fn slice_of_tile<'a>(setup: &Setup, payload: &'a [u8], tile: usize) -> Option<&'a [u8]> {
    let mut chain = Chain::new(payload);
    for _ in 0..payload.len() {
        if let Some(link) = chain.next() {
            if slice_of(setup, &link) == Ok(tile) {
                return Some(link.bytes());
            }
        }
    }
    None
}

/// Whether a tile is missing, or settled by the original's slice and then decoded.
fn is_of_original(
    made: &Made,
    tile: usize,
    state: TileState<'_>,
    outcome: Option<TileOutcome>,
) -> bool {
    match state {
        TileState::Missing => outcome == Some(TileOutcome::Missing),
        TileState::Settled(bytes) => {
            Some(bytes) == slice_of_tile(&made.setup, &made.payload, tile)
                && matches!(outcome, Some(TileOutcome::Decoded { .. }))
        }
        TileState::Disputed(_) => false,
    }
}

/// Whether each tile of a holding, which came out so, is missing or of the original.
fn are_of_original(made: &Made, holding: &Holding, outcomes: &[TileOutcome]) -> bool {
    for tile in 0..holding.reel().tiles() {
        let outcome = outcomes.get(tile).copied();
        if !is_of_original(made, tile, holding.state(tile), outcome) {
            return false;
        }
    }
    true
}

/// Whether each tile of a holding is missing or of the original, and comes out so.
fn holds_of_original(alloc: Global, made: &Made, holding: &Holding) -> bool {
    match picture(alloc, holding) {
        Ok(partial) => are_of_original(made, holding, &partial.tiles),
        Err(_) => false,
    }
}

/// Whether a damaged payload is decoded exactly where it is the original.
fn is_decoded_as_original(alloc: Global, made: &Made, damaged: &[u8]) -> bool {
    match Decoder::new(alloc, &made.record, made.size.0, made.size.1) {
        Ok(decoder) => {
            decoder.decode_frame(damaged).is_ok() == (damaged == made.payload.as_slice())
        }
        Err(_) => false,
    }
}

/// Whether a damaged payload gives only slices of the original.
fn gives_slices_of_original(alloc: Global, made: &Made, damaged: &[u8]) -> bool {
    let Ok(mut holding) = Holding::new(alloc, &made.record, made.size.0, made.size.1) else {
        return false;
    };
    match holding.take(damaged) {
        Ok(taken) => {
            taken.links <= damaged.len() / 8 && holds_of_original(alloc, made, &holding)
        }
        Err(_) => false,
    }
}

/// Whether a damaged payload gives only slices of the original, and is decoded exactly where it is the original.
fn payload_is_judged(alloc: Global, made: &Made, damaged: &[u8]) -> bool {
    gives_slices_of_original(alloc, made, damaged) && is_decoded_as_original(alloc, made, damaged)
}

/// Whether a damaged record is refused by its length or its parity, unless nothing of it has changed.
fn record_is_judged(alloc: Global, made: &Made, damaged: &[u8]) -> bool {
    let fault = Setup::read(alloc, damaged, made.size.0, made.size.1).err();
    if damaged == made.record.as_slice() {
        fault.is_none()
    } else if damaged.len() < 6 {
        fault == Some(SetupFault::TooShort)
    } else {
        fault == Some(SetupFault::Parity)
    }
}

/// Whether a fault is one that may be reported of a damaged holding file: that it is cut where it is shorter, else one of its
/// bytes, if any has changed.
fn is_reported_of(fault: HoldFileFault, file: &[u8], damaged: &[u8]) -> bool {
    match fault {
        _ if damaged.len() < file.len() => fault == HoldFileFault::Truncated,
        HoldFileFault::Read | HoldFileFault::Memory | HoldFileFault::Write => false,
        _ => damaged != file,
    }
}

/// Whether a damaged holding file is reported as cut, or for a fault of its bytes, or is the file of what is read of it:
/// nothing of it has changed, or a digest.
fn file_is_judged(alloc: Global, file: &[u8], damaged: &[u8]) -> bool {
    match read_hold(alloc, &mut FromRead::new(damaged)) {
        Ok(holding) => is_file_of(alloc, &holding, damaged),
        Err(fault) => is_reported_of(fault, file, damaged),
    }
}

/// The holding file of a frame.
fn file_of(alloc: Global, made: &Made) -> Option<Vec<u8>> {
    let Ok(mut holding) = Holding::new(alloc, &made.record, made.size.0, made.size.1) else {
        return None;
    };
    match holding.take(&made.payload) {
        Ok(_) => written(alloc, &holding),
        Err(_) => None,
    }
}

/// What rots of a frame.
#[derive(Clone, Copy)]
enum Part<'a> {
    Payload,
    Record,
    /// Its holding file.
    File(&'a [u8]),
}

/// Whether a part of a frame is judged rightly where it is damaged.
fn part_is_judged(alloc: Global, made: &Made, part: Part<'_>, damaged: &[u8]) -> bool {
    match part {
        Part::Payload => payload_is_judged(alloc, made, damaged),
        Part::Record => record_is_judged(alloc, made, damaged),
        Part::File(file) => file_is_judged(alloc, file, damaged),
    }
}

/// Whether a part of a frame, which is these bytes, is judged rightly wherever it is cut or zeroed.
fn is_judged_everywhere(
    alloc: Global,
    made: &Made,
    (part, bytes): (Part<'_>, &[u8]),
    is_cut: bool,
) -> bool {
    for place in 0..bytes.len() {
        let is_judged = match damaged(alloc, bytes, place, is_cut) {
            Some(damaged) => part_is_judged(alloc, made, part, &damaged),
            None => false,
        };
        if !is_judged {
            return false;
        }
    }
    true
}

/// Whether each part of a frame is.
fn is_judged(alloc: Global, made: &Made, file: &[u8], is_cut: bool) -> bool {
    is_judged_everywhere(alloc, made, (Part::Payload, &made.payload), is_cut)
        && is_judged_everywhere(alloc, made, (Part::Record, &made.record), is_cut)
        && is_judged_everywhere(alloc, made, (Part::File(file), file), is_cut)
}

/// Whether a frame is judged wherever it is cut and wherever it is zeroed.
fn rots(alloc: Global, made: &Made) -> bool {
    match file_of(alloc, made) {
        Some(file) => is_judged(alloc, made, &file, true) && is_judged(alloc, made, &file, false),
        None => false,
    }
}

/// Whether the frame of a case rots: those of at most 1000 bytes do.
fn case_rots(alloc: Global, case: &SuiteCase) -> bool {
    match frame_of(alloc, case) {
        Some(made) => made.payload.len() <= 1000 && rots(alloc, &made),
        None => false,
    }
}

/// How many frames with these tables rot.
fn count_judged(alloc: Global, tables: SuiteTables) -> usize {
    let mut count = 0usize;
    for number in 0..SUITE_NUMBERS {
        if let Some(case) = suite_case(tables, number) {
            count = count.saturating_add(usize::from(case_rots(alloc, &case)));
        }
    }
    count
}

/// The tables of the suite.
static TABLES: [SuiteTables; 3] = [
    SuiteTables::OneRun,
    SuiteTables::SixRuns,
    SuiteTables::TwoRuns,
];

/// How many frames of the suite rot.
fn count_all_judged(alloc: Global) -> usize {
    let mut count = 0usize;
    for &tables in &TABLES {
        count = count.saturating_add(count_judged(alloc, tables));
    }
    count
}

#[test]
fn damaged_bytes_are_judged(rt: HostRuntime) {
    assert!(rt; count_all_judged(rt.alloc()) == 1343);
}
