//! A holding file byte for byte, devices that fail after any part of it, and plans.
use crate::failing::Input;
use crate::picture::joined;
use crate::streams::{Failing, has_failed_after, narrow_sink};
use ffv1_hold::{
    FromRead, FromWrite, HoldFileFault, Holding, Join, Plan, Recordings, Source, carry_out,
    read_hold, run, write_hold,
};
use ffv1_holding::Framed;
use ffv1_range::SetupFault;
use ffv1_test_frames::{BLACK, DARK, ONE_TILE};
use std::alloc::{AllocError, Global};
use std::io::ErrorKind;

/// The holding file of both of version 1: the name and the version, the size 1 x 1 and the record, an entry for each,
/// which rise, and the end.
const FILE: [u8; 74] = [
    0x46, 0x46, 0x56, 0x31, 0x48, 0x4C, 0x44, 1, 0, 0, 0, 1, 0, 0, 0, 1, 0, 0, 0, 17, 0x56, 0x2B,
    0x83, 0xBD, 0xC5, 0x3A, 0x74, 0xE9, 0xD3, 0xA7, 0x4E, 0x9D, 0x26, 0x60, 0x98, 0x8D, 0xE6, 1, 0,
    0, 0, 0, 0, 11, 0xFD, 0xF6, 0x40, 0, 0, 3, 0, 0x17, 0x60, 0xA5, 0x79, 1, 0, 0, 0, 0, 0, 11,
    0xFD, 0xF6, 0x80, 0, 0, 3, 0, 0x1C, 0x3E, 0xA0, 0x9B, 0,
];

/// The file of version 2 of what it means: after each slice stands that it has no origins.
const AGAIN: [u8; 82] = [
    0x46, 0x46, 0x56, 0x31, 0x48, 0x4C, 0x44, 2, 0, 0, 0, 1, 0, 0, 0, 1, 0, 0, 0, 0x11, 0x56, 0x2B,
    0x83, 0xBD, 0xC5, 0x3A, 0x74, 0xE9, 0xD3, 0xA7, 0x4E, 0x9D, 0x26, 0x60, 0x98, 0x8D, 0xE6, 1, 0,
    0, 0, 0, 0, 0x0B, 0xFD, 0xF6, 0x40, 0, 0, 3, 0, 0x17, 0x60, 0xA5, 0x79, 0, 0, 0, 0, 1, 0, 0, 0,
    0, 0, 0x0B, 0xFD, 0xF6, 0x80, 0, 0, 3, 0, 0x1C, 0x3E, 0xA0, 0x9B, 0, 0, 0, 0, 0,
];

/// The file of a holding that took both as copies: after each slice stands the SHA-256 digest of its copy, which is the
/// slice alone.
pub(crate) const SECOND: [u8; 146] = [
    0x46, 0x46, 0x56, 0x31, 0x48, 0x4C, 0x44, 2, 0, 0, 0, 1, 0, 0, 0, 1, 0, 0, 0, 0x11, 0x56, 0x2B,
    0x83, 0xBD, 0xC5, 0x3A, 0x74, 0xE9, 0xD3, 0xA7, 0x4E, 0x9D, 0x26, 0x60, 0x98, 0x8D, 0xE6, 1, 0,
    0, 0, 0, 0, 0x0B, 0xFD, 0xF6, 0x40, 0, 0, 3, 0, 0x17, 0x60, 0xA5, 0x79, 0, 0, 0, 1, 0xB0, 0xB4,
    0xFB, 0x47, 0x52, 0x55, 0x16, 3, 0xCD, 0x48, 0x56, 0x4E, 0x7B, 0xAA, 0x85, 0xF4, 0x58, 0x19,
    0xA1, 0xC2, 0x9D, 0xC1, 0xCC, 0x7C, 0x47, 0x23, 9, 0xD0, 0x8D, 0x5E, 0x88, 0, 1, 0, 0, 0, 0, 0,
    0x0B, 0xFD, 0xF6, 0x80, 0, 0, 3, 0, 0x1C, 0x3E, 0xA0, 0x9B, 0, 0, 0, 1, 0x2D, 0x75, 0x79, 0xBA,
    0xF4, 0x7B, 0x64, 0xE0, 0xC7, 0x63, 0xD9, 0x78, 0xA7, 0x60, 0x4F, 0xAA, 0x13, 0x4C, 0x6B, 0x5B,
    0xAD, 0x2D, 0x5D, 0xE9, 0x19, 0xE8, 0xD5, 0xE7, 0x1D, 0x94, 0x7F, 0x53, 0,
];

/// The file of a holding, if it is written.
pub(crate) fn written<S: Framed>(alloc: Global, holding: &Holding<S>) -> Option<Vec<u8>> {
    let mut sink = FromWrite::new(Vec::new(alloc));
    match write_hold(holding, &mut sink) {
        Ok(()) => Some(sink.into_inner()),
        Err(_) => None,
    }
}

/// The holding of a file.
pub(crate) fn read_back(alloc: Global, file: &[u8]) -> Result<Holding, HoldFileFault> {
    read_hold(alloc, &mut FromRead::new(file))
}

/// Whether a holding is written as this file.
pub(crate) fn is_file_of<S: Framed>(alloc: Global, holding: &Holding<S>, file: &[u8]) -> bool {
    match written(alloc, holding) {
        Some(bytes) => bytes.as_slice() == file,
        None => false,
    }
}

/// Whether a holding was made, and is written as this file.
fn is_held_as<S: Framed, Fault: Copy>(
    alloc: Global,
    made: Result<Holding<S>, Fault>,
    file: &[u8],
) -> bool {
    match made {
        Ok(holding) => is_file_of(alloc, &holding, file),
        Err(_) => false,
    }
}

/// Why these bytes are refused if the device after them ends, or fails first.
fn fault_after(alloc: Global, bytes: &[u8], fails: bool) -> Option<HoldFileFault> {
    let mut source = FromRead::new(Failing {
        bytes,
        kind: ErrorKind::Other,
        times: u32::from(fails),
    });
    read_hold(alloc, &mut source).err()
}

/// Whether a file that is cut is reported as cut, and a device that fails there as failed, at every place.
fn each_front_is_reported(alloc: Global, file: &[u8]) -> bool {
    for length in 0..file.len() {
        let front = &file[..length];
        if fault_after(alloc, front, false) != Some(HoldFileFault::Truncated)
            || fault_after(alloc, front, true) != Some(HoldFileFault::Read)
        {
            return false;
        }
    }
    true
}

/// Whether a device that fails after these bytes shows this fault of them, and one that fails a byte before only itself.
fn ends_in(alloc: Global, bytes: &[u8], fault: HoldFileFault) -> bool {
    let Some((_, front)) = bytes.split_last() else {
        return false;
    };
    fault_after(alloc, bytes, true) == Some(fault)
        && fault_after(alloc, front, true) == Some(HoldFileFault::Read)
}

#[test]
fn fronts_of_files_are_reported(rt: HostRuntime) {
    let (first, second) = (
        each_front_is_reported(rt.alloc(), &FILE),
        each_front_is_reported(rt.alloc(), &SECOND),
    );
    assert!(rt; first && second);
}

/// Whether a sink that fails after so many bytes has that front of the file, and its failure is reported and counted.
fn has_front(alloc: Global, holding: &Holding, room: usize, file: &[u8]) -> bool {
    let mut sink = narrow_sink(alloc, room);
    let is_failed = write_hold(holding, &mut sink) == Err(HoldFileFault::Write);
    is_failed && has_failed_after(sink, room, file)
}

/// Whether sinks that fail, each after another number of bytes, have those fronts of the file.
fn each_front_is_left(alloc: Global, holding: &Holding, file: &[u8]) -> bool {
    for room in 0..file.len() {
        if !has_front(alloc, holding, room, file) {
            return false;
        }
    }
    true
}

#[test]
fn a_failing_sink_is_reported_as_that(rt: HostRuntime) {
    let is_reported = match read_back(rt.alloc(), &SECOND) {
        Ok(holding) => each_front_is_left(rt.alloc(), &holding, &SECOND),
        Err(_) => false,
    };
    assert!(rt; is_reported);
}

/// Files, and what their holdings are written as.
static WRITTEN: [(&[u8], &[u8]); 3] = [(&FILE, &AGAIN), (&AGAIN, &AGAIN), (&SECOND, &SECOND)];

#[test]
fn a_file_of_either_version_is_written_as_one_of_the_second(rt: HostRuntime) {
    for &(file, wanted) in &WRITTEN {
        assert!(rt; is_held_as(rt.alloc(), read_back(rt.alloc(), file), wanted));
    }
}

/// A place of `FILE`, a byte that is put there, how many bytes show its fault, and the fault.
static CHANGES: [(usize, u8, usize, HoldFileFault); 10] = [
    (0, 0x45, 1, HoldFileFault::Magic),
    (3, 0, 4, HoldFileFault::Magic),
    (7, 3, 8, HoldFileFault::Magic),
    (16, 2, 20, HoldFileFault::TooLong),
    (11, 0, 37, HoldFileFault::Setup(SetupFault::Size)),
    (37, 5, 38, HoldFileFault::Tag),
    (40, 2, 44, HoldFileFault::TooLong),
    (39, 1, 55, HoldFileFault::NotASlice),
    (44, 0, 55, HoldFileFault::NotASlice),
    (64, 0x40, 73, HoldFileFault::NotASlice),
];

/// Whether so many bytes of the file with this byte at that place, which is one of theirs, end in this fault.
fn ends_in_changed(
    alloc: Global,
    place: usize,
    value: u8,
    end: usize,
    fault: HoldFileFault,
) -> bool {
    let mut changed = FILE;
    if place >= end || end > changed.len() {
        return false;
    }
    changed[place] = value;
    ends_in(alloc, &changed[..end], fault)
}

#[test]
fn a_fault_that_was_read_comes_before_the_device(rt: HostRuntime) {
    for &(place, value, end, fault) in &CHANGES {
        assert!(rt;
            ends_in_changed(rt.alloc(), place, value, end, fault),
            "at {place}"
        );
    }
}

/// Whether a file of these parts ends in this fault.
fn parts_end_in(alloc: Global, parts: &[&[u8]], fault: HoldFileFault) -> bool {
    match joined(alloc, parts) {
        Ok(file) => ends_in(alloc, &file, fault),
        Err(_) => false,
    }
}

/// Whether a file is out of order that goes on with the greater of two parts first, and one that goes on with it twice.
fn has_to_rise(alloc: Global, front: &[u8], lesser: &[u8], greater: &[u8]) -> bool {
    parts_end_in(alloc, &[front, greater, lesser], HoldFileFault::Order)
        && parts_end_in(alloc, &[front, greater, greater], HoldFileFault::Order)
}

#[test]
fn an_entry_out_of_order_comes_before_the_device(rt: HostRuntime) {
    assert!(rt; has_to_rise(rt.alloc(), &FILE[..37], &FILE[37..55], &FILE[55..73]));
}

/// A file, a place of it, the greatest number that may stand there, in four bytes, and one more.
static NUMBERS: [(&[u8], usize, u32, u32); 3] = [
    // how many bytes the record has, how many a slice, and how many digests stand after a slice
    (&FILE, 16, 16_777_216, 16_777_217),
    (&FILE, 40, 16_777_223, 16_777_224),
    (&SECOND, 55, 67_108_864, 67_108_865),
];

/// Whether a file goes on after the one number, so that the device fails, and ends in the other, which is too great.
fn ends_at(alloc: Global, front: &[u8], most: u32, more: u32) -> bool {
    parts_end_in(alloc, &[front, &most.to_be_bytes()], HoldFileFault::Read)
        && parts_end_in(alloc, &[front, &more.to_be_bytes()], HoldFileFault::TooLong)
}

#[test]
fn a_number_past_its_limit_comes_before_the_device(rt: HostRuntime) {
    for &(file, place, most, more) in &NUMBERS {
        let front = file.get(..place).unwrap_or(&[]);
        assert!(rt; ends_at(rt.alloc(), front, most, more), "at {place}");
    }
}

#[test]
fn a_digest_out_of_order_comes_before_the_device(rt: HostRuntime) {
    // Both digests after the first slice, which is the greater one's.
    let mut file = SECOND;
    file[58] = 2;
    assert!(rt; has_to_rise(rt.alloc(), &file[..59], &file[113..145], &file[59..91]));
}

/// The fault of bytes with zeros after them that never end, and how many were taken.
fn shown_of_endless(alloc: Global, bytes: &[u8]) -> (Option<HoldFileFault>, u64) {
    let mut endless = FromRead::new(Input::endless(bytes));
    let shown = read_hold(alloc, &mut endless).err();
    (shown, endless.taken())
}

#[test]
fn a_reader_that_never_ends_shows_its_first_fault(rt: HostRuntime) {
    let zeros = shown_of_endless(rt.alloc(), &[]);
    assert!(rt; zeros == (Some(HoldFileFault::Magic), 1));
    let file = shown_of_endless(rt.alloc(), &FILE);
    assert!(rt; file == (Some(HoldFileFault::Trailing), 75));
}

/// Two copies, one after the other.
fn one_by_one<'a>(
    alloc: Global,
    first: &'a [u8],
    second: &'a [u8],
) -> Result<Plan<'a>, AllocError> {
    let only_first = Plan::Take(Box::new(alloc, Plan::New)?, first);
    Ok(Plan::Take(Box::new(alloc, only_first)?, second))
}

/// A list of copies, through a file, joined with nothing.
fn through_a_file<'a>(alloc: Global, copies: &'a [&'a [u8]]) -> Result<Plan<'a>, AllocError> {
    let all = Plan::TakeAll(Box::new(alloc, Plan::New)?, copies);
    let read = Plan::Reread(Box::new(alloc, all)?);
    Ok(Plan::Join(Box::new(alloc, read)?, Box::new(alloc, Plan::New)?))
}

/// Whether what a plan for frames of one sample makes is the holding of this file.
fn makes(alloc: Global, plan: Result<Plan<'_>, AllocError>, file: &[u8]) -> bool {
    match plan {
        Ok(plan) => {
            let any = carry_out(alloc, Recordings::Any, &plan, &ONE_TILE, 1, 1);
            is_held_as(alloc, run(alloc, &plan, &ONE_TILE, 1, 1), file)
                && is_held_as(alloc, any, file)
        }
        Err(_) => false,
    }
}

#[test]
fn plans_of_the_same_copies_give_one_file(rt: HostRuntime) {
    let one_by_one = one_by_one(rt.alloc(), &BLACK, &DARK);
    let is_made = makes(rt.alloc(), one_by_one, &SECOND);
    let copies: [&[u8]; 3] = [&DARK, &BLACK, &DARK];
    let through_a_file = through_a_file(rt.alloc(), &copies);
    assert!(rt; makes(rt.alloc(), through_a_file, &SECOND) && is_made);
}
