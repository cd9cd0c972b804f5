//! The commands on copies of a frame between keyframes, with a record of the profile.
use ffv1_commands::{run_join, run_merge, run_restore, run_take};
use ffv1_hold::Recordings;
use ffv1_test_frames::TWO_TILES;
use std::alloc::Global;

/// A frame of 2 x 1 samples in two tiles, whose first slice has keyframe bit 0.
const BETWEEN: [u8; 22] = [
    0x7E, 0x76, 0x80, 0, 0, 3, 0, 0x45, 0xDC, 0xCC, 0x1E, 0x3F, 0x2B, 0x80, 0, 0, 3, 0, 0x56, 0x0F,
    0xD7, 0x3B,
];

/// The frame with a damaged byte in tile 0: what is left of it can be of a keyframe.
const FIRST_LOST: [u8; 22] = [
    0x7E, 0x76, 0, 0, 0, 3, 0, 0x45, 0xDC, 0xCC, 0x1E, 0x3F, 0x2B, 0x80, 0, 0, 3, 0, 0x56, 0x0F,
    0xD7, 0x3B,
];

/// The frame with a damaged byte in tile 1.
const SECOND_LOST: [u8; 22] = [
    0x7E, 0x76, 0x80, 0, 0, 3, 0, 0x45, 0xDC, 0xCC, 0x1E, 0x3F, 0x2B, 0, 0, 0, 3, 0, 0x56, 0x0F,
    0xD7, 0x3B,
];

/// The holding file of copies, where any recording is taken.
fn taken(alloc: Global, copies: &mut [&[u8]]) -> Option<Vec<u8>> {
    let mut record = TWO_TILES.as_slice();
    let (mut out, mut output): (Vec<u8>, Vec<u8>) = (Vec::new(alloc), Vec::new(alloc));
    match run_take(
        alloc,
        Recordings::Any,
        &mut record,
        2,
        1,
        copies,
        &mut out,
        &mut output,
    ) {
        Ok(true) => Some(out),
        _ => None,
    }
}

/// The file that `join` makes of two.
fn joined<'a>(alloc: Global, mut first: &'a [u8], second: &'a [u8]) -> Option<Vec<u8>> {
    let mut others = [second];
    let (mut union, mut output): (Vec<u8>, Vec<u8>) = (Vec::new(alloc), Vec::new(alloc));
    match run_join(
        alloc,
        Recordings::Any,
        &mut first,
        &mut others,
        &mut union,
        &mut output,
    ) {
        Ok(()) => Some(union),
        Err(_) => None,
    }
}

/// The file that `merge` makes of two.
fn merged(alloc: Global, mut left: &[u8], mut right: &[u8]) -> Option<Vec<u8>> {
    let mut union: Vec<u8> = Vec::new(alloc);
    match run_merge(alloc, Recordings::Any, &mut left, &mut right, &mut union) {
        Ok(()) => Some(union),
        Err(_) => None,
    }
}

/// Whether the frame is restored of a file, which without `--any` is none.
fn is_restored(alloc: Global, file: &[u8]) -> bool {
    let (mut one, mut other) = (file, file);
    let (mut out, mut output): (Vec<u8>, Vec<u8>) = (Vec::new(alloc), Vec::new(alloc));
    let profile = run_restore(alloc, Recordings::Profile, &mut one, &mut out, &mut output);
    let any = run_restore(alloc, Recordings::Any, &mut other, &mut out, &mut output);
    profile.is_err() && any.is_ok() && out.as_slice() == BETWEEN.as_slice()
}

/// Whether these are the file of both copies, which begins with FFV1ANY and 1, and of which the frame is restored.
fn are_of_both(alloc: Global, files: [Option<Vec<u8>>; 4]) -> bool {
    let Some(whole) = taken(alloc, &mut [&FIRST_LOST, &SECOND_LOST]) else {
        return false;
    };
    for file in &files {
        match file {
            Some(file) if *file == whole => {}
            _ => return false,
        }
    }
    whole.starts_with(b"FFV1ANY\x01") && is_restored(alloc, &whole)
}

/// Whether the file of a slice between keyframes has the one magic, that of another slice the other, and both are joined in either order.
fn are_filed(alloc: Global) -> bool {
    let one = taken(alloc, &mut [&SECOND_LOST]);
    let other = taken(alloc, &mut [&FIRST_LOST]);
    let (Some(one), Some(other)) = (one, other) else {
        return false;
    };
    let files = [
        joined(alloc, &one, &other),
        joined(alloc, &other, &one),
        merged(alloc, &one, &other),
        merged(alloc, &other, &one),
    ];
    one.starts_with(b"FFV1ANY\x01")
        && other.starts_with(b"FFV1HLD\x02")
        && are_of_both(alloc, files)
}

#[test]
fn slices_between_keyframes_are_filed_by_a_magic_of_their_own(rt: HostRuntime) {
    assert!(rt; are_filed(rt.alloc()));
}
