//! Holdings of recordings that are not of the profile.
use crate::holding::is_payload;
use ffv1_hold::{
    FromRead, FromWrite, HoldFileFault, join_streams, join_streams_of, read_hold, read_holding,
    write_hold,
};
use ffv1_holding::{HoldFault, Holding, Join, Recordings, Reel};
use ffv1_range::{Recording, Scope, SetupFault, read_scoped, read_tile};
use ffv1_test_frames::{BLACK, TWO_TILES};
use std::alloc::Global;

/// The record of gray of two tiles, 2 x 1 samples, that is range-coded.
const CODED_TILES: [u8; 18] = [
    0x56, 0x00, 0x2F, 0xE2, 0x40, 0xE9, 0xD3, 0xA7, 0x4E, 0x9D, 0x3A, 0x74, 0xE5, 0x11, 0xB3, 0xB9,
    0xEA, 0x0B,
];

/// Its frame, of two slices of 11 bytes.
const CODED: [u8; 22] = [
    0xFC, 0x15, 0x80, 0x00, 0x00, 0x03, 0x00, 0x63, 0x1D, 0x7F, 0xBA, 0x3D, 0xDE, 0xEA, 0x00, 0x00,
    0x03, 0x00, 0xC2, 0x38, 0x9F, 0xE3,
];

/// The frame with a wrong byte in its first slice.
const LEFT_WRONG: [u8; 22] = [
    0xFC, 0x14, 0x80, 0x00, 0x00, 0x03, 0x00, 0x63, 0x1D, 0x7F, 0xBA, 0x3D, 0xDE, 0xEA, 0x00, 0x00,
    0x03, 0x00, 0xC2, 0x38, 0x9F, 0xE3,
];

/// The frame with a wrong byte in its last slice.
const RIGHT_WRONG: [u8; 22] = [
    0xFC, 0x15, 0x80, 0x00, 0x00, 0x03, 0x00, 0x63, 0x1D, 0x7F, 0xBA, 0x3D, 0xDF, 0xEA, 0x00, 0x00,
    0x03, 0x00, 0xC2, 0x38, 0x9F, 0xE3,
];

/// Whether the slices of two damaged copies are joined into the frame.
fn is_joined(alloc: Global) -> bool {
    let (one, other) = (coded(alloc), coded(alloc));
    let (Ok(mut one), Ok(mut other)) = (one, other) else {
        return false;
    };
    let taken = (
        one.take(&LEFT_WRONG).is_ok(),
        other.take(&RIGHT_WRONG).is_ok(),
    );
    let joined = one.join_with(&other);
    taken == (true, true) && joined == Ok(1) && is_payload(one.restore(), Ok(&CODED))
}

/// A holding of that recording, without slices.
fn coded(alloc: Global) -> Result<Holding<Recording>, SetupFault> {
    Holding::of_record(alloc, Recordings::Any, &CODED_TILES, 2, 1)
}

#[test]
fn slices_of_a_range_coded_recording_are_joined(rt: HostRuntime) {
    assert!(rt; is_joined(rt.alloc()));
}

/// The holding file of a copy, if it is written.
fn coded_file(alloc: Global, copy: &[u8]) -> Option<Vec<u8>> {
    let Ok(mut holding) = coded(alloc) else {
        return None;
    };
    let mut sink = FromWrite::new(Vec::new(alloc));
    match (holding.take(copy), write_hold(&holding, &mut sink)) {
        (Ok(_), Ok(())) => Some(sink.into_inner()),
        _ => None,
    }
}

/// Whether the frame is restored of a holding file of any recording, which without that is none.
fn file_restores(alloc: Global, file: &[u8]) -> bool {
    let refused = read_hold(alloc, &mut FromRead::new(file)).err();
    match read_holding(alloc, Recordings::Any, &mut FromRead::new(file)) {
        Ok(holding) => {
            refused == Some(HoldFileFault::Magic) && is_payload(holding.restore(), Ok(&CODED))
        }
        Err(_) => false,
    }
}

/// Whether the files of two damaged copies are joined as streams into one of which the frame is restored.
fn streams_are_joined(alloc: Global, left: &[u8], right: &[u8]) -> bool {
    let mut sink = FromWrite::new(Vec::new(alloc));
    let (mut one, mut other) = (FromRead::new(left), FromRead::new(right));
    let returned = join_streams_of(alloc, Recordings::Any, &mut one, &mut other, &mut sink);
    returned.is_ok() && file_restores(alloc, &sink.into_inner())
}

/// Whether neither call that joins streams of the profile takes such files, and writes anything.
fn streams_are_refused(alloc: Global, left: &[u8], right: &[u8]) -> bool {
    let mut sink = FromWrite::new(Vec::new(alloc));
    let (mut one, mut other) = (FromRead::new(left), FromRead::new(right));
    let profile = join_streams_of(alloc, Recordings::Profile, &mut one, &mut other, &mut sink);
    let (mut one, mut other) = (FromRead::new(left), FromRead::new(right));
    let streams = join_streams(alloc, &mut one, &mut other, &mut sink);
    let refused = Err(HoldFileFault::Magic);
    profile == refused && streams == refused && sink.into_inner().is_empty()
}

#[test]
fn files_of_a_range_coded_recording_are_joined_as_streams(rt: HostRuntime) {
    let alloc = rt.alloc();
    let joined = match (
        coded_file(alloc, &LEFT_WRONG),
        coded_file(alloc, &RIGHT_WRONG),
    ) {
        (Some(left), Some(right)) => (
            streams_are_joined(alloc, &left, &right),
            streams_are_refused(alloc, &left, &right),
        ),
        _ => (false, false),
    };
    assert!(rt; joined == (true, true));
}

/// Whether the tiles of slices are those of their headers.
fn has_tiles(alloc: Global) -> bool {
    let Ok(recording) = read_scoped(alloc, Recordings::Any.scope(), &CODED_TILES, 2, 1) else {
        return false;
    };
    let tiles = (
        read_tile(&recording, &CODED[..3], true),
        read_tile(&recording, &CODED[11..14], false),
    );
    tiles == (Ok(0), Ok(1)) && !recording.is_in_profile() && recording.into_setup().is_err()
}

#[test]
fn tiles_of_a_range_coded_recording_are_read(rt: HostRuntime) {
    assert!(rt; has_tiles(rt.alloc()));
}

#[test]
fn recordings_of_the_profile_alone_have_setups(rt: HostRuntime) {
    let profile = match read_scoped(rt.alloc(), Scope::Parities, &TWO_TILES, 2, 1) {
        Ok(recording) => recording.is_in_profile() && recording.into_setup().is_ok(),
        Err(_) => false,
    };
    assert!(rt; profile);
    let refused = match Holding::of_record(rt.alloc(), Recordings::Profile, &CODED_TILES, 2, 1) {
        Ok(_) => None,
        Err(fault) => Some(fault),
    };
    assert!(rt; refused == Some(SetupFault::Coder));
}

/// Whether a reel of this record is of the profile.
fn is_profile(alloc: Global, record: &[u8]) -> Option<bool> {
    let Ok(config) = Vec::from_slice(alloc, record) else {
        return None;
    };
    match Reel::of_record(alloc, Recordings::Any, config, 2, 1) {
        Ok(reel) => Some(reel.into_profile().is_ok()),
        Err(_) => None,
    }
}

/// Whether a holding of this record is of the profile.
fn is_held_as_profile(alloc: Global, record: &[u8]) -> Option<bool> {
    match Holding::of_record(alloc, Recordings::Any, record, 2, 1) {
        Ok(holding) => Some(holding.into_profile().is_ok()),
        Err(_) => None,
    }
}

#[test]
fn reels_and_holdings_become_those_of_the_profile(rt: HostRuntime) {
    let alloc = rt.alloc();
    assert!(rt; is_profile(alloc, &TWO_TILES) == Some(true));
    assert!(rt; is_profile(alloc, &CODED_TILES) == Some(false));
    assert!(rt; is_held_as_profile(alloc, &TWO_TILES) == Some(true));
    assert!(rt; is_held_as_profile(alloc, &CODED_TILES) == Some(false));
}

/// A slice of tile 0 of the recording of the profile, the first of its payload, with keyframe bit 0.
const BETWEEN: [u8; 11] = [0x7E, 0x76, 0x80, 0, 0, 3, 0, 0x45, 0xDC, 0xCC, 0x1E];

/// A holding of the recording of the profile, without slices.
fn of_two_tiles(alloc: Global) -> Result<Holding<Recording>, SetupFault> {
    Holding::of_record(alloc, Recordings::Any, &TWO_TILES, 2, 1)
}

/// How many slices are taken of a copy in any frames, whether they are called those of the profile, and whether they are held by the
/// record's own rules.
fn taken_in_any_frames(alloc: Global, copy: &[u8]) -> Option<(usize, bool, bool)> {
    let Ok(holding) = of_two_tiles(alloc) else {
        return None;
    };
    let mut holding = holding.into_any_frames();
    let is_of_profile = holding.reel().is_of_profile();
    match holding.take(copy) {
        Ok(taken) => Some((
            taken.slices,
            is_of_profile,
            holding.into_own_frames().is_ok(),
        )),
        Err(_) => None,
    }
}

#[test]
fn slices_of_frames_that_are_no_keyframes_are_held(rt: HostRuntime) {
    assert!(rt; taken_in_any_frames(rt.alloc(), &BETWEEN) == Some((1, false, false)));
    assert!(rt; taken_in_any_frames(rt.alloc(), &BLACK) == Some((1, false, true)));
}

/// What joining a holding of any frames into one of the record's own returns, and then the other way round.
fn join_of_other_frames(
    alloc: Global,
) -> Option<(Result<usize, HoldFault>, Result<usize, HoldFault>)> {
    let (Ok(mut own), Ok(other)) = (of_two_tiles(alloc), of_two_tiles(alloc)) else {
        return None;
    };
    let mut other = other.into_any_frames();
    Some((own.join_with(&other), other.join_with(&own)))
}

#[test]
fn holdings_of_other_frames_are_not_joined(rt: HostRuntime) {
    let refused = Err(HoldFault::OtherReel);
    assert!(rt; join_of_other_frames(rt.alloc()) == Some((refused, refused)));
}

/// Whether a reel is of the profile in the record's own frames, in any, and in its own again.
fn profile_by_frames(alloc: Global) -> Option<(bool, bool, bool)> {
    let Ok(config) = Vec::from_slice(alloc, &TWO_TILES) else {
        return None;
    };
    let Ok(reel) = Reel::of_record(alloc, Recordings::Any, config, 2, 1) else {
        return None;
    };
    let own = reel.is_of_profile();
    let reel = reel.into_any_frames();
    let any = reel.is_of_profile() || reel.read_slice(&BETWEEN, true) != Ok(0);
    let reel = reel.into_own_frames();
    Some((
        own,
        any,
        reel.is_of_profile() && reel.read_slice(&BETWEEN, true).is_err(),
    ))
}

#[test]
fn reels_are_of_any_frames_and_of_their_own_again(rt: HostRuntime) {
    assert!(rt; profile_by_frames(rt.alloc()) == Some((true, false, true)));
}
