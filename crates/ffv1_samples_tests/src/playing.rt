//! Frames that are read, decoded, written and reported.
use crate::player::{CUT, GRAY, KEYFRAME, NEXT};
use ffv1_devices::{FromRead, FromWrite};
use ffv1_player::{ContentFault, PlayFault, Player, SamplesFault, play_frames};
use std::alloc::Global;
use std::test::Fail;

/// The payload of a frame of 3 x 1 samples, whose slice has a byte too many.
const LONG: [u8; 16] = [
    0xFC, 0x16, 0x48, 0x2C, 0xE5, 0x9E, 0xC4, 0x55, 0x00, 0x00, 0x08, 0x00, 0x09, 0xE1, 0x9C, 0x2F,
];

/// What playing frames of so many samples comes to: what is returned, what is written, and what is printed.
fn play(
    alloc: Global,
    width: u32,
    payloads: &[&'static [u8]],
) -> Result<(Result<bool, PlayFault>, Vec<u8>, Vec<u8>), Fail> {
    let mut player = Player::new(alloc, &GRAY, width, 1)?;
    let mut sources = Vec::new(alloc);
    for payload in payloads {
        sources.push(FromRead::new(*payload))?;
    }
    let mut out = FromWrite::new(Vec::new(alloc));
    let mut output = FromWrite::new(Vec::new(alloc));
    let played = play_frames(
        alloc,
        &mut player,
        sources.as_mut_slice(),
        &mut out,
        &mut output,
    );
    Ok((played, out.into_inner(), output.into_inner()))
}

#[test]
fn frames_are_written_and_reported(rt: HostRuntime) -> Result<(), Fail> {
    let (played, out, output) = play(rt.alloc(), 2, &[&KEYFRAME, &NEXT])?;
    assert_eq!(rt; played, Ok(true));
    assert!(rt; out.as_slice() == [9, 9, 9, 8].as_slice());
    assert!(rt;
        output.as_slice() == b"frame 1 key 1 slices 1\nframe 2 key 0 slices 1\n".as_slice()
    );
    Ok(())
}

#[test]
fn unclean_slice_is_reported(rt: HostRuntime) -> Result<(), Fail> {
    let (played, out, output) = play(rt.alloc(), 3, &[&LONG])?;
    assert_eq!(rt; played, Ok(false));
    assert!(rt; out.as_slice() == [7, 200, 0].as_slice());
    assert!(rt;
        output.as_slice() == b"frame 1 key 1 slices 1\nslice 0 unclean spare 8\n".as_slice()
    );
    Ok(())
}

#[test]
fn frames_before_a_fault_stay(rt: HostRuntime) -> Result<(), Fail> {
    let (played, out, output) = play(rt.alloc(), 2, &[&KEYFRAME, &CUT, &NEXT])?;
    let fault = SamplesFault::Content {
        place: 0,
        cause: ContentFault::End,
    };
    assert_eq!(rt; played, Err(PlayFault::Samples { number: 2, fault }));
    assert!(rt; out.as_slice() == [9, 9].as_slice());
    assert!(rt; output.as_slice() == b"frame 1 key 1 slices 1\n".as_slice());
    Ok(())
}
