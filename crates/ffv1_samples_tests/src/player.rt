//! Frames decoded one after the other.
use ffv1_hold::{Plan, Recordings};
use ffv1_player::{ContentFault, Player, SamplesFault, any_restored};
use std::test::Fail;

/// The record of gray, range-coded.
pub(crate) const GRAY: [u8; 17] = [
    0x56, 0x00, 0x30, 0x28, 0x49, 0xCD, 0x9B, 0x36, 0x6C, 0xD9, 0xB3, 0x66, 0xC6, 0xAC, 0xF7, 0xF3,
    0xEB,
];

/// A keyframe of that recording of 2 x 1 samples, and the frame after it, which is none.
pub(crate) const KEYFRAME: [u8; 12] = [
    0xFC, 0x16, 0x4F, 0xF2, 0x00, 0x00, 0x04, 0x00, 0xDE, 0x08, 0x93, 0xCF,
];

pub(crate) const NEXT: [u8; 12] = [
    0x7C, 0x96, 0x4A, 0x07, 0x00, 0x00, 0x04, 0x00, 0x1F, 0x40, 0xFE, 0x4E,
];

/// The second sample of its one slice wants a second byte after the content.
pub(crate) const CUT: [u8; 11] = [
    0xFC, 0x16, 0x05, 0x00, 0x00, 0x03, 0x00, 0x2A, 0x08, 0x8A, 0x80,
];

#[test]
fn keyframe_of_any_recording_is_restored(rt: HostRuntime) -> Result<(), Fail> {
    let copies: [&[u8]; 1] = [&KEYFRAME];
    let plan = Plan::TakeAll(Box::new(rt.alloc(), Plan::New)?, &copies);
    let restored = any_restored(rt.alloc(), Recordings::Any, &plan, &GRAY, 2, 1);
    let restored = restored.ok().ok_or("not restored")?;
    let payload = restored.payload.ok().ok_or("no payload")?;
    let plane = restored.shown.samples.planes.first().ok_or("no plane")?;
    assert_eq!(rt; payload.as_slice(), KEYFRAME.as_slice());
    assert_eq!(rt; plane.as_slice(), [9, 9].as_slice());
    Ok(())
}

#[test]
fn frame_goes_on_from_the_one_before(rt: HostRuntime) -> Result<(), Fail> {
    let mut player = Player::new(rt.alloc(), &GRAY, 2, 1)?;
    for (payload, key, wanted) in [(&KEYFRAME, true, [9, 9]), (&NEXT, false, [9, 8])] {
        let frame = player.decode(payload)?;
        let plane = frame.planes.first().ok_or("no plane")?;
        let slice = frame.slices.first().ok_or("no slice")?;
        assert_eq!(rt;
            (
                frame.key,
                frame.depth,
                frame.planes.len(),
                frame.slices.len()
            ),
            (key, 8, 1, 1)
        );
        assert_eq!(rt; (slice.spare_bits, slice.is_clean), (0, true));
        assert!(rt; plane.as_slice() == wanted.as_slice());
    }
    Ok(())
}

#[test]
fn frame_without_one_before_is_refused(rt: HostRuntime) -> Result<(), Fail> {
    let mut player = Player::new(rt.alloc(), &GRAY, 2, 1)?;
    let alone = match player.decode(&NEXT) {
        Ok(_) => None,
        Err(fault) => Some(fault),
    };
    assert_eq!(rt; alone, Some(SamplesFault::Previous { place: 0 }));
    Ok(())
}

#[test]
fn frame_with_a_fault_leaves_nothing(rt: HostRuntime) -> Result<(), Fail> {
    let mut player = Player::new(rt.alloc(), &GRAY, 2, 1)?;
    player.decode(&KEYFRAME)?;
    let cut = match player.decode(&CUT) {
        Ok(_) => None,
        Err(fault) => Some(fault),
    };
    assert_eq!(rt;
        cut,
        Some(SamplesFault::Content {
            place: 0,
            cause: ContentFault::End
        })
    );
    let after = match player.decode(&NEXT) {
        Ok(_) => None,
        Err(fault) => Some(fault),
    };
    assert_eq!(rt; after, Some(SamplesFault::Previous { place: 0 }));
    Ok(())
}

#[test]
fn slices_of_two_tiles_are_drawn_in_their_places(rt: HostRuntime) -> Result<(), Fail> {
    let record = [
        0x56, 0x00, 0x2F, 0xD2, 0x28, 0xA7, 0x4E, 0x9D, 0x3A, 0x74, 0xE9, 0xD3, 0xA3, 0xFA, 0x87,
        0x8F, 0xBF, 0x38,
    ];
    let payload = [
        0x99, 0x45, 0x56, 0xAE, 0x00, 0x00, 0x04, 0x00, 0x3D, 0x50, 0x44, 0xB7, 0xE0, 0x93, 0x45,
        0x2F, 0x00, 0x00, 0x04, 0x00, 0xD9, 0x8D, 0x25, 0xF4,
    ];
    let mut player = Player::new(rt.alloc(), &record, 2, 2)?;
    let frame = player.decode(&payload)?;
    assert_eq!(rt;
        (
            frame.width,
            frame.height,
            frame.planes.len(),
            frame.slices.len()
        ),
        (2, 2, 1, 2)
    );
    assert!(rt; frame.planes[0].as_slice() == [1, 2, 3, 4].as_slice());
    Ok(())
}
