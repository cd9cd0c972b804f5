//! The two programs that docs/LIBRARY.md shows, in its words, on a frame of two tiles.
use crate::picture::TWO_TILES;
use ffv1_hold::{FromWrite, Holding, Sink};
use ffv1_picture::{Decoder, write_raw};
use ffv1_test_frames::{FRAME, LEFT_DAMAGED, RIGHT_DAMAGED};
use std::alloc::Global;
use std::test::Fail;

/// Writes the samples of frames of one recording.
fn decode_frames<S: Sink>(
    alloc: Global,
    record: &[u8],
    (width, height): (u32, u32),
    frames: &[&[u8]],
    samples: &mut S,
) -> Result<(), Fail> {
    let decoder = Decoder::new(alloc, record, width, height)?;
    for payload in frames {
        let frame = decoder.decode_frame(payload)?;
        write_raw(&frame, samples)?;
    }
    Ok(())
}

/// The frame of which these are damaged copies.
fn restore_frame(
    alloc: Global,
    record: &[u8],
    (width, height): (u32, u32),
    copies: &[&[u8]],
) -> Result<Vec<u8>, Fail> {
    let mut holding = Holding::new(alloc, record, width, height)?;
    for copy in copies {
        holding.take(copy)?;
    }
    Ok(holding.restore()?)
}

#[test]
fn frames_are_decoded(rt: HostRuntime) -> Result<(), Fail> {
    let mut samples = FromWrite::new(Vec::new(rt.alloc()));
    decode_frames(
        rt.alloc(),
        &TWO_TILES,
        (2, 1),
        &[&FRAME, &FRAME],
        &mut samples,
    )?;
    assert!(rt; samples.into_inner().as_slice() == [0, 0, 0, 0].as_slice());
    Ok(())
}

#[test]
fn a_frame_is_restored(rt: HostRuntime) -> Result<(), Fail> {
    let copies: [&[u8]; 2] = [&LEFT_DAMAGED, &RIGHT_DAMAGED];
    let frame = restore_frame(rt.alloc(), &TWO_TILES, (2, 1), &copies)?;
    assert!(rt; frame.as_slice() == FRAME.as_slice());
    Ok(())
}
