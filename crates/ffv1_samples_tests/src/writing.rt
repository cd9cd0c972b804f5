//! Samples of frames, written.
use ffv1_devices::{FromWrite, WriteFailed};
use ffv1_player::{Samples, write_samples};
use std::alloc::Global;
use std::test::Fail;

/// A frame of 2 x 1 samples in RGB of so many bits, with no slice.
fn colors(alloc: Global, depth: u32, planes: [[u16; 2]; 3]) -> Result<Samples, Fail> {
    let mut all = Vec::new(alloc);
    for plane in planes {
        let mut samples = Vec::new(alloc);
        samples.extend_from_slice(&plane)?;
        all.push(samples)?;
    }
    Ok(Samples {
        width: 2,
        height: 1,
        shift_h: 0,
        shift_v: 0,
        is_rgb: true,
        has_alpha: false,
        depth,
        key: true,
        planes: all,
        slices: Vec::new(alloc),
    })
}

#[test]
fn sample_of_8_bits_is_a_byte(rt: HostRuntime) -> Result<(), Fail> {
    let frame = colors(rt.alloc(), 8, [[1, 2], [3, 4], [5, 255]])?;
    let mut sink = FromWrite::new(Vec::new(rt.alloc()));
    assert_eq!(rt; write_samples(&frame, &mut sink), Ok(()));
    assert!(rt; sink.into_inner().as_slice() == [1, 2, 3, 4, 5, 255].as_slice());
    Ok(())
}

#[test]
fn sample_of_9_to_16_bits_has_its_low_byte_first(rt: HostRuntime) -> Result<(), Fail> {
    let frame = colors(rt.alloc(), 16, [[0x0102, 2], [0xFF00, 4], [5, 0xFFFF]])?;
    let mut sink = FromWrite::new(Vec::new(rt.alloc()));
    assert_eq!(rt; write_samples(&frame, &mut sink), Ok(()));
    let wanted = [2, 1, 2, 0, 0, 0xFF, 4, 0, 5, 0, 0xFF, 0xFF];
    assert!(rt; sink.into_inner().as_slice() == wanted.as_slice());
    Ok(())
}

#[test]
fn sink_that_fails_has_a_front(rt: HostRuntime) -> Result<(), Fail> {
    let frame = colors(rt.alloc(), 8, [[1, 2], [3, 4], [5, 6]])?;
    let mut room = [0u8; 3];
    let mut sink = FromWrite::new(&mut room[..]);
    assert_eq!(rt; write_samples(&frame, &mut sink), Err(WriteFailed));
    assert!(rt; room == [1, 2, 3]);
    Ok(())
}
