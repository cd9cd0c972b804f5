//! Frames of FLAC: one that FFmpeg wrote, whole, cut, longer, and with each of its bits inverted.
use flac_frame::passes_flac;
use std::test::Fail;

/// 64 samples of a tone, of one channel: `ffmpeg -f lavfi -i sine=r=48000:d=0.02 -c:a flac -frame_size 64`, its last frame.
const TONE: [u8; 66] = [
    0xFF, 0xF8, 0x6A, 0x08, 0x0E, 0x3F, 0x4C, 0x46, 0x0F, 0x93, 0x0F, 0xC2, 0x0F, 0xE4, 0x0F, 0xF8,
    0xE6, 0x30, 0x58, 0x96, 0xC4, 0x5F, 0x0F, 0xE3, 0xC8, 0x06, 0x63, 0x8A, 0x71, 0x0E, 0x61, 0x08,
    0x63, 0x30, 0x88, 0x52, 0x23, 0xAA, 0x7A, 0xE2, 0x6F, 0x6F, 0x75, 0x7E, 0x94, 0xAD, 0xAB, 0x59,
    0x69, 0x25, 0xA5, 0xE8, 0x9F, 0x24, 0xD4, 0x96, 0xF6, 0x96, 0xB2, 0x5A, 0x4A, 0xDA, 0xD5, 0x80,
    0xCE, 0x9B,
];

#[test]
fn recorded_frame_passes(rt: HostRuntime) {
    assert!(rt; passes_flac(TONE.as_slice()));
}

#[test]
fn inverted_bits_are_seen(rt: HostRuntime) -> Result<(), Fail> {
    for index in 0..TONE.len() {
        for bit in [0x01, 0x02, 0x04, 0x08, 0x10, 0x20, 0x40, 0x80] {
            let mut frame = TONE.to_vec(rt.alloc())?;
            frame[index] ^= bit;
            assert!(rt; !passes_flac(frame.as_slice()), "bit {bit} of byte {index}");
        }
    }
    Ok(())
}

#[test]
fn cut_and_longer_frames_fail(rt: HostRuntime) -> Result<(), Fail> {
    for size in 0..TONE.len() {
        assert!(rt; !passes_flac(&TONE[..size]), "the first {size} bytes");
    }
    let mut longer = TONE.to_vec(rt.alloc())?;
    longer.push(1)?;
    assert!(rt; !passes_flac(longer.as_slice()));
    Ok(())
}
