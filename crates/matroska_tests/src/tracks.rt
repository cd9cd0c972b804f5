//! The tracks of the file.
use crate::made::{TRACKS, file};
use matroska::{
    has_parities, is_flac, is_record_wrong, read_track, read_tracks, record_of, text_of,
};
use std::test::Fail;

#[test]
fn tracks_are_those_of_the_file(rt: HostRuntime) -> Result<(), Fail> {
    let file = file();
    let tracks = read_tracks(rt.alloc(), &file[TRACKS.0..TRACKS.1])?;
    assert!(rt; tracks.len() == 2);
    let (video, sound) = (&tracks[0], &tracks[1]);
    assert!(rt; (video.number, video.kind, video.width, video.height) == (1, 1, 48, 32));
    assert!(rt; video.codec == b"V_MS/VFW/FOURCC".as_slice());
    assert!(rt; (video.private_at, sound.private_at) == (91, 242));
    assert!(rt; text_of(b"V_FFV1\0\0").len() == 6);
    assert!(rt; (sound.number, sound.kind, sound.width, sound.private.len()) == (2, 2, 0, 42));
    assert!(rt; is_flac(sound) && !is_flac(video));
    Ok(())
}

#[test]
fn record_is_that_of_the_video(rt: HostRuntime) -> Result<(), Fail> {
    let file = file();
    let video = read_track(&file[277..435]);
    let record = record_of(&video).ok_or("a record")?;
    assert!(rt; record == &file[393..435]);
    assert!(rt; video.private_at == 76 && video.private.len() == 82);
    assert!(rt; !is_record_wrong(&video));
    assert!(rt; has_parities(rt.alloc(), &video)?);
    let sound = read_track(&file[444..546]);
    assert!(rt; record_of(&sound).is_none());
    assert!(rt; !has_parities(rt.alloc(), &sound)?);
    Ok(())
}

#[test]
fn damaged_record_is_wrong(rt: HostRuntime) -> Result<(), Fail> {
    let mut file = file();
    file[400] ^= 1;
    let video = read_track(&file[277..435]);
    assert!(rt; is_record_wrong(&video));
    assert!(rt; !has_parities(rt.alloc(), &video)?);
    Ok(())
}
