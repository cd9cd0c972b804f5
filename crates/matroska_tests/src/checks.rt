//! Files that are judged whole.
use crate::made::file;
use ffv1_check::{check_file, push_report};
use matroska_parts::{Part, file_parts};
use std::alloc::Global;
use std::test::Fail;

/// The text of the report of a file.
fn text_of(alloc: Global, file: &[u8]) -> Result<String, Fail> {
    let report = check_file(alloc, file)?;
    let mut text = String::new(alloc);
    push_report(&mut text, &report)?;
    Ok(text)
}

#[test]
fn undamaged_is_whole(rt: HostRuntime) -> Result<(), Fail> {
    let file = file();
    let report = check_file(rt.alloc(), &file)?;
    assert!(rt; report.is_whole && report.lines.is_empty());
    assert!(rt; report.size == 1781 && report.checked == 1604);
    let video = report.tracks.first().ok_or("a track")?;
    assert!(rt; report.tracks.len() == 2 && video.number == 1 && video.blocks == 2);
    let wanted = "track 1 V_MS/VFW/FOURCC blocks 2 checked 2\n\
        track 2 A_FLAC blocks 2 checked 2\n\
        bytes 1781 checked 1604\n\
        whole\n";
    let text = text_of(rt.alloc(), &file)?;
    assert!(rt; text.as_str() == wanted);
    Ok(())
}

#[test]
fn damaged_frame_is_seen_twice(rt: HostRuntime) -> Result<(), Fail> {
    let mut file = file();
    file[800] ^= 1;
    let text = text_of(rt.alloc(), &file)?;
    let wanted = "at 731 frame 1 of track 1 links 4 pass 3 whole\n\
        at 716 crc32 Cluster 1037\n\
        track 1 V_MS/VFW/FOURCC blocks 2 checked 1\n\
        track 2 A_FLAC blocks 2 checked 2\n\
        bytes 1781 checked 1506\n\
        not whole\n";
    assert!(rt; text.as_str() == wanted);
    Ok(())
}

#[test]
fn wrong_record_is_said_where_it_begins(rt: HostRuntime) -> Result<(), Fail> {
    let mut file = file();
    file[400] ^= 1;
    let text = text_of(rt.alloc(), &file)?;
    let wanted = "at 393 record of track 1\n\
        at 256 crc32 Tracks 290\n\
        track 1 V_MS/VFW/FOURCC blocks 2 checked 2\n\
        track 2 A_FLAC blocks 2 checked 2\n\
        bytes 1781 checked 1320\n\
        not whole\n";
    assert!(rt; text.as_str() == wanted);
    Ok(())
}

#[test]
fn cut_is_reported(rt: HostRuntime) -> Result<(), Fail> {
    let file = file();
    let text = text_of(rt.alloc(), &file[0..1000])?;
    let wanted = "at 731 unknown 269\n\
        at 716 cut Cluster 284\n\
        at 1000 end 1781\n\
        track 1 V_MS/VFW/FOURCC blocks 0 checked 0\n\
        track 2 A_FLAC blocks 0 checked 0\n\
        bytes 1000 checked 550\n\
        not whole\n";
    assert!(rt; text.as_str() == wanted);
    Ok(())
}

#[test]
fn other_files_are_reported(rt: HostRuntime) -> Result<(), Fail> {
    let text = text_of(rt.alloc(), &[])?;
    let empty = "at 0 no Segment\nat 0 no tracks\nbytes 0 checked 0\nnot whole\n";
    assert!(rt; text.as_str() == empty);
    let text = text_of(rt.alloc(), b"film")?;
    let words = "at 0 unknown 4\nat 4 no Segment\nat 4 no tracks\nbytes 4 checked 0\nnot whole\n";
    assert!(rt; text.as_str() == words);
    Ok(())
}

#[test]
fn damaged_heads_are_reported(rt: HostRuntime) -> Result<(), Fail> {
    let mut file = file();
    file[24] = b'x';
    file[1753] ^= 1;
    let text = text_of(rt.alloc(), &file)?;
    let wanted = "at 0 no Matroska\n\
        at 1753 unknown 28\n\
        track 1 V_MS/VFW/FOURCC blocks 2 checked 2\n\
        track 2 A_FLAC blocks 2 checked 2\n\
        bytes 1781 checked 1581\n\
        not whole\n";
    assert!(rt; text.as_str() == wanted);
    Ok(())
}

#[test]
fn a_name_of_other_bytes_is_not_printed(rt: HostRuntime) -> Result<(), Fail> {
    let mut file = file();
    file[320] = b' ';
    let text = text_of(rt.alloc(), &file)?;
    let wanted = "at 256 crc32 Tracks 290\n\
        track 1 - blocks 2 checked 2\n\
        track 2 A_FLAC blocks 2 checked 2\n\
        bytes 1781 checked 1320\n\
        not whole\n";
    assert!(rt; text.as_str() == wanted);
    Ok(())
}

#[test]
fn parts_are_those_of_the_file(rt: HostRuntime) -> Result<(), Fail> {
    let file = file();
    let found = file_parts(rt.alloc(), &file)?;
    assert!(rt; found.tracks.as_slice().len() == 2 && found.tracks.place_of(2) == Some(1));
    assert!(rt; found.parts.len() == 23);
    let is_block = |part: &Part| matches!(part, Part::Block(_));
    assert!(rt; found.parts.iter().filter(|part| is_block(part)).count() == 4);
    Ok(())
}
