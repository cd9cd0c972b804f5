//! The blocks of the file, and laces.
use crate::made::{SOUND, file};
use matroska::{Lacing, frames_of, is_right_flac, read_block};
use std::test::Fail;

#[test]
fn blocks_are_those_of_the_file(rt: HostRuntime) -> Result<(), Fail> {
    let file = file();
    let first = read_block(&file[734..1074]).ok_or("a block")?;
    assert!(rt; (first.track, first.time, first.payload.len()) == (1, 0, 336));
    assert!(rt; first.lacing == Lacing::Unlaced);
    let last = read_block(&file[1660..1753]).ok_or("a block")?;
    assert!(rt; (last.track, last.time, last.payload.len()) == (2, 72, 89));
    assert!(rt; read_block(&[0x81, 0, 0]).is_none());
    Ok(())
}

#[test]
fn sound_of_the_file_is_right(rt: HostRuntime) -> Result<(), Fail> {
    let mut file = file();
    let block = read_block(&file[SOUND.0..SOUND.1]).ok_or("a block")?;
    assert!(rt; is_right_flac(rt.alloc(), block.lacing, block.payload)?);
    file[1200] ^= 1;
    let damaged = read_block(&file[SOUND.0..SOUND.1]).ok_or("a block")?;
    assert!(rt; !is_right_flac(rt.alloc(), damaged.lacing, damaged.payload)?);
    Ok(())
}

#[test]
fn laces_are_cut(rt: HostRuntime) -> Result<(), Fail> {
    let whole = frames_of(rt.alloc(), Lacing::Unlaced, &[1, 2])?.ok_or("a frame")?;
    assert!(rt; whole.len() == 1);
    let fixed = frames_of(rt.alloc(), Lacing::Fixed, &[2, 1, 2, 3])?.ok_or("three frames")?;
    assert!(rt; fixed.len() == 3 && fixed[2] == [3].as_slice());
    let xiph = frames_of(rt.alloc(), Lacing::Xiph, &[1, 2, 7, 8, 9])?.ok_or("two frames")?;
    assert!(rt; xiph.len() == 2 && xiph[0] == [7, 8].as_slice() && xiph[1] == [9].as_slice());
    let ebml = [2, 0x82, 0xBE, 7, 8, 9, 10];
    let ebml = frames_of(rt.alloc(), Lacing::Ebml, &ebml)?.ok_or("three frames")?;
    assert!(rt;
        ebml.len() == 3
            && ebml[0] == [7, 8].as_slice()
            && ebml[1] == [9].as_slice()
            && ebml[2] == [10].as_slice()
    );
    Ok(())
}

#[test]
fn payloads_that_are_not_laced_so(rt: HostRuntime) -> Result<(), Fail> {
    assert!(rt; frames_of(rt.alloc(), Lacing::Fixed, &[1, 1, 2, 3])?.is_none());
    assert!(rt; frames_of(rt.alloc(), Lacing::Xiph, &[1, 3, 7, 8])?.is_none());
    assert!(rt; frames_of(rt.alloc(), Lacing::Ebml, &[2, 0x81, 0x80, 7])?.is_none());
    assert!(rt; frames_of(rt.alloc(), Lacing::Xiph, &[])?.is_none());
    Ok(())
}
