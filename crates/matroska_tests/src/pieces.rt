//! Files that are read in pieces: elements that claim too much, that are longer than a piece, or of unknown size.
use crate::made::file;
use crate::sources::{source_of, text_of};
use ebml_reader::{
    Intake, RunningCrc32, claimed_child, held_child, pass_bytes, pass_content, pass_rest,
    pass_start, pass_summed, take_bytes,
};
use ffv1_check::{check_file, push_report};
use std::alloc::Global;
use std::test::Fail;

/// The text of the report of a file that lies in memory.
fn text_in_memory(alloc: Global, bytes: &[u8]) -> Result<String, Fail> {
    let report = check_file(alloc, bytes)?;
    let mut text = String::new(alloc);
    push_report(&mut text, &report)?;
    Ok(text)
}

/// The file, whose Cluster has this size in eight octets.
fn with_cluster_of(alloc: Global, size: &[u8; 8]) -> Result<Vec<u8>, Fail> {
    let file = file();
    let (front, after) = file.split_at(720);
    let (_, rest) = after.split_at(2);
    let mut bytes = Vec::new(alloc);
    bytes.extend_from_slice(front)?;
    bytes.extend_from_slice(size)?;
    bytes.extend_from_slice(rest)?;
    Ok(bytes)
}

/// The file, and after it an Attachments whose child claims 99,840 bytes and as many more as this octet says, with so many bytes of it.
fn with_attachment(alloc: Global, octet: u8, has: usize) -> Result<Vec<u8>, Fail> {
    let mut bytes = Vec::new(alloc);
    bytes.extend_from_slice(&file())?;
    bytes.extend_from_slice(&[0x19, 0x41, 0xA4, 0x69, 0x10, 0x01, 0x86, 0xA6])?;
    bytes.extend_from_slice(&[0x61, 0xA7, 0x10, 0x01, 0x86, octet])?;
    let filler = vec![in alloc; 7u8; has]?;
    bytes.extend_from_slice(&filler)?;
    Ok(bytes)
}

#[test]
fn clusters_that_claim_too_much_are_read(rt: HostRuntime) -> Result<(), Fail> {
    let alloc = rt.alloc();
    let sizes = [
        [0x01, 0, 1, 0, 0, 0, 0, 0],
        [0x01, 0xFF, 0xFF, 0xFF, 0xFF, 0xFF, 0xFF, 0xFF],
        [0x01, 0, 0, 0, 0, 0, 4, 0],
    ];
    for size in sizes {
        let bytes = with_cluster_of(alloc, &size)?;
        let wanted = text_in_memory(alloc, &bytes)?;
        for most in [1, 1000, 65536] {
            let text = text_of(alloc, &bytes, most)?;
            assert!(rt; text == wanted, "{most}");
        }
    }
    Ok(())
}

#[test]
fn attachments_longer_than_a_piece_are_read(rt: HostRuntime) -> Result<(), Fail> {
    let alloc = rt.alloc();
    for (octet, has) in [
        (0xA0, 100000),
        (0xA0, 65000),
        (0xA0, 0),
        (0xA1, 100000),
        (0xA1, 100009),
    ] {
        let bytes = with_attachment(alloc, octet, has)?;
        let wanted = text_in_memory(alloc, &bytes)?;
        for most in [1, 1000, 65536] {
            let text = text_of(alloc, &bytes, most)?;
            assert!(rt; text == wanted, "{octet} {has} {most}");
        }
    }
    Ok(())
}

#[test]
fn children_are_cut_where_pieces_end(rt: HostRuntime) -> Result<(), Fail> {
    let alloc = rt.alloc();
    for before in 65530..65540 {
        let mut bytes = vec![in alloc; b'x'; before - 722]?;
        bytes.extend_from_slice(&file())?;
        let wanted = text_in_memory(alloc, &bytes)?;
        let text = text_of(alloc, &bytes, 65536)?;
        assert!(rt; text == wanted, "{before}");
    }
    Ok(())
}

#[test]
fn items_are_passed(rt: HostRuntime) -> Result<(), Fail> {
    let alloc = rt.alloc();
    let file = file();
    let mut source = source_of(&file, 1000);
    let mut intake = Intake::new(alloc);
    let mut passed: u64 = 0;
    for _ in 0..9 {
        let start = pass_start(&mut intake, &mut source)
            .ok()
            .ok_or("a start")?
            .ok_or("an item")?;
        let rest = pass_rest(&start.kind, &mut intake, &mut source)
            .ok()
            .ok_or("its rest")?;
        passed = passed.saturating_add(start.length).saturating_add(rest);
    }
    assert!(rt; passed == 1781);
    assert!(rt; pass_start(&mut intake, &mut source) == Ok(None));
    Ok(())
}

#[test]
fn contents_are_passed_in_pieces(rt: HostRuntime) -> Result<(), Fail> {
    let alloc = rt.alloc();
    let file = file();
    let ids = [0xAE, 0xEC, 0xBF];
    let mut source = source_of(&file, 100);
    let mut intake = Intake::new(alloc);
    assert!(rt; pass_bytes(262, &mut intake, &mut source) == Ok(262));
    let mut crc = RunningCrc32::new();
    let passed = pass_content(&ids, 284, &mut crc, &mut intake, &mut source)
        .ok()
        .ok_or("a content")?;
    assert!(rt; passed.length == 284 && passed.children == 284);
    assert!(rt; crc.has_crc32() && crc.passes());
    let taken = take_bytes(alloc, 4, &mut intake, &mut source)
        .ok()
        .ok_or("bytes")?;
    assert!(rt; taken.as_slice() == &file[546..550]);
    Ok(())
}

#[test]
fn children_are_held(rt: HostRuntime) -> Result<(), Fail> {
    let alloc = rt.alloc();
    let file = file();
    let mut source = source_of(&file, 100);
    let mut intake = Intake::new(alloc);
    assert!(rt; pass_bytes(722, &mut intake, &mut source) == Ok(722));
    let mut crc = RunningCrc32::new();
    assert!(rt; pass_summed(9, &mut crc, &mut intake, &mut source) == Ok(9));
    let head = claimed_child(&[0xA3], Some(1022), &mut intake, &mut source)
        .ok()
        .ok_or("a head")?
        .ok_or("a child")?;
    assert!(rt; head.size == Some(340) && head.length == 3);
    let child = held_child(&[0xA3], None, &mut intake, &mut source)
        .ok()
        .ok_or("a child")?
        .ok_or("a block")?;
    assert!(rt; child.length == 343 && intake.bytes().len() >= 343);
    let none = held_child(&[0xA3], Some(342), &mut intake, &mut source);
    assert!(rt; none == Ok(None));
    let count = child.length.min(intake.bytes().len());
    intake.pass(count);
    assert!(rt; pass_bytes(2000, &mut intake, &mut source) == Ok(707));
    Ok(())
}
