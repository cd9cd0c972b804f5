//! Files that are read from sources, and the same in memory.
use crate::made::file;
use ebml::{Kind, next_item, next_known};
use ebml_reader::{FoundItem, ItemReader, ReaderFault};
use ffv1_check::{check_file, check_source, push_report};
use ffv1_devices::FromRead;
use matroska_parts::find_tracks;
use std::alloc::Global;
use std::io;
use std::io::{ErrorKind, Read};
use std::test::Fail;

/// A reader of bytes that gives so many at a time, and then ends, or fails.
#[derive(Drop)]
pub struct Input<'a> {
    bytes: &'a [u8],
    most: usize,
    fails: bool,
}

impl Read for Input<'_> {
    fn read(&mut self, buf: &mut [u8]) -> io::Result<usize> {
        let most = self.most.min(buf.len());
        let count = self.bytes.read(&mut buf[..most])?;
        if self.fails && count == 0 {
            return Err(io::Error::from(ErrorKind::Other));
        }
        Ok(count)
    }
}

pub fn source_of<'a>(bytes: &'a [u8], most: usize) -> FromRead<Input<'a>> {
    FromRead::new(Input {
        bytes,
        most,
        fails: false,
    })
}

/// Whether a reader gives the items that are in memory, with their bytes.
fn gives_items(alloc: Global, bytes: &[u8], most: usize) -> bool {
    let mut source = source_of(bytes, most);
    let mut reader = ItemReader::new(alloc);
    let mut left = bytes;
    for _ in 0..bytes.len() {
        if left.is_empty() {
            break;
        }
        let item = next_item(left);
        let (front, rest) = left.split_at(item.length);
        let length = item.length as u64;
        let kind = item.kind;
        if reader.next(&mut source) != Ok(Some(FoundItem { kind, length })) {
            return false;
        }
        let kept = if kind == Kind::Unknown { &[] } else { front };
        if reader.bytes() != kept {
            return false;
        }
        left = rest;
    }
    reader.next(&mut source) == Ok(None)
}

/// The file with a Cluster of unknown size.
fn endless() -> [u8; 1781] {
    let mut file = file();
    file[720] = 0x7F;
    file[721] = 0xFF;
    file
}

#[test]
fn items_are_those_in_memory(rt: HostRuntime) -> Result<(), Fail> {
    let mut lost = file();
    lost[48] ^= 0xFF;
    lost[716] ^= 0xFF;
    for most in [1, 5, 1000, 65536] {
        for bytes in [&file(), &endless(), &lost] {
            assert!(rt; gives_items(rt.alloc(), bytes, most), "{most}");
            assert!(rt; gives_items(rt.alloc(), &bytes[..1000], most), "{most}");
        }
    }
    assert!(rt; gives_items(rt.alloc(), &[], 1));
    assert!(rt; gives_items(rt.alloc(), b"film", 1));
    Ok(())
}

#[test]
fn known_ids_are_seen_where_pieces_end(rt: HostRuntime) -> Result<(), Fail> {
    assert!(rt; next_known(b"film") == 4);
    assert!(rt; next_known(&[0x1A, 0x1A, 0x45, 0xDF, 0xA3]) == 1);
    for before in 65532..65537 {
        let mut bytes = vec![in rt.alloc(); b'x'; before]?;
        bytes.extend_from_slice(&file())?;
        assert!(rt; gives_items(rt.alloc(), &bytes, 65536), "{before}");
    }
    Ok(())
}

/// The text of the report of a file that is read so many bytes at a time.
pub fn text_of(alloc: Global, bytes: &[u8], most: usize) -> Result<String, Fail> {
    let found = find_tracks(alloc, &mut source_of(bytes, most))
        .ok()
        .ok_or("tracks")?;
    let report = check_source(alloc, &found, &mut source_of(bytes, most))
        .ok()
        .ok_or("a report")?;
    let mut text = String::new(alloc);
    push_report(&mut text, &report)?;
    Ok(text)
}

#[test]
fn reports_are_those_in_memory(rt: HostRuntime) -> Result<(), Fail> {
    let alloc = rt.alloc();
    let mut damaged = file();
    damaged[800] ^= 1;
    for bytes in [&file(), &endless(), &damaged] {
        for end in [0, 500, 731, 1000, 1781] {
            let report = check_file(alloc, &bytes[..end])?;
            let mut wanted = String::new(alloc);
            push_report(&mut wanted, &report)?;
            for most in [1, 65536] {
                let text = text_of(alloc, &bytes[..end], most)?;
                assert!(rt; text == wanted, "{end} {most}");
            }
        }
    }
    Ok(())
}

#[test]
fn failing_source_has_no_report(rt: HostRuntime) -> Result<(), Fail> {
    let alloc = rt.alloc();
    let file = file();
    let found = find_tracks(alloc, &mut source_of(&file, 65536))
        .ok()
        .ok_or("tracks")?;
    for end in [0, 10, 700, 1780, 1781] {
        let mut source = FromRead::new(Input {
            bytes: &file[..end],
            most: 65536,
            fails: true,
        });
        match check_source(alloc, &found, &mut source) {
            Ok(_) => return Err(Fail::from("a report")),
            Err(fault) => assert!(rt; fault == ReaderFault::Read, "{end}"),
        }
    }
    Ok(())
}
