//! Elements, items and CRC-32s of the file.
use crate::made::{CLUSTER, TRACKS, file};
use ebml::{
    Element, Head, Kind, child_ids, children_end, count_items, crc32, crc32_after, crc32_element,
    has_crc32, is_among, last_content, last_place, next_child, next_content, next_item,
    read_element, read_head_at, read_vint_data, unsigned,
};
use std::test::Fail;

#[test]
fn heads_are_those_of_the_file(rt: HostRuntime) {
    let file = file();
    let segment = Head {
        id: 0x18538067,
        size: Some(1729),
        length: 12,
    };
    assert!(rt; read_head_at(&file, 40) == Some(segment));
    assert!(rt; read_head_at(&file, file.len()).is_none());
    let ebml = Head {
        id: 0x1A45DFA3,
        size: Some(35),
        length: 5,
    };
    let element = Element {
        head: ebml,
        length: 40,
    };
    assert!(rt; read_element(&file) == Some(element));
    let (short, _) = file.split_at(39);
    assert!(rt; read_element(short).is_none());
}

#[test]
fn items_are_those_of_the_file(rt: HostRuntime) {
    let file = file();
    assert!(rt; count_items(&file) == 9);
    let last = next_item(&file[1753..]);
    assert!(rt; last.length == 28);
    assert!(rt; matches!(&last.kind, Kind::Element(_)));
    let cut = next_item(&file[1754..]);
    assert!(rt; (cut.kind, cut.length) == (Kind::Unknown, 27));
}

#[test]
fn children_are_those_of_the_cluster(rt: HostRuntime) -> Result<(), Fail> {
    let file = file();
    let ids = child_ids(0x1F43B675).ok_or("a Cluster has children")?;
    let content = &file[CLUSTER.0..CLUSTER.1];
    assert!(rt; children_end(ids, content) == content.len());
    let first = next_child(ids, content).ok_or("a CRC-32")?;
    assert!(rt; (first.head.id, first.length) == (0xBF, 6));
    assert!(rt; is_among(ids, 0xA3) && !is_among(ids, 0xAE));
    assert!(rt; child_ids(0x18538067).is_none());
    Ok(())
}

#[test]
fn crc32_is_that_of_the_content(rt: HostRuntime) {
    let file = file();
    let content = &file[TRACKS.0..TRACKS.1];
    let rest = &content[6..];
    let whole = crc32(rest);
    assert!(rt; whole == 0x47C584B9);
    let (front, back) = rest.split_at(100);
    assert!(rt; crc32_after(crc32(front), back) == whole);
    assert!(rt; crc32_element(whole) == [0xBF, 0x84, 0xB9, 0x84, 0xC5, 0x47]);
    assert!(rt; has_crc32(content) && !has_crc32(rest) && !has_crc32(&content[..5]));
}

#[test]
fn contents_are_found_by_id(rt: HostRuntime) -> Result<(), Fail> {
    let file = file();
    let content = &file[TRACKS.0..TRACKS.1];
    let first = next_content(0xAE, content).ok_or("a TrackEntry")?;
    assert!(rt; (first.place, first.bytes.len(), first.rest.len()) == (15, 158, 111));
    let last = last_content(0xAE, content).ok_or("a TrackEntry")?;
    assert!(rt; last.len() == 102);
    assert!(rt; last_place(0xAE, content) == Some(182));
    assert!(rt; last_content(0xA3, content).is_none() && last_place(0xA3, content).is_none());
    Ok(())
}

#[test]
fn numbers_are_read(rt: HostRuntime) -> Result<(), Fail> {
    let two = read_vint_data(&[0x40, 2, 9]).ok_or("two octets")?;
    assert!(rt; (two.value, two.length) == (2, 2));
    assert!(rt; read_vint_data(&[0x40]).is_none());
    assert!(rt; read_vint_data(&[0, 0x80]).is_none());
    assert!(rt; (unsigned(&[2, 0xD0]), unsigned(&[]), unsigned(&[1; 9])) == (720, 0, 0));
    Ok(())
}
