//! Lines that report what is wrong.
use ffv1_check::{Finding, Line, push_line};
use ffv1_scan::Verdict;
use ffv1_slice::ChainEnd;
use matroska_parts::{TopElement, top_element};
use std::test::Fail;

/// A frame of which three of four links pass, with 96 bytes before them that are no slice.
const BROKEN: Verdict = Verdict {
    links: 4,
    passing: 3,
    end: ChainEnd::Broken(96),
};

#[test]
fn lines_are_printed(rt: HostRuntime) -> Result<(), Fail> {
    let mut text = String::new(rt.alloc());
    let found = [
        (716, Finding::Cut(TopElement::Cluster, 1037)),
        (213, Finding::Crc32(TopElement::Info, 43)),
        (1753, Finding::Bare(TopElement::Cues, 28)),
        (393, Finding::Record(1)),
        (731, Finding::Frame(1, 1, BROKEN)),
        (1781, Finding::NoTracks),
    ];
    for (place, finding) in found {
        push_line(&mut text, &Line { place, finding })?;
    }
    let wanted =
        "at 716 cut Cluster 1037\nat 213 crc32 Info 43\nat 1753 bare Cues 28\nat 393 record of track 1\n\
        at 731 frame 1 of track 1 links 4 pass 3 broken at 96\nat 1781 no tracks\n";
    assert!(rt; text.as_str() == wanted);
    Ok(())
}

#[test]
fn elements_are_named(rt: HostRuntime) -> Result<(), Fail> {
    let cluster = top_element(0x1F43B675).ok_or("a Cluster")?;
    assert!(rt; cluster.name() == "Cluster");
    assert!(rt; top_element(0xA3).is_none());
    Ok(())
}
