//! Masters, and what each has (RFC 8794, section 11.2; RFC 9559, section 5.1).
ghost use Rattle.std.specs.Prelude.{◌≡◌};
ghost use Rattle.std.specs.Option.{option_copied};
ghost use Rattle.ebml.specs.Masters.{child_ids};

pub(crate) const EBML: u32 = 0x1A45DFA3;

pub(crate) const SEGMENT: u32 = 0x18538067;

pub(crate) const SEEK_HEAD: u32 = 0x114D9B74;

pub(crate) const INFO: u32 = 0x1549A966;

pub(crate) const TRACKS: u32 = 0x1654AE6B;

pub(crate) const CUES: u32 = 0x1C53BB6B;

pub(crate) const CLUSTER: u32 = 0x1F43B675;

pub(crate) const ATTACHMENTS: u32 = 0x1941A469;

pub(crate) const CHAPTERS: u32 = 0x1043A770;

pub(crate) const TAGS: u32 = 0x1254C367;

pub(crate) const VOID: u32 = 0xEC;

const BLOCK_GROUP: u32 = 0xA0;

const CRC32: u32 = 0xBF;

/// The IDs of a Cluster's children: Timestamp, Position, PrevSize, SimpleBlock, BlockGroup, SilentTracks.
pub const CLUSTER_IDS: [u32; 8] = [0xE7, 0xA7, 0xAB, 0xA3, BLOCK_GROUP, 0x5854, VOID, CRC32];

/// A BlockGroup's: Block, BlockDuration, ReferencePriority, ReferenceBlock, ReferenceVirtual, CodecState, BlockAdditions, DiscardPadding,
/// Slices, ReferenceFrame.
const BLOCK_GROUP_IDS: [u32; 12] = [
    0xA1, 0x9B, 0xFA, 0xFB, 0xFD, 0xA4, 0x75A1, 0x75A2, 0x8E, 0xC8, VOID, CRC32,
];

/// The EBML's: EBMLVersion, EBMLReadVersion, EBMLMaxIDLength, EBMLMaxSizeLength, DocType, DocTypeVersion, DocTypeReadVersion,
/// DocTypeExtension.
const EBML_IDS: [u32; 10] = [
    0x4286, 0x42F7, 0x42F2, 0x42F3, 0x4282, 0x4287, 0x4285, 0x4281, VOID, CRC32,
];

/// Those of Info: SegmentUUID, SegmentFilename, PrevUUID, PrevFilename, NextUUID, NextFilename, SegmentFamily, ChapterTranslate,
/// TimestampScale, Duration, DateUTC, Title, MuxingApp, WritingApp.
const INFO_IDS: [u32; 16] = [
    0x73A4, 0x7384, 0x3CB923, 0x3C83AB, 0x3EB923, 0x3E83BB, 0x4444, 0x6924, 0x2AD7B1, 0x4489,
    0x4461, 0x7BA9, 0x4D80, 0x5741, VOID, CRC32,
];

/// Seek.
const SEEK_HEAD_IDS: [u32; 3] = [0x4DBB, VOID, CRC32];

/// TrackEntry.
const TRACKS_IDS: [u32; 3] = [0xAE, VOID, CRC32];

/// CuePoint.
const CUES_IDS: [u32; 3] = [0xBB, VOID, CRC32];

/// AttachedFile.
const ATTACHMENTS_IDS: [u32; 3] = [0x61A7, VOID, CRC32];

/// EditionEntry.
const CHAPTERS_IDS: [u32; 3] = [0x45B9, VOID, CRC32];

/// Tag.
const TAGS_IDS: [u32; 3] = [0x7373, VOID, CRC32];

/// The IDs of a master's children, by its own: of an EBML, a BlockGroup and each master of a Segment. `None` for any other ID, that of a
/// Segment too, whose elements are items of the file.
pub fn child_ids(id: u32) -> Option<&'static [u32]>
    ensures { option_copied result ≡ child_ids id }
{
    match id {
        EBML => Some(&EBML_IDS[..]),
        SEEK_HEAD => Some(&SEEK_HEAD_IDS[..]),
        INFO => Some(&INFO_IDS[..]),
        TRACKS => Some(&TRACKS_IDS[..]),
        CUES => Some(&CUES_IDS[..]),
        CLUSTER => Some(&CLUSTER_IDS[..]),
        BLOCK_GROUP => Some(&BLOCK_GROUP_IDS[..]),
        ATTACHMENTS => Some(&ATTACHMENTS_IDS[..]),
        CHAPTERS => Some(&CHAPTERS_IDS[..]),
        TAGS => Some(&TAGS_IDS[..]),
        _ => None,
    }
}
