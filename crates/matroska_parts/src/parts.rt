//! What the parts of a file are. Places and sizes are in bytes; a place counts from the file's start, a size of an element has its head.
use crate::top_elements::TopElement;
use ffv1_scan::Verdict;

/// A part of a Matroska file.
#[derive(Clone, Copy, Debug, PartialEq, Eq)]
pub enum Part {
    /// Bytes that are no item of the file, or that follow the children of a master up to its end.
    Unknown(Span),
    /// The head of an element of the top, a Segment too.
    Begin(Opening),
    /// A Timestamp of a Cluster.
    Timestamp(u64),
    /// A block, of a SimpleBlock or of a BlockGroup.
    Block(BlockPart),
    /// The Configuration Record of a track.
    Record(RecordPart),
    /// The EBML that begins at this place has not exactly one DocType that is `matroska` or `webm`.
    NoMatroska(u64),
    /// The end of an element of the top; a Segment has none, what it has are parts of the file.
    End(Closing),
}

/// Bytes of a file.
#[derive(Clone, Copy, Debug, PartialEq, Eq)]
pub struct Span {
    pub place: u64,
    pub size: u64,
}

/// Where an element of the top begins, and where it ends by its size, if that is known.
#[derive(Clone, Copy, Debug, PartialEq, Eq)]
pub struct Opening {
    pub place: u64,
    pub element: TopElement,
    pub end: Option<u64>,
}

/// How an element of the top stands with its CRC-32.
#[derive(Clone, Copy, Debug, PartialEq, Eq)]
pub enum Crc32 {
    /// The file ends before the element does.
    Cut,
    /// The element begins with none.
    Absent,
    /// It has one that is right.
    Passes,
    /// It has one that is wrong.
    Fails,
}

/// An element of the top that ended.
#[derive(Clone, Copy, Debug, PartialEq, Eq)]
pub struct Closing {
    pub place: u64,
    pub element: TopElement,
    /// How many bytes of it are there.
    pub size: u64,
    /// How many of these follow its head.
    pub content: u64,
    pub crc32: Crc32,
}

/// A block where it stands: its element, and what that says.
#[derive(Clone, Copy, Debug, PartialEq, Eq)]
pub struct BlockPart {
    pub place: u64,
    pub size: u64,
    pub standing: Standing,
}

/// What the content of a SimpleBlock or a Block is.
#[derive(Clone, Copy, Debug, PartialEq, Eq)]
pub enum Standing {
    /// It is too short for the fields of a block.
    Short,
    /// A block of a track of this number, which the file does not describe.
    Unnamed(u64),
    /// A block of a track that the file describes.
    Named(TrackBlock),
}

/// A block of a track that the file describes.
#[derive(Clone, Copy, Debug, PartialEq, Eq)]
pub struct TrackBlock {
    /// Which of the tracks that blocks can name it is, counted from 0.
    pub index: usize,
    /// The track's number.
    pub track: u64,
    /// Whether the track is of FFV1, and so the times of its blocks rise.
    pub is_ffv1: bool,
    /// The block's time, counted from its Cluster's Timestamp.
    pub time: i16,
    /// How its payload stands with the checks that it has.
    pub payload: Payload,
    /// How many bytes of its payload pass checks of their own: those of a frame's links that pass, or all of a right payload of FLAC.
    pub passing: u64,
    /// Whether the CRC-32 of its Cluster passes.
    pub is_vouched: bool,
}

/// How a payload stands with the checks that it has.
#[derive(Clone, Copy, Debug, PartialEq, Eq)]
pub enum Payload {
    /// The track's frames are judged by their parities, and the block is laced.
    Laced,
    /// It is too long to be judged.
    Long,
    /// A frame of FFV1 with parities.
    Frame(Verdict),
    /// Frames of FLAC, and whether the two checks of each are right.
    Flac(bool),
    /// It has no checks.
    Other,
}

/// The Configuration Record of a track.
#[derive(Clone, Copy, Debug, PartialEq, Eq)]
pub struct RecordPart {
    pub place: u64,
    pub size: u64,
    /// The number of its track.
    pub track: u64,
    /// Whether it fails its parity.
    pub is_wrong: bool,
    /// Whether the CRC-32 of the Tracks that describes it passes.
    pub is_vouched: bool,
}
