//! Blocks, those of SimpleBlocks and of BlockGroups (RFC 9559, section 10).
ghost use Rattle.std.specs.Prelude.{◌≡◌, MatchOption};
ghost use Rattle.matroska.specs.Blocks.{BlockValue, lacing_of, block_value, IsBlock, BlockIsOne};

use ebml::read_vint_data;

/// How the frames of a block's payload are laced (section 10.3).
#[derive(Clone, Copy, Debug, PartialEq, Eq)]
pub enum Lacing {
    /// The payload is one frame.
    Unlaced,
    /// The size of each frame but the last stands as bytes of 255 and one below.
    Xiph,
    /// All frames are of one size.
    Fixed,
    /// The size of the first frame stands as a Variable-Size Integer, and of each other but the last its difference from the one before.
    Ebml,
}

/// One block of a track.
#[derive(Clone, Copy, Debug)]
pub struct Block<'a> {
    /// The number of its track.
    pub track: u64,
    /// Its time, counted from that of its Cluster, in units of the Segment's TimestampScale.
    pub time: i16,
    /// How the frames of its payload are laced.
    pub lacing: Lacing,
    /// What follows its flags.
    pub payload: &'a [u8],
}

/// The block that the content of a SimpleBlock or a Block is. `None` where the content is too short for its fields, or does not begin with a
/// Variable-Size Integer of at most 8 octets.
pub fn read_block<'a>(content: &'a [u8]) -> Option<Block<'a>>
    ensures { MatchOption result ((block : BlockValue) → IsBlock content.now block → ⊥) (λ block. IsBlock content.now (block_value block)) }
{
    let Some(track) = read_vint_data(content) else {
        return None;
    };
    let [high, low, flags, payload @ ..] = &content[track.length..] else {
        return None;
    };
    Some(Block {
        track: track.value,
        time: i16::from_be_bytes([*high, *low]),
        lacing: lacing_of(*flags),
        payload,
    })
}

/// How frames are laced, by a block's flags.
fn lacing_of(flags: u8) -> Lacing
    ensures { result ≡ lacing_of flags }
{
    match flags / 2 % 4 {
        0 => Lacing::Unlaced,
        1 => Lacing::Xiph,
        2 => Lacing::Fixed,
        _ => Lacing::Ebml,
    }
}

/// A content is one block at most.
pub fn block_is_one()
    ensures { BlockIsOne }
{}
