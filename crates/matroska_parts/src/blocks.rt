//! Blocks as parts of a file.
ghost use Rattle.std.specs.Prelude.{IfOk};
ghost use Rattle.matroska_parts.specs.BlockParts.{IsStanding};
ghost use Rattle.matroska_parts.specs.FileTracks.{HasFacts};

use crate::file_tracks::FileTracks;
use crate::parts::{Standing, TrackBlock};
use crate::payloads::payload_of;
use matroska::{Block, read_block};
use std::alloc::{AllocError, Global};

/// What the content of a SimpleBlock or a Block is, in a Cluster whose CRC-32 passes or not.
pub(crate) fn standing_of(
    alloc: Global,
    tracks: &FileTracks<'_>,
    is_vouched: bool,
    content: &[u8],
) -> Result<Standing, AllocError>
    requires { HasFacts tracks.now }
    ensures { IfOk result (IsStanding tracks.now.named.tracks.items is_vouched content.now) }
{
    let Some(block) = read_block(content) else {
        return Ok(Standing::Short);
    };
    let Some(index) = tracks.named.place_of(block.track) else {
        return Ok(Standing::Unnamed(block.track));
    };
    let facts = &tracks.facts[index];
    let judged = payload_of(alloc, facts.judging, &block)?;
    Ok(Standing::Named(TrackBlock {
        index,
        track: block.track,
        is_ffv1: facts.is_ffv1,
        time: block.time,
        payload: judged.payload,
        passing: judged.passing,
        is_vouched,
    }))
}
