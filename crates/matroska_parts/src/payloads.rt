//! How payloads stand with the checks that they have.
ghost use Rattle.std.specs.Prelude.{◌≡◌, ◌≤◌, IfOk, length};
ghost use Rattle.matroska.specs.Blocks.{block_value};
ghost use Rattle.matroska.specs.declared.track.Track.{Track};
ghost use Rattle.ffv1_scan.specs.Verdicts.{IsVerdictOf};
ghost use Rattle.matroska_parts.specs.Payloads.{frame_limit, IsFramePayload, IsFlacPayload, IsPayloadOf, HasPassingLinks, HasPassing};
ghost use Rattle.matroska_parts.specs.Facts.{IsJudging};

use crate::facts::Judging;
use crate::parts::Payload;
use ffv1_bits::PAYLOAD_LIMIT;
use ffv1_scan::{Verdict, is_passing};
use ffv1_slice::{Chain, next_link};
use matroska::{Block, Lacing, is_right_flac};
use std::alloc::{AllocError, Global};

/// A longer payload of FLAC is not judged.
const FLAC_LIMIT: usize = 1 << 24;

/// How a payload stands, and how many bytes of it pass checks of their own.
#[derive(Clone, Copy, Debug)]
pub(crate) struct Judged {
    pub(crate) payload: Payload,
    pub(crate) passing: u64,
}

/// How a frame stands, and how many bytes the links of it have that pass.
#[derive(Clone, Copy, Debug)]
pub(crate) struct JudgedFrame {
    pub(crate) verdict: Verdict,
    pub(crate) passing: u64,
}

/// How the payload of a block of a track stands, which is judged so.
pub(crate) fn payload_of(
    alloc: Global,
    judging: Judging,
    block: &Block<'_>,
) -> Result<Judged, AllocError>
    ensures payload { IfOk result (λ judged. (track : Track) → IsJudging track judging → IsPayloadOf track (block_value block.now) judged.payload) }
    ensures passing { IfOk result (λ judged. HasPassing judged.payload (block_value block.now).payload judged.passing) }
{
    match judging {
        Judging::Parities => Ok(frame_payload(block)),
        Judging::Flac => flac_payload(alloc, block),
        Judging::Nothing => Ok(unchecked(Payload::Other)),
    }
}

/// A payload no bytes of which pass a check of their own.
fn unchecked(payload: Payload) -> Judged
    ensures payload { result.payload ≡ payload }
    ensures passing { result.passing ≡ 0 }
{
    Judged {
        payload,
        passing: 0,
    }
}

/// How a frame stands by the parities of its slices.
fn frame_payload(block: &Block<'_>) -> Judged
    ensures payload { IsFramePayload (block_value block.now) result.payload }
    ensures passing { HasPassing result.payload (block_value block.now).payload result.passing }
{
    match block.lacing {
        Lacing::Unlaced => {
            if block.payload.len() > PAYLOAD_LIMIT {
                return unchecked(Payload::Long);
            }
            let JudgedFrame { verdict, passing } = judge_frame(block.payload);
            Judged {
                payload: Payload::Frame(verdict),
                passing,
            }
        }
        _ => unchecked(Payload::Laced),
    }
}

/// How the bytes of a frame stand.
fn judge_frame(bytes: &[u8]) -> JudgedFrame
    requires { length bytes.now ≤ frame_limit }
    ensures verdict { IsVerdictOf bytes.now result.verdict }
    ensures passing { HasPassingLinks bytes.now result.passing }
{
    let mut chain = Chain::new(bytes);
    let end = chain.end();
    let mut links = 0;
    let mut passing = 0;
    let mut size = 0;
    while let Some(link) = next_link(&mut chain) {
        links += 1;
        if is_passing(&link) {
            passing += 1;
            size += link.bytes().len() as u64;
        }
    }
    JudgedFrame {
        verdict: Verdict {
            links,
            passing,
            end,
        },
        passing: size,
    }
}

/// How frames of FLAC stand.
fn flac_payload(alloc: Global, block: &Block<'_>) -> Result<Judged, AllocError>
    ensures payload { IfOk result (λ judged. IsFlacPayload (block_value block.now) judged.payload) }
    ensures passing { IfOk result (λ judged. HasPassing judged.payload (block_value block.now).payload judged.passing) }
{
    if block.payload.len() > FLAC_LIMIT {
        return Ok(unchecked(Payload::Long));
    }
    let right = is_right_flac(alloc, block.lacing, block.payload)?;
    let passing = if right { block.payload.len() as u64 } else { 0 };
    Ok(Judged {
        payload: Payload::Flac(right),
        passing,
    })
}
