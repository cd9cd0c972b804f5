//! The frames of a block's payload (RFC 9559, section 10.3).
ghost use Rattle.std.specs.Prelude.{ℕ, List, ◌+◌, ◌<◌, ◌≡◌, length, map, sum, take, IfOk, MatchOption};
ghost use Rattle.matroska.specs.Laces.{AreCutBy, AreLaced, AreFrames, FramesAreOne};

use crate::block::Lacing;
use crate::sizes::sizes_of;
use std::alloc::{AllocError, Global};

/// The frames of a block's payload, by how they are laced. `None` where the payload is not laced so: it has no bytes, or a size that begins
/// with no Variable-Size Integer or is less than 0, or sizes that leave no room for the frames, or of fixed lacing are not all alike. It
/// fails only if an allocation fails.
pub fn frames_of<'a>(
    alloc: Global,
    lacing: Lacing,
    payload: &'a [u8],
) -> Result<Option<Vec<&'a [u8]>>, AllocError>
    ensures { IfOk result (λ found. MatchOption found ((frames : List (List ℕ)) → AreFrames lacing payload.now frames → ⊥)
        (λ frames. AreFrames lacing payload.now (map (λ frame. frame.now) frames.items))) }
{
    match lacing {
        Lacing::Unlaced => cut(alloc, &[], payload),
        Lacing::Xiph => laced_frames(alloc, Lacing::Xiph, payload),
        Lacing::Fixed => laced_frames(alloc, Lacing::Fixed, payload),
        Lacing::Ebml => laced_frames(alloc, Lacing::Ebml, payload),
    }
}

/// The frames of a payload that is laced.
fn laced_frames<'a>(
    alloc: Global,
    lacing: Lacing,
    payload: &'a [u8],
) -> Result<Option<Vec<&'a [u8]>>, AllocError>
    ensures { IfOk result (λ found. MatchOption found ((frames : List (List ℕ)) → AreLaced lacing payload.now frames → ⊥)
        (λ frames. AreLaced lacing payload.now (map (λ frame. frame.now) frames.items))) }
{
    let [count, bytes @ ..] = payload else {
        return Ok(None);
    };
    let Some(sizes) = sizes_of(alloc, lacing, usize::from(*count), bytes)? else {
        return Ok(None);
    };
    cut(alloc, &sizes.sizes, sizes.rest)
}

/// Frames of these sizes, and a last one that is the rest of the bytes.
fn cut<'a>(
    alloc: Global,
    sizes: &[usize],
    bytes: &'a [u8],
) -> Result<Option<Vec<&'a [u8]>>, AllocError>
    ensures { IfOk result (λ found. MatchOption found (length bytes.now < sum sizes.now)
        (λ frames. AreCutBy sizes.now bytes.now (map (λ frame. frame.now) frames.items))) }
{
    let mut frames = Vec::new(alloc);
    let mut rest = bytes;
    for size in sizes {
        let Some((frame, more)) = rest.split_at_checked(*size) else {
            return Ok(None);
        };
        frames.push(frame)?;
        rest = more;
    }
    frames.push(rest)?;
    Ok(Some(frames))
}

/// The frames of a payload are one list.
pub fn frames_are_one()
    ensures { FramesAreOne }
{}
