//! Payloads of tracks of FLAC.
ghost use Rattle.std.specs.Prelude.{◌↔◌, IsTrue, IfOk, map};
ghost use Rattle.std.specs.List.{AllByRecursion};
ghost use Rattle.flac_frame.specs.Frame.{PassesFlac};
ghost use Rattle.matroska.specs.Sound.{IsRightFlac};

use crate::block::Lacing;
use crate::laces::frames_of;
use flac_frame::passes_flac;
use std::alloc::{AllocError, Global};

/// Whether a block's payload is laced so, and each of its frames is one of FLAC whose two checks are right. It fails only if an allocation
/// fails.
pub fn is_right_flac(alloc: Global, lacing: Lacing, payload: &[u8]) -> Result<bool, AllocError>
    ensures { IfOk result (λ right. IsTrue right ↔ IsRightFlac lacing payload.now) }
{
    match frames_of(alloc, lacing, payload)? {
        Some(frames) => Ok(all_pass(&frames)),
        None => Ok(false),
    }
}

/// Whether each frame passes.
fn all_pass(frames: &[&[u8]]) -> bool
    ensures { IsTrue result ↔ AllByRecursion PassesFlac (map (λ frame. frame.now) frames.now) }
{
    for frame in frames {
        if !passes_flac(frame) {
            return false;
        }
    }
    true
}
