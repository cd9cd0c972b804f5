//! The adaptive states that a slice leaves to the slice of its number in the frame after (RFC 9043, sections 3.8.1.3 and 3.8.2.4).
ghost use Rattle.std.specs.Prelude.{◌≡◌, IfOk};

use ffv1_rice::VlcState;
use std::alloc::{AllocError, Global};

/// The states of each group of range-coded planes, a row of 32 a context.
#[derive(Drop)]
pub struct RangeStates {
    /// The states of the first plane.
    pub luma: Vec<[u8; 32]>,
    /// Those of the second and third plane together.
    pub chroma: Vec<[u8; 32]>,
    /// Those of alpha.
    pub alpha: Vec<[u8; 32]>,
}

/// The states of each group of planes of Golomb-Rice codes, one a context.
#[derive(Drop)]
pub struct RiceStates {
    /// The states of the first plane.
    pub luma: Vec<VlcState>,
    /// Those of the second and third plane together.
    pub chroma: Vec<VlcState>,
    /// Those of alpha.
    pub alpha: Vec<VlcState>,
}

/// The states that a slice leaves.
#[derive(Drop)]
pub enum SliceStates {
    /// With coder_type 1 and 2.
    Range(RangeStates),
    /// With coder_type 0.
    Rice(RiceStates),
}

/// The same rows once more.
pub(crate) fn copy_of(alloc: Global, rows: &[[u8; 32]]) -> Result<Vec<[u8; 32]>, AllocError>
    ensures { IfOk result (λ copy. copy.items ≡ rows.now) }
{
    let mut copy = Vec::with_capacity(alloc, rows.len())?;
    copy.extend_from_slice(rows)?;
    Ok(copy)
}

/// The same states of contexts once more.
pub(crate) fn copy_of_codes(alloc: Global, states: &[VlcState]) -> Result<Vec<VlcState>, AllocError>
    ensures { IfOk result (λ copy. copy.items ≡ states.now) }
{
    let mut copy = Vec::with_capacity(alloc, states.len())?;
    copy.extend_from_slice(states)?;
    Ok(copy)
}
