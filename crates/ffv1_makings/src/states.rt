//! The states with which the slices of a frame begin (RFC 9043, sections 3.8.1.3 and 3.8.2.4).

use crate::spec::{RecordingSpec, SetSpec, SliceSpec};
use ffv1_range::Recording;
use ffv1_rice::VlcState;
use ffv1_vectors::MakeFault;
use std::alloc::{AllocError, Global};

/// The states of the groups of a slice, for each context of the group's table set.
#[derive(Drop)]
pub(crate) enum GroupStates {
    /// With coder_type 1 and 2.
    Range(Vec<Vec<[u8; 32]>>),
    /// With coder_type 0.
    Rice(Vec<Vec<VlcState>>),
}

/// The states of a keyframe's slice.
pub(crate) fn fresh_states(
    alloc: Global,
    recording: &Recording,
    spec: &RecordingSpec,
    slice: &SliceSpec,
) -> Result<GroupStates, MakeFault> {
    if spec.coder == 0 {
        fresh_codes(alloc, recording, slice)
    } else {
        fresh_rows(alloc, recording, spec, slice)
    }
}

/// The same states once more.
pub(crate) fn copy_of(alloc: Global, states: &GroupStates) -> Result<GroupStates, AllocError> {
    match states {
        GroupStates::Range(groups) => Ok(GroupStates::Range(copies(alloc, groups)?)),
        GroupStates::Rice(groups) => Ok(GroupStates::Rice(copies(alloc, groups)?)),
    }
}

/// A copy of each group.
fn copies<T: Copy>(alloc: Global, groups: &[Vec<T>]) -> Result<Vec<Vec<T>>, AllocError> {
    let mut all = Vec::with_capacity(alloc, groups.len())?;
    for group in groups {
        all.push(Vec::from_slice(alloc, group)?)?;
    }
    Ok(all)
}

/// The states of each group with coder_type 0.
fn fresh_codes(
    alloc: Global,
    recording: &Recording,
    slice: &SliceSpec,
) -> Result<GroupStates, MakeFault> {
    let mut groups = Vec::with_capacity(alloc, 3)?;
    for set in slice.tables {
        let count = count_of_contexts(recording, set)?;
        groups.push(vec![in alloc; VlcState::start(); count]?)?;
    }
    Ok(GroupStates::Rice(groups))
}

/// The states of each group with coder_type 1 and 2: those that the record has, or 128.
fn fresh_rows(
    alloc: Global,
    recording: &Recording,
    spec: &RecordingSpec,
    slice: &SliceSpec,
) -> Result<GroupStates, MakeFault> {
    let mut groups = Vec::with_capacity(alloc, 3)?;
    for set in slice.tables {
        let count = count_of_contexts(recording, set)?;
        let Some(asked) = spec.sets.get(set as usize) else {
            return Err(MakeFault::NotSelf);
        };
        groups.push(initial_states(alloc, asked, count)?)?;
    }
    Ok(GroupStates::Range(groups))
}

/// The initial states of a set with so many contexts.
fn initial_states(alloc: Global, set: &SetSpec, count: usize) -> Result<Vec<[u8; 32]>, AllocError> {
    if set.states.is_empty() {
        vec![in alloc; [128; 32]; count]
    } else {
        Vec::from_slice(alloc, &set.states)
    }
}

/// How many contexts a set has.
fn count_of_contexts(recording: &Recording, set: u32) -> Result<usize, MakeFault> {
    let set = set as usize;
    if set >= recording.sets() {
        return Err(MakeFault::NotSelf);
    }
    Ok(recording.contexts(set) as usize)
}
