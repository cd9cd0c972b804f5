//! What a check keeps of a Cluster until it is known whether its CRC-32 passes.
ghost use Rattle.std.specs.Prelude.{◌≡◌, ◌++◌, OnOk, [], option_to_list};
ghost use Rattle.std.specs.List.{flat_map};
ghost use Rattle.matroska_parts.specs.declared.parts.Part.{Part};
ghost use Rattle.ffv1_check.specs.Inner.Vouched.{waits, waits_in, waits_by};

use matroska_parts::{Part, Payload, Standing};
use std::alloc::{AllocError, Global};

/// How many bytes were checked before a Cluster, and those of its blocks that are checked if its CRC-32 passes.
#[derive(Drop)]
pub(crate) struct Waiting {
    pub(crate) checked: u128,
    /// Which track each such block is of, counted from 0.
    pub(crate) blocks: Vec<usize>,
}

impl Waiting {
    /// Before the first block, after so many bytes that are checked.
    pub(crate) fn new(alloc: Global, checked: u128) -> Waiting
        ensures blocks { result.blocks.items ≡ [] }
        ensures checked { result.checked ≡ checked }
    {
        Waiting {
            checked,
            blocks: Vec::new(alloc),
        }
    }

    /// Takes the next parts of the Cluster.
    pub(crate) fn take(&mut self, parts: &[Part]) -> Result<(), AllocError>
        ensures blocks { OnOk result (self.new.blocks.items ≡ self.old.blocks.items ++ flat_map waits parts.now) }
        ensures checked { OnOk result (self.new.checked ≡ self.old.checked) }
    {
        for part in parts {
            push_waiting(&mut self.blocks, part)?;
        }
        Ok(())
    }
}

/// Adds the track of a part, if it is such a block.
fn push_waiting(blocks: &mut Vec<usize>, part: &Part) -> Result<(), AllocError>
    ensures { OnOk result (blocks.new.items ≡ blocks.old.items ++ waits part.now) }
{
    if let Some(index) = waits(part) {
        blocks.push(index)?;
    }
    Ok(())
}

/// The track of a block that is checked if its Cluster's CRC-32 passes.
fn waits(part: &Part) -> Option<usize>
    ensures { option_to_list result ≡ waits part.now }
{
    let Part::Block(block) = part else {
        return None;
    };
    waits_in(&block.standing)
}

/// The same of what a block is.
fn waits_in(standing: &Standing) -> Option<usize>
    ensures { option_to_list result ≡ waits_in standing.now }
{
    let Standing::Named(block) = standing else {
        return None;
    };
    match &block.payload {
        Payload::Other => Some(block.index),
        _ => None,
    }
}
