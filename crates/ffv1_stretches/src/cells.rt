//! What the copies have of a stretch.
ghost use Rattle.std.specs.Prelude.{◌≡◌, length, map, slice_index_or, IfOk};
ghost use Rattle.std.specs.List.{AllZip};
ghost use Rattle.ffv1_weave.specs.References.{values_of};
ghost use Rattle.ffv1_stretches.specs.Cells.{versions_in};
ghost use Rattle.ffv1_stretches.specs.Inner.CellSteps.{cell_now, HasVersion, HasRoom, held_cell, held_cells};

use crate::copy::CopyReader;
use crate::stretch::Stretch;
use ffv1_devices::Source;
use std::alloc::{AllocError, Global};

/// What a copy has of the stretch of so many bytes that was read last, if it has it at a place.
fn cell_of<S: Source>(copy: &CopyReader<S>, place: Option<u64>, size: usize) -> Option<&[u8]>
    requires { HasRoom size place copy.now.room.items }
    ensures { cell_now result ≡ held_cell size place copy.now.room.items }
{
    match place {
        Some(_) => Some(copy.front(size)),
        None => None,
    }
}

/// What each copy has of the stretch that was read last, if it has it.
pub(crate) fn cells_of<'a, S: Source>(
    alloc: Global,
    copies: &'a [CopyReader<S>],
    stretch: &Stretch,
) -> Result<Vec<Option<&'a [u8]>>, AllocError>
    requires count { length stretch.now.places ≡ length copies.now }
    requires held { AllZip (HasRoom stretch.now.size) stretch.now.places (map (λ copy. copy.room.items) copies.now) }
    ensures { IfOk result (λ cells. map cell_now cells.items ≡ held_cells stretch.now.size stretch.now.places (map (λ copy. copy.room.items) copies.now)) }
{
    let mut cells = Vec::new(alloc);
    let places = stretch.places.as_slice();
    for index in 0..places.len() {
        cells.push(cell_of(&copies[index], places[index], stretch.size))?;
    }
    Ok(cells)
}

/// The versions of a stretch: what those copies have that have it.
pub(crate) fn versions_of<'a>(
    alloc: Global,
    cells: &[Option<&'a [u8]>],
) -> Result<Vec<&'a [u8]>, AllocError>
    ensures { IfOk result (λ versions. values_of versions.items ≡ versions_in (map cell_now cells.now)) }
{
    let mut versions = Vec::new(alloc);
    for cell in cells {
        if let Some(version) = cell {
            versions.push(*version)?;
        }
    }
    Ok(versions)
}

/// The version of the copy of this number, which has one.
pub(crate) fn version_at<'a>(cells: &[Option<&'a [u8]>], number: usize) -> &'a [u8]
    requires { HasVersion (map cell_now cells.now) number }
    ensures { slice_index_or (map cell_now cells.now) number None ≡ Some result.now }
{
    match cells.get(number) {
        Some(Some(version)) => *version,
        _ => unreachable!(),
    }
}
