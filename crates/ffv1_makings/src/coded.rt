//! The coded planes of a slice, cut out of the planes of its frame (RFC 9043, sections 3.7 and 4.6).
ghost use Rattle.std.specs.Prelude.{◌≤◌};

use crate::spec::SliceSpec;
use ffv1_plane::{Tables, group_of};
use ffv1_player::{frame_in, rect_in};
use ffv1_range::{Recording, TileRect};
use ffv1_vectors::{CodedPlane, MakeFault, coding_of};
use std::alloc::Global;

/// A plane of a frame, or what a slice has of it.
#[derive(Drop)]
struct Cut {
    samples: Vec<u32>,
    width: usize,
    height: usize,
}

/// The coded planes of a slice of a frame with these planes.
pub(crate) fn coded_planes<'r>(
    alloc: Global,
    recording: &'r Recording,
    slice: &SliceSpec,
    planes: &[Vec<u16>],
) -> Result<Vec<CodedPlane<'r>>, MakeFault> {
    let rect = rect_of(recording, slice)?;
    let mut cuts = cuts_of(alloc, recording, rect, planes)?;
    if recording.is_rgb() {
        code_colors(recording, &mut cuts)?;
    }
    let mut coded = Vec::with_capacity(alloc, cuts.len())?;
    for (plane, cut) in cuts.into_iter().enumerate() {
        coded.push(coded_plane(recording, slice, plane, cut)?)?;
    }
    Ok(coded)
}

/// A coded plane, with the tables of its group.
fn coded_plane<'r>(
    recording: &'r Recording,
    slice: &SliceSpec,
    plane: usize,
    cut: Cut,
) -> Result<CodedPlane<'r>, MakeFault> {
    let group = group_of(recording.has_chroma(), plane);
    let set = slice.tables[group] as usize;
    if set >= recording.sets() {
        return Err(MakeFault::NotSelf);
    }
    let Cut {
        samples,
        width,
        height,
    } = cut;
    Ok(CodedPlane {
        coding: coding_of(recording),
        samples,
        width,
        height,
        group,
        tables: Tables::of(recording, set),
    })
}

/// Where a slice lies in luma.
fn rect_of(recording: &Recording, slice: &SliceSpec) -> Result<TileRect, MakeFault> {
    let grid = recording.grid();
    let columns = slice.x.checked_add(slice.w);
    let rows = slice.y.checked_add(slice.h);
    match (columns, rows) {
        (Some(columns), Some(rows)) if columns <= grid.across() && rows <= grid.down() => {
            Ok(grid.rect(slice.x, slice.y, slice.w, slice.h))
        }
        _ => Err(MakeFault::NotSelf),
    }
}

/// What a rectangle of luma has of each plane.
fn cuts_of(
    alloc: Global,
    recording: &Recording,
    rect: TileRect,
    planes: &[Vec<u16>],
) -> Result<Vec<Cut>, MakeFault> {
    let mut cuts = Vec::with_capacity(alloc, planes.len())?;
    for (plane, samples) in planes.iter().enumerate() {
        let width = frame_in(recording, plane).w;
        let place = rect_in(recording, plane, rect);
        cuts.push(cut_of(alloc, samples, width, place)?)?;
    }
    Ok(cuts)
}

/// What a rectangle has of a plane of this width.
fn cut_of(alloc: Global, samples: &[u16], width: u32, place: TileRect) -> Result<Cut, MakeFault> {
    let mut cut = Vec::new(alloc);
    for row in 0..place.h as usize {
        let from = (place.y as usize)
            .wrapping_add(row)
            .wrapping_mul(width as usize)
            .wrapping_add(place.x as usize);
        add_row(&mut cut, samples, from, place.w as usize)?;
    }
    Ok(Cut {
        samples: cut,
        width: place.w as usize,
        height: place.h as usize,
    })
}

/// Adds so many samples from a place on.
fn add_row(
    cut: &mut Vec<u32>,
    samples: &[u16],
    from: usize,
    count: usize,
) -> Result<(), MakeFault> {
    for place in 0..count {
        let Some(sample) = samples.get(from.wrapping_add(place)) else {
            return Err(MakeFault::NotSelf);
        };
        cut.push(u32::from(*sample))?;
    }
    Ok(())
}

/// Puts the coded samples of each colour in the place of its samples of G, B and R (section 3.7.2).
fn code_colors(recording: &Recording, cuts: &mut [Cut]) -> Result<(), MakeFault> {
    recording.keeps_version_3();
    let depth = recording.depth();
    let is_swapped = 9 <= depth && depth <= 15 && !recording.has_alpha();
    let [green, blue, red, ..] = cuts else {
        return Err(MakeFault::NotSelf);
    };
    let colors = green
        .samples
        .iter_mut()
        .zip(blue.samples.iter_mut())
        .zip(red.samples.iter_mut());
    for ((green, blue), red) in colors {
        let color = if is_swapped {
            [*blue, *green, *red]
        } else {
            [*green, *blue, *red]
        };
        [*green, *blue, *red] = coded_color(depth, color);
    }
    Ok(())
}

/// The coded samples of a colour: green with a quarter of both differences, and the differences of blue and red from green.
fn coded_color(depth: u32, color: [u32; 3]) -> [u32; 3]
    requires { depth ≤ 16 }
{
    let [green, blue, red] = color;
    let offset = 1u32 << depth;
    let sum = green.wrapping_mul(2).wrapping_add(blue).wrapping_add(red);
    [
        sum / 4,
        blue.wrapping_add(offset).wrapping_sub(green),
        red.wrapping_add(offset).wrapping_sub(green),
    ]
}
