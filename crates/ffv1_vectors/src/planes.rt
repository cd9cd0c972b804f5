//! The planes of a slice, written in coded order (RFC 9043, section 4.7).

use crate::fault::MakeFault;
use crate::plane::{CodedPlane, RowWriter};

/// Writes each plane of a slice, in coded order: those of RGB row after row of all planes, others one after the other. `NotSelf` and `Memory` are returned as
/// the writer of a row returns them.
pub fn write_planes<W: RowWriter>(
    writer: &mut W,
    planes: &[CodedPlane<'_>],
    is_rgb: bool,
) -> Result<(), MakeFault> {
    if is_rgb {
        write_row_after_row(writer, planes)
    } else {
        write_plane_after_plane(writer, planes)
    }
}

/// Writes each plane of Y, Cb, Cr and alpha.
fn write_plane_after_plane<W: RowWriter>(
    writer: &mut W,
    planes: &[CodedPlane<'_>],
) -> Result<(), MakeFault> {
    for plane in planes {
        writer.begin_plane();
        write_plane(writer, plane)?;
    }
    Ok(())
}

/// Writes a plane, row by row.
fn write_plane<W: RowWriter>(writer: &mut W, plane: &CodedPlane<'_>) -> Result<(), MakeFault> {
    for y in 0..plane.height {
        writer.row(plane, y)?;
    }
    Ok(())
}

/// Writes the first row of each plane, then the second of each, and so on.
fn write_row_after_row<W: RowWriter>(
    writer: &mut W,
    planes: &[CodedPlane<'_>],
) -> Result<(), MakeFault> {
    let height = planes.first().map_or(0, |plane| plane.height);
    for y in 0..height {
        write_rows(writer, planes, y)?;
    }
    Ok(())
}

/// Writes a row of each plane.
fn write_rows<W: RowWriter>(
    writer: &mut W,
    planes: &[CodedPlane<'_>],
    y: usize,
) -> Result<(), MakeFault> {
    for plane in planes {
        writer.row(plane, y)?;
    }
    Ok(())
}
