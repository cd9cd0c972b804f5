//! The planes of a picture, of its coded planes (RFC 9043, section 3.7).
ghost use Rattle.std.specs.Prelude.{◌≡◌, ℕ, ◌<◌, ◌≤◌, ◌^◌, true, length, map, slice_index, IfOk, IfErr, IfSome, IfNone};
ghost use Rattle.ffv1_colors.specs.Planes.{color_planes};
ghost use Rattle.ffv1_samples.specs.Pictures.{slice_plane_at, AreRgbPlanes, ArePicturePlanes};
ghost use Rattle.ffv1_samples.specs.Inner.Planes.{AreThreePlanes, AreOfRecording, IsPlanesFault, colors_with_alpha, first_outside};

use ffv1_colors::{CodedPlanes, ColorCoding, ColorPlanes, ColorsFault};
use ffv1_range::Recording;
use std::alloc::{AllocError, Global};

/// Why coded planes are those of no picture.
#[derive(Clone, Copy)]
pub(crate) enum PlanesFault {
    /// A sample is no number of the picture's bits: its place in scan order, and its plane, 0 for G, 1 for B, 2 for R, 3 for alpha.
    Outside { place: usize, plane: usize },
    /// An allocation of memory failed.
    Memory,
}

impl From<AllocError> for PlanesFault {
    ghost use Rattle.std.specs.Prelude.{◌≡◌};
    ghost use Rattle.ffv1_samples.specs.declared.colors.PlanesFault.TheVariants.{Memory};

    ghost from_gives = { λ error result. result ≡ Memory };

    fn from(_error: AllocError) -> PlanesFault {
        PlanesFault::Memory
    }
}

/// Samples of at most 16 bits in two bytes each.
fn narrowed(alloc: Global, samples: &[u32]) -> Result<Vec<u16>, AllocError>
    requires { (s : ℕ) → slice_index samples.now s < 2 ^ 16 }
    ensures { IfOk result (λ narrow. narrow.items ≡ samples.now) }
{
    let mut narrow = Vec::with_capacity(alloc, samples.len())?;
    for place in 0..samples.len() {
        narrow.push(samples[place] as u16)?;
    }
    Ok(narrow)
}

/// Planes of at most 16 bits a sample in two bytes each.
fn narrowed_planes(alloc: Global, planes: &[Vec<u32>]) -> Result<Vec<Vec<u16>>, AllocError>
    requires { (p s : ℕ) → slice_index (slice_plane_at (map (λ plane. plane.items) planes.now) p) s < 2 ^ 16 }
    ensures { IfOk result (λ narrow. map (λ plane. plane.items) narrow.items ≡ map (λ plane. plane.items) planes.now) }
{
    let mut narrow = Vec::with_capacity(alloc, planes.len())?;
    for index in 0..planes.len() {
        narrow.push(narrowed(alloc, &planes[index])?)?;
    }
    Ok(narrow)
}

/// The place of the first sample that has more bits.
fn first_larger(samples: &[u32], depth: u32) -> Option<usize>
    requires { depth ≤ 16 }
    ensures found { IfSome result (λ place. (place < length samples.now) × (2 ^ depth ≤ slice_index samples.now place)) }
    ensures before { IfSome result (λ place. (s : ℕ) → s < place → slice_index samples.now s < 2 ^ depth) }
    ensures none { IfNone result ((s : ℕ) → slice_index samples.now s < 2 ^ depth) }
{
    let limit = 1 << depth;
    for place in 0..samples.len() {
        if samples[place] >= limit {
            return Some(place);
        }
    }
    None
}

/// The samples of alpha, and none where there is no such plane.
fn alpha_of(coded: &[Vec<u32>]) -> &[u32]
    ensures { result.now ≡ slice_plane_at (map (λ plane. plane.items) coded.now) 3 }
{
    if coded.len() > 3 { &coded[3] } else { &[] }
}

/// The planes G, B and R, and that of alpha after them where there is one.
fn with_alpha(
    alloc: Global,
    colors: ColorPlanes,
    coded: &[Vec<u32>],
) -> Result<Vec<Vec<u16>>, AllocError>
    requires { (s : ℕ) → slice_index (slice_plane_at (map (λ plane. plane.items) coded.now) 3) s < 2 ^ 16 }
    ensures { IfOk result (λ planes. map (λ plane. plane.items) planes.items
        ≡ colors_with_alpha (color_planes colors) (map (λ plane. plane.items) coded.now)) }
{
    let ColorPlanes { green, blue, red } = colors;
    let mut planes = Vec::with_capacity(alloc, coded.len())?;
    planes.push(green)?;
    planes.push(blue)?;
    planes.push(red)?;
    if coded.len() > 3 {
        planes.push(narrowed(alloc, &coded[3])?)?;
    }
    Ok(planes)
}

/// The first of a colour's sample and one of alpha, in the order of their places; in one place the colour's comes first.
fn first_outside(place: usize, plane: usize, alpha: Option<usize>) -> PlanesFault
    ensures { result ≡ first_outside place plane alpha }
{
    match alpha {
        Some(alpha) if alpha < place => PlanesFault::Outside {
            place: alpha,
            plane: 3,
        },
        _ => PlanesFault::Outside { place, plane },
    }
}

/// The planes of a picture in RGB, with alpha or without.
fn rgb_planes(
    alloc: Global,
    recording: &Recording,
    coded: &[Vec<u32>],
) -> Result<Vec<Vec<u16>>, PlanesFault>
    requires rgb { recording.now.is_rgb ≡ true }
    requires planes { AreThreePlanes (map (λ plane. plane.items) coded.now) }
    ensures ok { IfOk result (λ planes. AreRgbPlanes recording.now (map (λ plane. plane.items) coded.now) (map (λ plane. plane.items) planes.items)) }
    ensures err { IfErr result (IsPlanesFault recording.now (map (λ plane. plane.items) coded.now)) }
{
    let coding = ColorCoding::new(recording.depth(), recording.has_alpha());
    let larger = first_larger(alpha_of(coded), recording.depth());
    let three = CodedPlanes {
        luma: &coded[0],
        blue_difference: &coded[1],
        red_difference: &coded[2],
    };
    match coding.planes_of(alloc, &three) {
        Ok(colors) => match larger {
            None => Ok(with_alpha(alloc, colors, coded)?),
            Some(place) => Err(PlanesFault::Outside { place, plane: 3 }),
        },
        Err(ColorsFault::Outside { place, plane }) => Err(first_outside(place, plane, larger)),
        Err(ColorsFault::Memory) => Err(PlanesFault::Memory),
    }
}

/// The planes of a picture, of its coded planes.
pub(crate) fn picture_planes(
    alloc: Global,
    recording: &Recording,
    coded: &[Vec<u32>],
) -> Result<Vec<Vec<u16>>, PlanesFault>
    requires { AreOfRecording recording.now (map (λ plane. plane.items) coded.now) }
    ensures ok { IfOk result (λ planes. ArePicturePlanes recording.now (map (λ plane. plane.items) coded.now) (map (λ plane. plane.items) planes.items)) }
    ensures err { IfErr result (IsPlanesFault recording.now (map (λ plane. plane.items) coded.now)) }
{
    recording.keeps_version_3();
    if recording.is_rgb() {
        rgb_planes(alloc, recording, coded)
    } else {
        Ok(narrowed_planes(alloc, coded)?)
    }
}
