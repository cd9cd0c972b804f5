//! The planar pixel formats that FFmpeg's encoder has.
ghost use Rattle.std.specs.Prelude.{◌≡◌, ◌++◌, OnOk, find, map, option_map, string_bytes};
ghost use Rattle.ffv1_commands.specs.Formats.{has_format, name_at, format_name};
ghost use Rattle.ffv1_commands.specs.Inner.Formats.{value_of};

use ffv1_range::Recording;
use std::alloc::AllocError;

/// A format: colorspace_type, the number of planes, that of alpha included, the logarithms of a chroma sample's width and height in luma
/// samples, the name at 8 bits a sample, and the bits of a sample that it has.
type Format = (u32, usize, u32, u32, &'static str, &'static [u32]);

/// Those of FFmpeg 5.1.
static FORMATS: [Format; 12] = [
    (0, 1, 0, 0, "gray", &[8, 9, 10, 12, 16]),
    (0, 3, 1, 1, "yuv420p", &[8, 9, 10, 12, 14, 16]),
    (0, 3, 1, 0, "yuv422p", &[8, 9, 10, 12, 14, 16]),
    (0, 3, 0, 0, "yuv444p", &[8, 9, 10, 12, 14, 16]),
    (0, 3, 0, 1, "yuv440p", &[8, 10, 12]),
    (0, 3, 2, 0, "yuv411p", &[8]),
    (0, 3, 2, 2, "yuv410p", &[8]),
    (0, 4, 1, 1, "yuva420p", &[8, 9, 10, 16]),
    (0, 4, 1, 0, "yuva422p", &[8, 9, 10, 16]),
    (0, 4, 0, 0, "yuva444p", &[8, 9, 10, 16]),
    (1, 3, 0, 0, "gbrp", &[8, 9, 10, 12, 14, 16]),
    (1, 4, 0, 0, "gbrap", &[8, 10, 12, 16]),
];

/// Whether the planes of a recording are those of a format.
fn has_format(recording: &Recording, format: &Format) -> bool
    ensures { result ≡ has_format recording.now (value_of format.now) }
{
    let (colorspace, planes, shift_h, shift_v, _, depths) = format;
    *colorspace == u32::from(recording.is_rgb())
        && *planes == recording.planes()
        && *shift_h == recording.shift_h()
        && *shift_v == recording.shift_v()
        && depths.contains(&recording.depth())
}

/// The name at 8 bits of the format of a recording.
fn name_among(formats: &[Format], recording: &Recording) -> Option<&'static str>
    ensures { option_map (λ name. name.now) result ≡ option_map (λ f. f.name) (find (has_format recording.now) (map value_of formats.now)) }
{
    for format in formats {
        if has_format(recording, format) {
            return Some(format.4);
        }
    }
    None
}

/// Adds the name of the format of a recording, or `-` where it has none.
pub(crate) fn push_name(text: &mut String, recording: &Recording) -> Result<(), AllocError>
    ensures { OnOk result (string_bytes text.new ≡ string_bytes text.old ++ format_name recording.now) }
{
    match name_among(&FORMATS, recording) {
        None => text.push_str("-"),
        Some(name) => push_name_at(text, name, recording.depth()),
    }
}

/// Adds the name of a format at so many bits a sample, of which this is the name at 8.
fn push_name_at(text: &mut String, name: &str, depth: u32) -> Result<(), AllocError>
    ensures { OnOk result (string_bytes text.new ≡ string_bytes text.old ++ name_at depth name.now) }
{
    if depth == 8 {
        return text.push_str(name);
    }
    write!(text, "{name}{depth}le")
}
