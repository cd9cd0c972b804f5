//! The fields of a configuration record but for its tables (RFC 9043, section 4.2), in groups, each field judged as
//! soon as it was read.
//!
//! All of them are coded at one row of 32 states.
ghost use Rattle.std.specs.Prelude.{◌≡◌, ◌≤◌, IfOk, IsOk};
ghost use Rattle.ffv1_bits.specs.Limits.{greatest_side};
ghost use Rattle.ffv1_range.specs.SetupForms.{front_form};
ghost use Rattle.ffv1_range.specs.Inner.Views.{front_value};
ghost use Rattle.ffv1_range.specs.Transitions.{delta_byte};
ghost use Rattle.ffv1_range.specs.Views.{planes_value, shape_value, counts_of};
ghost use Rattle.ffv1_range.specs.TableForms.{set_count};
ghost use Rattle.ffv1_range.specs.Forms.{ReadsForm};
ghost use Rattle.ffv1_range.specs.Inner.Forms.{ReadsFormAs};
ghost use Rattle.ffv1_range.specs.Fields.{versions, transition_deltas, coder_fields, sample_fields, chroma_fields, extra_field, shape_fields, tile_counts, last_fields};
ghost use Rattle.ffv1_range.specs.declared.fault.SetupFault.TheVariants.{Range};

use crate::coding::RangeDecoder;
use crate::fault::SetupFault;
use crate::scope::Scope;
use crate::transitions::Transitions;
use ffv1_bits::MOST_TILES;

/// The chroma planes of a frame.
#[derive(Clone, Copy)]
pub(crate) struct Planes {
    /// Whether planes Cb and Cr follow plane Y.
    pub(crate) has_chroma: bool,
    /// The logarithm of a chroma sample's width, in luma samples.
    pub(crate) shift_h: u32,
    /// The logarithm of a chroma sample's height, in luma samples.
    pub(crate) shift_v: u32,
}

/// How the samples of a recording are coded, and its planes.
#[derive(Clone, Copy)]
pub(crate) struct Shape {
    /// coder_type: 0 for Golomb-Rice codes, 1 and 2 for range coding.
    pub(crate) coder: u32,
    /// How the states of its slices change.
    pub(crate) transitions: Transitions,
    pub(crate) is_rgb: bool,
    /// The bits of a sample.
    pub(crate) depth: u32,
    pub(crate) planes: Planes,
    /// Whether a plane of alpha follows the others.
    pub(crate) has_alpha: bool,
}

/// How many tiles stand side by side and one above the other.
#[derive(Clone, Copy)]
pub(crate) struct Counts {
    pub(crate) across: u32,
    pub(crate) down: u32,
}

/// What stands before the tables.
#[derive(Clone, Copy)]
pub(crate) struct Front {
    pub(crate) micro: u32,
    pub(crate) shape: Shape,
    pub(crate) counts: Counts,
    /// The number of quantization table sets.
    pub(crate) sets: u32,
}

/// Reads version and micro_version, and returns the second.
pub(crate) fn read_versions(
    decoder: &mut RangeDecoder<'_>,
    states: &mut [u8; 32],
) -> Result<u32, SetupFault>
    ensures { ReadsForm Range versions decoder.old states.old result decoder.new states.new }
{
    if decoder.unsigned(states)? != 3 {
        return Err(SetupFault::Version);
    }
    let micro = decoder.unsigned(states)?;
    if micro < 4 {
        return Err(SetupFault::Micro);
    }
    Ok(micro)
}

/// Reads coder_type, and state_transition_delta where that is 2.
fn read_coder(
    scope: Scope,
    decoder: &mut RangeDecoder<'_>,
    states: &mut [u8; 32],
) -> Result<(u32, Transitions), SetupFault>
    ensures { ReadsForm Range (coder_fields scope) decoder.old states.old result decoder.new states.new }
{
    let coder = decoder.unsigned(states)?;
    if !scope.accepts_coder(coder) {
        return Err(SetupFault::Coder);
    }
    let deltas = read_transition_deltas(decoder, states, coder)?;
    Ok((coder, Transitions::with_deltas(&deltas)))
}

/// Reads state_transition_delta where coder_type is 2, each delta modulo 256; else all are 0.
fn read_transition_deltas(
    decoder: &mut RangeDecoder<'_>,
    states: &mut [u8; 32],
    coder: u32,
) -> Result<[u8; 255], SetupFault>
    requires { IsOk decoder.old.at }
    ensures { ReadsForm Range (transition_deltas coder) decoder.old states.old result decoder.new states.new }
{
    let mut deltas = [0; 255];
    if coder != 2 {
        return Ok(deltas);
    }
    for index in 0..255usize {
        let delta = decoder.signed(states)?;
        deltas[index] = delta_byte(delta);
    }
    Ok(deltas)
}

/// A delta modulo 256.
pub(crate) fn delta_byte(delta: i64) -> u8
    ensures { result ≡ delta_byte delta }
{
    let magnitude = (delta.unsigned_abs() % 256) as u8;
    if delta < 0 {
        0u8.wrapping_sub(magnitude)
    } else {
        magnitude
    }
}

/// Reads colorspace_type and bits_per_raw_sample.
fn read_samples(
    scope: Scope,
    decoder: &mut RangeDecoder<'_>,
    states: &mut [u8; 32],
) -> Result<(u32, u32), SetupFault>
    ensures { ReadsForm Range (sample_fields scope) decoder.old states.old result decoder.new states.new }
{
    let space = decoder.unsigned(states)?;
    if !scope.accepts_space(space) {
        return Err(SetupFault::ColorSpace);
    }
    let depth = decoder.unsigned(states)?;
    if !scope.accepts_depth(depth) {
        return Err(SetupFault::Depth);
    }
    Ok((space, depth))
}

/// Reads chroma_planes and the shifts. The shifts of a gray record are read and taken as 0.
fn read_chroma(
    scope: Scope,
    decoder: &mut RangeDecoder<'_>,
    states: &mut [u8; 32],
    space: u32,
) -> Result<Planes, SetupFault>
    ensures { ReadsFormAs Range planes_value (chroma_fields scope space) decoder.old states.old result decoder.new states.new }
{
    let has_chroma = decoder.slot(states, 0)?;
    if space != 0 && !has_chroma {
        return Err(SetupFault::ColorSpace);
    }
    let shift_h = decoder.unsigned(states)?;
    if has_chroma && shift_h > scope.greatest_shift(space) {
        return Err(SetupFault::Subsampling);
    }
    let shift_v = decoder.unsigned(states)?;
    if has_chroma && shift_v > scope.greatest_shift(space) {
        return Err(SetupFault::Subsampling);
    }
    if has_chroma {
        Ok(Planes {
            has_chroma,
            shift_h,
            shift_v,
        })
    } else {
        Ok(Planes {
            has_chroma,
            shift_h: 0,
            shift_v: 0,
        })
    }
}

/// Reads extra_plane.
fn read_extra_plane(
    scope: Scope,
    decoder: &mut RangeDecoder<'_>,
    states: &mut [u8; 32],
) -> Result<bool, SetupFault>
    ensures { ReadsForm Range (extra_field scope) decoder.old states.old result decoder.new states.new }
{
    let extra = decoder.slot(states, 0)?;
    if !scope.accepts_extra_plane(extra) {
        return Err(SetupFault::ExtraPlane);
    }
    Ok(extra)
}

/// Reads the fields from coder_type to extra_plane.
pub(crate) fn read_shape(
    scope: Scope,
    decoder: &mut RangeDecoder<'_>,
    states: &mut [u8; 32],
) -> Result<Shape, SetupFault>
    ensures { ReadsFormAs Range shape_value (shape_fields scope) decoder.old states.old result decoder.new states.new }
{
    let (coder, transitions) = read_coder(scope, decoder, states)?;
    let (space, depth) = read_samples(scope, decoder, states)?;
    let planes = read_chroma(scope, decoder, states, space)?;
    let has_alpha = read_extra_plane(scope, decoder, states)?;
    Ok(Shape {
        coder,
        transitions,
        is_rgb: space == 1,
        depth: if depth == 0 { 8 } else { depth },
        planes,
        has_alpha,
    })
}

/// Reads num_h_slices and num_v_slices, of a frame of this width and height in samples.
pub(crate) fn read_counts(
    decoder: &mut RangeDecoder<'_>,
    states: &mut [u8; 32],
    width: u32,
    height: u32,
) -> Result<Counts, SetupFault>
    requires wide { width ≤ greatest_side }
    requires high { height ≤ greatest_side }
    ensures { ReadsFormAs Range counts_of (tile_counts width height) decoder.old states.old result decoder.new states.new }
{
    let across_less = decoder.unsigned(states)?;
    let down_less = decoder.unsigned(states)?;
    if across_less >= width || down_less >= height {
        return Err(SetupFault::GridTooFine);
    }
    let counts = Counts {
        across: across_less + 1,
        down: down_less + 1,
    };
    if counts.across * counts.down > MOST_TILES {
        return Err(SetupFault::TooManyTiles);
    }
    Ok(counts)
}

/// Reads quant_table_set_count.
pub(crate) fn read_set_count(
    decoder: &mut RangeDecoder<'_>,
    states: &mut [u8; 32],
) -> Result<u32, SetupFault>
    ensures read { ReadsForm Range set_count decoder.old states.old result decoder.new states.new }
    ensures some { IfOk result (λ count. 1 ≤ count) }
    ensures few { IfOk result (λ count. count ≤ 8) }
{
    let count = decoder.unsigned(states)?;
    if count < 1 || count > 8 {
        return Err(SetupFault::TableCount);
    }
    Ok(count)
}

/// Reads ec and intra.
pub(crate) fn read_last_fields(
    scope: Scope,
    decoder: &mut RangeDecoder<'_>,
    states: &mut [u8; 32],
) -> Result<(u32, u32), SetupFault>
    ensures { ReadsForm Range (last_fields scope) decoder.old states.old result decoder.new states.new }
{
    let ec = decoder.unsigned(states)?;
    if !scope.accepts_ec(ec) {
        return Err(SetupFault::ParityMode);
    }
    let intra = decoder.unsigned(states)?;
    Ok((ec, intra))
}

/// Reads the fields before the tables, of frames of this width and height in samples.
pub(crate) fn read_front(
    scope: Scope,
    decoder: &mut RangeDecoder<'_>,
    states: &mut [u8; 32],
    width: u32,
    height: u32,
) -> Result<Front, SetupFault>
    requires wide { width ≤ greatest_side }
    requires high { height ≤ greatest_side }
    ensures read { ReadsFormAs Range front_value (front_form scope width height) decoder.old states.old result decoder.new states.new }
    ensures some { IfOk result (λ front. 1 ≤ front.sets) }
    ensures few { IfOk result (λ front. front.sets ≤ 8) }
{
    let micro = read_versions(decoder, states)?;
    let shape = read_shape(scope, decoder, states)?;
    let counts = read_counts(decoder, states, width, height)?;
    let sets = read_set_count(decoder, states)?;
    Ok(Front {
        micro,
        shape,
        counts,
        sets,
    })
}
