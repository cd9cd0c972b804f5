//! The header of a slice (RFC 9043, section 4.6): for which tile the slice is, and by which tables it is coded.
//!
//! The content of a slice begins with it, range-coded in a content that nothing follows; the keyframe bit of the frame
//! (section 4.4) stands before the header of the payload's first slice.
ghost use Rattle.std.specs.Prelude.{◌≡◌, ◌+◌, ◌≤◌, ℕ, Ok, false, IfOk, length, take, nat_le, nat_lt};
ghost use Rattle.std.specs.List.{list_all};
ghost use Rattle.ffv1_range.specs.Decoder.{Starts};
ghost use Rattle.ffv1_range.specs.Forms.{ReadsForm, same_fault};
ghost use Rattle.ffv1_range.specs.Header.{header_limits, head_read, head_judged, IsHeadOf};
ghost use Rattle.ffv1_range.specs.HeaderForms.{header_fields, fields_form};
ghost use Rattle.ffv1_range.specs.SliceHeader.{slice_mode, slice_bytes, field_count, table_indexes, slice_header_judged, slice_header_read, IsSliceHeaderOf};
ghost use Rattle.ffv1_range.specs.Frames.{asks_keyframes, by_frames};
ghost use Rattle.ffv1_range.specs.TileHeaders.{is_in_profile, scope_by, rules_of, IsTileContent, tile_judged, tile_read, HeadsTile};
ghost use Rattle.ffv1_range.specs.Inner.Forms.{ReadsFormAs};
ghost use Rattle.ffv1_range.specs.Inner.HeaderForms.{ReadsKey, ReadsHeader, IsAtPlace};
ghost use Rattle.ffv1_range.specs.Inner.SliceHeader.{FollowsDecoder, EndsHeader};
ghost use Rattle.ffv1_range.specs.declared.head.SliceHead.{SliceHead};
ghost use Rattle.ffv1_range.specs.declared.head.SliceHeader.{SliceHeader};
ghost use Rattle.ffv1_range.specs.declared.head.SliceStart.{SliceStart};

use crate::coding::{RangeDecoder, RangeFault};
use crate::frames::Frames;
use crate::recording::Recording;
use crate::scope::Scope;
use crate::setup::Setup;

/// Why a slice's content has no header, of the profile or of any recording. `Range` and `NotKey` are returned where they are met; the others
/// are returned, in this order, after all of the header was read. `NotKey` is returned of recordings of the profile alone; `read_slice_head`
/// returns neither it nor `Spans` nor `FirstElsewhere`.
#[derive(Clone, Copy, Debug, PartialEq, Eq)]
pub enum HeadFault {
    /// A range-coded value can't be read.
    Range(RangeFault),
    /// The keyframe bit of the payload's first slice is 0.
    NotKey,
    /// A tile of the slice is outside the grid: the first tile, or where `read_slice_head` judges, any.
    OutsideGrid,
    /// The slice spans more than one tile.
    Spans,
    /// A quantization table set is named that the record hasn't.
    TableIndex,
    /// The payload's first slice is not of tile 0, or another is.
    FirstElsewhere,
}

impl From<RangeFault> for HeadFault {
    ghost use Rattle.std.specs.Prelude.{◌≡◌};
    ghost use Rattle.ffv1_range.specs.declared.head.HeadFault.TheVariants.{Range};

    ghost from_gives = { λ fault result. result ≡ Range fault };

    fn from(fault: RangeFault) -> HeadFault {
        HeadFault::Range(fault)
    }
}

/// How many fields a header has where there is no extra plane.
pub const HEAD_FIELDS: usize = 9;

/// How many a header has where there is one.
const MOST_FIELDS: usize = 10;

/// What a slice's header says.
#[derive(Clone, Copy, Debug, PartialEq, Eq)]
pub struct SliceHead {
    /// The tile, counted from 0 row by row.
    pub tile: usize,
    /// The set of quantization tables of plane Y.
    pub table_y: usize,
    /// The set of quantization tables of the planes Cb and Cr.
    pub table_c: usize,
    /// How the fields of a frame follow each other (section 4.6.6): 0 unknown, 1 top field first, 2 bottom field first,
    /// 3 progressive; others are returned as they stand.
    pub picture_structure: u32,
    /// The numerator of a sample's aspect ratio (section 4.6.7).
    pub sar_num: u32,
    /// Its denominator (section 4.6.8).
    pub sar_den: u32,
}

/// What the header of a slice of any recording says.
#[derive(Clone, Copy, Debug, PartialEq, Eq)]
pub struct SliceHeader {
    /// slice_x: the column of its first tile.
    pub x: u32,
    /// slice_y: the row of its first tile.
    pub y: u32,
    /// slice_width: its tiles across.
    pub w: u32,
    /// slice_height: its tiles down.
    pub h: u32,
    /// The sets of quantization tables of the first plane, of the second and third, and of alpha; 0 for alpha where there is none.
    pub tables: [u32; 3],
    /// How the fields of a frame follow each other (section 4.6.6), as it stands.
    pub picture_structure: u32,
    /// The numerator of a sample's aspect ratio (section 4.6.7).
    pub sar_num: u32,
    /// Its denominator (section 4.6.8).
    pub sar_den: u32,
    /// The frame's keyframe bit (section 4.4), in the payload's first slice.
    pub key: Option<bool>,
}

/// How a slice of any recording goes on after its header.
#[derive(Drop)]
pub enum SliceStart<'a> {
    /// With coder_type 0: how many bytes of the content stand before its first Golomb-Rice byte.
    Codes(usize),
    /// With coder_type 1 and 2: the decoder of the header, whose next value is the first sample's.
    Samples(RangeDecoder<'a>),
}

/// The keyframe bit where there is one, and the fields of a header with 0 after them.
#[derive(Clone, Copy)]
struct HeaderFields {
    key: Option<bool>,
    fields: [u32; MOST_FIELDS],
}

/// The header that a slice's content begins with, and the place of its first Golomb-Rice byte: how many bytes of the
/// content stand before it. The content is the slice without its footer; it is `first` where it is the payload's first,
/// and then the keyframe bit stands before its header. It takes no memory.
///
/// Returns `Range` if a range-coded value can't be read, and `NotKey` straight after a keyframe bit 0. Once all of the
/// header was read, `OutsideGrid`, `Spans`, `TableIndex` and `FirstElsewhere` are returned in this order.
pub fn read_head(
    setup: &Setup,
    content: &[u8],
    first: bool,
) -> Result<(SliceHead, usize), HeadFault>
    ensures found { IfOk result (λ r. IsHeadOf (header_limits setup.now) content.now first r.0 r.1) }
    ensures only { (head : SliceHead) (place : ℕ) → IsHeadOf (header_limits setup.now) content.now first head place → result ≡ Ok (head, place) }
    ensures fault { result ≡ head_read (header_limits setup.now) content.now first }
{
    read_head_within(setup, content, first)
}

/// The header that a content begins with, as it is read from left to right.
fn read_head_within(
    setup: &Setup,
    content: &[u8],
    first: bool,
) -> Result<(SliceHead, usize), HeadFault>
    ensures { result ≡ head_read (header_limits setup.now) content.now first }
{
    let mut decoder = RangeDecoder::sentinel(content)?;
    let header = read_header(Scope::Profile, &mut decoder, first, HEAD_FIELDS)?;
    let place = decoder.finish()?;
    let head = judged(setup, first, &header.fields)?;
    Ok((head, place))
}

/// The header that the content of a slice of any recording begins with, and how the slice goes on after it. The content is the slice
/// without its footer; it is `first` where it is the payload's first, and then the frame's keyframe bit stands before its header. It takes
/// no memory.
///
/// Returns `Range` if a range-coded value can't be read. Once all of the header was read, and with coder_type 0 the bit after it,
/// `OutsideGrid` is returned if a tile of the slice is outside the grid, then `TableIndex`. Others are not returned.
pub fn read_slice_head<'a>(
    recording: &'a Recording,
    content: &'a [u8],
    first: bool,
) -> Result<(SliceHeader, SliceStart<'a>), HeadFault>
    ensures found { IfOk result (λ r. IsSliceHeaderOf recording.now content.now first r.0 r.1) }
    ensures only { (header : SliceHeader) (start : SliceStart) → IsSliceHeaderOf recording.now content.now first header start → result ≡ Ok (header, start) }
    ensures fault { result ≡ slice_header_read recording.now content.now first }
{
    let mut decoder = slice_decoder(recording, content)?;
    let count = field_count(recording.has_alpha());
    let header = read_header(Scope::Version3, &mut decoder, first, count)?;
    let start = samples_or_codes(recording, decoder)?;
    let header = slice_header(recording, &header)?;
    Ok((header, start))
}

/// The tile of which a slice of any recording is, counted from 0 row by row: a slice that a holding can hold, which is of one tile alone. The
/// content is the slice without its footer; it is `first` where it is the payload's first, and then the frame's keyframe bit stands before its
/// header. It takes no memory.
///
/// Returns `Range` if a range-coded value can't be read, and of a recording of the profile `NotKey` straight after a keyframe bit 0. Once all
/// of the header was read, and with coder_type 0 the bit after it, `OutsideGrid`, `Spans`, `TableIndex` and `FirstElsewhere` are returned in
/// this order.
pub fn read_tile(recording: &Recording, content: &[u8], first: bool) -> Result<usize, HeadFault>
    ensures found { IfOk result (IsTileContent (rules_of recording.now) content.now first) }
    ensures only { (tile : ℕ) → IsTileContent (rules_of recording.now) content.now first tile → result ≡ Ok tile }
    ensures fault { result ≡ tile_read (rules_of recording.now) content.now first }
{
    read_frame_tile(Frames::Ruled, recording, content, first)
}

/// The same in these frames: `read_tile` reads those that the recording's rules allow. In any frame the keyframe bit is read as well, and
/// `NotKey` is not returned.
pub fn read_frame_tile(
    frames: Frames,
    recording: &Recording,
    content: &[u8],
    first: bool,
) -> Result<usize, HeadFault>
    ensures found { IfOk result (IsTileContent (by_frames frames (rules_of recording.now)) content.now first) }
    ensures only { (tile : ℕ) → IsTileContent (by_frames frames (rules_of recording.now)) content.now first tile → result ≡ Ok tile }
    ensures fault { result ≡ tile_read (by_frames frames (rules_of recording.now)) content.now first }
{
    let mut decoder = slice_decoder(recording, content)?;
    let count = field_count(recording.has_alpha());
    let header = read_header(scope_of(frames, recording), &mut decoder, first, count)?;
    end_header(recording, decoder)?;
    judged_tile(recording, first, &header.fields)
}

/// Of a setup of the profile a content's tile is that of its header, and is refused as `read_head` refuses it.
pub fn heads_tile()
    ensures { HeadsTile }
{}

/// Which keyframe bits these frames of a recording may have.
fn scope_of(frames: Frames, recording: &Recording) -> Scope
    ensures { result ≡ scope_by (asks_keyframes frames (is_in_profile recording.now)) }
{
    match frames {
        Frames::Ruled if recording.is_in_profile() => Scope::Profile,
        _ => Scope::Version3,
    }
}

/// Reads the bit that ends the header's coding, with coder_type 0.
fn end_header(recording: &Recording, decoder: RangeDecoder<'_>) -> Result<(), HeadFault>
    requires { decoder.mode.closed ≡ false }
    ensures { EndsHeader recording.now decoder.entry result }
{
    if recording.coder() == 0 {
        decoder.finish()?;
    }
    Ok(())
}

/// Whether the record has each table set that a header names.
fn has_tables(recording: &Recording, fields: &[u32; MOST_FIELDS]) -> bool
    ensures { result ≡ list_all (λ table. nat_lt table (length recording.now.setup.sets))
        (table_indexes recording.now.has_alpha (take (field_count recording.now.has_alpha) fields.now)) }
{
    let sets = recording.sets();
    let [_, _, _, _, luma, chroma, alpha, ..] = *fields;
    if (luma as usize) >= sets || (chroma as usize) >= sets {
        return false;
    }
    !recording.has_alpha() || (alpha as usize) < sets
}

/// The fields of a slice of one tile, or the first fault of them.
#[tactic(auto, using(crate::proofs::HeaderSteps::tile_fits))]
fn judged_tile(
    recording: &Recording,
    first: bool,
    fields: &[u32; MOST_FIELDS],
) -> Result<usize, HeadFault>
    ensures { result ≡ tile_judged (rules_of recording.now) first (take (field_count recording.now.has_alpha) fields.now) }
{
    let [slice_x, slice_y, less_width, less_height, ..] = *fields;
    let grid = recording.grid();
    let (across, down) = (grid.across(), grid.down());
    if slice_x >= across || slice_y >= down {
        return Err(HeadFault::OutsideGrid);
    }
    if less_width != 0 || less_height != 0 {
        return Err(HeadFault::Spans);
    }
    if !has_tables(recording, fields) {
        return Err(HeadFault::TableIndex);
    }
    let tile = slice_y as usize * across as usize + slice_x as usize;
    if first != (tile == 0) {
        return Err(HeadFault::FirstElsewhere);
    }
    Ok(tile)
}

/// A decoder at the start of a slice's content.
fn slice_decoder<'a>(
    recording: &'a Recording,
    content: &'a [u8],
) -> Result<RangeDecoder<'a>, RangeFault>
    ensures { Starts (slice_mode recording.now) (slice_bytes recording.now content.now) result }
{
    if recording.coder() == 0 {
        RangeDecoder::sentinel(content)
    } else {
        RangeDecoder::slice(content, recording.transitions())
    }
}

/// How many fields a header has: one more where there is an extra plane.
fn field_count(has_alpha: bool) -> usize
    ensures { result ≡ field_count has_alpha }
{
    if has_alpha { MOST_FIELDS } else { HEAD_FIELDS }
}

/// How a slice goes on after its header.
fn samples_or_codes<'a>(
    recording: &Recording,
    decoder: RangeDecoder<'a>,
) -> Result<SliceStart<'a>, HeadFault>
    requires { decoder.mode.closed ≡ false }
    ensures { FollowsDecoder recording.now decoder.entry result }
{
    if recording.coder() != 0 {
        return Ok(SliceStart::Samples(decoder));
    }
    let place = decoder.finish()?;
    Ok(SliceStart::Codes(place))
}

/// The keyframe bit and so many fields, as they stand at the front of a slice (RFC 9043, sections 4.4 and 4.6).
fn read_header(
    scope: Scope,
    decoder: &mut RangeDecoder<'_>,
    first: bool,
    count: usize,
) -> Result<HeaderFields, HeadFault>
    requires alive { IsAtPlace decoder.old }
    requires some { 1 ≤ count }
    requires few { count ≤ 10 }
    ensures { ReadsHeader scope count first decoder.old result decoder.new }
{
    let key = read_key(scope, decoder, first)?;
    let fields = read_fields(decoder, count)?;
    Ok(HeaderFields { key, fields })
}

/// Reads the keyframe bit where the content is the payload's first.
fn read_key(
    scope: Scope,
    decoder: &mut RangeDecoder<'_>,
    first: bool,
) -> Result<Option<bool>, HeadFault>
    requires { IsAtPlace decoder.old }
    ensures { ReadsKey scope first decoder.old result decoder.new }
{
    if !first {
        return Ok(None);
    }
    let mut state = 128;
    let key = decoder.bit(&mut state)?;
    if !scope.accepts_key(key) {
        return Err(HeadFault::NotKey);
    }
    Ok(Some(key))
}

/// The nine fields of a header without extra plane, as they stand after the keyframe bit (RFC 9043, section 4.6): slice_x, slice_y,
/// slice_width - 1, slice_height - 1, the two table sets, picture_structure, sar_num and sar_den. None of them is
/// judged.
///
/// A fault is that of the first symbol that can't be read.
pub fn read_head_fields(decoder: &mut RangeDecoder<'_>) -> Result<[u32; HEAD_FIELDS], RangeFault>
    ensures { ReadsForm same_fault fields_form decoder.old tt result decoder.new tt }
{
    let [
        slice_x,
        slice_y,
        less_width,
        less_height,
        table_y,
        table_c,
        picture_structure,
        sar_num,
        sar_den,
        _,
    ] = read_fields(decoder, HEAD_FIELDS)?;
    Ok([
        slice_x,
        slice_y,
        less_width,
        less_height,
        table_y,
        table_c,
        picture_structure,
        sar_num,
        sar_den,
    ])
}

/// So many fields of a header, and 0 after them.
fn read_fields(
    decoder: &mut RangeDecoder<'_>,
    count: usize,
) -> Result<[u32; MOST_FIELDS], RangeFault>
    requires some { 1 ≤ count }
    requires few { count ≤ 10 }
    ensures { ReadsFormAs same_fault (λ fields. take count fields) (header_fields count) decoder.old tt result decoder.new tt }
{
    let mut states = [128; 32];
    let mut fields = [0; MOST_FIELDS];
    for index in 0..count {
        let symbol = decoder.unsigned(&mut states)?;
        fields[index] = symbol;
    }
    Ok(fields)
}

/// The fields of a slice of any recording as a header, or the first fault of them.
fn slice_header(recording: &Recording, header: &HeaderFields) -> Result<SliceHeader, HeadFault>
    ensures { result ≡ slice_header_judged recording.now header.now.key (take (field_count recording.now.has_alpha) header.now.fields) }
{
    let has_alpha = recording.has_alpha();
    let [
        x,
        y,
        less_width,
        less_height,
        first,
        second,
        seventh,
        eighth,
        ninth,
        tenth,
    ] = header.fields;
    let (third, picture_structure, sar_num, sar_den) = if has_alpha {
        (seventh, eighth, ninth, tenth)
    } else {
        (0, seventh, eighth, ninth)
    };
    let grid = recording.grid();
    if !is_within(x, less_width, grid.across()) || !is_within(y, less_height, grid.down()) {
        return Err(HeadFault::OutsideGrid);
    }
    let sets = recording.sets();
    if first as usize >= sets || second as usize >= sets || has_alpha && third as usize >= sets {
        return Err(HeadFault::TableIndex);
    }
    Ok(SliceHeader {
        x,
        y,
        w: less_width + 1,
        h: less_height + 1,
        tables: [first, second, third],
        picture_structure,
        sar_num,
        sar_den,
        key: header.key,
    })
}

/// Whether tiles from a first one on, so many less 1, are among a number of them.
fn is_within(first: u32, less: u32, among: u32) -> bool
    ensures { result ≡ nat_le (first + (less + 1)) among }
{
    u64::from(first) + u64::from(less) < u64::from(among)
}

/// The fields as a head, or the first fault of them.
fn judged(setup: &Setup, first: bool, fields: &[u32; MOST_FIELDS]) -> Result<SliceHead, HeadFault>
    ensures { result ≡ head_judged (header_limits setup.now) first (take 9 fields.now) }
{
    let tile = judged_tile(setup.recording(), first, fields)?;
    let [
        _,
        _,
        _,
        _,
        table_y,
        table_c,
        picture_structure,
        sar_num,
        sar_den,
        _,
    ] = *fields;
    Ok(SliceHead {
        tile,
        table_y: table_y as usize,
        table_c: table_c as usize,
        picture_structure,
        sar_num,
        sar_den,
    })
}
