//! Writing a holding file (own).
ghost use Rattle.std.specs.Prelude.{◌≡◌, ◌<◌, ◌≤◌, ◌↔◌, ◌++◌, ◌^◌, ◌⊎◌, ◌∷◌, ◌+◌, ◌*◌, [], length, slice_index_or, IfSome, IfNone, IsErrOf, IsTrue};
ghost use Rattle.ffv1_bits.specs.Limits.{slice_limit, record_limit, file_limit};
ghost use Rattle.ffv1_holding.specs.Sets as set;
ghost use Rattle.ffv1_devices.specs.Results.{WritesAll};
ghost use Rattle.ffv1_holding.specs.TileSets.{tile_slices};
ghost use Rattle.ffv1_holding.specs.Reels.{IsReel, IsRecordReel, reel_tiles};
ghost use Rattle.ffv1_hold.specs.HoldingText.{origins_limit, be2, be4, magic, head_text, slice_text, FileEntry, origins_text, entry_text, entries_text, file_entries, holding_text, IsStated, TellsMagic, FitsInFile};
ghost use Rattle.ffv1_holding.specs.Contents.{IsHolding, AreOwnEntries, AreDigests};
ghost use Rattle.ffv1_hold.specs.Inner.Saving.{AreWithinLimit, AreWritable, tile_file_entries, entries_length};
ghost use Rattle.ffv1_hold.specs.Saving.{SavesFile};
ghost use Rattle.ffv1_hold.specs.Inner.Merging.{digests_union};

use crate::file_fault::HoldFileFault;
use crate::firsts::tells_magic;
use crate::magic::written_magic;
use crate::origins::ORIGINS_LIMIT;
use crate::union::{union_count, write_union};
use crate::version::Version;
use ffv1_bits::{FILE_LIMIT, RECORD_LIMIT};
use ffv1_devices::{Sink, WriteFailed, write_field, write_pair};
use ffv1_holding::{Framed, Holding, Reel};

/// Writes the holding file of a holding, of version 2. Its magic says whether the slices are of the profile: a holding of any frames of a
/// record of the profile has another magic than one by the record's own rules.
///
/// Returns `Magic` exactly if such a holding has no slice whose keyframe bit is 0, before anything is written: `into_own_frames` then
/// gives the holding that has a file. Else returns `TooLong` exactly if the record has more than 2^24 bytes or the file would have more than 2^31, before
/// anything is written; more than 2^26 origins of one slice never fit. After `Write`, which is returned only if the sink counted a failure,
/// a front of the file was written; the first failure that is no interruption is reported. No other fault is returned: nothing is
/// allocated.
pub fn write_hold<S: Framed, W: Sink>(
    holding: &Holding<S>,
    sink: &mut W,
) -> Result<(), HoldFileFault>
    ensures saved { SavesFile result holding.now (W.log sink.old) (W.log sink.new) }
    ensures well_formed { IsHolding holding.now }
    ensures untouched { (IsErrOf result HoldFileFault.TooLong ⊎ IsErrOf result HoldFileFault.Magic) → sink.new ≡ sink.old }

    // `Magic` is returned exactly where the first slice does not tell that the magic is right: so neither for a holding by the record's own
    // rules, nor for one with a slice that is none by these.
    ensures unnamed { IsErrOf result HoldFileFault.Magic ↔ (¬ TellsMagic holding.now.reel (file_entries holding.now)) }
    ensures own { IsRecordReel holding.now.reel → ¬ IsErrOf result HoldFileFault.Magic }
    ensures between { ¬ AreOwnEntries holding.now → ¬ IsErrOf result HoldFileFault.Magic }
{
    if !tells_magic(holding) {
        return Err(HoldFileFault::Magic);
    }
    if !fits_in_file(holding) {
        return Err(HoldFileFault::TooLong);
    }
    write_text(holding, sink)?;
    Ok(())
}

/// Writes the text of a holding.
fn write_text<R: Framed, S: Sink>(holding: &Holding<R>, sink: &mut S) -> Result<(), WriteFailed>
    requires fits { FitsInFile Version.Second holding.now }
    requires entries { AreWritable holding.now }
    ensures { WritesAll result (S.log sink.old) (S.log sink.new) (holding_text holding.now) }
{
    write_head(sink, holding.reel())?;
    write_entries(sink, holding)?;
    write_field(sink, &[0])?;
    Ok(())
}

/// Writes what stands before the entries.
pub(crate) fn write_head<R: Framed, S: Sink>(
    sink: &mut S,
    reel: &Reel<R>,
) -> Result<(), WriteFailed>
    requires { length reel.now.config ≤ record_limit }
    ensures { WritesAll result (S.log sink.old) (S.log sink.new) (head_text Version.Second reel.now) }
{
    let config = reel.config();
    let magic = written_magic(reel.is_of_profile());
    let (width, height) = size_of(reel);
    let head = reel_head(&magic, width, height, config.len() as u32);
    write_pair(sink, &head, config)
}

/// The width and the height of the frames.
pub(crate) fn size_of<R: Framed>(reel: &Reel<R>) -> (u32, u32)
    ensures width { result.0 ≡ reel.now.setup.width }
    ensures height { result.1 ≡ reel.now.setup.height }
    ensures well_formed { IsReel reel.now }
{
    let recording = reel.recording();
    (recording.width(), recording.height())
}

/// Writes the entries of all tiles.
fn write_entries<R: Framed, S: Sink>(sink: &mut S, holding: &Holding<R>) -> Result<(), WriteFailed>
    requires stated { IsStated Version.Second holding.now }
    requires entries { AreWritable holding.now }
    ensures { WritesAll result (S.log sink.old) (S.log sink.new) (entries_text Version.Second (file_entries holding.now)) }
{
    for tile in 0..holding.reel().tiles() {
        write_tile(sink, holding, tile)?;
    }
    Ok(())
}

/// Writes the entries of one tile.
fn write_tile<R: Framed, S: Sink>(
    sink: &mut S,
    holding: &Holding<R>,
    tile: usize,
) -> Result<(), WriteFailed>
    requires tile { tile < reel_tiles holding.now.reel }
    requires number { tile < 2 ^ 16 }
    requires stated { IsStated Version.Second holding.now }
    requires fits { AreWithinLimit (tile_slices holding.now.slices tile) }
    ensures { WritesAll result (S.log sink.old) (S.log sink.new) (entries_text Version.Second (tile_file_entries holding.now tile)) }
{
    for place in 0..holding.held(tile) {
        write_held(sink, holding, tile, place)?;
    }
    Ok(())
}

/// Writes the entry of the slice of a tile at a place.
fn write_held<R: Framed, S: Sink>(
    sink: &mut S,
    holding: &Holding<R>,
    tile: usize,
    place: usize,
) -> Result<(), WriteFailed>
    requires tile { tile < reel_tiles holding.now.reel }
    requires number { tile < 2 ^ 16 }
    requires held { place < set.size (tile_slices holding.now.slices tile) }
    requires stated { IsStated Version.Second holding.now }
    requires fits { AreWithinLimit (tile_slices holding.now.slices tile) }
    ensures { (d : FileEntry) → WritesAll result (S.log sink.old) (S.log sink.new)
        (entry_text Version.Second (slice_index_or (tile_file_entries holding.now tile) place d)) }
{
    let origins = holding.origins_at(tile, place);
    write_slice(sink, tile as u16, holding.slice(tile, place))?;
    write_origins(sink, origins, &[])
}

/// Writes an entry's slice.
pub(crate) fn write_slice<S: Sink>(sink: &mut S, tile: u16, slice: &[u8]) -> Result<(), WriteFailed>
    requires { length slice.now ≤ slice_limit }
    ensures { WritesAll result (S.log sink.old) (S.log sink.new) (1 ∷ slice_text (tile, slice.now)) }
{
    let head = entry_head(tile, slice.len() as u32);
    write_pair(sink, &head, slice)
}

/// Writes the count of the union of two lists of digests, and then its digests.
pub(crate) fn write_origins<S: Sink>(
    sink: &mut S,
    digests: &[[u8; 32]],
    others: &[[u8; 32]],
) -> Result<(), WriteFailed>
    requires digests { AreDigests digests.now }
    requires others { AreDigests others.now }
    requires few { length digests.now + length others.now ≤ 2 ^ 31 }
    ensures { WritesAll result (S.log sink.old) (S.log sink.new) (origins_text (digests_union digests.now others.now)) }
{
    let count = union_count(digests, others);
    write_field(sink, &count.to_be_bytes())?;
    write_union(sink, digests, others)
}

/// What stands before an entry's bytes.
#[tactic(auto, unfolding(crate::specs::HoldingText::be2, crate::specs::HoldingText::be4))]
fn entry_head(tile: u16, length: u32) -> [u8; 7]
    ensures { result ≡ (1 ∷ be2 tile) ++ be4 length }
{
    let tile = tile.to_be_bytes();
    let length = length.to_be_bytes();
    [
        1, tile[0], tile[1], length[0], length[1], length[2], length[3],
    ]
}

/// What stands before the record.
#[tactic(auto, unfolding(crate::specs::HoldingText::be4))]
fn reel_head(magic: &[u8; 8], width: u32, height: u32, length: u32) -> [u8; 20]
    ensures { result ≡ magic.now ++ (be4 width ++ be4 height ++ be4 length) }
{
    let [m0, m1, m2, m3, m4, m5, m6, m7] = *magic;
    let w = width.to_be_bytes();
    let h = height.to_be_bytes();
    let n = length.to_be_bytes();
    [
        m0, m1, m2, m3, m4, m5, m6, m7, w[0], w[1], w[2], w[3], h[0], h[1], h[2], h[3], n[0], n[1],
        n[2], n[3],
    ]
}

/// Whether record and text are within their limits.
fn fits_in_file<R: Framed>(holding: &Holding<R>) -> bool
    ensures well_formed { IsHolding holding.now }
    ensures fits { IsTrue result ↔ ((length holding.now.reel.config ≤ record_limit) × (length (holding_text holding.now) ≤ file_limit)) }
{
    let config = holding.reel().config();
    if config.len() > RECORD_LIMIT as usize {
        return false;
    }
    let head = 20 + config.len() as u32;
    match room_after(holding, FILE_LIMIT - head - 1) {
        Some(_) => true,
        None => false,
    }
}

/// What is left of the room after the entries of all tiles, or `None` where they pass it.
fn room_after<R: Framed>(holding: &Holding<R>, room: u32) -> Option<u32>
    requires well_formed { IsHolding holding.now }
    requires entries { AreWritable holding.now }
    requires room { room ≤ file_limit }
    ensures some { IfSome result (λ left. left + length (entries_text Version.Second (file_entries holding.now)) ≡ room) }
    ensures none { IfNone result (room < length (entries_text Version.Second (file_entries holding.now))) }
{
    let mut left = room;
    for tile in 0..holding.reel().tiles() {
        left = room_after_tile(holding, tile, left)?;
    }
    Some(left)
}

/// What is left of the room after the entries of one tile, or `None` where they pass it.
fn room_after_tile<R: Framed>(holding: &Holding<R>, tile: usize, room: u32) -> Option<u32>
    requires tile { tile < reel_tiles holding.now.reel }
    requires fits { AreWithinLimit (tile_slices holding.now.slices tile) }
    requires room { room ≤ file_limit }
    ensures some { IfSome result (λ left. left + entries_length (tile_file_entries holding.now tile) ≡ room) }
    ensures none { IfNone result (room < entries_length (tile_file_entries holding.now tile)) }
{
    let mut left = room;
    for place in 0..holding.held(tile) {
        let slice = holding.slice(tile, place);
        let origins = holding.origins_at(tile, place);
        left = room_after_entry(left, slice.len(), origins.len())?;
    }
    Some(left)
}

/// What is left of the room after an entry of a slice and a count of digests, or `None` where it passes it.
pub(crate) fn room_after_entry(room: u32, slice: usize, digests: usize) -> Option<u32>
    requires slice { slice ≤ slice_limit }
    requires room { room ≤ file_limit }
    ensures some { IfSome result (λ left. left + (11 + slice + 32 * digests) ≡ room) }
    ensures few { IfSome result (λ left. digests ≤ origins_limit) }
    ensures none { IfNone result (room < 11 + slice + 32 * digests) }
{
    if digests > ORIGINS_LIMIT as usize {
        return None;
    }
    room.checked_sub(11 + slice as u32 + 32 * digests as u32)
}
