//! What stands before the entries of a holding file (own): its magic, the size and the configuration record (RFC
//! 9043, section 4.3).
ghost use Rattle.std.specs.Prelude.{◌≡◌, ◌≤◌, ◌⊎◌, length, IfOk, IfErr};
ghost use Rattle.ffv1_bits.specs.Limits.{file_limit, record_limit};
ghost use Rattle.ffv1_hold.specs.Inner.Reading.{ReadsText, Never};
ghost use Rattle.ffv1_hold.specs.Inner.FileFaults.{IsReelAfter};
ghost use Rattle.ffv1_hold.specs.HoldingText.{magic, sized_record};
ghost use Rattle.ffv1_hold.specs.FileFaults.{IsMagic, IsPartOfMagic, MagicShows, IsPartOfReel, ReelIsWhole, ReelShows, recordings_of};

use crate::fields::read_field;
use crate::file_fault::HoldFileFault;
use crate::magic::{Magic, begins_magic, magic_of};
use crate::number::{read_bytes, read_u32};
use ffv1_bits::RECORD_LIMIT;
use ffv1_devices::Source;
use ffv1_holding::{Recordings, Reel};
use ffv1_range::{Recording, SetupFault};
use std::alloc::Global;

/// Reads the magic, byte by byte: a wrong byte is reported whatever the device would do after it.
pub(crate) fn read_magic<S: Source>(
    recordings: Recordings,
    source: &mut S,
    place: &mut u32,
) -> Result<Magic, HoldFileFault>
    requires { place.old ≡ 0 }
    ensures read { ReadsText (λ m. magic m.of_profile m.version) (IsPartOfMagic recordings) Never (MagicShows recordings)
        (S.log source.old) (S.log source.new) place.old place.new result }
    ensures is_magic { IfOk result (λ m. IsMagic recordings m.of_profile m.version) }
{
    let mut magic = [0u8; 8];
    let mut byte = [0u8; 1];
    for at in 0..8 {
        read_field(source, place, &mut byte)?;
        magic[at] = byte[0];
        if !begins_magic(recordings, &magic[..at + 1]) {
            return Err(HoldFileFault::Magic);
        }
    }
    Ok(magic_of(recordings, &magic))
}

/// Reads the size and the record after a magic, and judges them.
pub(crate) fn read_reel<S: Source>(
    alloc: Global,
    source: &mut S,
    place: &mut u32,
    of_profile: bool,
) -> Result<Reel<Recording>, HoldFileFault>
    requires { place.old ≤ file_limit }
    ensures read { ReadsText (λ r. sized_record r.config r.setup.width r.setup.height) IsPartOfReel (ReelIsWhole of_profile) (ReelShows of_profile)
        (S.log source.old) (S.log source.new) place.old place.new result }
    ensures reel { IfOk result (IsReelAfter of_profile) }
{
    let width = read_u32(source, place)?;
    let height = read_u32(source, place)?;
    let length = read_u32(source, place)?;
    if length > RECORD_LIMIT {
        return Err(HoldFileFault::TooLong);
    }
    let config = read_bytes(alloc, source, place, length)?;
    judge_reel(alloc, of_profile, config, width, height)
}

/// The reel of a record that was read whole after a magic, and of a size that was: of any frames after that of others than the profile.
fn judge_reel(
    alloc: Global,
    of_profile: bool,
    config: Vec<u8>,
    width: u32,
    height: u32,
) -> Result<Reel<Recording>, HoldFileFault>
    requires { length config.items ≤ record_limit }
    ensures text { IfOk result (λ r. sized_record config.items width height ≡ sized_record r.config r.setup.width r.setup.height) }
    ensures reel { IfOk result (IsReelAfter of_profile) }
    ensures fault { IfErr result (λ f. ReelIsWhole of_profile f (sized_record config.items width height) ⊎ ReelShows of_profile f (sized_record config.items width height)) }
{
    let recordings = recordings_of(of_profile);
    match Reel::of_record(alloc, recordings, config, width, height) {
        Ok(reel) if of_profile => Ok(reel),
        Ok(reel) => Ok(reel.into_any_frames()),
        Err(SetupFault::Memory) => Err(HoldFileFault::Memory),
        Err(fault) => Err(HoldFileFault::Setup(fault)),
    }
}

/// As which recordings the record after a magic is read.
fn recordings_of(of_profile: bool) -> Recordings
    ensures { result ≡ recordings_of of_profile }
{
    if of_profile {
        Recordings::Profile
    } else {
        Recordings::Any
    }
}
