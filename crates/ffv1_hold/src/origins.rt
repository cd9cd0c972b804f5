//! The digests after a slice of a holding file (own): their count, and then each, in rising order.
ghost use Rattle.std.specs.Prelude.{◌≤◌, ◌↔◌, IsTrue, OnOk, IfOk, IfErr, length};
ghost use Rattle.ffv1_bits.specs.Limits.{file_limit};
ghost use Rattle.ffv1_hold.specs.Inner.Reading.{ReadsText, IsShorter, Never};
ghost use Rattle.ffv1_hold.specs.Reading.{StopsAt};
ghost use Rattle.ffv1_hold.specs.HoldingText.{origins_limit, origins_text, text_after_slice};
ghost use Rattle.ffv1_hold.specs.FileEntries.{last_of, FollowsDigest, AreOrigins, AreDigestsIn};
ghost use Rattle.ffv1_hold.specs.Inner.ReadOrigins.{DigestShows, TakesDigest};
ghost use Rattle.ffv1_hold.specs.FileFaults.{IsPartOfOrigins, OriginsShow, IsPartAfter, ShowsAfter};

use crate::fields::read_field;
use crate::file_fault::HoldFileFault;
use crate::number::read_u32;
use crate::version::Version;
use ffv1_devices::Source;
use std::alloc::Global;
use std::cmp::Ordering;

/// The greatest count of one slice's digests: 2^26.
pub(crate) const ORIGINS_LIMIT: u32 = 1 << 26;

/// Reads what stands after a slice: nothing in the first version, its digests in the second.
pub(crate) fn read_after_slice<S: Source>(
    alloc: Global,
    source: &mut S,
    place: &mut u32,
    version: Version,
) -> Result<Vec<[u8; 32]>, HoldFileFault>
    requires { place.old ≤ file_limit }
    ensures read { ReadsText (λ v. text_after_slice version v.items) (IsPartAfter version) Never (ShowsAfter version)
        (S.log source.old) (S.log source.new) place.old place.new result }
    ensures digests { IfOk result (λ v. AreDigestsIn version v.items) }
{
    match version {
        Version::First => Ok(Vec::new(alloc)),
        Version::Second => read_origins(alloc, source, place),
    }
}

/// Reads a count and that many digests. Memory grows with the digests that are read: a count alone asks for none.
fn read_origins<S: Source>(
    alloc: Global,
    source: &mut S,
    place: &mut u32,
) -> Result<Vec<[u8; 32]>, HoldFileFault>
    requires { place.old ≤ file_limit }
    ensures read { ReadsText (λ v. origins_text v.items) IsPartOfOrigins Never OriginsShow
        (S.log source.old) (S.log source.new) place.old place.new result }
    ensures digests { IfOk result (λ v. AreOrigins v.items) }
    ensures few { IfOk result (λ v. length v.items ≤ origins_limit) }
{
    let count = read_u32(source, place)?;
    if count > ORIGINS_LIMIT {
        return Err(HoldFileFault::TooLong);
    }
    let mut origins = Vec::new(alloc);
    for _index in 0..count {
        read_digest(source, place, &mut origins)?;
    }
    Ok(origins)
}

/// Reads a digest that stands after the last one, and puts it after the others.
fn read_digest<S: Source>(
    source: &mut S,
    place: &mut u32,
    origins: &mut Vec<[u8; 32]>,
) -> Result<(), HoldFileFault>
    requires { place.old ≤ file_limit }
    ensures ok { OnOk result (TakesDigest (S.log source.old) (S.log source.new) place.old place.new origins.old.items origins.new.items) }
    ensures err { IfErr result (StopsAt (IsShorter 32) Never (DigestShows (last_of origins.old.items))
        (S.log source.old) (S.log source.new) place.old) }
{
    origins.reserve(1)?;
    let mut digest = [0u8; 32];
    read_field(source, place, &mut digest)?;
    if !follows(origins, &digest) {
        return Err(HoldFileFault::Order);
    }
    origins.push_reserved(digest);
    Ok(())
}

/// Whether a digest stands after the last one, if there is one.
fn follows(origins: &[[u8; 32]], digest: &[u8; 32]) -> bool
    ensures { IsTrue result ↔ FollowsDigest (last_of origins.now) digest.now }
{
    match origins.last() {
        Some(last) => last.cmp(digest) == Ordering::Less,
        None => true,
    }
}
