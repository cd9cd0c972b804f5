//! Bytes that are passed in pieces, of which one is held at a time.
ghost use Rattle.ebml_reader.specs.Pieces.{PassesBytes, PassesSummed, TakesBytes};
ghost use Rattle.ebml_reader.specs.Inner.Piece.{FindsPiece};

use crate::fault::ReaderFault;
use crate::intake::Intake;
use crate::running_crc::RunningCrc32;
use ffv1_devices::Source;
use std::alloc::Global;

/// How many bytes the next piece has, which is held then: at most so many. None if these are 0, or the source has ended.
fn next_piece<S: Source>(
    most: u64,
    intake: &mut Intake,
    source: &mut S,
) -> Result<usize, ReaderFault>
    ensures { FindsPiece most result intake.old intake.new (S.log source.old) (S.log source.new) }
{
    intake.fill(source, most.min(1))?;
    let there = intake.bytes().len() as u64;
    Ok(most.min(there) as usize)
}

/// Passes so many bytes, or all that are left of the file, and says how many these are.
///
/// Returns `Read` if the source failed, or gave 2^62 bytes, and `Memory` if an allocation fails.
pub fn pass_bytes<S: Source>(
    count: u64,
    intake: &mut Intake,
    source: &mut S,
) -> Result<u64, ReaderFault>
    ensures { PassesBytes count result intake.old intake.new (S.log source.old) (S.log source.new) }
{
    let mut left = count;
    loop {
        let piece = next_piece(left, intake, source)?;
        if piece == 0 {
            return Ok(count - left);
        }
        intake.pass(piece);
        left -= piece as u64;
    }
}

/// The same of bytes of a content, whose CRC-32 goes over them.
///
/// Returns `Read` if the source failed, or gave 2^62 bytes, and `Memory` if an allocation fails.
pub fn pass_summed<S: Source>(
    count: u64,
    crc: &mut RunningCrc32,
    intake: &mut Intake,
    source: &mut S,
) -> Result<u64, ReaderFault>
    ensures { PassesSummed count result crc.old crc.new intake.old intake.new (S.log source.old) (S.log source.new) }
{
    let mut left = count;
    loop {
        let piece = next_piece(left, intake, source)?;
        if piece == 0 {
            return Ok(count - left);
        }
        crc.push(&intake.bytes()[..piece]);
        intake.pass(piece);
        left -= piece as u64;
    }
}

/// Takes so many bytes, or all that are left of the file. They are held as they come, never by what the count says.
///
/// Returns `Read` if the source failed, or gave 2^62 bytes, and `Memory` if an allocation fails.
pub fn take_bytes<S: Source>(
    alloc: Global,
    count: u64,
    intake: &mut Intake,
    source: &mut S,
) -> Result<Vec<u8>, ReaderFault>
    ensures { TakesBytes count result intake.old intake.new (S.log source.old) (S.log source.new) }
{
    let mut taken = Vec::new(alloc);
    let mut left = count;
    loop {
        let piece = next_piece(left, intake, source)?;
        if piece == 0 {
            return Ok(taken);
        }
        taken.extend_from_slice(&intake.bytes()[..piece])?;
        intake.pass(piece);
        left -= piece as u64;
    }
}
