//! What no element covers: it is searched for the next known ID in pieces, and let go.
ghost use Rattle.std.specs.Prelude.{◌<◌, length};
ghost use Rattle.ebml_reader.specs.Intake.{Has, IsBounded, Whatever};
ghost use Rattle.ebml_reader.specs.Inner.Settled.{BeginsNoTop, PassesUnknown};

use crate::fault::ReaderFault;
use crate::intake::Intake;
use ebml::next_known;
use ffv1_devices::Source;

/// So many bytes stand at a place where a known ID is looked for.
const ID_LENGTH: usize = 4;

/// So many are read before the next search: those that stay, and one more.
const SEARCH_LENGTH: u64 = 5;

/// Passes an unknown item, and says how many bytes it has.
pub(crate) fn pass_unknown<S: Source>(
    intake: &mut Intake,
    source: &mut S,
) -> Result<u64, ReaderFault>
    requires some { 0 < length intake.old.bytes }
    requires seen { Has 5 intake.old }
    requires bounded { IsBounded intake.old }
    requires none { Whatever intake.old BeginsNoTop }
    ensures { PassesUnknown result intake.old intake.new (S.log source.old) (S.log source.new) }
{
    let mut passed: u64 = 0;
    loop {
        let bytes = intake.bytes();
        let length = next_known(bytes);
        if length < bytes.len() || intake.is_ended() {
            intake.pass(length);
            return Ok(passed + length as u64);
        }
        let searched = length - ID_LENGTH;
        intake.pass(searched);
        passed += searched as u64;
        intake.fill(source, SEARCH_LENGTH)?;
    }
}
