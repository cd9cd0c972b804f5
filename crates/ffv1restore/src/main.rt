//! Restores FFV1 frames from several damaged copies: runs the program on the words that it is given and on the files of the machine.
#![tactic(auto)]

ghost use Rattle.std.specs.Prelude.{IfErr};
ghost use Rattle.ffv1_commands.specs.Fault.{NamesNoPath};

pub use ffv1_commands::{
    CliFault, any_order_makes_one_file, commands_restore_by_a_function,
    commands_restore_the_original, mend_claims_what_is_vouched, mend_gives_the_original,
    mend_makes_what_is_listed, same_copies_make_one_file, same_copies_make_one_splice,
    splice_gives_the_original, splice_reports_whole_frames, splice_weaves_the_original,
};
use ffv1_devices::ThroughWrite;
pub use ffv1_holding::copies_restore_the_original;
use ffv1_program::{Disk, report_early};
pub use ffv1_program::{run, run_program};
use std::fs::File;
use std::process::ExitCode;
use std::{env, io};

/// The words that the program was given, the first of which is its own name.
fn given_words(rt: &HostRuntime) -> Result<Vec<String>, CliFault>
    ensures { IfErr result NamesNoPath }
{
    match env::args(rt) {
        Ok(words) => Ok(words.collect::<Vec<String>>(rt.alloc())?),
        Err(error) if error.kind() == io::ErrorKind::OutOfMemory => Err(CliFault::Memory),
        Err(_) => Err(CliFault::Words),
    }
}

/// Holds the three lowest numbers of files that are free, by the root folder, to which nothing can be written. Where
/// the program was started without a standard stream, the file that is made could else come to stand for it, and what
/// is printed be written into that file.
fn hold_streams(rt: &HostRuntime) -> [Option<File>; 3] {
    [
        File::open(rt, "/").ok(),
        File::open(rt, "/").ok(),
        File::open(rt, "/").ok(),
    ]
}

fn main(rt: HostRuntime) -> ExitCode {
    let _held = hold_streams(&rt);
    let (disk, mut stdout, mut stderr) = (Disk::new(&rt), io::writer(&rt), rt.stderr());
    let mut output = ThroughWrite::new(&mut stdout);
    let mut errors = ThroughWrite::new(&mut stderr);
    ExitCode::from(match given_words(&rt) {
        Ok(mut given) => run_program(rt.alloc(), &disk, &mut given, &mut output, &mut errors),
        Err(fault) => report_early(rt.alloc(), &fault, &mut errors),
    })
}
