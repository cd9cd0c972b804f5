//! The command `merge`: makes the holding file of the union of two holding files, which are read as streams (own).
ghost use Rattle.std.specs.Prelude.{◌≡◌, ◌⊎◌, IfErr, IsErrOf, OnOk};
ghost use Rattle.ffv1_bits.specs.Limits.{file_limit};
ghost use Rattle.ffv1_devices.specs.Touching.{WritesIfTouched};
ghost use Rattle.ffv1_holding.specs.Reels.{Reel};
ghost use Rattle.ffv1_holding.specs.Contents.{Contents};
ghost use Rattle.ffv1_hold.specs.UnitedHoldings.{AreOfOneRecord, united};
ghost use Rattle.ffv1_hold.specs.declared.version.Version.{Version};
ghost use Rattle.ffv1_hold.specs.FileFaults.{MayTake};
ghost use Rattle.ffv1_hold.specs.MergedStreams.{IsFileOf, BeginsWithHead, WritesAtMost};
ghost use Rattle.ffv1_commands.specs.Devices.{IsWrittenIfTouched};
ghost use Rattle.ffv1_commands.specs.Fault.{NamesPath};
ghost use Rattle.ffv1_commands.specs.Paths.{IsMergePath};
ghost use Rattle.ffv1_commands.specs.MergeText.{MergesFiles, IsMergeFault, MergeLeaves, ReturnsFiles, ReturnsOtherHeads, ReportsMerge};

use crate::fault::{CliFault, of_merge};
use crate::path::CommandPath;
use ffv1_devices::{FromRead, Sink, Source, ThroughWrite};
use ffv1_hold::{HoldFileFault, Recordings, join_streams_of};
use std::alloc::Global;
use std::io::{Read, Write};

/// Joins two holding files of these recordings as streams, and writes the file of their union to `out`. At most one entry of each input is
/// held, however long the files are: the next one is read over it. Nothing is printed.
///
/// The file is the one that `join` writes of both. Returns `Read` of the inputs if one of them fails; `HoldFile`
/// with the first fault of one of them, with `OtherReel` if their heads are of another record, width or height,
/// before `out` is touched, or with `TooLong` if the file would pass its limit; `Memory` if an allocation
/// fails; `Write` if `out` fails. After `Write` a front of the file was written; after another fault nothing, or
/// its head and whole entries: no end tag, so that what is there is no holding file. Before its first byte `out` is not touched.
pub fn run_merge<R: Read, Q: Read, O: Write>(
    alloc: Global,
    recordings: Recordings,
    left: &mut R,
    right: &mut Q,
    out: &mut O,
) -> Result<(), CliFault>
    ensures ok { OnOk result (MergesFiles recordings (R.remaining left.old) (Q.remaining right.old) (O.contents out.old) (O.contents out.new)) }
    ensures err { IfErr result (IsMergeFault recordings (R.remaining left.old) (Q.remaining right.old)) }
    ensures leaves { IfErr result (MergeLeaves (R.remaining left.old) (Q.remaining right.old) (O.contents out.old) (O.contents out.new)) }
    ensures most { WritesAtMost (O.contents out.old) (O.contents out.new) file_limit }

    ensures only { (v w : Version) (g h : Contents) → AreOfOneRecord g.reel h.reel → MayTake recordings g.reel → MayTake recordings h.reel
        → IsFileOf (R.remaining left.old) v g → IsFileOf (Q.remaining right.old) w h → ReturnsFiles (united g h) result }
    ensures other { (g h : Reel) → BeginsWithHead recordings (R.remaining left.old) g → BeginsWithHead recordings (Q.remaining right.old) h → ¬ AreOfOneRecord g h
        → ReturnsOtherHeads result }
    ensures untouched { IsErrOf result (CliFault.HoldFile HoldFileFault.OtherReel) → out.new ≡ out.old }
    ensures out_untouched { IfErr result (IsWrittenIfTouched CommandPath.Out (out.new ≡ out.old) (O.contents out.old) (O.contents out.new)) }
    ensures names { IfErr result (NamesPath IsMergePath) }
{
    merge_of(
        alloc,
        recordings,
        &mut FromRead::new(left),
        &mut FromRead::new(right),
        &mut ThroughWrite::new(out),
    )
}

/// The command over sources and a sink, whose logs say how it went: at `Read` one of the sources was given up, and at `Write` the
/// sink was; no other failures came but interruptions.
pub fn merge_of<R: Source, Q: Source, O: Sink>(
    alloc: Global,
    recordings: Recordings,
    left: &mut R,
    right: &mut Q,
    out: &mut O,
) -> Result<(), CliFault>
    ensures reported { ReportsMerge recordings result (record { left = R.log left.old; right = Q.log right.old; sink = O.log out.old })
        (record { left = R.log left.new; right = Q.log right.new; sink = O.log out.new }) }
    ensures most { WritesAtMost (O.log out.old).contents (O.log out.new).contents file_limit }

    ensures only { (v w : Version) (g h : Contents) → AreOfOneRecord g.reel h.reel → MayTake recordings g.reel → MayTake recordings h.reel
        → IsFileOf (R.log left.old).remaining v g → IsFileOf (Q.log right.old).remaining w h → ReturnsFiles (united g h) result }
    ensures other { (g h : Reel) → BeginsWithHead recordings (R.log left.old).remaining g → BeginsWithHead recordings (Q.log right.old).remaining h → ¬ AreOfOneRecord g h
        → ReturnsOtherHeads result }
    ensures untouched { IsErrOf result (CliFault.HoldFile HoldFileFault.OtherReel) → out.new ≡ out.old }
    ensures out_untouched { IfErr result (λ fault. (fault ≡ CliFault.Write CommandPath.Out) ⊎ WritesIfTouched O.log out.old out.new) }
{
    match join_streams_of(alloc, recordings, left, right, out) {
        Ok(()) => Ok(()),
        Err(fault) => Err(of_merge(fault)),
    }
}
