//! A whole run of samples that are what is predicted of them (RFC 9043, section 3.8.2.2.1).
ghost use Rattle.std.specs.Prelude.{◌≡◌, ◌≤◌, IfOk, IfErr};
ghost use Rattle.ffv1_bits.specs.Limits.{greatest_side};
ghost use Rattle.ffv1_rice.specs.declared.code.CodeFault.TheVariants as CodeFault;
ghost use Rattle.ffv1_plane.specs.Inner.Progress.{IsRunRead};
ghost use Rattle.ffv1_plane.specs.Inner.Halts.{IsRunCut};

use ffv1_bits::Bits;
use ffv1_rice::{CodeFault, RunIndex, RunWord};

/// A run that can't be read to its end.
#[derive(Drop)]
pub(crate) struct CutRun {
    pub(crate) fault: CodeFault,
    /// How many of its samples were read before the word that can't be.
    pub(crate) skipped: u32,
}

/// How many samples the next run skips, in a line with `left` samples to come.
#[tactic(auto, using(crate::proofs::Runs::run_steps))]
pub(crate) fn read_run(index: &mut RunIndex, bits: &mut Bits, left: u32) -> Result<u32, CutRun>
    requires some_left { 1 ≤ left }
    requires few_left { left ≤ greatest_side }
    ensures ok { IfOk result (λ n. IsRunRead left index.old bits.old.left n index.new bits.new.left) }
    ensures truncated { IfErr result (λ cut. cut.fault ≡ CodeFault.Truncated) }
    ensures err { IfErr result (λ cut. IsRunCut left index.old bits.old.left cut.skipped) }
{
    let mut skipped = 0;
    while skipped < left {
        match index.read(bits, left - skipped) {
            Ok(RunWord::Full(n)) => skipped += n,
            Ok(RunWord::Rest(n)) => return Ok(skipped + n),
            Ok(RunWord::ToEnd) => return Ok(left),
            Err(fault) => return Err(CutRun { fault, skipped }),
        }
    }
    Ok(skipped)
}
