//! The whole way from copies of a frame of any recording to the restored frame (own).
ghost use Rattle.std.specs.Prelude.{◌≡◌, ℕ, List, Option, Bool, IfOk, OnOk, IfErr, IsOkAnd, string_bytes};
ghost use Rattle.ffv1_range.specs.Setup.{RecordingValue};
ghost use Rattle.ffv1_holding.specs.Contents.{Contents, HasSameCopies};
ghost use Rattle.ffv1_holding.specs.Originals.{AreNear};
ghost use Rattle.ffv1_holding.specs.TakeFaults.{AreShort};
ghost use Rattle.ffv1_hold.specs.Plans.{copies_of, RereadsFit};
ghost use Rattle.ffv1_hold.specs.declared.plan.Plan.{Plan};
ghost use Rattle.ffv1_hold.specs.Restorations.{AreEqualInAll, IsRestored, IsPlanFor};
ghost use Rattle.ffv1_holding.specs.ReportText.{report_text};
ghost use Rattle.ffv1_samples.specs.Slices.{SlicePictureValue};
ghost use Rattle.ffv1_player.specs.Frames.{IsFrameOfSlices};
ghost use Rattle.ffv1_player.specs.Shown.{ShowsHolding, AreShownPictures, present};
ghost use Rattle.ffv1_player.specs.Restored.{IsHoldingFor, IsAnyRestorationFault};

use crate::shown::{Shown, show_holding};
use ffv1_hold::{Plan, RestorationFault, carry_out};
use ffv1_holding::{Holding, Recordings, RestoreFault, report};
use ffv1_range::Recording;
use std::alloc::Global;

/// What copies of a frame of any recording came to.
#[derive(Drop)]
pub struct AnyRestoration {
    /// The slices that were found in them.
    pub holding: Holding<Recording>,
    /// The frame's payload, or the first tile that is not settled: `Missing` or `Disputed`, and never `Memory`.
    pub payload: Result<Vec<u8>, RestoreFault>,
    /// The damage report.
    pub report: String,
    /// What can be shown.
    pub shown: Shown,
}

/// Carries a plan out, for a configuration record, which is one of these recordings, and the size of its frames in samples, and returns the
/// restored payload, the report and what can be shown of what is held then. Of recordings of the profile it is as `restored` of `ffv1_hold`.
///
/// Returns `Plan` with a refusal of one of the plan's steps, `Memory` if an allocation fails after them.
pub fn any_restored(
    alloc: Global,
    recordings: Recordings,
    plan: &Plan<'_>,
    config: &[u8],
    width: u32,
    height: u32,
) -> Result<AnyRestoration, RestorationFault>
    // What is held is what is found in the plan's copies; payload, report and what is shown are those of what is held.
    ensures holding { IfOk result (λ r. IsHoldingFor recordings config.now width height plan.now r.holding) }
    ensures payload { IfOk result (λ r. IsRestored r.holding r.payload) }
    ensures report { IfOk result (λ r. string_bytes r.report ≡ report_text r.holding) }
    ensures shown { IfOk result (λ r. ShowsHolding r.holding r.shown) }
    ensures whole { (recording : RecordingValue) (key : Bool) (pictures : List (Option SlicePictureValue)) → IfOk result (λ r.
        AreShownPictures r.holding recording key pictures → IsFrameOfSlices recording key (present pictures) r.shown.samples) }

    // However the same copies are ordered, grouped or repeated, the holdings are equal in every tile, origin, file byte and
    // report line.
    ensures same_copies { (other : Plan) (h : Contents) → IsHoldingFor recordings config.now width height other h
        → HasSameCopies (copies_of plan.now) (copies_of other) → IfOk result (λ r. AreEqualInAll r.holding h) }

    // Where every slice found in them is the original's for its tile, and each tile's is found in some copy, the restored payload
    // is the original byte for byte.
    ensures original { (original : List ℕ) (slices : List (List ℕ)) → IfOk result (λ r. IsPlanFor r.holding.reel.rules plan.now original slices
        → IsOkAnd r.payload (λ payload. payload.items ≡ original)) }

    // So it is where all copies differ from the original only within 32 bits of each slice, its size field undamaged, and each of
    // its slices is intact in one of them.
    ensures near { (original : List ℕ) (slices : List (List ℕ)) → IfOk result (λ r. AreNear r.holding.reel.rules original slices (copies_of plan.now)
        → IsOkAnd r.payload (λ payload. payload.items ≡ original)) }

    // The plan was carried out: its copies are short enough, and what goes through a file has one.
    ensures short { OnOk result (AreShort (copies_of plan.now)) }
    ensures fits { IfOk result (λ r. RereadsFit r.holding.reel plan.now) }

    ensures fault { IfErr result (IsAnyRestorationFault recordings config.now width height plan.now) }
{
    let holding = carry_out(alloc, recordings, plan, config, width, height)?;
    let payload = holding.restore();
    if let Err(RestoreFault::Memory) = payload {
        return Err(RestorationFault::Memory);
    }
    let report = report(alloc, &holding)?;
    let shown = show_holding(alloc, &holding)?;
    Ok(AnyRestoration {
        holding,
        payload,
        report,
        shown,
    })
}
