//! The whole way from copies to a restored frame (own).
ghost use Rattle.std.specs.Prelude.{◌≡◌, ℕ, List, Option, IfOk, OnOk, IfErr, IsOkAnd, string_bytes};
ghost use Rattle.ffv1_holding.specs.Contents.{Contents, HasSameCopies};
ghost use Rattle.ffv1_holding.specs.Originals.{AreNear};
ghost use Rattle.ffv1_hold.specs.Plans.{copies_of, RereadsFit};
ghost use Rattle.ffv1_holding.specs.TakeFaults.{AreShort};
ghost use Rattle.ffv1_hold.specs.declared.plan.Plan.{Plan};
ghost use Rattle.ffv1_holding.specs.ReportText.{report_text};
ghost use Rattle.ffv1_picture.specs.PartialPictures.{ArePicturesOf, IsPartialPicture};
ghost use Rattle.ffv1_picture.specs.Frames.{IsFrameOf};
ghost use Rattle.ffv1_picture.specs.WholePicture.{Planes};
ghost use Rattle.ffv1_hold.specs.Restorations.{IsHoldingOfPlan, AreEqualInAll, IsRestored, IsPlanFor, ShowsSlices, IsRestorationFault};

use crate::plan::{Plan, PlanFault, run};
use ffv1_holding::{Holding, RestoreFault, report};
use ffv1_picture::{Partial, picture};
use std::alloc::{AllocError, Global};

/// What copies of a frame came to.
#[derive(Drop)]
pub struct Restoration {
    /// The slices that were found in them.
    pub holding: Holding,
    /// The frame's payload, or the first tile that is not settled: `Missing` or `Disputed`, and never `Memory`.
    pub payload: Result<Vec<u8>, RestoreFault>,
    /// The damage report.
    pub report: String,
    /// What can be shown.
    pub picture: Partial,
}

/// Why nothing came of copies.
#[derive(Clone, Copy, Debug, PartialEq, Eq)]
pub enum RestorationFault {
    /// The plan was not carried out.
    Plan(PlanFault),
    /// An allocation of memory failed.
    Memory,
}

impl From<PlanFault> for RestorationFault {
    ghost use Rattle.std.specs.Prelude.{◌≡◌};
    ghost use Rattle.ffv1_hold.specs.declared.restoring.RestorationFault.TheVariants as faults;

    ghost from_gives = { λ f e. e ≡ faults.Plan f };

    fn from(fault: PlanFault) -> RestorationFault {
        RestorationFault::Plan(fault)
    }
}

impl From<AllocError> for RestorationFault {
    ghost use Rattle.std.specs.Prelude.{◌≡◌};
    ghost use Rattle.ffv1_hold.specs.declared.restoring.RestorationFault.TheVariants.{Memory};

    ghost from_gives = { λ _ e. e ≡ Memory };

    fn from(_refusal: AllocError) -> RestorationFault {
        RestorationFault::Memory
    }
}

/// Carries a plan out, for a configuration record and the size of its frames in samples, and returns the restored payload, the report and
/// the picture of what is held then.
///
/// However the same copies are ordered, grouped or repeated, the holdings are equal in every tile, origin, file byte and
/// report line. If every slice found in them is the original's for its tile, and each tile's is found in some
/// copy, the restored payload is the original byte for byte, and each sample is the one that the greatest decoded
/// tile covering it spells.
///
/// Returns `Plan` with a refusal of one of the plan's steps, `Memory` if an allocation fails after them.
pub fn restored(
    alloc: Global,
    plan: &Plan<'_>,
    config: &[u8],
    width: u32,
    height: u32,
) -> Result<Restoration, RestorationFault>
    // What is held is what is found in the plan's copies; payload, report and picture are those of what is held.
    ensures holding { IfOk result (λ r. IsHoldingOfPlan config.now width height plan.now r.holding) }
    ensures payload { IfOk result (λ r. IsRestored r.holding r.payload) }
    ensures report { IfOk result (λ r. string_bytes r.report ≡ report_text r.holding) }
    ensures picture { IfOk result (λ r. IsPartialPicture r.holding r.picture) }
    ensures whole { (pictures : List (Option Planes)) → IfOk result (λ r. ArePicturesOf r.holding pictures
        → IsFrameOf r.holding.reel.setup pictures r.picture.frame) }

    // However the same copies are ordered, grouped or repeated, the holdings are equal in every tile, origin, file byte and
    // report line.
    ensures same_copies { (other : Plan) (h : Contents) → IsHoldingOfPlan config.now width height other h
        → HasSameCopies (copies_of plan.now) (copies_of other) → IfOk result (λ r. AreEqualInAll r.holding h) }

    // Where every slice found in them is the original's for its tile, and each tile's is found in some copy, the restored payload
    // is the original byte for byte ..
    ensures original { (original : List ℕ) (slices : List (List ℕ)) → IfOk result (λ r. IsPlanFor r.holding.reel.rules plan.now original slices
        → IsOkAnd r.payload (λ payload. payload.items ≡ original)) }

    // .. and each sample is the one that the greatest decoded tile covering it spells.
    ensures samples { (original : List ℕ) (slices : List (List ℕ)) → IfOk result (λ r. IsPlanFor r.holding.reel.rules plan.now original slices
        → ShowsSlices r.holding.reel.setup slices r.picture.frame) }

    // So they are where all copies differ from the original only within 32 bits of each slice, its size field undamaged, and each of
    // its slices is intact in one of them.
    ensures near { (original : List ℕ) (slices : List (List ℕ)) → IfOk result (λ r. AreNear r.holding.reel.rules original slices (copies_of plan.now)
        → IsOkAnd r.payload (λ payload. payload.items ≡ original)) }
    ensures near_samples { (original : List ℕ) (slices : List (List ℕ))
        → IfOk result (λ r. AreNear r.holding.reel.rules original slices (copies_of plan.now) → ShowsSlices r.holding.reel.setup slices r.picture.frame) }

    // The plan was carried out: its copies are short enough, and what goes through a file has one.
    ensures short { OnOk result (AreShort (copies_of plan.now)) }
    ensures fits { IfOk result (λ r. RereadsFit r.holding.reel plan.now) }

    ensures fault { IfErr result (IsRestorationFault config.now width height plan.now) }
{
    let holding = run(alloc, plan, config, width, height)?;
    let payload = holding.restore();
    if let Err(RestoreFault::Memory) = payload {
        return Err(RestorationFault::Memory);
    }
    let report = report(alloc, &holding)?;
    let picture = picture(alloc, &holding)?;
    Ok(Restoration {
        holding,
        payload,
        report,
        picture,
    })
}
