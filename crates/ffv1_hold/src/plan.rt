//! Plans (own): which copies are taken, in which order and grouping, which holdings are joined, and which go through a file.
ghost use Rattle.std.specs.Prelude.{◌≡◌, ℕ, List, [], ◌∷◌, map, IfOk, IfErr, OnOk};
ghost use Rattle.ffv1_range.specs.Setup.{IsSetupOf};
ghost use Rattle.ffv1_holding.specs.TakeFaults.{AreShort};
ghost use Rattle.ffv1_holding.specs.Reels.{IsRecordReel};
ghost use Rattle.ffv1_holding.specs.Contents.{holding_of, with_found, with_copies, joined, IsHolding, IsSameReel};
ghost use Rattle.ffv1_holding.specs.declared.fault.HoldFault.TheVariants.{Memory};
ghost use Rattle.ffv1_hold.specs.declared.plan.PlanFault.TheVariants.{Hold, File};
ghost use Rattle.ffv1_hold.specs.Saving.{IsTooLong};
ghost use Rattle.ffv1_holding.specs.Originals.{AreNear, HoldsExactly};
ghost use Rattle.ffv1_hold.specs.Plans.{copies_of, IsPlanFault, IsFirstPlanFault, IsFaultOfCopy, IsFaultOfCopies, IsRereadFault, RereadsFit};
ghost use Rattle.ffv1_hold.specs.Headline.{IsReelOf, SameCopiesAreEqual};

use crate::file_fault::HoldFileFault;
use crate::reading::read_holding;
use crate::saving::write_hold;
use ffv1_devices::{FromRead, FromWrite};
use ffv1_holding::{HoldFault, Holding, Join, Recordings, TakeAllFault};
use ffv1_range::{Recording, SetupFault};
use std::alloc::Global;

/// How a holding comes to be. Every step is carried out for one record and size.
#[derive(Drop)]
pub enum Plan<'a> {
    /// An empty holding.
    New,
    /// A copy is taken into what a plan gives.
    Take(Box<Plan<'a>>, &'a [u8]),
    /// Many copies are taken, one after the other.
    TakeAll(Box<Plan<'a>>, &'a [&'a [u8]]),
    /// What the second plan gives is joined into what the first gives.
    Join(Box<Plan<'a>>, Box<Plan<'a>>),
    /// What a plan gives is written to a holding file, and read from it again.
    Reread(Box<Plan<'a>>),
}

/// Why a plan could not be carried out.
#[derive(Clone, Copy, Debug, PartialEq, Eq)]
pub enum PlanFault {
    /// The record has no setup for the size, or there was no memory for it.
    Setup(SetupFault),
    /// A copy was not taken, or holdings not joined.
    Hold(HoldFault),
    /// A holding has no file, by `TooLong`, or there was no memory for it, by `Memory`.
    File(HoldFileFault),
}

impl From<SetupFault> for PlanFault {
    ghost use Rattle.std.specs.Prelude.{◌≡◌};
    ghost use Rattle.ffv1_hold.specs.declared.plan.PlanFault.TheVariants.{Setup};

    ghost from_gives = { λ f e. e ≡ Setup f };

    fn from(fault: SetupFault) -> PlanFault {
        PlanFault::Setup(fault)
    }
}

impl From<HoldFault> for PlanFault {
    ghost use Rattle.std.specs.Prelude.{◌≡◌};
    ghost use Rattle.ffv1_hold.specs.declared.plan.PlanFault.TheVariants.{Hold};

    ghost from_gives = { λ f e. e ≡ Hold f };

    fn from(fault: HoldFault) -> PlanFault {
        PlanFault::Hold(fault)
    }
}

impl From<TakeAllFault> for PlanFault {
    ghost use Rattle.std.specs.Prelude.{◌≡◌};
    ghost use Rattle.ffv1_hold.specs.declared.plan.PlanFault.TheVariants.{Hold};

    ghost from_gives = { λ f e. e ≡ Hold f.cause };

    fn from(fault: TakeAllFault) -> PlanFault {
        PlanFault::Hold(fault.cause)
    }
}

impl From<HoldFileFault> for PlanFault {
    ghost use Rattle.std.specs.Prelude.{◌≡◌};
    ghost use Rattle.ffv1_hold.specs.declared.plan.PlanFault.TheVariants.{File};

    ghost from_gives = { λ f e. e ≡ File f };

    fn from(fault: HoldFileFault) -> PlanFault {
        PlanFault::File(fault)
    }
}

/// Carries a plan out for a recording of the profile. It is `carry_out` of such recordings.
///
/// `config` is the configuration record, `width` and `height` the frames' size in samples. Returns `Setup` with the record's first fault,
/// `Hold` if a copy has more than 2^30 bytes, `File` if a holding that is reread has no file; each also
/// because memory ran out.
pub fn run(
    alloc: Global,
    plan: &Plan<'_>,
    config: &[u8],
    width: u32,
    height: u32,
) -> Result<Holding, PlanFault>
    ensures config { IfOk result (λ h. h.reel.config ≡ config.now) }
    ensures setup { IfOk result (λ h. IsSetupOf config.now width height h.reel.setup) }
    ensures meaning { IfOk result (λ h. h ≡ holding_of h.reel (copies_of plan.now)) }
    ensures well_formed { IfOk result IsHolding }
    ensures of_record { IfOk result (λ h. IsRecordReel h.reel) }

    // Where the plan's copies are near an original, with each of its slices intact in one of them, exactly its slices are held.
    ensures near { (original : List ℕ) (slices : List (List ℕ)) → IfOk result (λ h. AreNear h.reel.rules original slices (copies_of plan.now)
        → HoldsExactly h slices) }

    ensures short { OnOk result (AreShort (copies_of plan.now)) }
    ensures fits { IfOk result (λ h. RereadsFit h.reel plan.now) }
    ensures fault { IfErr result (IsPlanFault config.now width height plan.now) }
{
    let holding = carry_out(alloc, Recordings::Profile, plan, config, width, height)?;
    match holding.into_profile() {
        Ok(holding) => Ok(holding),
        // No other record is read.
        Err(_) => Err(PlanFault::Setup(SetupFault::Memory)),
    }
}

/// Carries a plan out for one of these recordings. What is held then is exactly what is found in the plan's copies, however they are
/// ordered, grouped or repeated. A refusal is that of the plan's first step that is refused, where all steps before it are carried out.
///
/// `config` is the configuration record, `width` and `height` the frames' size in samples. Returns `Setup` with the record's first fault,
/// `Hold` if a copy has more than 2^30 bytes, `File` if a holding that is reread has no file; each also
/// because memory ran out.
pub fn carry_out(
    alloc: Global,
    recordings: Recordings,
    plan: &Plan<'_>,
    config: &[u8],
    width: u32,
    height: u32,
) -> Result<Holding<Recording>, PlanFault>
    ensures reel { IfOk result (λ h. IsReelOf recordings config.now width height h.reel) }
    ensures meaning { IfOk result (λ h. h ≡ holding_of h.reel (copies_of plan.now)) }
    ensures well_formed { IfOk result IsHolding }

    // Where the plan's copies are near an original, with each of its slices intact in one of them, exactly its slices are held.
    ensures near { (original : List ℕ) (slices : List (List ℕ)) → IfOk result (λ h. AreNear h.reel.rules original slices (copies_of plan.now)
        → HoldsExactly h slices) }

    ensures short { OnOk result (AreShort (copies_of plan.now)) }
    ensures fits { IfOk result (λ h. RereadsFit h.reel plan.now) }
    ensures fault { IfErr result (IsFirstPlanFault recordings config.now width height plan.now) }
{
    match plan {
        Plan::New => Ok(Holding::of_record(alloc, recordings, config, width, height)?),
        Plan::Take(before, copy) => with_copy(
            carry_out(alloc, recordings, before, config, width, height)?,
            copy,
        ),
        Plan::TakeAll(before, copies) => with_all_copies(
            carry_out(alloc, recordings, before, config, width, height)?,
            copies,
        ),
        Plan::Join(left, right) => {
            let holding = carry_out(alloc, recordings, left, config, width, height)?;
            let other = carry_out(alloc, recordings, right, config, width, height)?;
            union_of(holding, other)
        }
        Plan::Reread(before) => {
            let holding = carry_out(alloc, recordings, before, config, width, height)?;
            through_file(alloc, holding)
        }
    }
}

/// Takes a copy into a holding.
fn with_copy(holding: Holding<Recording>, copy: &[u8]) -> Result<Holding<Recording>, PlanFault>
    ensures ok { IfOk result (λ h. h ≡ with_found holding copy.now) }
    ensures well_formed { IfOk result IsHolding }
    ensures short { OnOk result (AreShort (copy.now ∷ [])) }
    ensures fault { IfErr result (IsFaultOfCopy copy.now) }
{
    let mut holding = holding;
    holding.take(copy)?;
    Ok(holding)
}

/// Takes many copies into a holding, one after the other.
fn with_all_copies(
    holding: Holding<Recording>,
    copies: &[&[u8]],
) -> Result<Holding<Recording>, PlanFault>
    ensures ok { IfOk result (λ h. h ≡ with_copies holding (map (λ copy. copy.now) copies.now)) }
    ensures well_formed { IfOk result IsHolding }
    ensures short { OnOk result (AreShort (map (λ copy. copy.now) copies.now)) }
    ensures fault { IfErr result (IsFaultOfCopies (map (λ copy. copy.now) copies.now)) }
{
    let mut holding = holding;
    holding.take_all(copies)?;
    Ok(holding)
}

/// Joins a holding of the same reel into a holding.
fn union_of(
    holding: Holding<Recording>,
    other: Holding<Recording>,
) -> Result<Holding<Recording>, PlanFault>
    requires { IsSameReel holding other }
    ensures ok { IfOk result (λ h. h ≡ joined holding other) }
    ensures well_formed { IfOk result IsHolding }
    ensures memory { IfErr result (λ fault. fault ≡ Hold Memory) }
{
    let mut holding = holding;
    holding.join_with(&other)?;
    Ok(holding)
}

/// What comes back of a holding that goes through a file: the same. It is let go as well where it does not come back.
fn through_file(alloc: Global, holding: Holding<Recording>) -> Result<Holding<Recording>, PlanFault>
    requires well_formed { IsHolding holding }
    requires of_record { IsRecordReel holding.reel }
    ensures same { IfOk result (λ h. h ≡ holding) }
    ensures fits { OnOk result (¬ IsTooLong holding) }
    ensures fault { IfErr result (λ fault. (cause : HoldFileFault) × (fault ≡ File cause) × IsRereadFault holding cause) }
{
    Ok(reread(alloc, &holding)?)
}

/// Writes a holding file to memory, and reads it again. Returns `TooLong` exactly if the holding has none; the only other
/// refusal is `Memory`.
fn reread(alloc: Global, holding: &Holding<Recording>) -> Result<Holding<Recording>, HoldFileFault>
    requires well_formed { IsHolding holding.now }
    requires of_record { IsRecordReel holding.now.reel }
    ensures same { IfOk result (λ h. h ≡ holding.now) }
    ensures fits { OnOk result (¬ IsTooLong holding.now) }
    ensures fault { IfErr result (IsRereadFault holding.now) }
{
    let mut text = FromWrite::new(Vec::new(alloc));
    match write_hold(holding, &mut text) {
        Ok(()) => {}
        Err(HoldFileFault::TooLong) => return Err(HoldFileFault::TooLong),
        // No other device than memory was written.
        Err(_) => return Err(HoldFileFault::Memory),
    }
    let text = text.into_inner();
    match read_holding(alloc, Recordings::Any, &mut FromRead::new(text.as_slice())) {
        Ok(read) => Ok(read),
        // The text of a holding shows no fault, and no other device than memory was read.
        Err(_) => Err(HoldFileFault::Memory),
    }
}

/// Two plans of the same copies, carried out for one record and size, give equal holdings: so how each tile stands, how many
/// slices it has and their least error_status are equal, and the holding files are, byte for byte.
pub fn same_copies()
    ensures { SameCopiesAreEqual }
{}
