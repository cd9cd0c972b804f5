//! The slices held of one frame (own), under one configuration record (RFC 9043, section 4.3) and size.
//!
//! Here a holding is made and joined to others. Its other methods are in `take.rt`, which takes copies, `restore.rt`, which says
//! how the tiles stand and restores the payload, and `origins.rt`, which says which copies gave a slice.
ghost use Rattle.std.specs.Prelude.{◌≡◌, ◌⊎◌, Err, true, false, IsTrue, IfOk, IfErr, OnOk, OnErr};
ghost use Rattle.ffv1_range.specs.Setup.{SetupValue, RecordingValue, IsSetupOf};
ghost use Rattle.ffv1_range.specs.TileHeaders.{profile_rules};
ghost use Rattle.ffv1_range.specs.SetupFaults.{FirstSetupFault};
ghost use Rattle.ffv1_range.specs.declared.frames.Frames.TheVariants.{Any};
ghost use Rattle.ffv1_holding.specs.Contents.{no_slices, with_reel, AreOwnEntries, IsHolding};
ghost use Rattle.ffv1_holding.specs.Reels.{IsRecordReel, IsOwnReel, IsRecordingFor, FirstRecordFault, reel_of, in_frames};

use crate::fault::HoldFault;
use crate::framed::Framed;
use crate::joins::Join;
use crate::pool::Pool;
use crate::recordings::Recordings;
use crate::reel::Reel;
use ffv1_range::{Recording, Setup, SetupFault};
use ffv1_slice::read_slice;
use std::alloc::{AllocError, Global};
use std::marker::Model;

/// The distinct slices that were found in copies of one frame, each with the SHA-256 digests of the whole copies that
/// gave it.
///
/// Each is a slice of its tile by what the record says: its parity is right, and its header is one of the recording's. That is a `Setup`, and
/// then the recording is of the profile, or a `Recording`.
#[derive(Drop)]
pub struct Holding<S: Framed = Setup> {
    pub(crate) reel: Reel<S>,
    pub(crate) held: Pool,
}

impl<S: Framed> Model for Holding<S> {
    ghost use Rattle.ffv1_holding.specs.Contents.{Contents, coded_contents};

    ghost Value = { Contents };

    ghost coded = { coded_contents };

    ghost use Rattle.ffv1_holding.specs.HoldingParts.{contents, IsKept};

    ghost view = { contents };

    ghost invariant = { IsKept };
}

impl Holding<Setup> {
    /// A holding of no slices, for a configuration record of the profile and the size of its frames in samples.
    ///
    /// It is refused exactly as `Setup::read` refuses them, or with `Memory`.
    pub fn new(alloc: Global, config: &[u8], width: u32, height: u32) -> Result<Holding, SetupFault>
        ensures empty { IfOk result (λ h. h ≡ no_slices h.reel) }
        ensures config { IfOk result (λ h. h.reel.config ≡ config.now) }
        ensures setup { IfOk result (λ h. IsSetupOf config.now width height h.reel.setup) }
        ensures well_formed { IfOk result (λ h. IsRecordReel h.reel) }

        ensures only { (s : SetupValue) → IsSetupOf config.now width height s → OnErr result (result ≡ Err SetupFault.Memory) }
        ensures fault { IfErr result (λ fault. (fault ≡ SetupFault.Memory) ⊎ FirstSetupFault config.now width height fault) }
    {
        let Ok(config) = Vec::from_slice(alloc, config) else {
            return Err(SetupFault::Memory);
        };
        let reel = Reel::read(alloc, config, width, height)?;
        let Ok(holding) = Holding::of_reel(alloc, reel) else {
            return Err(SetupFault::Memory);
        };
        Ok(holding)
    }

    /// The setup that `Setup::read` gives for the record and the size. It stays the same whatever is taken or joined.
    pub fn setup(&self) -> &Setup
        ensures value { result.now ≡ self.now.reel.setup }
        ensures rules { self.now.reel.rules ≡ profile_rules result.now }
        ensures well_formed { IsHolding self.now }
        ensures of_record { IsRecordReel self.now.reel }
    {
        self.reel.setup()
    }
}

impl Holding<Recording> {
    /// A holding of no slices, for a configuration record and the size of its frames in samples.
    ///
    /// It is refused exactly as `read_scoped` refuses them in the scope of these recordings, or with `Memory`.
    pub fn of_record(
        alloc: Global,
        recordings: Recordings,
        config: &[u8],
        width: u32,
        height: u32,
    ) -> Result<Holding<Recording>, SetupFault>
        ensures found { IfOk result (λ h. (r : RecordingValue) × IsRecordingFor recordings config.now width height r × (h ≡ no_slices (reel_of config.now r))) }
        ensures only { (r : RecordingValue) → IsRecordingFor recordings config.now width height r → OnErr result (result ≡ Err SetupFault.Memory) }
        ensures fault { IfErr result (λ fault. (fault ≡ SetupFault.Memory) ⊎ FirstRecordFault recordings config.now width height fault) }
    {
        let Ok(config) = Vec::from_slice(alloc, config) else {
            return Err(SetupFault::Memory);
        };
        let reel = Reel::of_record(alloc, recordings, config, width, height)?;
        let Ok(holding) = Holding::of_reel(alloc, reel) else {
            return Err(SetupFault::Memory);
        };
        Ok(holding)
    }

    /// The same holding of the profile, where the recording is of it; else it comes back.
    pub fn into_profile(self) -> Result<Holding, Holding<Recording>>
        ensures ok { IfOk result (λ h. (h ≡ self) × (self.reel.rules.is_profile ≡ true)) }
        ensures err { IfErr result (λ h. (h ≡ self) × (self.reel.rules.is_profile ≡ false)) }
    {
        let Holding { reel, held } = self;
        match reel.into_profile() {
            Ok(reel) => Ok(Holding { reel, held }),
            Err(reel) => Err(Holding { reel, held }),
        }
    }

    /// The same slices and origins, as a holding of any frames of the recording.
    pub fn into_any_frames(self) -> Holding<Recording>
        ensures { result ≡ with_reel self (in_frames Any self.reel) }
    {
        let Holding { reel, held } = self;
        let reel = reel.into_any_frames();
        Holding { reel, held }
    }

    /// The same slices and origins, as a holding by the record's own rules. It comes back exactly if a slice of it is none by
    /// these: in the profile one whose keyframe bit is 0.
    pub fn into_own_frames(self) -> Result<Holding<Recording>, Holding<Recording>>
        ensures ok { IfOk result (λ h. IsOwnReel h.reel self.reel × (h ≡ with_reel self h.reel)) }
        ensures own { OnOk result (AreOwnEntries self) }
        ensures err { IfErr result (λ h. h ≡ self) }
        ensures other { OnErr result (AreOwnEntries self → ⊥) }
    {
        if !self.is_of_own_frames() {
            return Err(self);
        }
        let Holding { reel, held } = self;
        let reel = reel.into_own_frames();
        Ok(Holding { reel, held })
    }

    /// Whether each slice is one by the record's own rules. Those of other tiles than the first have no keyframe bit.
    fn is_of_own_frames(&self) -> bool
        ensures own { IsTrue result → AreOwnEntries self.now }
        ensures other { AreOwnEntries self.now → IsTrue result }
    {
        let recording = self.reel.recording();
        let firsts = self.held.of_tile(0);
        for place in 0..firsts.len() {
            if read_slice(recording, firsts.get(place), true).is_err() {
                return false;
            }
        }
        true
    }
}

impl<S: Framed> Holding<S> {
    /// A holding of no slices, for a recording. The only refusal is Memory.
    pub fn of_reel(alloc: Global, reel: Reel<S>) -> Result<Holding<S>, AllocError>
        ensures { IfOk result (λ h. h ≡ no_slices reel) }
    {
        let held = Pool::new(alloc, reel.tiles())?;
        Ok(Holding { reel, held })
    }

    /// The recording. It stays the same whatever is taken or joined.
    pub fn reel(&self) -> &Reel<S>
        ensures value { result.now ≡ self.now.reel }
        ensures well_formed { IsHolding self.now }
    {
        &self.reel
    }
}

impl<S: Framed> Join for Holding<S> {
    ghost use Rattle.ffv1_holding.specs.Sets as set;
    ghost use Rattle.ffv1_holding.specs.Contents.{IsSameReel, joined};
    ghost use Rattle.ffv1_holding.specs.ContentsLaws.{joined_comm, joined_assoc, joined_again, joined_reel};

    ghost joinable = { IsSameReel };

    ghost union = { joined };

    // The slices are counted, and not where they came from.
    ghost size = { λ h. set.size h.slices };

    fn join_with(&mut self, other: &Self) -> Result<usize, HoldFault> {
        if !self.reel.is_same(&other.reel) {
            return Err(HoldFault::OtherReel);
        }
        let before = self.held.size();
        self.held.join(&other.held)?;
        Ok(self.held.size() - before)
    }

    ghost commutes = { joined_comm };

    ghost groups = { joined_assoc };

    ghost repeats = { joined_again };

    ghost stays_joinable = { joined_reel };
}
