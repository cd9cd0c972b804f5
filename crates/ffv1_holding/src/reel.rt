//! A recording (own): its configuration record (RFC 9043, section 4.3), and what the record says of frames of one size.
ghost use Rattle.std.specs.Prelude.{◌≡◌, ◌==◌, ◌⊎◌, ◌↔◌, ℕ, Ok, Err, true, false, IsTrue, IfOk, IfErr, OnErr, IsErrOf, MatchResult};
ghost use Rattle.ffv1_range.specs.Setup.{SetupValue, RecordingValue, IsSetupOf};
ghost use Rattle.ffv1_range.specs.SetupFaults.{FirstSetupFault};
ghost use Rattle.ffv1_range.specs.TileHeaders.{rules_of, profile_rules};
ghost use Rattle.ffv1_range.specs.Frames.{by_frames};
ghost use Rattle.ffv1_range.specs.declared.frames.Frames.{Frames};
ghost use Rattle.ffv1_range.specs.declared.frames.Frames.TheVariants.{Any};
ghost use Rattle.ffv1_slice.specs.Slices.{IsSliceOf, slice_read};
ghost use Rattle.ffv1_holding.specs.declared.recordings.Recordings.TheVariants.{Profile};
ghost use Rattle.ffv1_holding.specs.Inner.Reels.{HasSameRecord};
ghost use Rattle.ffv1_holding.specs.Reels.{IsReel, IsRecordReel, IsOwnReel, IsRecordingFor, FirstRecordFault, WantsMemory, reel_of, reel_tiles, in_frames};

use crate::framed::Framed;
use crate::recordings::Recordings;
use ffv1_range::{Frames, Recording, Setup, SetupFault, read_scoped};
use ffv1_slice::{Link, LinkFault, frame_slice_of, read_frame_slice};
use std::alloc::Global;
use std::marker::Model;

/// A record, and what it is read as: a `Setup`, which is of the profile, or a `Recording`. Its slices are those of the frames that
/// the record's rules allow, or of any: the keyframe bit is 0 or 1.
#[derive(Drop)]
pub struct Reel<S: Framed = Setup> {
    config: Vec<u8>,
    setup: S,
    frames: Frames,
}

impl<S: Framed> Model for Reel<S> {
    ghost use Rattle.std.specs.Prelude.{◌≡◌, true};
    ghost use Rattle.ffv1_holding.specs.Reels.{Reel as ReelValue, IsRecordReel, in_frames, coded_reel};

    ghost Value = { ReelValue };

    ghost coded = { coded_reel };

    ghost view = { λ a. in_frames a.frames (record { config = a.config.items; setup = S.setup a.setup; rules = S.rules a.setup }) };

    ghost invariant = { λ a. IsRecordReel (record { config = a.config.items; setup = S.setup a.setup; rules = S.rules a.setup })
        × (S.allows a.frames ≡ true) };
}

impl Reel<Setup> {
    /// The recording of a record of the profile and a size. It is refused exactly as `Setup::read` refuses them.
    pub fn read(alloc: Global, config: Vec<u8>, width: u32, height: u32) -> Result<Reel, SetupFault>
        ensures config { IfOk result (λ r. r.config ≡ config.items) }
        ensures setup { IfOk result (λ r. IsSetupOf config.items width height r.setup) }
        ensures well_formed { IfOk result IsRecordReel }
        ensures only { (s : SetupValue) → IsSetupOf config.items width height s → OnErr result (result ≡ Err SetupFault.Memory) }
        ensures fault { IfErr result (λ fault. (fault ≡ SetupFault.Memory) ⊎ FirstSetupFault config.items width height fault) }
        ensures memory { IsErrOf result SetupFault.Memory → WantsMemory Profile config.items width height }
    {
        let setup = Setup::read(alloc, &config, width, height)?;
        Ok(Reel {
            config,
            setup,
            frames: Frames::Ruled,
        })
    }

    /// The setup.
    pub fn setup(&self) -> &Setup
        ensures value { result.now ≡ self.now.setup }
        ensures rules { self.now.rules ≡ profile_rules result.now }
        ensures well_formed { IsRecordReel self.now }
    {
        &self.setup
    }
}

impl Reel<Recording> {
    /// The recording of a record and a size. It is refused exactly as `read_scoped` refuses them in the scope of these recordings.
    pub fn of_record(
        alloc: Global,
        recordings: Recordings,
        config: Vec<u8>,
        width: u32,
        height: u32,
    ) -> Result<Reel<Recording>, SetupFault>
        ensures found { IfOk result (λ r. (recording : RecordingValue) × IsRecordingFor recordings config.items width height recording × (r ≡ reel_of config.items recording)) }
        ensures well_formed { IfOk result IsRecordReel }
        ensures only { (r : RecordingValue) → IsRecordingFor recordings config.items width height r
            → MatchResult result (λ read. read ≡ reel_of config.items r) (λ fault. fault ≡ SetupFault.Memory) }
        ensures fault { IfErr result (λ fault. (fault ≡ SetupFault.Memory) ⊎ FirstRecordFault recordings config.items width height fault) }
        ensures memory { IsErrOf result SetupFault.Memory → WantsMemory recordings config.items width height }
    {
        let setup = read_scoped(alloc, recordings.scope(), &config, width, height)?;
        Ok(Reel {
            config,
            setup,
            frames: Frames::Ruled,
        })
    }

    /// The recording of the profile, where it is one; else it comes back.
    pub fn into_profile(self) -> Result<Reel, Reel<Recording>>
        ensures ok { IfOk result (λ r. (r ≡ self) × (self.rules.is_profile ≡ true)) }
        ensures err { IfErr result (λ r. (r ≡ self) × (self.rules.is_profile ≡ false)) }
    {
        let Reel {
            config,
            setup,
            frames,
        } = self;
        if let Frames::Any = frames {
            return Err(Reel {
                config,
                setup,
                frames,
            });
        }
        match setup.into_setup() {
            Ok(setup) => Ok(Reel {
                config,
                setup,
                frames,
            }),
            Err(setup) => Err(Reel {
                config,
                setup,
                frames,
            }),
        }
    }

    /// The same recording, with slices of any frames.
    pub fn into_any_frames(self) -> Reel<Recording>
        ensures { result ≡ in_frames Any self }
    {
        let frames = Frames::Any;
        Reel { frames, ..self }
    }

    /// The same recording, with slices of the frames that the record's own rules allow.
    pub fn into_own_frames(self) -> Reel<Recording>
        ensures { IsOwnReel result self }
    {
        let frames = Frames::Ruled;
        Reel { frames, ..self }
    }
}

impl<S: Framed> Reel<S> {
    /// The bytes of the record.
    pub fn config(&self) -> &[u8]
        ensures { result.now ≡ self.now.config }
    {
        &self.config
    }

    /// What the record says, as a recording. Its rules are those of the slices, or allow other frames.
    pub fn recording(&self) -> &Recording
        ensures setup { result.now.setup ≡ self.now.setup }
        ensures rules { IsRecordReel self.now → rules_of result.now ≡ self.now.rules }
        ensures own { IsOwnReel (reel_of self.now.config result.now) self.now }
        ensures well_formed { IsReel self.now }
    {
        self.setup.recording()
    }

    /// Whether its slices are of the profile: the record is, and they are of the frames that its rules allow, which are keyframes.
    pub fn is_of_profile(&self) -> bool
        ensures { result ≡ self.now.rules.is_profile }
    {
        match self.frames {
            Frames::Ruled => self.setup.recording().is_in_profile(),
            Frames::Any => false,
        }
    }

    /// The tile of which a link is a slice of these frames, counted from 0 row by row. Refused as `slice_of` of ffv1_slice refuses it.
    pub fn slice_of(&self, link: &Link<'_>) -> Result<usize, LinkFault>
        ensures found { IfOk result (λ tile. IsSliceOf self.now.rules link.now.bytes (link.now.start == 0) tile) }
        ensures only { (tile : ℕ) → IsSliceOf self.now.rules link.now.bytes (link.now.start == 0) tile → result ≡ Ok tile }
        ensures read { result ≡ slice_read self.now.rules link.now.bytes (link.now.start == 0) }
    {
        frame_slice_of(self.frames, &self.setup, link)
    }

    /// The tile of which these bytes, footer and all, are a slice of these frames. They are read with the keyframe bit where they are
    /// `first` of their payload. Refused as `read_slice` of ffv1_slice refuses them.
    pub fn read_slice(&self, slice: &[u8], first: bool) -> Result<usize, LinkFault>
        ensures found { IfOk result (λ tile. IsSliceOf self.now.rules slice.now first tile) }
        ensures only { (tile : ℕ) → IsSliceOf self.now.rules slice.now first tile → result ≡ Ok tile }
        ensures read { result ≡ slice_read self.now.rules slice.now first }
    {
        read_frame_slice(self.frames, &self.setup, slice, first)
    }

    /// How many tiles a frame has.
    pub fn tiles(&self) -> usize
        ensures count { result ≡ reel_tiles self.now }
        ensures well_formed { IsReel self.now }
    {
        self.recording().grid().tiles()
    }

    /// Whether record, width and height are the same, and the slices are of the same frames. What the record says then is as well.
    pub fn is_same(&self, other: &Reel<S>) -> bool
        ensures { IsTrue result ↔ (self.now ≡ other.now) }
    {
        self.has_same_record(other) && self.is_of_profile() == other.is_of_profile()
    }

    /// Whether record, width and height are the same.
    fn has_same_record(&self, other: &Reel<S>) -> bool
        ensures same { IsTrue result → HasSameRecord self.now other.now }
        ensures other { self.now ≡ other.now → IsTrue result }
        ensures well_formed { IsReel self.now × IsReel other.now }
    {
        let (recording, others) = (self.recording(), other.recording());
        self.config() == other.config()
            && recording.width() == others.width()
            && recording.height() == others.height()
    }
}
