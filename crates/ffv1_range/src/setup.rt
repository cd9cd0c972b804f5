//! The setup that a configuration record of the profile gives for frames of one size (RFC 9043, sections 4.2 and 4.3).
//!
//! A `Setup` is of the profile: version 3 with micro_version 4 or greater, Golomb-Rice codes, 8 bits a sample, gray or
//! Y Cb Cr with chroma shifts of at most 2, at most `MOST_TILES` tiles, and 1 to 8 sets of quantization tables.
ghost use Rattle.std.specs.Prelude.{◌≡◌, ◌<◌, ◌⊎◌, Bool, true, length, MatchResult, IfOk, IfErr};
ghost use Rattle.ffv1_range.specs.Setup.{SetupValue, set_contexts, set_entry, IsSetupOf, IsInProfile, SetupIsOne, SetupIsInProfile, SetupIsRecording, RecordingIsOfProfile};
ghost use Rattle.ffv1_range.specs.SetupFaults.{FirstSetupFault, OneSetupRefusal};
ghost use Rattle.ffv1_range.specs.SetupForms.{setup_read};
ghost use Rattle.ffv1_range.specs.TileHeaders.{is_in_profile, rules_of, profile_rules};
ghost use Rattle.ffv1_range.specs.Tiles.{grid_of};
ghost use Rattle.ffv1_range.specs.declared.fault.SetupFault.TheVariants.{Memory};

use crate::fault::SetupFault;
use crate::grid::Grid;
use crate::recording::{Recording, read_scoped};
use crate::scope::Scope;
use std::alloc::Global;
use std::marker::Model;

/// What a configuration record of the profile says of its frames.
#[derive(Drop)]
pub struct Setup {
    pub(crate) recording: Recording,
}

impl Model for Setup {
    ghost use Rattle.std.specs.Prelude.{◌≡◌, true};
    ghost use Rattle.ffv1_range.specs.Setup.{SetupValue, IsInProfile};
    ghost use Rattle.ffv1_range.specs.TileHeaders.{is_in_profile};

    ghost Value = { SetupValue };

    ghost view = { λ x. x.recording.setup };

    ghost invariant = { λ x. IsInProfile x.recording.setup × (is_in_profile x.recording ≡ true) };
}

impl Setup {
    /// Reads a configuration record, its parity included, for frames of this width and height in samples (RFC 9043,
    /// sections 4.2 and 4.3). What is left of the record after its last field is ignored.
    ///
    /// Refused with the first of its faults: `TooShort`, `Parity`, `Size`, then those of the fields in the order in
    /// which they are read, each as soon as its value was read; those of the grid after both of its numbers, that of
    /// the contexts after each table of a set. `Memory` stands between the number of sets and the first set.
    pub fn read(alloc: Global, config: &[u8], width: u32, height: u32) -> Result<Setup, SetupFault>
        // What is returned is the record's setup.
        ensures found { IfOk result (IsSetupOf config.now width height) }

        // For a record that has a setup the result is that setup, or `Memory`.
        ensures only { (setup : SetupValue) → IsSetupOf config.now width height setup → MatchResult result (λ read. read ≡ setup) (λ fault. fault ≡ Memory) }

        // A refusal is the first that reading meets, or Memory ..
        ensures first { IfErr result (λ fault. (fault ≡ Memory) ⊎ FirstSetupFault config.now width height fault) }

        // .. which stands after the fields before the sets.
        ensures fault { IfErr result (λ fault. (granted : Bool) × (setup_read granted config.now width height ≡ Err fault)) }
    {
        let recording = read_scoped(alloc, Scope::Profile, config, width, height)?;
        Ok(Setup { recording })
    }

    /// The same as a recording, which is of the profile.
    pub fn recording(&self) -> &Recording
        ensures value { result.now.setup ≡ self.now }
        ensures profile { is_in_profile result.now ≡ true }
        ensures rules { rules_of result.now ≡ profile_rules self.now }
    {
        &self.recording
    }

    /// micro_version, 4 or greater.
    pub fn micro(&self) -> u32
        ensures { result ≡ self.now.micro }
    {
        self.recording.micro()
    }

    /// Whether planes Cb and Cr follow plane Y.
    pub fn has_chroma(&self) -> bool
        ensures { result ≡ self.now.has_chroma }
    {
        self.recording.has_chroma()
    }

    /// log2_h_chroma_subsample: the logarithm of a chroma sample's width in luma samples, at most 2; 0 of a gray frame.
    pub fn shift_h(&self) -> u32
        ensures { result ≡ self.now.shift_h }
    {
        self.recording.shift_h()
    }

    /// log2_v_chroma_subsample: the logarithm of a chroma sample's height in luma samples, at most 2; 0 of a gray frame.
    pub fn shift_v(&self) -> u32
        ensures { result ≡ self.now.shift_v }
    {
        self.recording.shift_v()
    }

    /// quant_table_set_count: the number of sets of quantization tables, 1 to 8.
    pub fn sets(&self) -> usize
        ensures { result ≡ length self.now.sets }
    {
        self.recording.sets()
    }

    /// The number of contexts of a set.
    pub fn contexts(&self, set: usize) -> u32
        requires { set < length self.now.sets }
        ensures { result ≡ set_contexts self.now set }
    {
        self.recording.contexts(set)
    }

    /// An entry of a table of a set, at its scale: the tables count from 0, and the 256 entries are indexed by a
    /// difference of two samples modulo 256 (RFC 9043, section 3.5).
    pub fn entry(&self, set: usize, table: usize, index: usize) -> i32
        requires set { set < length self.now.sets }
        requires table { table < 5 }
        requires index { index < 256 }
        ensures { result ≡ set_entry self.now set table index }
    {
        self.recording.entry(set, table, index)
    }

    /// ec: 1, each slice has its parity.
    pub fn ec(&self) -> u32
        ensures { result ≡ self.now.ec }
    {
        self.recording.ec()
    }

    /// intra, as the record has it.
    pub fn intra(&self) -> u32
        ensures { result ≡ self.now.intra }
    {
        self.recording.intra()
    }

    /// Each setup is of the profile, and its tables keep within its contexts.
    pub fn keeps_profile(&self)
        ensures { IsInProfile self.now }
    {
        let _recording = &self.recording;
    }

    /// The tiles of the frames.
    pub fn grid(&self) -> Grid
        ensures { result ≡ grid_of self.now }
    {
        self.recording.grid()
    }

    /// The width of the frames, in samples, 1 to `GREATEST_SIDE`.
    pub fn width(&self) -> u32
        ensures { result ≡ self.now.width }
    {
        self.recording.width()
    }

    /// The height of the frames, in samples, 1 to `GREATEST_SIDE`.
    pub fn height(&self) -> u32
        ensures { result ≡ self.now.height }
    {
        self.recording.height()
    }
}

/// One record and size have one setup.
pub fn setup_is_one()
    ensures { SetupIsOne }
{}

/// A record's setup is of the profile.
pub fn setup_is_in_profile()
    ensures { SetupIsInProfile }
{}

/// A record of the profile is one of version 3, with the same values.
pub fn setup_is_recording()
    ensures { SetupIsRecording }
{}

/// What a record of the profile says of a recording is of the profile, and has the record's setup.
pub fn recording_is_of_profile()
    ensures { RecordingIsOfProfile }
{}

/// A record and size have a setup, or exactly one first fault, which is not `Memory`.
pub fn one_setup_refusal()
    ensures { OneSetupRefusal }
{}
