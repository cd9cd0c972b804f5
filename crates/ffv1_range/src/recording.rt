//! The configuration record (RFC 9043, sections 4.2 and 4.3), and what it says of frames of one size.
//!
//! A `Recording` is of version 3 with micro_version 4 or greater: any coder_type, gray, Y Cb Cr or RGB of 8 to 16 bits, chroma shifts of at
//! most 4, with alpha or without, at most `MOST_TILES` tiles, and 1 to 8 sets of quantization tables.
ghost use Rattle.std.specs.Prelude.{◌≡◌, ◌+◌, ◌<◌, ◌⊎◌, Bool, true, false, length, MatchResult, IfOk, IfErr, IfSome, Err, if◌then◌else◌};
ghost use Rattle.ffv1_range.specs.Setup.{RecordingValue, set_contexts, set_entry, states_coded, initial_of, IsScopedRecord, IsRecordingOf, IsInVersion3, RecordingIsOne, RecordingIsInVersion3};
ghost use Rattle.std.specs.Option.{option_copied};
ghost use Rattle.ffv1_range.specs.SetupFaults.{FirstRecordingFault, OneRecordingRefusal};
ghost use Rattle.ffv1_range.specs.SetupForms.{Grants, all_granted, checked_content, is_size, record_read};
ghost use Rattle.ffv1_range.specs.TileHeaders.{is_in_profile, RecordingInProfile};
ghost use Rattle.ffv1_range.specs.Tiles.{grid_of};
ghost use Rattle.ffv1_range.specs.Inner.Forms.{Gives};
ghost use Rattle.ffv1_range.specs.declared.scope.Scope.TheVariants.{Version3};
ghost use Rattle.ffv1_range.specs.declared.fault.SetupFault.TheVariants.{Memory};

use crate::coding::RangeDecoder;
use crate::deltas::{SetStates, read_initial_states};
use crate::fault::SetupFault;
use crate::fields::{Counts, Shape, read_front, read_last_fields};
use crate::grid::Grid;
use crate::scope::Scope;
use crate::setup::Setup;
use crate::tables::{TableSet, read_sets};
use crate::transitions::Transitions;
use ffv1_bits::{GREATEST_SIDE, remainder};
use std::alloc::Global;
use std::marker::Model;

/// What a configuration record says of its frames.
#[derive(Drop)]
pub struct Recording {
    pub(crate) micro: u32,
    pub(crate) shape: Shape,
    pub(crate) counts: Counts,
    pub(crate) sets: Vec<TableSet>,
    pub(crate) ec: u32,
    pub(crate) intra: u32,
    pub(crate) width: u32,
    pub(crate) height: u32,
}

impl Model for Recording {
    ghost use Rattle.ffv1_range.specs.Setup.{RecordingValue, IsInVersion3};
    ghost use Rattle.ffv1_range.specs.Views.{recording_fields};

    ghost Value = { RecordingValue };

    ghost view = { λ x. recording_fields x.micro x.shape x.counts x.sets.items x.ec x.intra x.width x.height };

    ghost invariant = { λ x. IsInVersion3 (recording_fields x.micro x.shape x.counts x.sets.items x.ec x.intra x.width x.height) };
}

impl Recording {
    /// Reads a configuration record of version 3, its parity included, for frames of this width and height in samples (RFC 9043, sections
    /// 4.2 and 4.3). What is left of the record after its last field is ignored.
    ///
    /// Refused with the first of its faults: `TooShort`, `Parity`, `Size`, then those of the fields in the order in which they are read,
    /// each as soon as its value was read; those of the grid after both of its numbers, that of the contexts after each table of a set.
    /// `Memory` stands between the number of sets and the first set, and with coder_type 1 and 2 straight after each states_coded that is 1.
    pub fn read(
        alloc: Global,
        config: &[u8],
        width: u32,
        height: u32,
    ) -> Result<Recording, SetupFault>
        // What is returned is what the record says.
        ensures found { IfOk result (IsRecordingOf config.now width height) }

        // For a record of version 3 the result is what it says, or `Memory`.
        ensures only { (r : RecordingValue) → IsRecordingOf config.now width height r → MatchResult result (λ read. read ≡ r) (λ fault. fault ≡ Memory) }

        // A refusal is the first that reading meets, or Memory ..
        ensures first { IfErr result (λ fault. (fault ≡ Memory) ⊎ FirstRecordingFault config.now width height fault) }

        // .. which stands after the fields before the sets, or after a states_coded.
        ensures fault { IfErr result (λ fault. (granted : Grants) × (record_read granted config.now Version3 width height ≡ Err fault)) }
    {
        read_scoped(alloc, Scope::Version3, config, width, height)
    }

    /// micro_version, 4 or greater.
    pub fn micro(&self) -> u32
        ensures { result ≡ self.now.setup.micro }
    {
        self.micro
    }

    /// coder_type: 0 for Golomb-Rice codes, 1 for range coding by the default transitions, 2 for range coding by the record's own.
    pub fn coder(&self) -> u32
        ensures { result ≡ self.now.coder }
    {
        self.shape.coder
    }

    /// How states change in slices of this recording. Its record and its headers of coder_type 0 are read by the default table.
    pub fn transitions(&self) -> &Transitions
        ensures { result.now ≡ self.now.transitions }
    {
        &self.shape.transitions
    }

    /// Whether the planes are G, B and R, and not Y, Cb and Cr.
    pub fn is_rgb(&self) -> bool
        ensures { result ≡ self.now.is_rgb }
    {
        self.shape.is_rgb
    }

    /// The bits of a sample, 8 to 16.
    pub fn depth(&self) -> u32
        ensures value { result ≡ self.now.depth }
        ensures bounds { IsInVersion3 self.now }
    {
        self.shape.depth
    }

    /// The bits with which a sample is coded: one more in RGB.
    pub fn coded_depth(&self) -> u32
        ensures { result ≡ self.now.depth + (if self.now.is_rgb then 1 else 0) }
    {
        self.depth() + u32::from(self.is_rgb())
    }

    /// Each recording is of version 3, and its tables keep within its contexts.
    pub fn keeps_version_3(&self)
        ensures { IsInVersion3 self.now }
    {
        let _shape = &self.shape;
    }

    /// Whether it is of the profile: Golomb-Rice codes, gray or Y Cb Cr of 8 bits without alpha, parities, and shifts of at most 2.
    pub fn is_in_profile(&self) -> bool
        ensures { result ≡ is_in_profile self.now }
    {
        self.coder() == 0
            && !self.is_rgb()
            && self.depth() == 8
            && !self.has_alpha()
            && self.ec() == 1
            && self.shift_h() <= 2
            && self.shift_v() <= 2
    }

    /// The setup, where it is of the profile; else the recording comes back.
    pub fn into_setup(self) -> Result<Setup, Recording>
        ensures ok { IfOk result (λ setup. (is_in_profile self ≡ true) × (setup ≡ self.setup)) }
        ensures err { IfErr result (λ same. (is_in_profile self ≡ false) × (same ≡ self)) }
    {
        self.keeps_version_3();
        if self.is_in_profile() {
            Ok(Setup { recording: self })
        } else {
            Err(self)
        }
    }

    /// Whether a plane of alpha follows the others.
    pub fn has_alpha(&self) -> bool
        ensures { result ≡ self.now.has_alpha }
    {
        self.shape.has_alpha
    }

    /// Whether two planes follow the first: Cb and Cr, or those of RGB.
    pub fn has_chroma(&self) -> bool
        ensures { result ≡ self.now.setup.has_chroma }
    {
        self.shape.planes.has_chroma
    }

    /// The number of planes, that of alpha included.
    pub fn planes(&self) -> usize
        ensures { result ≡ (if self.now.setup.has_chroma then 3 else 1) + (if self.now.has_alpha then 1 else 0) }
    {
        let colors = if self.has_chroma() { 3 } else { 1 };
        let alpha = if self.has_alpha() { 1 } else { 0 };
        colors + alpha
    }

    /// log2_h_chroma_subsample: the logarithm of a chroma sample's width in luma samples, at most 4; 0 of a gray frame and of RGB.
    pub fn shift_h(&self) -> u32
        ensures { result ≡ self.now.setup.shift_h }
    {
        self.shape.planes.shift_h
    }

    /// log2_v_chroma_subsample: the logarithm of a chroma sample's height in luma samples, at most 4; 0 of a gray frame and of RGB.
    pub fn shift_v(&self) -> u32
        ensures { result ≡ self.now.setup.shift_v }
    {
        self.shape.planes.shift_v
    }

    /// quant_table_set_count: the number of sets of quantization tables, 1 to 8.
    pub fn sets(&self) -> usize
        ensures { result ≡ length self.now.setup.sets }
    {
        self.sets.len()
    }

    /// The number of contexts of a set.
    pub fn contexts(&self, set: usize) -> u32
        requires { set < length self.now.setup.sets }
        ensures { result ≡ set_contexts self.now.setup set }
    {
        self.sets[set].contexts
    }

    /// An entry of a table of a set, at its scale: the tables count from 0, and the 256 entries are indexed by a difference of two samples
    /// modulo 256 (RFC 9043, section 3.5).
    pub fn entry(&self, set: usize, table: usize, index: usize) -> i32
        requires set { set < length self.now.setup.sets }
        requires table { table < 5 }
        requires index { index < 256 }
        ensures { result ≡ set_entry self.now.setup set table index }
    {
        self.sets[set].entry(table, index)
    }

    /// states_coded of a set: whether the record has initial states of its contexts.
    pub fn states_coded(&self, set: usize) -> bool
        requires { set < length self.now.setup.sets }
        ensures { result ≡ states_coded self.now set }
    {
        !matches!(&self.sets[set].states, SetStates::Uncoded)
    }

    /// The initial states of a set, 32 for each of its contexts (RFC 9043, section 4.2.15). `None` with coder_type 0, and where none are
    /// coded: all are 128 then.
    pub fn initial(&self, set: usize) -> Option<&[[u8; 32]]>
        requires { set < length self.now.setup.sets }
        ensures states { option_copied result ≡ initial_of self.now set }
        ensures each { IfSome result (λ states. length states.now ≡ set_contexts self.now.setup set) }
    {
        match &self.sets[set].states {
            SetStates::Kept(states) => Some(states),
            _ => None,
        }
    }

    /// ec: 1 where each slice has its parity, and 0 where none has.
    pub fn ec(&self) -> u32
        ensures { result ≡ self.now.setup.ec }
    {
        self.ec
    }

    /// intra, as the record has it.
    pub fn intra(&self) -> u32
        ensures { result ≡ self.now.setup.intra }
    {
        self.intra
    }

    /// The tiles of the frames.
    pub fn grid(&self) -> Grid
        ensures { result ≡ grid_of self.now.setup }
    {
        Grid::of(self)
    }

    /// The width of the frames, in samples, 1 to `GREATEST_SIDE`.
    pub fn width(&self) -> u32
        ensures { result ≡ self.now.setup.width }
    {
        self.width
    }

    /// The height of the frames, in samples, 1 to `GREATEST_SIDE`.
    pub fn height(&self) -> u32
        ensures { result ≡ self.now.setup.height }
    {
        self.height
    }
}

/// Reads a configuration record that a scope accepts: `Recording::read` those of version 3, `Setup::read` those of the profile. It is refused as they
/// refuse it.
pub fn read_scoped(
    alloc: Global,
    scope: Scope,
    config: &[u8],
    width: u32,
    height: u32,
) -> Result<Recording, SetupFault>
    ensures found { IfOk result (IsScopedRecord config.now scope width height) }
    ensures only { (r : RecordingValue) → IsScopedRecord config.now scope width height r → MatchResult result (λ read. read ≡ r) (λ fault. fault ≡ Memory) }
    ensures first { IfErr result (λ fault. (fault ≡ Memory) ⊎ (record_read all_granted config.now scope width height ≡ Err fault)) }
    ensures fault { IfErr result (λ fault. (granted : Grants) × (record_read granted config.now scope width height ≡ Err fault)) }
{
    let content = checked_content(config)?;
    if !is_size(width) || !is_size(height) {
        return Err(SetupFault::Size);
    }
    let mut decoder = RangeDecoder::closed(content)?;
    let mut states = [128; 32];
    let front = read_front(scope, &mut decoder, &mut states, width, height)?;
    let mut sets = Vec::with_capacity(alloc, front.sets as usize)?;
    read_sets(&mut decoder, &mut sets, front.sets)?;
    let keeps = front.shape.coder != 0;
    read_initial_states(alloc, &mut decoder, &mut states, &mut sets, keeps)?;
    let (ec, intra) = read_last_fields(scope, &mut decoder, &mut states)?;
    Ok(Recording {
        micro: front.micro,
        shape: front.shape,
        counts: front.counts,
        sets,
        ec,
        intra,
        width,
        height,
    })
}

/// The bytes before the parity, where that passes.
fn checked_content(config: &[u8]) -> Result<&[u8], SetupFault>
    ensures { Gives (λ content. content.now) result (checked_content config.now) }
{
    if config.len() < 6 {
        return Err(SetupFault::TooShort);
    }
    if remainder(config) != 0 {
        return Err(SetupFault::Parity);
    }
    Ok(&config[..config.len() - 4])
}

/// Whether a width or a height is in 1..=`GREATEST_SIDE`.
fn is_size(size: u32) -> bool
    ensures { result ≡ is_size size }
{
    1 <= size && size <= GREATEST_SIDE
}

/// One record and size say one thing of a recording.
pub fn recording_is_one()
    ensures { RecordingIsOne }
{}

/// A recording of version 3 has a setup exactly where it is of the profile.
pub fn recording_in_profile()
    ensures { RecordingInProfile }
{}

/// What a record says keeps the bounds of version 3.
pub fn recording_is_in_version_3()
    ensures { RecordingIsInVersion3 }
{}

/// A record and size say something of a recording, or have exactly one first fault, which is not `Memory`.
pub fn one_recording_refusal()
    ensures { OneRecordingRefusal }
{}
