//! Decoding whole frames (RFC 9043, sections 4.4 to 4.9): a frame is a payload of one slice a tile, in tile order.
ghost use Rattle.std.specs.Prelude.{◌≡◌, ◌⊎◌, ◌↔◌, length, IsTrue, IfOk, IfErr, OnOk, OnErr};
ghost use Rattle.ffv1_range.specs.Setup.{SetupValue, IsSetupOf};
ghost use Rattle.ffv1_range.specs.SetupFaults.{FirstSetupFault};
ghost use Rattle.ffv1_range.specs.SetupForms.{setup_read};
ghost use Rattle.ffv1_range.specs.Tiles.{grid_of, tile_count};
ghost use Rattle.ffv1_picture.specs.Frames.{links_from_front, HasWholeChain, IsDrawnOf};
ghost use Rattle.ffv1_picture.specs.FrameFaults.{AreInOrderBefore, IsFirstDisorder, IsFirstUnreadable};
ghost use Rattle.ffv1_picture.specs.Laws.{FaultsOfFramesAreOne};
ghost use Rattle.ffv1_picture.specs.Inner.FrameFaults.{fault_of_tile};

use crate::drawing::draw_slice;
use crate::fault::FrameFault;
use crate::frame::Frame;
use ffv1_plane::TileFault;
use ffv1_range::{Setup, SetupFault};
use ffv1_slice::{Chain, ChainEnd, Link, slice_of};
use std::alloc::{AllocError, Global};
use std::marker::Model;

/// Decodes the frames of one recording.
#[derive(Drop)]
pub struct Decoder {
    setup: Setup,
    alloc: Global,
}

impl Model for Decoder {
    ghost use Rattle.ffv1_range.specs.Setup.{SetupValue};

    ghost Value = { SetupValue };

    ghost view = { λ d. d.setup };
}

impl Decoder {
    ghost use Rattle.std.specs.Prelude.{Bool, Err, List, map, MatchResult, Some};
    ghost use Rattle.ffv1_picture.specs.WholePicture.{Planes};
    ghost use Rattle.ffv1_picture.specs.Frames.{IsDecodedFrame, IsFrameOf, SpellsPictures};
    ghost use Rattle.ffv1_picture.specs.FrameFaults.{IsFirstFault};

    /// A decoder for a configuration record and the size of its frames in samples.
    ///
    /// It is refused exactly as `Setup::read` refuses them.
    pub fn new(alloc: Global, config: &[u8], width: u32, height: u32) -> Result<Decoder, SetupFault>
        ensures setup { IfOk result (λ decoder. IsSetupOf config.now width height decoder) }

        // For a record that has a setup the result is its decoder, or `Memory`.
        ensures only { (s : SetupValue) → IsSetupOf config.now width height s
            → MatchResult result (λ decoder. decoder ≡ s) (λ fault. fault ≡ SetupFault.Memory) }

        // A refusal is the first that reading meets, or Memory, which stands after the fields before the sets.
        ensures fault { IfErr result (λ fault. (fault ≡ SetupFault.Memory) ⊎ FirstSetupFault config.now width height fault) }
        ensures memory { IfErr result (λ fault. (granted : Bool) × (setup_read granted config.now width height ≡ Err fault)) }
    {
        let setup = Setup::read(alloc, config, width, height)?;
        Ok(Decoder { setup, alloc })
    }

    /// Decodes a frame's payload: one slice a tile in tile order, each with a picture. Slices are accepted whatever their
    /// error status. In chroma a sample that two tiles cover is the greater tile's, and one that none covers is 128.
    ///
    /// Refused with the first fault: `Chain`; then for each place upwards `Slice` or `Order`; then for each tile upwards
    /// `Tile`. Returns `Memory` if an allocation fails, and never before `Chain`.
    pub fn decode_frame(&self, payload: &[u8]) -> Result<Frame, FrameFault>
        ensures frame { IfOk result (IsDecodedFrame self.now payload.now) }

        // Wherever the payload spells pictures, the result is the frame of them, or Memory.
        ensures found { (pictures : List Planes) → SpellsPictures self.now payload.now pictures
            → MatchResult result (IsFrameOf self.now (map Some pictures)) (λ fault. fault ≡ FrameFault.Memory) }

        ensures fault { IfErr result (IsFirstFault self.now payload.now) }
    {
        self.setup.keeps_profile();
        if !has_whole_chain(&self.setup, payload) {
            return Err(FrameFault::Chain);
        }
        let links = links_from_front(self.alloc, payload)?;
        check_order(&self.setup, &links)?;
        draw_links(self.alloc, &self.setup, &links)
    }
}

/// Whether the chain of a payload reaches its start, with as many links as there are tiles.
fn has_whole_chain(setup: &Setup, payload: &[u8]) -> bool
    ensures { IsTrue result ↔ HasWholeChain setup.now payload.now }
{
    match Chain::new(payload).end() {
        ChainEnd::Broken(_) => false,
        ChainEnd::Whole => Chain::new(payload).count() == setup.grid().tiles(),
    }
}

/// The links of a payload from its front.
fn links_from_front(alloc: Global, payload: &[u8]) -> Result<Vec<Link<'_>>, AllocError>
    ensures { IfOk result (λ links. links.items ≡ links_from_front payload.now) }
{
    let mut links: Vec<Link<'_>> = Chain::new(payload).collect(alloc)?;
    links.reverse();
    Ok(links)
}

/// Finds the first link that is no slice of the tile of its number.
fn check_order(setup: &Setup, links: &[Link<'_>]) -> Result<(), FrameFault>
    ensures ok { OnOk result (AreInOrderBefore setup.now links.now (length links.now)) }
    ensures err { IfErr result (IsFirstDisorder setup.now links.now) }
{
    for (place, link) in links.iter().enumerate() {
        match slice_of(setup, link) {
            Ok(tile) if tile == place => {}
            Ok(_) => return Err(FrameFault::Order { place }),
            Err(cause) => return Err(FrameFault::Slice { place, cause }),
        }
    }
    Ok(())
}

/// The frame of the pictures that slices spell, one for each tile.
fn draw_links(alloc: Global, setup: &Setup, links: &[Link<'_>]) -> Result<Frame, FrameFault>
    requires { length links.now ≡ tile_count (grid_of setup.now) }
    ensures ok { IfOk result (IsDrawnOf setup.now links.now (length links.now)) }
    ensures err { IfErr result (IsFirstUnreadable setup.now links.now) }
{
    let mut frame = Frame::blank(alloc, setup)?;
    for (tile, link) in links.iter().enumerate() {
        if let Err(cause) = draw_slice(alloc, setup, tile, link.bytes(), &mut frame) {
            return Err(fault_of_tile(tile, cause));
        }
    }
    Ok(frame)
}

/// The fault of a frame whose tile was not decoded.
fn fault_of_tile(tile: usize, cause: TileFault) -> FrameFault
    ensures { result ≡ fault_of_tile tile cause }
{
    match cause {
        TileFault::Memory => FrameFault::Memory,
        cause => FrameFault::Tile { tile, cause },
    }
}

/// Of a record of the profile, a payload that spells pictures has no fault, and none has two beside `Memory`.
pub fn faults_of_frames_are_one()
    ensures { FaultsOfFramesAreOne }
{}
