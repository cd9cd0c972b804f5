//! What a holding says of its tiles, and the payload that it restores (own). A slice's error_status is the byte of
//! its footer after the three of its size (RFC 9043, sections 4.9.1 and 4.9.2).
ghost use Rattle.std.specs.Prelude.{◌≡◌, ◌<◌, ℕ, List, slice_index_or, IfOk, IfErr, OnOk, OnErr};
ghost use Rattle.ffv1_slice.specs.Slices.{IsOriginal};
ghost use Rattle.ffv1_holding.specs.Sets as set;
ghost use Rattle.ffv1_holding.specs.Reels.{reel_tiles};
ghost use Rattle.ffv1_holding.specs.TileSets.{tile_slices};
ghost use Rattle.ffv1_holding.specs.TileState.{tile_state, IsLeastStatus, AreSettled, restored_payload};
ghost use Rattle.ffv1_holding.specs.TileStates.{state_shown};
ghost use Rattle.ffv1_holding.specs.Refusals.{IsRefusal};
ghost use Rattle.ffv1_holding.specs.Contents.{slices_of_copies};
ghost use Rattle.ffv1_holding.specs.Originals.{AreNear, HoldsExactly};
ghost use Rattle.ffv1_holding.specs.Small.{IsRestoredFrom};
ghost use Rattle.ffv1_holding.specs.SmallNotions.{tile_by};

use crate::framed::Framed;
use crate::holding::Holding;
use crate::standing::{TileState, least_status, state};
use std::alloc::AllocError;

/// Why there is no restored payload.
#[derive(Clone, Copy, Debug, PartialEq, Eq)]
pub enum RestoreFault {
    /// No slice of this tile is held. No earlier tile is unsettled.
    Missing(usize),
    /// Several slices of this tile have the least error_status. No earlier tile is unsettled.
    Disputed(usize),
    /// An allocation of memory failed.
    Memory,
}

impl From<AllocError> for RestoreFault {
    ghost use Rattle.std.specs.Prelude.{◌≡◌};
    ghost use Rattle.ffv1_holding.specs.declared.restore.RestoreFault.TheVariants.{Memory};

    ghost from_gives = { λ _ e. e ≡ Memory };

    fn from(_refusal: AllocError) -> RestoreFault {
        RestoreFault::Memory
    }
}

impl<S: Framed> Holding<S> {
    /// How many slices are held, of all tiles.
    pub fn size(&self) -> usize
        ensures { result ≡ set.size self.now.slices }
    {
        self.held.size()
    }

    /// How many slices of a tile are held. Tiles count from 0, row by row of the grid; `tile` must be less than their
    /// number.
    pub fn held(&self, tile: usize) -> usize
        requires { tile < reel_tiles self.now.reel }
        ensures { result ≡ set.size (tile_slices self.now.slices tile) }
    {
        self.held.of_tile(tile).len()
    }

    /// A slice that is held of a tile, by its place in the rising order of their bytes. Both count from 0; `tile`
    /// must be less than the number of tiles, and `place` less than `held(tile)`.
    pub fn slice(&self, tile: usize, place: usize) -> &[u8]
        requires tile { tile < reel_tiles self.now.reel }
        requires place { place < set.size (tile_slices self.now.slices tile) }
        ensures { result.now ≡ slice_index_or (set.items (tile_slices self.now.slices tile)) place result.now }
    {
        self.held.of_tile(tile).get(place)
    }

    /// The least error_status (RFC 9043, section 4.9.2) of the slices that are held of a tile, or `None` where none
    /// is held. `tile` must be less than the number of tiles.
    pub fn status(&self, tile: usize) -> Option<u8>
        requires { tile < reel_tiles self.now.reel }
        ensures { IsLeastStatus (set.items (tile_slices self.now.slices tile)) result }
    {
        least_status(&self.held.of_tile(tile))
    }

    /// How a tile stands, by its slices of the least error_status. `tile` must be less than the number of tiles.
    pub fn state(&self, tile: usize) -> TileState<'_>
        requires { tile < reel_tiles self.now.reel }
        ensures { state_shown result ≡ tile_state self.now tile }
    {
        state(&self.held.of_tile(tile))
    }

    /// The settled slices, joined in tile order: the frame's payload.
    ///
    /// Returns `Missing` or `Disputed` exactly if a tile is not settled, for the first such tile, before any allocation.
    /// `Memory` is returned only if every tile is settled. The holding is unchanged in any case.
    pub fn restore(&self) -> Result<Vec<u8>, RestoreFault>
        ensures ok { IfOk result (λ payload. payload.items ≡ restored_payload self.now) }
        ensures settled { OnOk result (AreSettled self.now) }
        ensures refused { IfErr result (IsRefusal self.now) }

        // Where just the original's slices are held, no other payload is returned, and the only refusal is `Memory`.
        ensures original { (payload : List ℕ) (slices : List (List ℕ)) → IsOriginal self.now.reel.rules payload slices → HoldsExactly self.now slices
            → IfOk result (λ restored. restored.items ≡ payload) }
        ensures original_settled { (payload : List ℕ) (slices : List (List ℕ)) → IsOriginal self.now.reel.rules payload slices → HoldsExactly self.now slices
            → OnErr result (result ≡ Err RestoreFault.Memory) }

        // Where what is held is of copies that are near an original, with each of its slices intact in one of them, no other payload is
        // returned, and the only refusal is `Memory`.
        ensures near { (payload : List ℕ) (slices copies : List (List ℕ)) → AreNear self.now.reel.rules payload slices copies
            → self.now.slices ≡ slices_of_copies self.now.reel.rules copies → IfOk result (λ restored. restored.items ≡ payload) }
        ensures near_settled { (payload : List ℕ) (slices copies : List (List ℕ)) → AreNear self.now.reel.rules payload slices copies
            → self.now.slices ≡ slices_of_copies self.now.reel.rules copies → OnErr result (result ≡ Err RestoreFault.Memory) }

        // Where just what is found in copies is held, what is returned is what is restored from the copies, and where a payload is restored
        // from them, the only refusal is `Memory`.
        ensures of_copies { (copies : List (List ℕ)) → self.now.slices ≡ slices_of_copies self.now.reel.rules copies
            → IfOk result (λ payload. IsRestoredFrom (tile_by self.now.reel.rules) (reel_tiles self.now.reel) copies payload.items) }
        ensures of_copies_settled { (copies : List (List ℕ)) (payload : List ℕ) → self.now.slices ≡ slices_of_copies self.now.reel.rules copies
            → IsRestoredFrom (tile_by self.now.reel.rules) (reel_tiles self.now.reel) copies payload → OnErr result (result ≡ Err RestoreFault.Memory) }
    {
        for tile in 0..self.held.tiles() {
            match self.state(tile) {
                TileState::Settled(_) => {}
                TileState::Missing => return Err(RestoreFault::Missing(tile)),
                TileState::Disputed(_) => return Err(RestoreFault::Disputed(tile)),
            }
        }
        self.joined_slices()
    }

    /// The slices of the settled tiles, joined in tile order.
    fn joined_slices(&self) -> Result<Vec<u8>, RestoreFault>
        ensures ok { IfOk result (λ payload. payload.items ≡ restored_payload self.now) }
        ensures memory { OnErr result (result ≡ Err RestoreFault.Memory) }
    {
        let mut payload = Vec::new(self.held.alloc());
        for tile in 0..self.held.tiles() {
            if let TileState::Settled(slice) = self.state(tile) {
                payload.extend_from_slice(slice)?;
            }
        }
        Ok(payload)
    }
}
