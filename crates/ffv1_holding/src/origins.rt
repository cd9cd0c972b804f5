//! Which copies gave a slice that is held (own), by their SHA-256 digests.
ghost use Rattle.std.specs.Prelude.{◌≡◌, ◌<◌, ℕ, List, true, false, slice_index_or, IfSome, IfNone};
ghost use Rattle.ffv1_holding.specs.Sets as set;
ghost use Rattle.ffv1_holding.specs.Reels.{reel_tiles};
ghost use Rattle.ffv1_holding.specs.TileSets.{tile_slices};
ghost use Rattle.ffv1_holding.specs.Contents.{digests_of, AreDigests};

use crate::framed::Framed;
use crate::holding::Holding;

impl<S: Framed> Holding<S> {
    /// The SHA-256 digests of the whole copies that gave a slice of a tile, which is given with its footer: each once,
    /// rising by their bytes. Returns `None` exactly if that slice is not held of the tile. Tiles count from 0, row by
    /// row of the grid.
    ///
    /// A slice that came by `insert` has the digests that came with it, and may have none.
    pub fn origins(&self, tile: usize, slice: &[u8]) -> Option<&[[u8; 32]]>
        ensures digests { IfSome result (λ digests. digests.now ≡ digests_of self.now (tile, slice.now)) }
        ensures rising { IfSome result (λ digests. AreDigests digests.now) }
        ensures held { IfSome result (λ _. set.contains self.now.slices (tile, slice.now) ≡ true) }
        ensures absent { IfNone result (set.contains self.now.slices (tile, slice.now) ≡ false) }
    {
        self.held.origins(tile, slice)
    }

    /// The digests that `origins` returns for the slice of a tile at a place of the rising order of their bytes, which is the
    /// one that `slice` lends. Both count from 0; `tile` must be less than the number of tiles, and `place` less than
    /// `held(tile)`.
    pub fn origins_at(&self, tile: usize, place: usize) -> &[[u8; 32]]
        requires tile { tile < reel_tiles self.now.reel }
        requires place { place < set.size (tile_slices self.now.slices tile) }
        ensures digests { (d : List ℕ) → result.now
            ≡ digests_of self.now (tile, slice_index_or (set.items (tile_slices self.now.slices tile)) place d) }
        ensures rising { AreDigests result.now }
    {
        self.held.origins_at(tile, place)
    }
}
