//! What a recording and its pictures are to be.

/// What a recording's record is to say (RFC 9043, sections 4.2 and 4.3). Its version is 3.
#[derive(Drop)]
pub struct RecordingSpec {
    /// micro_version, at least 4.
    pub micro: u32,
    /// coder_type: 0 for Golomb-Rice codes, 1 for range coding by the default transitions, 2 for range coding by the record's own.
    pub coder: u32,
    /// state_transition_delta of the states 1 to 255, with coder_type 2, modulo 256. Those that are left out are 0.
    pub deltas: Vec<i32>,
    /// Whether the planes are G, B and R, and not Y, Cb and Cr. Then `has_chroma` has to be true.
    pub is_rgb: bool,
    /// bits_per_raw_sample: 8 to 16, or 0, which says 8.
    pub raw_depth: u32,
    /// chroma_planes.
    pub has_chroma: bool,
    /// log2_h_chroma_subsample.
    pub shift_h: u32,
    /// log2_v_chroma_subsample.
    pub shift_v: u32,
    /// extra_plane: whether the last plane is alpha.
    pub has_alpha: bool,
    /// The tiles across, at least 1.
    pub across: u32,
    /// The tiles down, at least 1.
    pub down: u32,
    /// The sets of quantization tables, 1 to 8.
    pub sets: Vec<SetSpec>,
    /// ec: 1 where each slice has its parity, and 0 where none has.
    pub ec: u32,
    /// intra.
    pub intra: u32,
}

/// What a set of quantization tables is to be.
#[derive(Drop)]
pub struct SetSpec {
    /// Its five tables, by the lengths of their runs in entries, each at least 1 (RFC 9043, section 4.9).
    pub tables: Vec<Vec<u32>>,
    /// The initial states of its contexts (RFC 9043, section 4.2.15). Where there are none, states_coded is 0.
    pub states: Vec<[u8; 32]>,
}

/// What a frame is to be.
#[derive(Drop)]
pub struct PictureSpec {
    /// Whether it is a keyframe.
    pub key: bool,
    /// Its slices, in the payload's order.
    pub slices: Vec<SliceSpec>,
    /// The samples of each plane, row by row: Y, or Y, Cb and Cr, or G, B and R; then alpha. Chroma places that no slice covers have to have
    /// 2^(depth - 1).
    pub planes: Vec<Vec<u16>>,
}

/// What a slice is to be.
#[derive(Clone, Copy)]
pub struct SliceSpec {
    /// The column of its first tile.
    pub x: u32,
    /// The row of its first tile.
    pub y: u32,
    /// Its tiles across, at least 1.
    pub w: u32,
    /// Its tiles down, at least 1.
    pub h: u32,
    /// The sets of quantization tables of the first plane, of the second and third, and of alpha.
    pub tables: [u32; 3],
    /// The error status in its footer, where the recording has parities.
    pub status: u8,
}
