//! Which recordings are read: those of the profile, those with parities, or all of version 3.
ghost use Rattle.std.specs.Prelude.{◌≡◌};
ghost use Rattle.ffv1_range.specs.Scopes.{accepts_coder, accepts_space, accepts_depth, greatest_shift, accepts_extra_plane, accepts_ec, accepts_key};

/// Which configuration records are read: by the values of some of their fields.
#[derive(Clone, Copy, Debug, PartialEq, Eq)]
pub enum Scope {
    /// The profile: Golomb-Rice codes, 8 bits a sample, gray or Y Cb Cr with chroma shifts of at most 2, and slices with a parity.
    Profile,
    /// Every recording of version 3 whose slices have parities.
    Parities,
    /// Every recording of version 3.
    Version3,
}

impl Scope {
    /// Whether this coder_type is accepted.
    pub(crate) fn accepts_coder(self, coder: u32) -> bool
        ensures { result ≡ accepts_coder self coder }
    {
        match self {
            Scope::Profile => coder == 0,
            Scope::Parities | Scope::Version3 => coder <= 2,
        }
    }

    /// Whether this colorspace_type is accepted.
    pub(crate) fn accepts_space(self, space: u32) -> bool
        ensures { result ≡ accepts_space self space }
    {
        match self {
            Scope::Profile => space == 0,
            Scope::Parities | Scope::Version3 => space <= 1,
        }
    }

    /// Whether this bits_per_raw_sample is accepted.
    pub(crate) fn accepts_depth(self, depth: u32) -> bool
        ensures { result ≡ accepts_depth self depth }
    {
        match self {
            Scope::Profile => depth == 0 || depth == 8,
            Scope::Parities | Scope::Version3 => depth == 0 || (8 <= depth && depth <= 16),
        }
    }

    /// The greatest shift of chroma planes, at this colorspace_type.
    pub(crate) fn greatest_shift(self, space: u32) -> u32
        ensures { result ≡ greatest_shift self space }
    {
        match self {
            Scope::Profile => 2,
            _ if space == 0 => 4,
            _ => 0,
        }
    }

    /// Whether extra_plane may be this.
    pub(crate) fn accepts_extra_plane(self, extra: bool) -> bool
        ensures { result ≡ accepts_extra_plane self extra }
    {
        match self {
            Scope::Profile => !extra,
            Scope::Parities | Scope::Version3 => true,
        }
    }

    /// Whether this ec is accepted.
    pub(crate) fn accepts_ec(self, ec: u32) -> bool
        ensures { result ≡ accepts_ec self ec }
    {
        match self {
            Scope::Profile => ec == 1,
            Scope::Parities => ec == 1,
            Scope::Version3 => ec <= 1,
        }
    }

    /// Whether a frame's keyframe bit may be this.
    pub(crate) fn accepts_key(self, key: bool) -> bool
        ensures { result ≡ accepts_key self key }
    {
        match self {
            Scope::Profile => key,
            Scope::Parities | Scope::Version3 => true,
        }
    }
}
