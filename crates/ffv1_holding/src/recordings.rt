//! Of which recordings holdings are made (own).
ghost use Rattle.std.specs.Prelude.{◌≡◌};
ghost use Rattle.ffv1_holding.specs.Recordings.{scope_of};

use ffv1_range::Scope;

/// Of which recordings holdings are made: without parities there is nothing by which a slice is known to be undamaged.
#[derive(Clone, Copy, Debug, PartialEq, Eq)]
pub enum Recordings {
    /// Of those of the profile.
    Profile,
    /// Of any of version 3 whose slices have parities.
    Any,
}

impl Recordings {
    /// Which configuration records are read.
    pub fn scope(self) -> Scope
        ensures { result ≡ scope_of self }
    {
        match self {
            Recordings::Profile => Scope::Profile,
            Recordings::Any => Scope::Parities,
        }
    }
}
