//! What a configuration record is read as (RFC 9043, sections 4.2 and 4.3): the setup of a recording of the profile, or any recording of
//! version 3.
ghost use Rattle.std.specs.Prelude.{◌≡◌};
ghost use Rattle.ffv1_range.specs.Setup.{SetupValue};
ghost use Rattle.ffv1_range.specs.TileHeaders.{TileRules, rules_of, profile_rules};

use crate::recording::Recording;
use crate::setup::Setup;

/// What a configuration record says: a `Setup`, which is of the profile, or a `Recording`.
pub trait Recorded: Drop {
    // the fields that both have
    ghost setup: { Self → SetupValue };

    // the rules of the slices of its frames
    ghost rules: { Self → TileRules };

    /// The same as a recording.
    fn recording(&self) -> &Recording
        ensures setup { result.now.setup ≡ setup self.now }
        ensures rules { rules_of result.now ≡ rules self.now };
}

impl Recorded for Setup {
    ghost setup = { λ setup. setup };

    ghost rules = { profile_rules };

    fn recording(&self) -> &Recording {
        Setup::recording(self)
    }
}

impl Recorded for Recording {
    ghost setup = { λ recording. recording.setup };

    ghost rules = { rules_of };

    fn recording(&self) -> &Recording {
        self
    }
}
