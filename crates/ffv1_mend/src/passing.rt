//! The versions that pass a check.
ghost use Rattle.std.specs.Prelude.{◌≡◌, List};
ghost use Rattle.ffv1_weave.specs.References.{values_of};
ghost use Rattle.ffv1_splice.specs.Inner.Tally.{Tallies, TalliesMore};
ghost use Rattle.ffv1_mend.specs.Passing.{IsPassing};
ghost use Rattle.ffv1_mend.specs.Inner.Passing.{passing_counted};

use ffv1_weave::Check;

/// The versions that pass.
#[derive(Clone, Copy)]
pub(crate) enum Passing<'a> {
    /// None does.
    None,
    /// All that do are equal to this.
    One(&'a [u8]),
    /// Two that differ do.
    Two,
}

impl<'a> Passing<'a> {
    /// The same with one more version that passes.
    fn with(self, version: &'a [u8]) -> Passing<'a>
        ensures { TalliesMore (passing_counted self.entry) version.now (passing_counted result) }
    {
        match self {
            Passing::None => Passing::One(version),
            Passing::One(same) if same == version => self,
            _ => Passing::Two,
        }
    }
}

/// The versions that pass a check.
pub(crate) fn passing_of<'a>(check: Check, versions: &[&'a [u8]]) -> Passing<'a>
    ensures { Tallies (IsPassing check (values_of versions.now)) (passing_counted result) }
{
    let mut passing = Passing::None;
    for version in versions {
        if check.passes(version) {
            passing = passing.with(version);
        }
    }
    passing
}
