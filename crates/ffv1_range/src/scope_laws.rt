//! Laws of records in every scope (RFC 9043, sections 4.2 and 4.3).
ghost use Rattle.ffv1_range.specs.ScopeLaws.{OneScopedRefusal, ParitiesAreOfEc1};

/// In each scope a record and size say something of a recording, or have exactly one first fault, which is not `Memory`: so two refusals of one
/// record by `read_scoped` in one scope are equal, but for `Memory`.
pub fn one_scoped_refusal()
    ensures { OneScopedRefusal }
{}

/// A record and size say something of a recording with parities exactly if they say the same of one of version 3 with ec 1.
pub fn parities_are_of_ec_1()
    ensures { ParitiesAreOfEc1 }
{}
