//! Values whose meaning is a set: one grows by another, or by many (own).
ghost use Rattle.std.specs.Prelude.{◌≡◌, ◌≢◌, ℕ, List, ◌+◌, ◌<◌, ◌^◌, length, take, slice_index_or, IfOk, IfErr, OnOk, OnErr};
ghost use Rattle.ffv1_holding.specs.Joins.{joined_all, AreJoinable, AreJoinableInPairs};
ghost use Rattle.ffv1_slice.specs.Members.{HasSameMembers};

use crate::fault::HoldFault;

/// A value whose meaning is a set, which grows by the meaning of another.
///
/// The laws are part of the trait: each implementation proves that joining commutes, groups, and repeats without
/// effect, and that a union can be joined with what its first part could be joined with.
pub trait Join {
    /// Whether the two can be joined.
    ghost joinable: { Self → Self → Type 0 };

    /// The value whose meaning is the union of the two.
    ghost union: { Self → Self → Self };

    /// How many members that part of the meaning has whose growth joining returns: all of it, or what an implementation
    /// names.
    ghost size: { Self → ℕ };

    /// Joins `other` into this one, and returns how many members of that part are new.
    ///
    /// Returns `OtherReel` exactly if the two cannot be joined, before any allocation; the only other refusal is `Memory`.
    /// After either this value is unchanged.
    fn join_with(&mut self, other: &Self) -> Result<usize, HoldFault>
        ensures joined { OnOk result (self.new ≡ union self.old other.now) }
        ensures growth { IfOk result (λ new. size self.new ≡ size self.old + new) }
        ensures fits { OnOk result (size self.new < 2 ^ 64) }
        ensures joinable { OnOk result (joinable self.old other.now) }

        ensures other_reel { result ≡ Err HoldFault.OtherReel → ¬ joinable self.old other.now }
        ensures memory { result ≡ Err HoldFault.Memory → joinable self.old other.now }
        ensures too_long { result ≢ Err HoldFault.PayloadTooLong }
        ensures err { OnErr result (self.new ≡ self.old) };

    ghost commutes: { (a b : Self) → joinable a b → union a b ≡ union b a };

    ghost groups: { (a b c : Self) → joinable a b → joinable b c → union (union a b) c ≡ union a (union b c) };

    ghost repeats: { (a b : Self) → union (union a b) b ≡ union a b };

    ghost stays_joinable: { (a b c : Self) → joinable a b → joinable a c → joinable (union a b) c };
}

/// Which of many values could not be joined, and why.
#[derive(Clone, Copy, Debug, PartialEq, Eq)]
pub struct JoinAllFault {
    /// The first `joined` values were joined, and no more.
    pub joined: usize,
    /// Why the next one was not: `OtherReel` or `Memory`.
    pub cause: HoldFault,
}

/// Joins each of `others` into `whole`, and returns how many members of the counted part are new. Where any two of them
/// can be joined, their order and their repetition do not matter.
///
/// It stops at the first that is refused: `whole` is then joined with just those before it, and the fault says how
/// many they are. The cause is `OtherReel` exactly where what `whole` came to cannot be joined with the next one; the
/// only other cause is `Memory`.
pub fn join_all<T: Join>(whole: &mut T, others: &[T]) -> Result<usize, JoinAllFault>
    ensures joined { OnOk result (whole.new ≡ joined_all T.union whole.old others.now) }
    // Others of the same members come to the same, in whatever order and however often.
    ensures same { (others' : List T) → HasSameMembers others.now others' → AreJoinableInPairs T.joinable whole.old others.now
        → OnOk result (whole.new ≡ joined_all T.union whole.old others') }
    ensures growth { IfOk result (λ new. T.size whole.new ≡ T.size whole.old + new) }
    ensures joinable { OnOk result (AreJoinable T.joinable T.union whole.old others.now) }

    ensures some { IfErr result (λ fault. (fault.joined < length others.now) × (whole.new ≡ joined_all T.union whole.old (take fault.joined others.now))) }
    ensures some_joinable { IfErr result (λ fault. AreJoinable T.joinable T.union whole.old (take fault.joined others.now)) }
    ensures other_reel { IfErr result (λ fault. fault.cause ≡ HoldFault.OtherReel → ¬ T.joinable whole.new (slice_index_or others.now fault.joined whole.new)) }
    ensures memory { IfErr result (λ fault. fault.cause ≡ HoldFault.Memory → T.joinable whole.new (slice_index_or others.now fault.joined whole.new)) }
    ensures too_long { IfErr result (λ fault. fault.cause ≢ HoldFault.PayloadTooLong) }
{
    let mut new = 0;
    for (joined, other) in others.iter().enumerate() {
        match whole.join_with(other) {
            Ok(more) => new += more,
            Err(cause) => return Err(JoinAllFault { joined, cause }),
        }
    }
    Ok(new)
}
