//! Inputs that a command reads in turn: readers, each read by a source of its own, or sources that the caller keeps (own).
ghost use Rattle.std.specs.Prelude.{◌≡◌, Option, List, ℕ};
ghost use Rattle.std.proofs.Common.{ap};
ghost use Rattle.ffv1_devices.specs.Logs.{ReadLog};
ghost use Rattle.ffv1_commands.specs.Inner.Devices.{ReadsWholeCopy, ReadsNamed};
ghost use Rattle.ffv1_commands.specs.Inner.Holdings.{ReadsHeld};
ghost use Rattle.ffv1_commands.specs.InTurn.{log_of};
ghost use Rattle.ffv1_commands.specs.Inner.Inputs.{Goes};

use crate::devices::{buffered, read_copy, read_file};
use crate::fault::CliFault;
use crate::holdings::read_holding;
use crate::path::CommandPath;
use ffv1_devices::{FromRead, Source};
use ffv1_hold::{Holding, Recordings};
use ffv1_range::Recording;
use std::alloc::Global;
use std::io::Read;

/// How the inputs of a type are read. The clauses speak of the log of a source that the input was read by.
pub(crate) trait Inputs<C> {
    /// The bytes that an input has left, if they are known.
    ghost remaining: { C → Option (List ℕ) };

    /// While the input came from the one to the other, the log of its source did.
    ghost went: { C → C → ReadLog → ReadLog → Type 0 };

    /// All bytes of the file that is this path of the command, as `read_file` has them.
    fn file(alloc: Global, input: &mut C, path: CommandPath) -> Result<Vec<u8>, CliFault>
        ensures { Goes went (ReadsNamed (λ v. v.items) path result) input.old input.new };

    /// All bytes of the copy that is this path of the command, as `read_copy` has them.
    fn copy(alloc: Global, input: &mut C, path: CommandPath) -> Result<Vec<u8>, CliFault>
        ensures { Goes went (ReadsWholeCopy (λ v. v.items) path result) input.old input.new };

    /// The holding of the file that is this path of the command, as `read_holding` has it.
    fn holding(
        alloc: Global,
        recordings: Recordings,
        input: &mut C,
        path: CommandPath,
    ) -> Result<Holding<Recording>, CliFault>
        ensures { Goes went (ReadsHeld recordings path result) input.old input.new };

    /// The source began with what the input had left.
    ghost left: { (old new : C) (a b : ReadLog) → went old new a b → a.remaining ≡ remaining old };
}

/// Readers: each is read by a source of its own, which begins without a failure, and is gone once the call ends, so the caller can't see its
/// tries.
pub(crate) struct Alone;

/// Sources that the caller keeps.
pub(crate) struct Kept;

impl<C: Read> Inputs<C> for Alone {
    ghost remaining = { C.remaining };

    ghost went = { λ old new a b. a ≡ log_of (C.remaining old) };

    ghost left = { λ old new a b began. ap (λ (log : ReadLog). log.remaining) began };

    fn file(alloc: Global, input: &mut C, path: CommandPath) -> Result<Vec<u8>, CliFault> {
        read_file(alloc, &mut FromRead::new(input), path)
    }

    fn copy(alloc: Global, input: &mut C, path: CommandPath) -> Result<Vec<u8>, CliFault> {
        read_copy(alloc, &mut FromRead::new(input), path)
    }

    fn holding(
        alloc: Global,
        recordings: Recordings,
        input: &mut C,
        path: CommandPath,
    ) -> Result<Holding<Recording>, CliFault> {
        read_holding(alloc, recordings, &mut buffered(alloc, input)?, path)
    }
}

impl<C: Source> Inputs<C> for Kept {
    ghost remaining = { λ input. (C.log input).remaining };

    ghost went = { λ old new a b. (a ≡ C.log old) × (b ≡ C.log new) };

    ghost left = { λ old new a b kept. ap (λ (log : ReadLog). log.remaining) kept.0 };

    fn file(alloc: Global, input: &mut C, path: CommandPath) -> Result<Vec<u8>, CliFault> {
        read_file(alloc, input, path)
    }

    fn copy(alloc: Global, input: &mut C, path: CommandPath) -> Result<Vec<u8>, CliFault> {
        read_copy(alloc, input, path)
    }

    fn holding(
        alloc: Global,
        recordings: Recordings,
        input: &mut C,
        path: CommandPath,
    ) -> Result<Holding<Recording>, CliFault> {
        read_holding(alloc, recordings, input, path)
    }
}
