//! The files of a program by their paths (own): those that it reads, and those that it may make.
ghost use Rattle.std.specs.Prelude.{◌≡◌, ◌⊎◌, ℕ, List, Ok, Err, IfOk, IfErr};
ghost use Rattle.ffv1_program.specs.FilesAt.{FilesAt};
ghost use Rattle.ffv1_program.specs.Splicing.{IsUnmade};

use ffv1_commands::{CliFault, CommandPath};
use ffv1_devices::{Sink, Source};
use std::alloc::Global;
use std::io;

/// The files that are read, by their paths. Each is opened at its first read, or before that.
pub trait FileSystem<'a> {
    /// A file that is read as a source, which counts how its tries went.
    type Device: Source + Drop;

    /// The same through a buffer.
    type Buffered: Source + Drop;

    // the files by their paths
    ghost files: { Self → FilesAt Self.Device Self.Buffered };

    /// The file of this path as a source, not opened yet.
    fn device(&self, path: &'a str) -> Self::Device
        ensures at { (files self.now).is_device_at path.now result }
        ensures bytes { (Self.Device.log result).remaining ≡ (files self.now).bytes_at path.now };

    /// The file of this path as a source, opened: so that it is there to be read. Where that fails, the error is why.
    fn opened(&self, path: &'a str) -> io::Result<Self::Device>
        ensures at { IfOk result ((files self.now).is_opened_at path.now) }
        ensures bytes { IfOk result (λ device. (Self.Device.log device).remaining ≡ (files self.now).bytes_at path.now) }
        ensures failed { IfErr result (λ _. (files self.now).cannot_open_at path.now) };

    /// The file of this path as a source through a buffer of 8 KiB, not opened yet: short fields then take no call of the system each.
    /// Returns `Memory` if the buffer can't be allocated.
    fn buffered(&self, alloc: Global, path: &'a str) -> Result<Self::Buffered, CliFault>
        ensures at { IfOk result ((files self.now).is_buffered_at path.now) }
        ensures bytes { IfOk result (λ device. (Self.Buffered.log device).remaining ≡ (files self.now).bytes_at path.now) }
        ensures refused { IfErr result (λ fault. fault ≡ CliFault.Memory) };
}

/// A file that is made at its first write, as a sink, which counts how its tries went.
pub trait MakeFile: Sink {
    // this is the file of that path, which is not made yet
    ghost is_unmade_at: { Self → List ℕ → Type 0 };

    ghost is_made: { Self → Type 0 };

    // making it failed, and left it so
    ghost cannot_make: { Self → Type 0 };

    /// Makes the file, if it is not made yet: so a file of no bytes is made, to which nothing is written. That is no try of writing.
    fn make(&mut self) -> io::Result<()>
        ensures log { Self.log self.new ≡ Self.log self.old }
        ensures made { IfOk result (λ _. is_made self.new) }
        ensures failed { IfErr result (λ _. cannot_make self.new) };
}

/// The files that may be made, by their paths.
pub trait NewFiles<'a> {
    /// A file that is made.
    type Made: MakeFile + Drop;

    /// The file of this path, not made yet.
    fn unmade(&self, path: &'a str) -> Self::Made
        ensures { Self.Made.is_unmade_at result path.now };
}

/// What a command returns that makes its file even of no bytes: where all was done, the file is made, if it is not made yet. Where that
/// fails, the file is at fault.
pub(crate) fn make_after<O: MakeFile>(
    done: Result<bool, CliFault>,
    made: &mut O,
) -> Result<bool, CliFault>
    ensures log { O.log made.new ≡ O.log made.old }
    ensures ok { IfOk result (λ all. (done ≡ Ok all) × O.is_made made.new) }
    ensures err { IfErr result (λ fault. ((done ≡ Err fault) × (made.new ≡ made.old)) ⊎ IsUnmade (O.cannot_make made.new) (λ all. done ≡ Ok all) fault) }
{
    match done {
        Ok(all) => match made.make() {
            Ok(()) => Ok(all),
            Err(_) => Err(CliFault::Write(CommandPath::Out)),
        },
        Err(fault) => Err(fault),
    }
}
