//! Why a command stopped, and how that is reported.
ghost use Rattle.std.specs.Prelude.{◌≡◌, IfOk, string_bytes};
ghost use Rattle.ffv1_commands.specs.Fault.{named_path, fault_line, setup_fault_number, hold_fault_number, hold_file_fault_number, frame_fault_line, samples_fault_line, of_setup, of_hold, of_frame, of_restore, of_mend, of_play, of_reader, of_hold_file, of_merge, exit_status_of};
ghost use Rattle.ffv1_commands.specs.declared.fault.CliFault.TheVariants.{Memory};

use crate::path::CommandPath;
use ebml_reader::ReaderFault;
use ffv1_hold::{HoldFault, HoldFileFault, RestoreFault};
use ffv1_picture::FrameFault;
use ffv1_player::{PlayFault, SamplesFault};
use ffv1_range::SetupFault;
use ffv1_stretches::MendFault;
use std::alloc::{AllocError, AllocFailed, Global};

/// A fault of a command. That of a device says which path of the command it is.
#[derive(Debug, Drop)]
pub enum CliFault {
    /// The file could not be opened or read; or it is a record, the payload of `chain` or `decode`, a copy of `splice`, a frame of
    /// `samples`, the list of ranges of `scan` or the list of `mend`, and longer than 2^30 bytes; or it is the file of `check`,
    /// and has 2^62 bytes or more; or the file of `scan`, and ends before a range does, or a copy of `mend`, and ends within a stretch.
    Read(CommandPath),
    /// The file could not be made or written; or it is the one that `merge`, `mend` or `samples` makes, and an input by the same word.
    Write(CommandPath),
    /// The configuration record, with its width and height, gives no setup of the profile; that of `setup` or `samples` none of version 3.
    Setup(SetupFault),
    /// A copy of `take` is too long, or a holding file is of another record or size than the first. `Memory` is never this
    /// fault's cause.
    Hold(HoldFault),
    /// A holding file is none, or a holding has no file, or both files of `merge` are of another record or size.
    /// `Read`, `Write` and `Memory` are never this fault's cause.
    HoldFile(HoldFileFault),
    /// A payload is no frame. `Memory` is never this fault's cause.
    Frame(FrameFault),
    /// The payload of the frame of this number, counted from 1, gives no samples. `Memory` is never this fault's cause.
    Samples { number: usize, fault: SamplesFault },
    /// No slice of this tile is held, and every earlier tile is settled.
    Missing(usize),
    /// Several slices of this tile have the least error_status, and every earlier tile is settled.
    Disputed(usize),
    /// The line with this number, counted from 1, is the first of a list of ranges that is no range, or begins before the end of
    /// the one before it.
    Ranges(usize),
    /// The line with this number, counted from 1, is the first of the list of `mend` that is neither a stretch that follows those
    /// before it, nor a part of the element before it.
    List(usize),
    /// The copy is not as long as the first one.
    Splice(CommandPath),
    /// An allocation failed.
    Memory,
    /// The program's words name no command, or not exactly its words.
    Words,
}

impl CliFault {
    /// The path of the command that the fault names, if it names one.
    pub fn path(&self) -> Option<CommandPath>
        ensures { result ≡ named_path self.now }
    {
        match self {
            CliFault::Read(path) | CliFault::Write(path) | CliFault::Splice(path) => Some(*path),
            _ => None,
        }
    }

    /// The line that reports the fault, without the program's name and the line feed, where this is the text of the
    /// path that it names. It fails if an allocation fails.
    pub fn line(&self, alloc: Global, path: &str) -> Result<String, AllocError>
        ensures { IfOk result (λ line. string_bytes line ≡ fault_line path.now self.now) }
    {
        match self {
            CliFault::Read(_) => format!(in alloc; "cannot read {path}"),
            CliFault::Write(_) => format!(in alloc; "cannot write {path}"),
            CliFault::Setup(fault) => {
                let number = setup_fault_number(*fault);
                format!(in alloc; "setup fault {number}")
            }
            CliFault::Hold(fault) => {
                let number = hold_fault_number(*fault);
                format!(in alloc; "hold fault {number}")
            }
            CliFault::HoldFile(fault) => {
                let number = hold_file_fault_number(*fault);
                format!(in alloc; "holding file fault {number}")
            }
            CliFault::Frame(fault) => frame_fault_line(alloc, *fault),
            CliFault::Samples { number, fault } => samples_fault_line(alloc, *number, *fault),
            CliFault::Missing(tile) => format!(in alloc; "missing tile {tile}"),
            CliFault::Disputed(tile) => format!(in alloc; "disputed tile {tile}"),
            CliFault::Splice(_) => format!(in alloc; "cannot splice {path}"),
            CliFault::Ranges(line) => format!(in alloc; "ranges fault {line}"),
            CliFault::List(line) => format!(in alloc; "list fault {line}"),
            CliFault::Memory => String::from_str(alloc, "memory"),
            CliFault::Words => String::from_str(alloc, "words refused"),
        }
    }

    /// The program's exit status for the fault: 2 where the words were refused, else 1.
    pub fn status(&self) -> u8
        ensures { result ≡ exit_status_of self.now }
    {
        match self {
            CliFault::Words => 2,
            _ => 1,
        }
    }
}

impl From<SetupFault> for CliFault {
    ghost from_gives = { λ fault result. result ≡ of_setup fault };

    /// Memory is reported as `Memory`.
    fn from(fault: SetupFault) -> CliFault {
        match fault {
            SetupFault::Memory => CliFault::Memory,
            fault => CliFault::Setup(fault),
        }
    }
}

impl From<HoldFault> for CliFault {
    ghost from_gives = { λ fault result. result ≡ of_hold fault };

    /// Memory is reported as `Memory`.
    fn from(fault: HoldFault) -> CliFault {
        match fault {
            HoldFault::Memory => CliFault::Memory,
            fault => CliFault::Hold(fault),
        }
    }
}

impl From<FrameFault> for CliFault {
    ghost from_gives = { λ fault result. result ≡ of_frame fault };

    /// Memory is reported as `Memory`.
    fn from(fault: FrameFault) -> CliFault {
        match fault {
            FrameFault::Memory => CliFault::Memory,
            fault => CliFault::Frame(fault),
        }
    }
}

impl From<RestoreFault> for CliFault {
    ghost from_gives = { λ fault result. result ≡ of_restore fault };

    /// Memory is reported as `Memory`.
    fn from(fault: RestoreFault) -> CliFault {
        match fault {
            RestoreFault::Missing(tile) => CliFault::Missing(tile),
            RestoreFault::Disputed(tile) => CliFault::Disputed(tile),
            RestoreFault::Memory => CliFault::Memory,
        }
    }
}

impl From<MendFault> for CliFault {
    ghost from_gives = { λ fault result. result ≡ of_mend fault };

    /// A device is reported by its path, and memory as `Memory`.
    fn from(fault: MendFault) -> CliFault {
        match fault {
            MendFault::Read(copy) => CliFault::Read(CommandPath::Copy(copy)),
            MendFault::Out => CliFault::Write(CommandPath::Out),
            MendFault::Output => CliFault::Write(CommandPath::StandardOutput),
            MendFault::Memory => CliFault::Memory,
        }
    }
}

impl From<PlayFault> for CliFault {
    ghost from_gives = { λ fault result. result ≡ of_play fault };

    /// A device is reported by its path, and memory as `Memory`.
    fn from(fault: PlayFault) -> CliFault {
        match fault {
            PlayFault::Read(place) => CliFault::Read(CommandPath::Copy(place)),
            PlayFault::Samples { number, fault } => CliFault::Samples { number, fault },
            PlayFault::Out => CliFault::Write(CommandPath::Out),
            PlayFault::Output => CliFault::Write(CommandPath::StandardOutput),
            PlayFault::Memory => CliFault::Memory,
        }
    }
}

impl From<ReaderFault> for CliFault {
    ghost from_gives = { λ fault result. result ≡ of_reader fault };

    /// The file is reported by its path, and memory as `Memory`.
    fn from(fault: ReaderFault) -> CliFault {
        match fault {
            ReaderFault::Read => CliFault::Read(CommandPath::File),
            ReaderFault::Memory => CliFault::Memory,
        }
    }
}

impl From<AllocError> for CliFault {
    ghost from_gives = { λ _ result. result ≡ Memory };

    fn from(_refusal: AllocError) -> CliFault {
        CliFault::Memory
    }
}

impl<T: Drop> From<AllocFailed<T>> for CliFault {
    ghost from_gives = { λ _ result. result ≡ Memory };

    fn from(_refusal: AllocFailed<T>) -> CliFault {
        CliFault::Memory
    }
}

/// The fault of the holding file that is this path of the command: those of its device are reported by this path, and
/// memory as `Memory`.
pub(crate) fn of_hold_file(path: CommandPath, fault: HoldFileFault) -> CliFault
    ensures { result ≡ of_hold_file path fault }
{
    match fault {
        HoldFileFault::Read => CliFault::Read(path),
        HoldFileFault::Write => CliFault::Write(path),
        HoldFileFault::Memory => CliFault::Memory,
        fault => CliFault::HoldFile(fault),
    }
}

/// The fault of two holding files that are joined as streams: those of the devices are reported by their paths, and memory
/// as `Memory`.
pub(crate) fn of_merge(fault: HoldFileFault) -> CliFault
    ensures { result ≡ of_merge fault }
{
    match fault {
        HoldFileFault::Read => CliFault::Read(CommandPath::Inputs),
        HoldFileFault::Write => CliFault::Write(CommandPath::Out),
        HoldFileFault::Memory => CliFault::Memory,
        fault => CliFault::HoldFile(fault),
    }
}

/// The number of a holding's fault.
fn hold_fault_number(fault: HoldFault) -> u32
    ensures { result ≡ hold_fault_number fault }
{
    match fault {
        HoldFault::OtherReel => 1,
        HoldFault::PayloadTooLong => 2,
        HoldFault::Memory => 3,
    }
}

/// The number of a holding file's fault.
fn hold_file_fault_number(fault: HoldFileFault) -> u32
    ensures { result ≡ hold_file_fault_number fault }
{
    match fault {
        HoldFileFault::Magic => 1,
        HoldFileFault::Setup(_) => 2,
        HoldFileFault::Truncated => 3,
        HoldFileFault::Tag => 4,
        HoldFileFault::Order => 5,
        HoldFileFault::NotASlice => 6,
        HoldFileFault::Trailing => 7,
        HoldFileFault::Read => 8,
        HoldFileFault::Write => 9,
        HoldFileFault::Memory => 10,
        HoldFileFault::TooLong => 11,
        HoldFileFault::OtherReel => 12,
    }
}

/// The number of a setup's fault.
fn setup_fault_number(fault: SetupFault) -> u32
    ensures { result ≡ setup_fault_number fault }
{
    match fault {
        SetupFault::TooShort => 1,
        SetupFault::Parity => 2,
        SetupFault::Range(_) => 3,
        SetupFault::Version => 4,
        SetupFault::Micro => 5,
        SetupFault::Coder => 6,
        SetupFault::ColorSpace => 7,
        SetupFault::Depth => 8,
        SetupFault::ExtraPlane => 9,
        SetupFault::Subsampling => 10,
        SetupFault::GridTooFine => 11,
        SetupFault::TooManyTiles => 12,
        SetupFault::TableCount => 13,
        SetupFault::TableRun => 14,
        SetupFault::Contexts => 15,
        SetupFault::ParityMode => 16,
        SetupFault::Size => 17,
        SetupFault::Memory => 18,
    }
}

/// The line that reports a frame's fault: its number, and its place in slices from the payload's front, or its tile.
fn frame_fault_line(alloc: Global, fault: FrameFault) -> Result<String, AllocError>
    ensures { IfOk result (λ line. string_bytes line ≡ frame_fault_line fault) }
{
    match fault {
        FrameFault::Chain => String::from_str(alloc, "frame fault 1"),
        FrameFault::Slice { place, .. } => format!(in alloc; "frame fault 2 at {place}"),
        FrameFault::Order { place } => format!(in alloc; "frame fault 3 at {place}"),
        FrameFault::Tile { tile, .. } => format!(in alloc; "frame fault 4 at {tile}"),
        FrameFault::Memory => String::from_str(alloc, "frame fault 5"),
    }
}

/// The line that reports why a frame gives no samples: the fault's number, the frame's, from 1, and the place of the slice, in slices from
/// the payload's front, or the tile.
fn samples_fault_line(
    alloc: Global,
    number: usize,
    fault: SamplesFault,
) -> Result<String, AllocError>
    ensures { IfOk result (λ line. string_bytes line ≡ samples_fault_line number fault) }
{
    match fault {
        SamplesFault::Chain => format!(in alloc; "samples fault 1 in frame {number}"),
        SamplesFault::Slice { place, .. } => {
            format!(in alloc; "samples fault 2 in frame {number} at {place}")
        }
        SamplesFault::Overlap { place } => {
            format!(in alloc; "samples fault 3 in frame {number} at {place}")
        }
        SamplesFault::Uncovered { tile } => {
            format!(in alloc; "samples fault 4 in frame {number} at {tile}")
        }
        SamplesFault::Previous { place } => {
            format!(in alloc; "samples fault 5 in frame {number} at {place}")
        }
        SamplesFault::Content { place, .. } => {
            format!(in alloc; "samples fault 6 in frame {number} at {place}")
        }
        SamplesFault::Memory => format!(in alloc; "samples fault 7 in frame {number}"),
    }
}
