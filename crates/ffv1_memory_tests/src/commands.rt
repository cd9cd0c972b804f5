//! The functions of the commands, each on a recorded frame. After a refusal nothing was written, except by `run_merge`
//! a front of its file.
use crate::attempt::{Attempt, Tried};
use crate::buffer::Buffer;
use crate::stock::{SIZE, Stock, TORN_LIST, damaged_copies, first_copy, matroska, second_copy};
use ffv1_commands::{
    CliFault, run_any_picture, run_chain, run_check, run_decode, run_join, run_mend, run_merge,
    run_picture, run_report, run_restore, run_samples, run_scan, run_setup, run_show, run_splice,
    run_take,
};
use ffv1_holding::Recordings;
use ffv1_test_frames::{RECORDED, RECORDED_RECORD};
use std::alloc::Global;

/// What a command made and printed.
#[derive(Drop)]
struct Outputs {
    made: Buffer,
    printed: Buffer,
}

impl Outputs {
    fn new() -> Outputs {
        Outputs {
            made: Buffer::new(),
            printed: Buffer::new(),
        }
    }

    fn are_empty(&self) -> bool {
        self.made.is_empty() && self.printed.is_empty()
    }

    /// What the command came to, by what it returned.
    fn outcome(&self, returned: Result<(), CliFault>) -> Tried {
        match returned {
            Ok(()) => Tried::Done(
                self.made
                    .remainder()
                    .wrapping_mul(31)
                    .wrapping_add(self.printed.remainder()),
            ),
            Err(CliFault::Memory) => Tried::Memory,
            Err(_) => Tried::Wrong,
        }
    }
}

/// A command's function, and what it is made on.
#[derive(Clone, Copy)]
pub enum Command {
    /// `run_chain` of the frame.
    Chain,
    /// `run_show` of the record.
    Show,
    /// `run_setup` of the record.
    Setup,
    /// `run_take` of both copies.
    Take,
    /// `run_join` of the files of the first copy and of both.
    Join,
    /// `run_merge` of the files of the first copy and of both.
    Merge,
    /// `run_report` of the file of both copies.
    Report,
    /// `run_restore` of the file of both copies.
    Restore,
    /// `run_picture` of the file of both copies.
    Picture,
    /// `run_any_picture` of the file of both copies.
    AnyPicture,
    /// `run_splice` of both damaged copies.
    Splice,
    /// `run_scan` of the frame as one range.
    Scan,
    /// `run_check` of the file.
    Check,
    /// `run_mend` of both damaged copies as one stretch.
    Mend,
    /// `run_decode` of the frame.
    Decode,
    /// `run_samples` of the frame.
    Samples,
}

/// A command's function, with what it has made and printed.
#[derive(Drop)]
pub struct Run<'a> {
    command: Command,
    first_file: &'a [u8],
    both_file: &'a [u8],
    outputs: Outputs,
}

impl<'a> Run<'a> {
    /// The command, which has written nothing.
    pub fn new(command: Command, stock: &'a Stock) -> Run<'a> {
        Run {
            command,
            first_file: stock.alone.first.file.bytes(),
            both_file: stock.both.file.bytes(),
            outputs: Outputs::new(),
        }
    }

    /// Runs the command.
    fn run(&mut self, alloc: Global) -> Result<(), CliFault> {
        let (mut first, mut both) = (self.first_file, self.both_file);
        let Outputs { made, printed } = &mut self.outputs;
        let profile = Recordings::Profile;
        match self.command {
            Command::Chain => run_chain(alloc, &mut RECORDED.as_slice(), printed),
            Command::Show => show_record(alloc, printed),
            Command::Setup => setup_record(alloc, printed),
            Command::Take => take_both(alloc, made, printed),
            Command::Join => run_join(alloc, profile, &mut first, &mut [both], made, printed),
            Command::Merge => run_merge(alloc, profile, &mut first, &mut both, made),
            Command::Report => run_report(alloc, profile, &mut both, printed),
            Command::Restore => run_restore(alloc, profile, &mut both, made, printed),
            Command::Picture => unit(run_picture(alloc, &mut both, made, printed)),
            Command::AnyPicture => unit(run_any_picture(alloc, &mut both, made, printed)),
            Command::Splice => splice_damaged(alloc, made, printed),
            Command::Scan => scan_frame(alloc, printed),
            Command::Check => check_file(alloc, printed),
            Command::Mend => mend_damaged(alloc, made, printed),
            Command::Decode => decode_payload(alloc, made, printed),
            Command::Samples => play_payload(alloc, made, printed),
        }
    }
}

/// What a command returned, without whether all was found.
fn unit(returned: Result<bool, CliFault>) -> Result<(), CliFault> {
    match returned {
        Ok(_) => Ok(()),
        Err(fault) => Err(fault),
    }
}

/// `run_show` of the record.
fn show_record(alloc: Global, printed: &mut Buffer) -> Result<(), CliFault> {
    let mut record = RECORDED_RECORD.as_slice();
    run_show(alloc, &mut record, SIZE.0, SIZE.1, printed)
}

/// `run_setup` of the record.
fn setup_record(alloc: Global, printed: &mut Buffer) -> Result<(), CliFault> {
    let mut record = RECORDED_RECORD.as_slice();
    run_setup(alloc, &mut record, SIZE.0, SIZE.1, printed)
}

/// `run_take` of both copies.
fn take_both(alloc: Global, made: &mut Buffer, printed: &mut Buffer) -> Result<(), CliFault> {
    let (one, other) = (first_copy(), second_copy());
    let mut record = RECORDED_RECORD.as_slice();
    let mut copies = [one.as_slice(), other.as_slice()];
    unit(run_take(
        alloc,
        Recordings::Profile,
        &mut record,
        SIZE.0,
        SIZE.1,
        &mut copies,
        made,
        printed,
    ))
}

/// `run_splice` of both damaged copies.
fn splice_damaged(alloc: Global, made: &mut Buffer, printed: &mut Buffer) -> Result<(), CliFault> {
    let [one, other] = damaged_copies();
    let mut copies = [one.as_slice(), other.as_slice()];
    unit(run_splice(alloc, &mut copies, made, printed))
}

/// `run_scan` of the frame as one range.
fn scan_frame(alloc: Global, printed: &mut Buffer) -> Result<(), CliFault> {
    let (mut ranges, mut frame) = (b"0 336\n".as_slice(), RECORDED.as_slice());
    unit(run_scan(alloc, &mut ranges, &mut frame, printed))
}

/// `run_check` of the file.
fn check_file(alloc: Global, printed: &mut Buffer) -> Result<(), CliFault> {
    let file = matroska();
    let (mut first, mut second) = (file.as_slice(), file.as_slice());
    unit(run_check(alloc, &mut first, &mut second, printed))
}

/// `run_mend` of both damaged copies as one stretch.
fn mend_damaged(alloc: Global, made: &mut Buffer, printed: &mut Buffer) -> Result<(), CliFault> {
    let [one, other] = damaged_copies();
    let mut list = TORN_LIST;
    let copies = Vec::from_array(alloc, [one.as_slice(), other.as_slice()])?;
    unit(run_mend(alloc, &mut list, copies, made, printed))
}

/// `run_decode` of the frame.
fn decode_payload(alloc: Global, made: &mut Buffer, printed: &mut Buffer) -> Result<(), CliFault> {
    let (mut record, mut frame) = (RECORDED_RECORD.as_slice(), RECORDED.as_slice());
    run_decode(
        alloc,
        &mut record,
        SIZE.0,
        SIZE.1,
        &mut frame,
        made,
        printed,
    )
}

/// `run_samples` of the frame.
fn play_payload(alloc: Global, made: &mut Buffer, printed: &mut Buffer) -> Result<(), CliFault> {
    let mut record = RECORDED_RECORD.as_slice();
    let frames = Vec::from_array(alloc, [RECORDED.as_slice()])?;
    unit(run_samples(alloc, &mut record, SIZE.0, SIZE.1, frames, made, printed))
}

impl Attempt for Run<'_> {
    fn attempt(&mut self, alloc: Global) -> Tried {
        self.outputs = Outputs::new();
        let returned = self.run(alloc);
        self.outputs.outcome(returned)
    }

    fn is_kept(&self) -> bool {
        match self.command {
            Command::Merge => self.outputs.made.begins(self.both_file)
                && self.outputs.printed.is_empty(),
            _ => self.outputs.are_empty(),
        }
    }
}
