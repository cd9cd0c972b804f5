//! The commands on devices that fail after any number of bytes: which path is named, and what is left in the outputs.
use crate::commands::taken;
use crate::suite::merged;
use ffv1_commands::{
    CliFault, CommandPath, run_any_picture, run_chain, run_check, run_decode, run_join, run_merge,
    run_picture, run_report, run_restore, run_samples, run_setup, run_show, run_splice, run_take,
};
use ffv1_hold::HoldFileFault;
use ffv1_holding::Recordings;
use ffv1_test_frames::{FRAME, LEFT_DAMAGED, Narrow, TWO_TILES};
use std::alloc::Global;
use std::io;
use std::io::{ErrorKind, Read, Write};

/// What an input does after its bytes.
#[derive(Clone, Copy)]
enum After {
    /// It ends.
    End,
    /// It fails.
    Failure,
    /// It gives zeros, and never ends.
    Zeros,
}

/// A reader of bytes, after so many interruptions in a row.
#[derive(Drop)]
pub(crate) struct Input<'a> {
    bytes: &'a [u8],
    /// The most bytes that it gives at a time.
    most: usize,
    pub(crate) interruptions: u32,
    /// The interruptions that come in a row before each of its later reads.
    later_interruptions: u32,
    after: After,
}

impl<'a> Input<'a> {
    pub(crate) fn new(bytes: &'a [u8]) -> Input<'a> {
        Input {
            bytes,
            most: usize::MAX,
            interruptions: 0,
            later_interruptions: 0,
            after: After::End,
        }
    }

    /// One that gives a byte at a time, each after so many interruptions in a row.
    pub(crate) fn interrupted(bytes: &'a [u8], before_each: u32) -> Input<'a> {
        Input {
            bytes,
            most: 1,
            interruptions: before_each,
            later_interruptions: before_each,
            after: After::End,
        }
    }

    /// One that goes on with zeros and never ends.
    pub(crate) fn endless(bytes: &'a [u8]) -> Input<'a> {
        let mut input = Input::new(bytes);
        input.after = After::Zeros;
        input
    }

    /// Has it fail after so many bytes.
    pub(crate) fn fail_after(&mut self, room: usize) {
        self.bytes = self.bytes.get(..room).unwrap_or(&[]);
        self.after = After::Failure;
    }
}

impl Read for Input<'_> {
    fn read(&mut self, buf: &mut [u8]) -> io::Result<usize> {
        if self.interruptions > 0 {
            self.interruptions -= 1;
            return Err(io::Error::from(ErrorKind::Interrupted));
        }
        self.interruptions = self.later_interruptions;
        let most = self.most.min(buf.len());
        let count = self.bytes.read(&mut buf[..most])?;
        match self.after {
            After::Failure if count == 0 => Err(io::Error::from(ErrorKind::Other)),
            After::Zeros if count == 0 => {
                buf.fill(0);
                Ok(buf.len())
            }
            _ => Ok(count),
        }
    }
}

/// A writer that is interrupted so many times in a row, and then takes one byte at a time, so many in all.
#[derive(Drop)]
pub(crate) struct Output {
    pub(crate) narrow: Narrow,
    pub(crate) interruptions: u32,
}

impl Output {
    pub(crate) fn new(alloc: Global) -> Output {
        Output {
            narrow: Narrow::new(alloc, usize::MAX, ErrorKind::StorageFull),
            interruptions: 0,
        }
    }
}

impl Write for Output {
    fn write(&mut self, buf: &[u8]) -> io::Result<usize> {
        if self.interruptions > 0 {
            self.interruptions -= 1;
            return Err(io::Error::from(ErrorKind::Interrupted));
        }
        self.narrow.write(buf)
    }

    fn flush(&mut self) -> io::Result<()> {
        self.narrow.flush()
    }
}

/// A command.
#[derive(Clone, Copy, Debug)]
enum Command {
    Chain,
    Check,
    Show,
    Setup,
    Take,
    Join,
    Merge,
    Report,
    Restore,
    Picture,
    AnyPicture,
    Splice,
    Decode,
    Samples,
}

static COMMANDS: [Command; 14] = [
    Command::Chain,
    Command::Check,
    Command::Show,
    Command::Setup,
    Command::Take,
    Command::Join,
    Command::Merge,
    Command::Report,
    Command::Restore,
    Command::Picture,
    Command::AnyPicture,
    Command::Splice,
    Command::Decode,
    Command::Samples,
];

impl Command {
    /// The paths of its inputs.
    fn paths(self) -> (CommandPath, Option<CommandPath>) {
        match self {
            Command::Chain => (CommandPath::Frame, None),
            Command::Check => (CommandPath::File, Some(CommandPath::File)),
            Command::Show | Command::Setup => (CommandPath::Record, None),
            Command::Take | Command::Samples => (CommandPath::Record, Some(CommandPath::Copy(0))),
            Command::Splice => (CommandPath::Copy(0), Some(CommandPath::Copy(1))),
            Command::Decode => (CommandPath::Record, Some(CommandPath::Frame)),
            Command::Join => (CommandPath::Hold(0), Some(CommandPath::Hold(1))),
            Command::Merge => (CommandPath::Inputs, Some(CommandPath::Inputs)),
            Command::Report | Command::Restore | Command::Picture | Command::AnyPicture => {
                (CommandPath::Hold(0), None)
            }
        }
    }

    /// What its inputs have: nothing where it has one alone.
    fn inputs<'a>(self, files: &'a Files) -> (&'a [u8], &'a [u8]) {
        match self {
            Command::Chain => (&FRAME, &[]),
            Command::Show | Command::Setup => (&TWO_TILES, &[]),
            Command::Take | Command::Decode | Command::Samples => (&TWO_TILES, &FRAME),
            Command::Check | Command::Splice => (&FRAME, &FRAME),
            Command::Join | Command::Merge => (&files.part, &files.whole),
            Command::Report | Command::Restore => (&files.whole, &[]),
            Command::Picture | Command::AnyPicture => (&files.part, &[]),
        }
    }
}

/// The holding files of the second tile, of both, and of the union of these two.
#[derive(Drop)]
struct Files {
    part: Vec<u8>,
    whole: Vec<u8>,
    union: Vec<u8>,
}

/// Runs `samples` of one frame.
fn play_one<'a>(
    alloc: Global,
    record: &mut Input<'a>,
    frame: Input<'a>,
    out: &mut Output,
    printed: &mut Output,
) -> Result<(), CliFault> {
    let frames = Vec::from_array(alloc, [frame])?;
    match run_samples(alloc, record, 2, 1, frames, out, printed) {
        Ok(_) => Ok(()),
        Err(fault) => Err(fault),
    }
}

/// `run_take` of one copy.
fn take_one<'a>(
    alloc: Global,
    record: &mut Input<'a>,
    copy: Input<'a>,
    out: &mut Output,
    printed: &mut Output,
) -> Result<(), CliFault> {
    let recordings = Recordings::Profile;
    match run_take(alloc, recordings, record, 2, 1, &mut [copy], out, printed) {
        Ok(_) => Ok(()),
        Err(fault) => Err(fault),
    }
}

/// Runs a command; the second input is left alone where it has one alone.
fn run<'a>(
    alloc: Global,
    command: Command,
    mut first: Input<'a>,
    mut second: Input<'a>,
    out: &mut Output,
    printed: &mut Output,
) -> Result<(), CliFault> {
    let profile = Recordings::Profile;
    match command {
        Command::Chain => run_chain(alloc, &mut first, printed),
        Command::Check => match run_check(alloc, &mut first, &mut second, printed) {
            Ok(_) => Ok(()),
            Err(fault) => Err(fault),
        },
        Command::Show => run_show(alloc, &mut first, 2, 1, printed),
        Command::Setup => run_setup(alloc, &mut first, 2, 1, printed),
        Command::Take => take_one(alloc, &mut first, second, out, printed),
        Command::Join => run_join(alloc, profile, &mut first, &mut [second], out, printed),
        Command::Merge => run_merge(alloc, profile, &mut first, &mut second, out),
        Command::Report => run_report(alloc, profile, &mut first, printed),
        Command::Restore => run_restore(alloc, profile, &mut first, out, printed),
        Command::Picture => match run_picture(alloc, &mut first, out, printed) {
            Ok(_) => Ok(()),
            Err(fault) => Err(fault),
        },
        Command::AnyPicture => match run_any_picture(alloc, &mut first, out, printed) {
            Ok(_) => Ok(()),
            Err(fault) => Err(fault),
        },
        Command::Splice => match run_splice(alloc, &mut [first, second], out, printed) {
            Ok(_) => Ok(()),
            Err(fault) => Err(fault),
        },
        Command::Decode => run_decode(alloc, &mut first, 2, 1, &mut second, out, printed),
        Command::Samples => play_one(alloc, &mut first, second, out, printed),
    }
}

/// The holding file of a copy, if it is taken.
fn held(alloc: Global, copy: &[u8]) -> Option<Vec<u8>> {
    match taken(alloc, &TWO_TILES, (2, 1), &mut [copy]) {
        Some((file, _printed)) => Some(file),
        None => None,
    }
}

/// These two files, and that of their union, if `merge` makes one.
fn with_union(alloc: Global, part: Vec<u8>, whole: Vec<u8>) -> Option<Files> {
    match merged(alloc, &part, &whole) {
        Some(union) => Some(Files { part, whole, union }),
        None => None,
    }
}

/// The files of the frame: of a copy with a damaged tile 0, and of the frame as it is.
fn holding_files(alloc: Global) -> Option<Files> {
    let Some(part) = held(alloc, &LEFT_DAMAGED) else {
        return None;
    };
    match held(alloc, &FRAME) {
        Some(whole) => with_union(alloc, part, whole),
        None => None,
    }
}

/// Whether a command reports that this path was not read.
fn is_unread(returned: &Result<(), CliFault>, path: Option<CommandPath>) -> bool {
    matches!(returned, Err(CliFault::Read(reported)) if Some(*reported) == path)
}

/// Whether a command reports that this path was not written.
fn is_unwritten(returned: &Result<(), CliFault>, path: CommandPath) -> bool {
    matches!(returned, Err(CliFault::Write(reported)) if *reported == path)
}

/// Whether OUT has what a command may leave there where an input fails: nothing, or of `merge` a front of its file.
fn is_left(command: Command, files: &Files, out: &[u8]) -> bool {
    let front = matches!(command, Command::Merge) && files.union.starts_with(out);
    out.is_empty() || front && out.len() < files.union.len()
}

/// Whether a failure after so many bytes of the first or the second input is reported as that, and no more is written.
fn input_is_reported(
    alloc: Global,
    command: Command,
    files: &Files,
    is_second: bool,
    room: usize,
) -> bool {
    let (first_bytes, second_bytes) = command.inputs(files);
    let (first_path, second_path) = command.paths();
    let (mut first, mut second) = (Input::new(first_bytes), Input::new(second_bytes));
    let path = if is_second {
        second.fail_after(room);
        second_path
    } else {
        first.fail_after(room);
        Some(first_path)
    };
    let (mut out, mut printed) = (Output::new(alloc), Output::new(alloc));
    let returned = run(alloc, command, first, second, &mut out, &mut printed);
    is_unread(&returned, path)
        && is_left(command, files, &out.narrow.bytes)
        && printed.narrow.bytes.is_empty()
}

/// After how many bytes of the first or the second input a failure is not reported as that.
fn unreported_after(
    alloc: Global,
    command: Command,
    files: &Files,
    is_second: bool,
) -> Option<usize> {
    let (first, second) = command.inputs(files);
    let input = if is_second { second } else { first };
    for room in 0..=input.len() {
        if !input_is_reported(alloc, command, files, is_second, room) {
            return Some(room);
        }
    }
    None
}

/// The same of all inputs of a command.
fn unreported_input(alloc: Global, command: Command, files: &Files) -> Option<usize> {
    let first = unreported_after(alloc, command, files, false);
    if first.is_some() || command.paths().1.is_none() {
        return first;
    }
    unreported_after(alloc, command, files, true)
}

/// What a command returns, makes and prints where there is so much room for what it makes and for what it prints.
fn ran_with_room(
    alloc: Global,
    command: Command,
    files: &Files,
    made: usize,
    printed: usize,
) -> (Result<(), CliFault>, Vec<u8>, Vec<u8>) {
    let (first, second) = command.inputs(files);
    let (mut out, mut output) = (Output::new(alloc), Output::new(alloc));
    out.narrow.room = made;
    output.narrow.room = printed;
    let (first, second) = (Input::new(first), Input::new(second));
    let returned = run(alloc, command, first, second, &mut out, &mut output);
    (returned, out.narrow.bytes, output.narrow.bytes)
}

/// Whether an OUT that fails after so many bytes has just these, and nothing is printed.
fn out_has_front(alloc: Global, command: Command, files: &Files, made: &[u8], room: usize) -> bool {
    let (returned, front, printed) = ran_with_room(alloc, command, files, room, usize::MAX);
    is_unwritten(&returned, CommandPath::Out)
        && Some(front.as_slice()) == made.get(..room)
        && printed.is_empty()
}

/// Whether a standard output that fails after so many bytes has just these, and the file was made.
fn output_has_front(
    alloc: Global,
    command: Command,
    files: &Files,
    (made, printed): (&[u8], &[u8]),
    room: usize,
) -> bool {
    let (returned, file, front) = ran_with_room(alloc, command, files, usize::MAX, room);
    is_unwritten(&returned, CommandPath::StandardOutput)
        && file.as_slice() == made
        && Some(front.as_slice()) == printed.get(..room)
}

/// After how many bytes OUT has no front where it fails.
fn out_without_front(alloc: Global, command: Command, files: &Files, made: &[u8]) -> Option<usize> {
    for room in 0..made.len() {
        if !out_has_front(alloc, command, files, made, room) {
            return Some(room);
        }
    }
    None
}

/// The same of standard output.
fn output_without_front(
    alloc: Global,
    command: Command,
    files: &Files,
    (made, printed): (&[u8], &[u8]),
) -> Option<usize> {
    for room in 0..printed.len() {
        if !output_has_front(alloc, command, files, (made, printed), room) {
            return Some(room);
        }
    }
    None
}

/// The same of all outputs of a command.
fn without_front(alloc: Global, command: Command, files: &Files) -> Option<usize> {
    let (returned, made, printed) = ran_with_room(alloc, command, files, usize::MAX, usize::MAX);
    let out = out_without_front(alloc, command, files, &made);
    let output = output_without_front(alloc, command, files, (&made, &printed));
    if returned.is_ok() {
        out.or(output)
    } else {
        Some(usize::MAX)
    }
}

/// The devices of a command.
#[derive(Clone, Copy)]
enum Side {
    Inputs,
    Outputs,
}

/// The first command of which a failure of an input is not reported, or one of an output does not leave a front, and after how many
/// bytes.
fn first_unseen(alloc: Global, files: &Files, side: Side) -> Option<(Command, usize)> {
    for &command in &COMMANDS {
        let unseen = match side {
            Side::Inputs => unreported_input(alloc, command, files),
            Side::Outputs => without_front(alloc, command, files),
        };
        if let Some(room) = unseen {
            return Some((command, room));
        }
    }
    None
}

/// The same of the commands over the stored files.
fn unseen_on(alloc: Global, side: Side) -> Option<(Command, usize)> {
    match holding_files(alloc) {
        Some(files) => first_unseen(alloc, &files, side),
        None => Some((Command::Take, 0)),
    }
}

#[test]
fn inputs_that_fail_are_reported(rt: HostRuntime) {
    let unreported = unseen_on(rt.alloc(), Side::Inputs);
    assert!(rt; unreported.is_none(), "{unreported:?}");
}

#[test]
fn outputs_that_fail_have_a_front(rt: HostRuntime) {
    let without_front = unseen_on(rt.alloc(), Side::Outputs);
    assert!(rt; without_front.is_none(), "{without_front:?}");
}

/// What a command returns where one of its devices, its inputs and then its outputs, is interrupted so often in a row.
fn interrupted(
    alloc: Global,
    command: Command,
    files: &Files,
    device: usize,
    times: u32,
) -> Result<(), CliFault> {
    let (first, second) = command.inputs(files);
    let (mut first, mut second) = (Input::new(first), Input::new(second));
    let (mut out, mut printed) = (Output::new(alloc), Output::new(alloc));
    match device {
        0 => first.interruptions = times,
        1 => second.interruptions = times,
        2 => out.interruptions = times,
        _ => printed.interruptions = times,
    }
    run(alloc, command, first, second, &mut out, &mut printed)
}

/// Whether 64 interruptions of a device are passed over, and 65 reported; or a device that the command has not is left alone.
fn interruptions_are_reported(
    alloc: Global,
    command: Command,
    files: &Files,
    device: usize,
) -> bool {
    let passed = interrupted(alloc, command, files, device, 64);
    let reported = interrupted(alloc, command, files, device, 65);
    let (first, second) = command.paths();
    let makes = !matches!(
        command,
        Command::Chain | Command::Check | Command::Show | Command::Setup | Command::Report
    );
    passed.is_ok()
        && match device {
            0 => is_unread(&reported, Some(first)),
            1 if second.is_some() => is_unread(&reported, second),
            2 if makes => is_unwritten(&reported, CommandPath::Out),
            3 if !matches!(command, Command::Merge) => {
                is_unwritten(&reported, CommandPath::StandardOutput)
            }
            _ => true,
        }
}

/// The device of a command of which this does not hold.
fn unreported_device(alloc: Global, command: Command, files: &Files) -> Option<usize> {
    for device in 0..4 {
        if !interruptions_are_reported(alloc, command, files, device) {
            return Some(device);
        }
    }
    None
}

/// The first command that has such a device, and which.
fn first_uncounted(alloc: Global, files: &Files) -> Option<(Command, usize)> {
    for &command in &COMMANDS {
        if let Some(device) = unreported_device(alloc, command, files) {
            return Some((command, device));
        }
    }
    None
}

#[test]
fn sixty_five_interruptions_in_a_row_are_reported(rt: HostRuntime) {
    let uncounted = match holding_files(rt.alloc()) {
        Some(files) => first_uncounted(rt.alloc(), &files),
        None => Some((Command::Take, 0)),
    };
    assert!(rt; uncounted.is_none(), "{uncounted:?}");
}

/// Whether `restore` reports this fault of a holding file that never ends.
fn endless_shows(alloc: Global, file: &[u8], fault: HoldFileFault) -> bool {
    let mut input = Input::endless(file);
    let (mut out, mut printed) = (Output::new(alloc), Output::new(alloc));
    let returned = run_restore(
        alloc,
        Recordings::Profile,
        &mut input,
        &mut out,
        &mut printed,
    );
    matches!(returned, Err(CliFault::HoldFile(reported)) if reported == fault)
}

#[test]
fn files_that_never_end_show_their_first_fault(rt: HostRuntime) {
    // Zeros alone are no holding file, and a whole one has trailing bytes.
    let is_trailing = match held(rt.alloc(), &FRAME) {
        Some(whole) => endless_shows(rt.alloc(), &whole, HoldFileFault::Trailing),
        None => false,
    };
    assert!(rt; is_trailing && endless_shows(rt.alloc(), &[], HoldFileFault::Magic));
}
