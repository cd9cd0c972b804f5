//! `mend` on devices that fail after any number of bytes, or are interrupted: which path is named, and what is left in the outputs.
use crate::failing::{Input, Output};
use ffv1_commands::{CliFault, CommandPath, run_mend};
use std::alloc::{AllocError, Global};

/// The stretches of two copies; the second does not have the last.
const LIST: &[u8] = b"plain 3 1 0 1\nframe 22 1 3 4\nplain 2 1 25 -\n";

/// The first copy, with a frame of two slices at its byte 3. All of it is made.
const FIRST: &[u8] =
    b"abc\xFD\xF6\x80\0\0\x03\0\x1C\x3E\xA0\x9B\x3F\x2B\x80\0\0\x03\0\x56\x0F\xD7\x3Bde";

/// The second copy. The first slice of its frame is damaged.
const SECOND: &[u8] =
    b"!abc\xFD\xF6\0\0\0\x03\0\x1C\x3E\xA0\x9B\x3F\x2B\x80\0\0\x03\0\x56\x0F\xD7\x3B";

/// What is printed.
const PRINTED: &[u8] = b"stretch 1 plain agreed 11
stretch 2 frame whole 10
  11..22 settled 11
  0..11 settled 10
  end whole
stretch 3 plain alone 1-
";

/// Where the stretches end in the first copy, and so in OUT.
const FIRST_ENDS: [usize; 3] = [3, 25, 27];

/// Where those of the second copy end in it.
const SECOND_ENDS: [usize; 2] = [4, 26];

/// Where their lines end.
const PRINTED_ENDS: [usize; 3] = [26, 102, 127];

/// A device of the command.
#[derive(Clone, Copy, Debug)]
enum Device {
    List,
    First,
    Second,
    Out,
    Printed,
}

/// Each device, and after how many bytes it may fail: those that are read or written, and of the list, which is read to its end, one more.
static DEVICES: [(Device, usize); 5] = [
    (Device::List, 45),
    (Device::First, 27),
    (Device::Second, 26),
    (Device::Out, 27),
    (Device::Printed, 127),
];

/// All devices.
#[derive(Drop)]
struct Devices {
    list: Input<'static>,
    first: Input<'static>,
    second: Input<'static>,
    out: Output,
    printed: Output,
}

impl Devices {
    fn new(alloc: Global) -> Devices {
        Devices {
            list: Input::new(LIST),
            first: Input::new(FIRST),
            second: Input::new(SECOND),
            out: Output::new(alloc),
            printed: Output::new(alloc),
        }
    }

    /// Has a device fail after so many bytes.
    fn fail_after(&mut self, device: Device, room: usize) {
        match device {
            Device::List => self.list.fail_after(room),
            Device::First => self.first.fail_after(room),
            Device::Second => self.second.fail_after(room),
            Device::Out => self.out.narrow.room = room,
            Device::Printed => self.printed.narrow.room = room,
        }
    }

    /// Has a device be interrupted so many times in a row.
    fn interrupt(&mut self, device: Device, times: u32) {
        match device {
            Device::List => self.list.interruptions = times,
            Device::First => self.first.interruptions = times,
            Device::Second => self.second.interruptions = times,
            Device::Out => self.out.interruptions = times,
            Device::Printed => self.printed.interruptions = times,
        }
    }
}

/// What the command returned, made and printed.
#[derive(Drop)]
struct Ran {
    returned: Result<bool, CliFault>,
    made: Vec<u8>,
    printed: Vec<u8>,
}

/// Runs the command on these devices.
fn run(alloc: Global, devices: Devices) -> Result<Ran, AllocError> {
    let Devices {
        mut list,
        first,
        second,
        mut out,
        mut printed,
    } = devices;
    let copies = Vec::from_array(alloc, [first, second])?;
    let returned = run_mend(alloc, &mut list, copies, &mut out, &mut printed);
    Ok(Ran {
        returned,
        made: out.narrow.bytes,
        printed: printed.narrow.bytes,
    })
}

/// Whether so many bytes were made and printed.
fn has_left(ran: &Ran, (made, printed): (usize, usize)) -> bool {
    Some(ran.made.as_slice()) == FIRST.get(..made)
        && Some(ran.printed.as_slice()) == PRINTED.get(..printed)
}

/// Whether the command reports that this device failed.
fn is_named(returned: &Result<bool, CliFault>, device: Device) -> bool {
    match device {
        Device::List => matches!(returned, Err(CliFault::Read(CommandPath::List))),
        Device::First => matches!(returned, Err(CliFault::Read(CommandPath::Copy(0)))),
        Device::Second => matches!(returned, Err(CliFault::Read(CommandPath::Copy(1)))),
        Device::Out => matches!(returned, Err(CliFault::Write(CommandPath::Out))),
        Device::Printed => matches!(returned, Err(CliFault::Write(CommandPath::StandardOutput))),
    }
}

/// How many stretches end within so many bytes, where they end so.
fn count_within(ends: &[usize], room: usize) -> usize {
    ends.iter().filter(|end| **end <= room).count()
}

/// Where so many stretches end.
fn end_of(ends: &[usize; 3], count: usize) -> usize {
    match count.checked_sub(1) {
        Some(last) => ends.get(last).copied().unwrap_or(0),
        None => 0,
    }
}

/// How many bytes are made and printed of so many stretches.
fn ends_of(count: usize) -> (usize, usize) {
    (end_of(&FIRST_ENDS, count), end_of(&PRINTED_ENDS, count))
}

/// How many bytes are made and printed where a device fails after so many.
fn left_after(device: Device, room: usize) -> (usize, usize) {
    match device {
        Device::List => (0, 0),
        Device::First => ends_of(count_within(&FIRST_ENDS, room)),
        Device::Second => ends_of(count_within(&SECOND_ENDS, room)),
        Device::Out => (room, ends_of(count_within(&FIRST_ENDS, room)).1),
        Device::Printed => (
            end_of(
                &FIRST_ENDS,
                count_within(&PRINTED_ENDS, room).saturating_add(1),
            ),
            room,
        ),
    }
}

/// Whether a device that fails after so many bytes is named, and just what comes before is made and printed.
fn failure_is_named(alloc: Global, device: Device, room: usize) -> bool {
    let mut devices = Devices::new(alloc);
    devices.fail_after(device, room);
    match run(alloc, devices) {
        Ok(ran) => is_named(&ran.returned, device) && has_left(&ran, left_after(device, room)),
        Err(_) => false,
    }
}

/// After how many of so many bytes that is not so.
fn unnamed_after(alloc: Global, device: Device, size: usize) -> Option<usize> {
    for room in 0..size {
        if !failure_is_named(alloc, device, room) {
            return Some(room);
        }
    }
    None
}

#[test]
fn devices_that_fail_are_named(rt: HostRuntime) {
    for &(device, size) in &DEVICES {
        let room = unnamed_after(rt.alloc(), device, size);
        assert!(rt; room.is_none(), "{device:?} {room:?}");
    }
}

/// What is done where a device is interrupted so many times in a row.
fn interrupted(alloc: Global, device: Device, times: u32) -> Result<Ran, AllocError> {
    let mut devices = Devices::new(alloc);
    devices.interrupt(device, times);
    run(alloc, devices)
}

/// Whether 64 interruptions of a device are passed over, and 65 are a failure.
fn interruptions_are_counted(alloc: Global, device: Device) -> bool {
    let passed = interrupted(alloc, device, 64);
    let failed = interrupted(alloc, device, 65);
    match (&passed, &failed) {
        (Ok(passed), Ok(failed)) => {
            matches!(passed.returned, Ok(false))
                && has_left(passed, (27, 127))
                && is_named(&failed.returned, device)
                && has_left(failed, left_after(device, 0))
        }
        _ => false,
    }
}

#[test]
fn sixty_five_interruptions_of_a_device_are_a_failure(rt: HostRuntime) {
    for &(device, _size) in &DEVICES {
        assert!(rt; interruptions_are_counted(rt.alloc(), device), "{device:?}");
    }
}
