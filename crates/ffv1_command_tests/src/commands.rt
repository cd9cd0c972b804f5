//! The commands over readers that are interrupted or hold much, and over changed holding files.
use crate::failing::Input;
use ffv1_commands::{CliFault, CommandPath, run_chain, run_join, run_restore, run_take};
use ffv1_holding::Recordings;
use ffv1_test_frames::{FRAME, LEFT_DAMAGED, RIGHT_DAMAGED, TWO_TILES};
use std::alloc::Global;
use std::io;
use std::io::Read;

const FRAME_TEXT: &str = "11..22 size 3 status 0 pass\n0..11 size 3 status 0 pass\nend whole\n";

/// Whether `chain` prints the frame that is interrupted so often before each byte, or else reports that it was not read, and
/// prints nothing.
fn interruptions_are_reported(alloc: Global, before_each: u32, is_read: bool) -> bool {
    let mut frame = Input::interrupted(&FRAME, before_each);
    let mut output: Vec<u8> = Vec::new(alloc);
    match run_chain(alloc, &mut frame, &mut output) {
        Ok(()) => is_read && output.as_slice() == FRAME_TEXT.as_bytes(),
        Err(fault) => {
            !is_read && matches!(fault, CliFault::Read(CommandPath::Frame)) && output.is_empty()
        }
    }
}

#[test]
fn interrupted_reads_are_tried_again(rt: HostRuntime) {
    let reported = (
        interruptions_are_reported(rt.alloc(), 64, true),
        interruptions_are_reported(rt.alloc(), 65, false),
    );
    assert!(rt; reported == (true, true));
}

/// The holding file of copies of a frame with this record and size, and what was printed of them, if they are taken.
pub(crate) fn taken(
    alloc: Global,
    mut record: &[u8],
    (width, height): (u32, u32),
    copies: &mut [&[u8]],
) -> Option<(Vec<u8>, Vec<u8>)> {
    let (mut out, mut output) = (Vec::new(alloc), Vec::new(alloc));
    match run_take(
        alloc,
        Recordings::Profile,
        &mut record,
        width,
        height,
        copies,
        &mut out,
        &mut output,
    ) {
        Ok(true) => Some((out, output)),
        _ => None,
    }
}

/// What `join` makes of two files, and what it prints, if they are of one recording.
pub(crate) fn joined<'a>(
    alloc: Global,
    mut first: &'a [u8],
    second: &'a [u8],
) -> Option<(Vec<u8>, Vec<u8>)> {
    let mut others = [second];
    let (mut union, mut output) = (Vec::new(alloc), Vec::new(alloc));
    match run_join(
        alloc,
        Recordings::Profile,
        &mut first,
        &mut others,
        &mut union,
        &mut output,
    ) {
        Ok(()) => Some((union, output)),
        Err(_) => None,
    }
}

/// Whether `join` of the file of one copy and of that of both makes the file of both, and prints what was new; and whether the
/// frame is restored of it.
fn union_is_restored(alloc: Global, one: &[u8], both: &[u8]) -> bool {
    match joined(alloc, one, both) {
        Some((union, lines)) => {
            union.as_slice() == both
                && lines.as_slice() == b"file 1 new 1\nfile 2 new 1\n".as_slice()
                && is_reported(alloc, &union, 0)
        }
        None => false,
    }
}

/// Whether the frame is restored of two copies, and each command reports what it did.
fn two_copies_are_restored(alloc: Global) -> bool {
    let (a, b) = (LEFT_DAMAGED, RIGHT_DAMAGED);
    let both = taken(alloc, &TWO_TILES, (2, 1), &mut [&b, &a]);
    let one = taken(alloc, &TWO_TILES, (2, 1), &mut [&b, &b]);
    let wanted = "copy 1 links 2 slices 1 new 1\ncopy 2 links 2 slices 1 new 1\n";
    match (&both, &one) {
        (Some((both, lines)), Some((one, _))) => {
            lines.as_slice() == wanted.as_bytes() && union_is_restored(alloc, one, both)
        }
        _ => false,
    }
}

#[test]
fn commands_restore_what_two_copies_have(rt: HostRuntime) {
    assert!(rt; two_copies_are_restored(rt.alloc()));
}

/// The numbers of the faults of the holding file of both tiles where the lowest bit of one byte is turned, by the byte's
/// place; 0 where it is then the file of another size, or of another copy.
static BIT_TURNED: [u8; 146] = [
    1, 1, 1, 1, 1, 1, 1, 1, 2, 2, 0, 0, 2, 2, 0, 2, 11, 3, 3, 2, 2, 2, 2, 2, 2, 2, 2, 2, 2, 2, 2,
    2, 2, 2, 2, 2, 2, 7, 6, 6, 11, 3, 3, 6, 6, 6, 6, 6, 6, 6, 6, 6, 6, 6, 6, 5, 5, 5, 4, 0, 0, 0,
    0, 0, 0, 0, 0, 0, 0, 0, 0, 0, 0, 0, 0, 0, 0, 0, 0, 0, 0, 0, 0, 0, 0, 0, 0, 0, 0, 0, 0, 7, 6, 6,
    11, 3, 3, 6, 6, 6, 6, 6, 6, 6, 6, 6, 6, 6, 6, 3, 3, 3, 4, 0, 0, 0, 0, 0, 0, 0, 0, 0, 0, 0, 0,
    0, 0, 0, 0, 0, 0, 0, 0, 0, 0, 0, 0, 0, 0, 0, 0, 0, 0, 0, 0, 3,
];

/// The same where all bits of the byte are turned.
static BYTE_TURNED: [u8; 146] = [
    1, 1, 1, 1, 1, 1, 1, 1, 2, 2, 0, 0, 2, 2, 0, 0, 11, 3, 3, 3, 2, 2, 2, 2, 2, 2, 2, 2, 2, 2, 2,
    2, 2, 2, 2, 2, 2, 4, 6, 6, 11, 3, 3, 3, 6, 6, 6, 6, 6, 6, 6, 6, 6, 6, 6, 11, 5, 5, 5, 0, 0, 0,
    0, 0, 0, 0, 0, 0, 0, 0, 0, 0, 0, 0, 0, 0, 0, 0, 0, 0, 0, 0, 0, 0, 0, 0, 0, 0, 0, 0, 0, 4, 6, 6,
    11, 3, 3, 3, 6, 6, 6, 6, 6, 6, 6, 6, 6, 6, 6, 11, 3, 3, 3, 0, 0, 0, 0, 0, 0, 0, 0, 0, 0, 0, 0,
    0, 0, 0, 0, 0, 0, 0, 0, 0, 0, 0, 0, 0, 0, 0, 0, 0, 0, 0, 0, 4,
];

/// Whether a fault is reported as the one of a holding file that has this number.
fn is_numbered(alloc: Global, fault: &CliFault, number: u8) -> bool {
    let expected = format!(in alloc; "holding file fault {number}");
    let line = fault.line(alloc, "HOLD");
    match (&expected, &line) {
        (Ok(expected), Ok(line)) => line == expected,
        _ => false,
    }
}

/// Whether `restore` reports this fault of a holding file and leaves the outputs alone; for 0, whether it restores the frame.
fn is_reported(alloc: Global, mut file: &[u8], number: u8) -> bool {
    let mut payload: Vec<u8> = Vec::new(alloc);
    let mut printed: Vec<u8> = Vec::new(alloc);
    match run_restore(
        alloc,
        Recordings::Profile,
        &mut file,
        &mut payload,
        &mut printed,
    ) {
        Ok(()) => {
            number == 0
                && payload.as_slice() == FRAME.as_slice()
                && printed.as_slice() == b"restored 22 bytes\n".as_slice()
        }
        Err(fault) => {
            payload.is_empty() && printed.is_empty() && is_numbered(alloc, &fault, number)
        }
    }
}

/// Whether this fault is reported where the byte at a place is changed by the mask.
fn change_is_reported(alloc: Global, file: &[u8], place: usize, mask: u8, number: u8) -> bool {
    let Ok(mut changed) = file.to_vec(alloc) else {
        return false;
    };
    if let Some(byte) = changed.get_mut(place) {
        *byte ^= mask;
    }
    is_reported(alloc, &changed, number)
}

/// Whether each of these faults is reported where the byte at its place is changed by the mask.
fn are_reported(alloc: Global, file: &[u8], mask: u8, numbers: &[u8]) -> bool {
    for (place, number) in numbers.iter().enumerate() {
        if !change_is_reported(alloc, file, place, mask, *number) {
            return false;
        }
    }
    file.len() == numbers.len()
}

/// Whether the file of both tiles is as long as these lists of faults, and each of them is reported where the bytes are changed so.
fn changes_are_reported(alloc: Global, mask: u8, numbers: &[u8]) -> bool {
    match taken(
        alloc,
        &TWO_TILES,
        (2, 1),
        &mut [&LEFT_DAMAGED, &RIGHT_DAMAGED],
    ) {
        Some((both, _)) => are_reported(alloc, &both, mask, numbers),
        None => false,
    }
}

#[test]
fn each_changed_byte_of_a_holding_file_is_reported(rt: HostRuntime) {
    assert!(rt; changes_are_reported(rt.alloc(), 1, &BIT_TURNED));
    assert!(rt; changes_are_reported(rt.alloc(), 0xFF, &BYTE_TURNED));
}

/// Says that it gave so many bytes, and leaves the buffer as it is: what is read is the zeros that stand there.
#[derive(Drop)]
struct Zeros {
    left: usize,
}

impl Read for Zeros {
    fn read(&mut self, buf: &mut [u8]) -> io::Result<usize> {
        let count = self.left.min(buf.len());
        self.left -= count;
        Ok(count)
    }
}

const OVER_A_MEBIBYTE: usize = (1 << 20) + 8;

/// What `chain` prints of so many zeros: each footer of eight of them.
fn text_of_zeros(alloc: Global) -> Option<String> {
    let mut text = String::new(alloc);
    for link in 0..OVER_A_MEBIBYTE / 8 {
        let end = OVER_A_MEBIBYTE - link * 8;
        let start = end - 8;
        writeln!(text, "{start}..{end} size 0 status 0 pass").ok()?;
    }
    text.push_str("end whole\n").ok()?;
    Some(text)
}

/// Whether it prints this.
fn zeros_are_printed(alloc: Global, text: &str) -> bool {
    let mut frame = Zeros {
        left: OVER_A_MEBIBYTE,
    };
    let mut output: Vec<u8> = Vec::new(alloc);
    let is_done = run_chain(alloc, &mut frame, &mut output).is_ok();
    is_done && output.as_slice() == text.as_bytes()
}

#[test]
fn inputs_and_outputs_of_over_a_mebibyte_are_whole(rt: HostRuntime) {
    let are_whole = match text_of_zeros(rt.alloc()) {
        Some(text) => zeros_are_printed(rt.alloc(), &text),
        None => false,
    };
    assert!(rt; are_whole);
}
