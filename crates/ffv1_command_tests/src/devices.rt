//! Devices that are interrupted, fail, or take one byte at a time.
use crate::streams::Failing;
use ffv1_devices::{
    CutShort, FromRead, FromWrite, NextFault, Sink, Source, ThroughWrite, WholeFault, WriteFailed,
    fill, next_byte, pass_over, read_full, read_next, read_whole, write_field, write_pair,
};
use std::alloc::{AllocError, Global};
use std::io;
use std::io::{ErrorKind, Write};

/// A source of two bytes, after which tries are interrupted so many times.
fn interrupted(times: u32) -> FromRead<Failing<'static>> {
    FromRead::new(Failing {
        bytes: b"ab",
        kind: ErrorKind::Interrupted,
        times,
    })
}

/// A writer that is interrupted so many times before each byte that it takes.
#[derive(Drop)]
struct Halting {
    times: u32,
    left: u32,
    bytes: Vec<u8>,
}

impl Write for Halting {
    fn write(&mut self, buf: &[u8]) -> io::Result<usize> {
        if self.left > 0 {
            self.left -= 1;
            return Err(io::Error::from(ErrorKind::Interrupted));
        }
        let Some(first) = buf.first() else {
            return Ok(0);
        };
        self.bytes.push(*first)?;
        self.left = self.times;
        Ok(1)
    }

    fn flush(&mut self) -> io::Result<()> {
        Ok(())
    }
}

/// A sink whose writer is interrupted so many times before each byte.
fn halting_sink(alloc: Global, times: u32) -> FromWrite<Halting> {
    FromWrite::new(Halting {
        times,
        left: times,
        bytes: Vec::new(alloc),
    })
}

/// Whether the two bytes are read whole after so many interruptions, or why not, and how many tries failed.
fn read_after(alloc: Global, times: u32) -> (Result<bool, WholeFault>, u64) {
    let mut source = interrupted(times);
    let read = match read_whole(alloc, &mut source, 2) {
        Ok(bytes) => Ok(bytes.as_slice() == b"ab".as_slice()),
        Err(fault) => Err(fault),
    };
    (read, source.failures())
}

#[test]
fn sixty_five_interrupted_reads_are_a_failure(rt: HostRuntime) {
    let read = (read_after(rt.alloc(), 64), read_after(rt.alloc(), 65));
    assert!(rt; read == ((Ok(true), 64), (Err(WholeFault::Read), 65)));
}

/// Whether so many tries of a sink failed, and these bytes were written.
fn has_written(sink: FromWrite<Halting>, failures: u64, bytes: &[u8]) -> bool {
    sink.failures() == failures && sink.into_inner().bytes.as_slice() == bytes
}

#[test]
fn sixty_five_interrupted_writes_are_a_failure(rt: HostRuntime) {
    let mut patient = halting_sink(rt.alloc(), 64);
    let taken = write_pair(&mut patient, b"a", b"b");
    let is_written = has_written(patient, 128, b"ab");
    let mut failing = halting_sink(rt.alloc(), 65);
    let refused = write_field(&mut failing, b"ab");
    let is_left = has_written(failing, 65, b"");
    assert!(rt; (taken, is_written, refused, is_left) == (Ok(()), true, Err(WriteFailed), true));
}

/// A writer that takes all that it is given, and counts the writes and the bytes.
#[derive(Drop)]
struct Counting {
    writes: usize,
    bytes: usize,
}

impl Write for Counting {
    fn write(&mut self, buf: &[u8]) -> io::Result<usize> {
        self.writes = self.writes.saturating_add(1);
        self.bytes = self.bytes.saturating_add(buf.len());
        Ok(buf.len())
    }

    fn flush(&mut self) -> io::Result<()> {
        Ok(())
    }
}

/// How many writes two fields of these lengths are, and of how many bytes; or `None` where they are not written.
fn writes_of_pair(
    alloc: Global,
    first: usize,
    second: usize,
) -> Result<Option<(usize, usize)>, AllocError> {
    let (first, second) = (vec![in alloc; 1; first]?, vec![in alloc; 2; second]?);
    let mut sink = FromWrite::new(Counting {
        writes: 0,
        bytes: 0,
    });
    let returned = write_pair(&mut sink, &first, &second);
    let counting = sink.into_inner();
    Ok(
        returned
            .is_ok()
            .then_some((counting.writes, counting.bytes)),
    )
}

/// The lengths of two fields, and how many writes they are, of how many bytes.
static PAIRS: [((usize, usize), (usize, usize)); 4] = [
    ((1, 4095), (1, 4096)),
    ((4095, 1), (1, 4096)),
    ((1, 4096), (2, 4097)),
    ((4096, 1), (2, 4097)),
];

#[test]
fn two_fields_of_at_most_4096_bytes_are_one_write(rt: HostRuntime) {
    for &((first, second), reported) in &PAIRS {
        let found = writes_of_pair(rt.alloc(), first, second);
        assert!(rt; found == Ok(Some(reported)), "{first} and {second}");
    }
}

/// Whether bytes are written through a borrow of a list as these.
fn is_written_as(alloc: Global, bytes: &[u8], wanted: &[u8]) -> bool {
    let mut written = Vec::new(alloc);
    let returned = write_field(&mut ThroughWrite::new(&mut written), bytes);
    returned.is_ok() && written.as_slice() == wanted
}

#[test]
fn what_is_read_is_written_through_a_borrow(rt: HostRuntime) {
    let mut source = FromRead::new(b"abc".as_slice());
    let mut front = [0u8; 2];
    let count = read_full(&mut source, &mut front);
    let rest = (next_byte(&mut source), next_byte(&mut source));
    let is_written = is_written_as(rt.alloc(), &front, b"ab");
    assert!(rt; (count, rest) == (Ok(2), (Ok(Some(b'c')), Ok(None))) && is_written);
}

/// Whether so many bytes are read to the front of a room, which then has these.
fn has_next(source: &mut FromRead<&[u8]>, count: usize, room: &mut Vec<u8>, wanted: &[u8]) -> bool {
    read_next(source, count, room) == Ok(()) && room.as_slice() == wanted
}

/// Whether bytes come to the front of a room, which keeps its length where fewer come or too many are claimed.
fn come_to_the_front(alloc: Global) -> bool {
    let mut source = FromRead::new(b"abcdefgh".as_slice());
    let mut room = Vec::new(alloc);
    let passed = pass_over(&mut source, 2, &mut [0u8; 1]);
    let longer = has_next(&mut source, 3, &mut room, b"cde");
    let shorter = has_next(&mut source, 2, &mut room, b"fge");
    let claimed = read_next(&mut source, usize::MAX, &mut room);
    let reported = (passed, longer, shorter, claimed, room.len());
    reported == (Ok(()), true, true, Err(NextFault::Read), 3)
}

#[test]
fn next_bytes_come_to_the_front_of_a_room(rt: HostRuntime) {
    assert!(rt; come_to_the_front(rt.alloc()));
}

/// How long a room is into which more was to be read than a source of so many bytes has, or `None` where that is not reported.
fn room_after(alloc: Global, bytes: usize) -> Result<Option<usize>, AllocError> {
    let bytes = vec![in alloc; 7; bytes]?;
    let mut source = FromRead::new(bytes.as_slice());
    let mut room = Vec::new(alloc);
    let claimed = read_next(&mut source, usize::MAX, &mut room);
    Ok((claimed == Err(NextFault::Read)).then_some(room.len()))
}

/// How many bytes come, and how long the room is then: 65536 bytes at first, and then always as many more as came.
static ROOMS: [(usize, usize); 5] = [
    (0, 65536),
    (65535, 65536),
    (65536, 131_072),
    (131_071, 131_072),
    (131_072, 262_144),
];

#[test]
fn room_is_made_as_bytes_come(rt: HostRuntime) {
    for &(bytes, room) in &ROOMS {
        assert!(rt; room_after(rt.alloc(), bytes) == Ok(Some(room)), "{bytes}");
    }
}

#[test]
fn a_buffer_is_filled_or_cut_short(rt: HostRuntime) {
    let mut source = FromRead::new(b"abc".as_slice());
    let mut front = [0u8; 2];
    let filled = (fill(&mut source, &mut front), front);
    let cut = (
        fill(&mut source, &mut front),
        pass_over(&mut source, 1, &mut front),
    );
    assert!(rt; (filled, cut) == ((Ok(()), *b"ab"), (Err(CutShort), Err(CutShort))));
}
