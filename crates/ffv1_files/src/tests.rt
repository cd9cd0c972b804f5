//! Files over a folder that notes what is done with its one file. No clause says of the folder of std which file is opened, nor how
//! often it is tried.
mod folder;

use crate::tests::folder::{Folder, Notes, Step};
use crate::{InputFile, OutputFile};
use std::io;
use std::io::{ErrorKind, Read, Write};

/// The next byte of a file, or `None` at its end.
fn next_byte(file: &mut impl Read) -> Result<Option<u8>, ErrorKind> {
    let mut buf = [0u8; 1];
    match file.read(&mut buf) {
        Ok(0) => Ok(None),
        Ok(_) => Ok(Some(buf[0])),
        Err(error) => Err(error.kind()),
    }
}

/// How many bytes are written, or the kind of the error.
fn written(file: &mut impl Write, bytes: &[u8]) -> Result<usize, ErrorKind> {
    kind_of(file.write(bytes))
}

/// What was returned, or the kind of the error.
fn kind_of<T: Drop>(returned: io::Result<T>) -> Result<T, ErrorKind> {
    match returned {
        Ok(value) => Ok(value),
        Err(error) => Err(error.kind()),
    }
}

#[test]
fn file_is_opened_once_and_closed_at_its_end(rt: HostRuntime) {
    let notes = Notes::new(rt.alloc());
    let folder = Folder::to_read(&notes, "in", &[Step::Byte(b'a'), Step::Byte(b'b')]);
    let mut file = InputFile::new(&folder, "in");
    assert!(rt; notes.counts() == (0, 0, 0), "not opened yet");
    assert!(rt; next_byte(&mut file) == Ok(Some(b'a')));
    assert!(rt;
        kind_of(file.read(&mut [])) == Ok(0),
        "no room is not the end"
    );
    assert!(rt; next_byte(&mut file) == Ok(Some(b'b')));
    assert!(rt; notes.counts() == (1, 3, 0), "still open");
    assert!(rt; next_byte(&mut file) == Ok(None));
    assert!(rt; notes.counts() == (1, 4, 1), "closed");
    assert!(rt; next_byte(&mut file) == Ok(None));
    assert!(rt;
        notes.counts() == (1, 4, 1),
        "neither opened nor read after its end"
    );
}

#[test]
fn error_is_not_the_end(rt: HostRuntime) {
    let notes = Notes::new(rt.alloc());
    let steps = [
        Step::Byte(b'a'),
        Step::Fails(ErrorKind::Interrupted),
        Step::Byte(b'b'),
        Step::Fails(ErrorKind::Other),
        Step::Byte(b'c'),
    ];
    let folder = Folder::to_read(&notes, "in", &steps);
    let mut file = InputFile::new(&folder, "in");
    let front = (next_byte(&mut file), next_byte(&mut file));
    assert!(rt; front == (Ok(Some(b'a')), Err(ErrorKind::Interrupted)));
    let middle = (next_byte(&mut file), next_byte(&mut file));
    assert!(rt; middle == (Ok(Some(b'b')), Err(ErrorKind::Other)));
    assert!(rt; notes.counts() == (1, 4, 0), "still open");
    let back = (next_byte(&mut file), next_byte(&mut file));
    assert!(rt; back == (Ok(Some(b'c')), Ok(None)));
    assert!(rt; notes.counts() == (1, 6, 1), "closed");
}

/// A folder whose file `in` has one byte, and of which the first opening fails.
fn refused_once(notes: &Notes) -> Folder<'_> {
    notes.refusals.set(1);
    Folder::to_read(notes, "in", &[Step::Byte(b'a')])
}

#[test]
fn opening_that_fails_can_be_tried_again(rt: HostRuntime) {
    let notes = Notes::new(rt.alloc());
    let folder = refused_once(&notes);
    let mut file = InputFile::new(&folder, "in");
    assert!(rt; next_byte(&mut file) == Err(ErrorKind::Interrupted));
    assert!(rt; next_byte(&mut file) == Ok(Some(b'a')));
    assert!(rt; notes.counts() == (1, 1, 0) && notes.refusals.get() == 0);
    let mut other = InputFile::new(&folder, "other");
    assert!(rt; next_byte(&mut other) == Err(ErrorKind::NotFound));
}

#[test]
fn file_is_opened_ahead(rt: HostRuntime) {
    let notes = Notes::new(rt.alloc());
    let folder = refused_once(&notes);
    let mut file = InputFile::new(&folder, "in");
    assert!(rt; kind_of(file.open()) == Err(ErrorKind::Interrupted));
    assert!(rt; kind_of(file.open()) == Ok(()) && kind_of(file.open()) == Ok(()));
    assert!(rt; notes.counts() == (1, 0, 0), "opened once");
    let bytes = (next_byte(&mut file), next_byte(&mut file));
    assert!(rt; bytes == (Ok(Some(b'a')), Ok(None)));
    assert!(rt;
        kind_of(file.open()) == Ok(()) && notes.counts() == (1, 2, 1),
        "not opened after its end"
    );
}

#[test]
fn out_is_made_at_its_first_write(rt: HostRuntime) {
    let notes = Notes::new(rt.alloc());
    let steps = [
        Step::Takes(2),
        Step::Fails(ErrorKind::Interrupted),
        Step::Takes(4),
        Step::Fails(ErrorKind::StorageFull),
        Step::Takes(1),
    ];
    let folder = Folder::to_make(&notes, "out", &steps);
    let mut file = OutputFile::new(&folder, "out");
    assert!(rt;
        kind_of(file.flush()) == Ok(()) && notes.counts() == (0, 0, 0),
        "not made yet"
    );
    assert!(rt; written(&mut file, b"abc") == Ok(2), "a short write");
    assert!(rt; written(&mut file, b"c") == Err(ErrorKind::Interrupted));
    assert!(rt; written(&mut file, b"cd") == Ok(2), "a whole write");
    assert!(rt; written(&mut file, b"ef") == Err(ErrorKind::StorageFull));
    assert!(rt; written(&mut file, b"ef") == Ok(1));
    assert!(rt; kind_of(file.make()) == Ok(()), "it is made already");
    assert!(rt;
        notes.counts() == (1, 5, 0) && notes.has_taken(b"abcde"),
        "made once, and open"
    );
}

#[test]
fn out_is_made_with_no_bytes(rt: HostRuntime) {
    let notes = Notes::new(rt.alloc());
    let folder = Folder::to_make(&notes, "out", &[]);
    notes.refusals.set(1);
    let mut file = OutputFile::new(&folder, "out");
    assert!(rt; kind_of(file.make()) == Err(ErrorKind::Interrupted));
    assert!(rt; notes.counts() == (0, 0, 0));
    assert!(rt; kind_of(file.make()) == Ok(()) && kind_of(file.make()) == Ok(()));
    assert!(rt; notes.counts() == (1, 0, 0) && notes.has_taken(b""));
    let mut other = OutputFile::new(&folder, "other");
    assert!(rt; kind_of(other.make()) == Err(ErrorKind::NotFound));
}
