//! Each command on files that note when they are opened and made.
ghost use Rattle.ffv1_commands.specs.Fault.{NamesPath};
ghost use Rattle.ffv1_words.specs.WordPaths.{IsPathOf};

use crate::fakes::{FakeOutput, Fakes, Order};
use ffv1_commands::{CliFault, run_take};
use ffv1_devices::FromWrite;
use ffv1_holding::Recordings;
use ffv1_program::{out_word, run};
use ffv1_test_frames::{FRAME, TWO_TILES};
use ffv1_words::{Words, read_words, recordings_of_words};
use std::alloc::Global;
use std::test::Fail;

/// Words of the program, after its name; the bytes of the file of the path 1, and of each other; and then in which order files are opened
/// and made, and what the command returns, or the line of its fault.
type Row = (
    &'static [&'static str],
    &'static [u8],
    &'static [u8],
    u32,
    &'static str,
);

const ROWS: [Row; 31] = [
    (&["chain", "1"], b"ab", b"", 1, "true"),
    (&["chain", "0"], b"ab", b"", 0, "cannot read 0"),
    (&["scan", "1", "2"], b"0 1\n", b"a", 12, "false"),
    (
        &["scan", "1", "2"],
        b"no range\n",
        b"a",
        1,
        "ranges fault 1",
    ),
    (&["check", "1"], b"ab", b"", 11, "false"),
    (&["check", "0"], b"ab", b"", 0, "cannot read 0"),
    (&["show", "1", "2", "2"], b"ab", b"", 1, "setup fault 1"),
    (
        &["take", "1", "2", "2", "9", "2", "3"],
        b"ab",
        b"",
        1,
        "setup fault 1",
    ),
    (
        &["take", "1", "2", "1", "9", "2", "3"],
        &TWO_TILES,
        &FRAME,
        1239,
        "true",
    ),
    (
        &["decode", "1", "2", "2", "2", "9"],
        b"ab",
        b"",
        1,
        "setup fault 1",
    ),
    (
        &["decode", "1", "2", "1", "2", "9"],
        &TWO_TILES,
        &FRAME,
        129,
        "true",
    ),
    (
        &["join", "9", "1", "2"],
        b"no holding file",
        b"",
        1,
        "holding file fault 1",
    ),
    (
        &["report", "1"],
        b"no holding file",
        b"",
        1,
        "holding file fault 1",
    ),
    (
        &["restore", "1", "9"],
        b"no holding file",
        b"",
        1,
        "holding file fault 1",
    ),
    (
        &["picture", "1", "9"],
        b"no holding file",
        b"",
        1,
        "holding file fault 1",
    ),
    (
        &["merge", "9", "1", "2"],
        b"no holding file",
        b"",
        12,
        "holding file fault 1",
    ),
    (&["merge", "1", "1", "2"], b"", b"", 0, "cannot write 1"),
    (&["merge", "2", "1", "2"], b"", b"", 0, "cannot write 2"),
    (&["merge", "9", "0", "2"], b"", b"", 0, "cannot read 0"),
    (&["merge", "9", "1", "0"], b"", b"", 1, "cannot read 0"),
    (&["splice", "9", "1", "2"], b"ab", b"ab", 129, "false"),
    (&["splice", "9", "2", "1"], b"ab", b"ab", 219, "false"),
    (
        &["splice", "9", "1", "2"],
        b"ab",
        b"",
        12,
        "cannot splice 2",
    ),
    (&["splice", "0", "1", "2"], b"", b"", 12, "cannot write 0"),
    (&["mend", "1", "9", "2"], b"", b"", 19, "true"),
    (&["mend", "1", "0", "2"], b"", b"", 1, "cannot write 0"),
    (&["mend", "1", "1", "2"], b"", b"", 0, "cannot write 1"),
    (&["mend", "1", "3", "2", "3"], b"", b"", 0, "cannot write 3"),
    (
        &["mend", "1", "9", "2"],
        b"no stretch\n",
        b"",
        1,
        "list fault 1",
    ),
    (&["help"], b"", b"", 0, "true"),
    (&["version"], b"", b"", 0, "true"),
];

/// Words of the program, after its name, whose files are all one holding file; and then in which order files are opened and made.
const HELD: [(&[&str], u32); 8] = [
    (&["join", "9", "1", "2", "3"], 1239),
    (&["merge", "9", "1", "2"], 129),
    (&["report", "1"], 1),
    (&["restore", "1", "9"], 19),
    (&["picture", "1", "9"], 19),
    (&["join", "--any", "9", "1", "2"], 129),
    (&["report", "--any", "1"], 1),
    (&["picture", "--any", "1", "9"], 19),
];

/// The line of a fault of the command of these words, with the path that it names.
fn line_of(alloc: Global, fault: &CliFault, words: &Words<'_>) -> Result<String, Fail>
    requires { NamesPath (IsPathOf words.now) fault.now }
{
    match fault.path() {
        Some(path) => Ok(fault.line(alloc, words.path(path))?),
        None => Ok(fault.line(alloc, "")?),
    }
}

/// Runs the command of these words, of which the first is the program's name, and gives what it returns, or the line of its fault.
fn reported<'a>(
    alloc: Global,
    recordings: Recordings,
    given: &'a [String],
    order: &'a Order,
    first: &'a [u8],
    others: &'a [u8],
) -> Result<String, Fail> {
    let words = read_words(alloc, given).ok().ok_or("words of a command")?;
    let files = Fakes {
        order,
        first,
        others,
    };
    let mut made = FakeOutput::new(order, out_word(&words));
    let mut printed = FromWrite::new(Vec::new(alloc));
    match run(alloc, recordings, &files, &words, &mut made, &mut printed) {
        Ok(true) => Ok(String::from_str(alloc, "true")?),
        Ok(false) => Ok(String::from_str(alloc, "false")?),
        Err(fault) => line_of(alloc, &fault, &words),
    }
}

/// The program's name, and these words after it.
pub(crate) fn given_of(alloc: Global, words: &[&str]) -> Result<Vec<String>, Fail> {
    let mut given = Vec::new(alloc);
    given.push(String::from_str(alloc, "ffv1restore")?)?;
    for word in words {
        given.push(String::from_str(alloc, word)?)?;
    }
    Ok(given)
}

/// In which order the command of these words opens and makes its files, and what it returns, or the line of its fault.
fn opened(
    alloc: Global,
    words: &[&str],
    first: &[u8],
    others: &[u8],
) -> Result<(u32, String), Fail> {
    let mut given = given_of(alloc, words)?;
    let recordings = recordings_of_words(&mut given);
    let order = Order::new();
    let reported = reported(alloc, recordings, given.as_slice(), &order, first, others)?;
    Ok((order.number(), reported))
}

/// Each command opens the files of its words in their order, each once, and that of `check` twice, and makes its own after that, unless a
/// fault comes first.
#[test]
fn files_are_opened_in_their_order(rt: HostRuntime) -> Result<(), Fail> {
    for (words, first, others, files, text) in ROWS {
        let (number, reported) = opened(rt.alloc(), words, first, others)?;
        assert_eq!(rt; reported.as_str(), text, "{words:?}");
        assert_eq!(rt; number, files, "{words:?}");
    }
    Ok(())
}

/// The holding file of a frame of two tiles.
fn held(alloc: Global) -> Result<Vec<u8>, Fail> {
    let mut record: &[u8] = &TWO_TILES;
    let mut copies: [&[u8]; 1] = [&FRAME];
    let (mut file, mut printed) = (Vec::new(alloc), Vec::new(alloc));
    let returned = run_take(
        alloc,
        Recordings::Profile,
        &mut record,
        2,
        1,
        &mut copies,
        &mut file,
        &mut printed,
    );
    returned.ok().ok_or("a whole frame")?;
    Ok(file)
}

/// The same where the files are holding files, of which none has a fault.
#[test]
fn holding_files_are_opened_in_their_order(rt: HostRuntime) -> Result<(), Fail> {
    let file = held(rt.alloc())?;
    for (words, files) in HELD {
        let (number, reported) = opened(rt.alloc(), words, &file, &file)?;
        assert_eq!(rt; reported.as_str(), "true", "{words:?}");
        assert_eq!(rt; number, files, "{words:?}");
    }
    Ok(())
}
