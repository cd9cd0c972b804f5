//! The program on words and files: its exit status, what it prints on both outputs, and which files it opens and makes.
use crate::fakes::{Fakes, Order};
use crate::opened::given_of;
use ffv1_commands::CliFault;
use ffv1_devices::ThroughWrite;
use ffv1_program::{report_early, run_program};
use ffv1_test_frames::{FRAME, TWO_TILES};
use std::alloc::Global;
use std::test::Fail;

/// Words of the program, after its name; the exit status; in which order files are opened and made; and what stands on both outputs.
type Row = (&'static [&'static str], u8, u32, &'static str, &'static str);

const ROWS: [Row; 10] = [
    (&["show", "1", "2", "2"], 0, 1, SHOWN, ""),
    (
        &["take", "1", "2", "1", "9", "2"],
        0,
        129,
        "copy 1 links 2 slices 2 new 2\n",
        "",
    ),
    (&["chain", "0"], 1, 0, "", "ffv1restore: cannot read 0\n"),
    (
        &["merge", "1", "1", "2"],
        1,
        0,
        "",
        "ffv1restore: cannot write 1\n",
    ),
    (
        &["show", "2", "2", "2"],
        1,
        2,
        "",
        "ffv1restore: setup fault 4\n",
    ),
    (
        &["report", "--any", "1"],
        1,
        1,
        "",
        "ffv1restore: holding file fault 1\n",
    ),
    (&[], 2, 0, "", REFUSED),
    (&["chain"], 2, 0, "", REFUSED),
    (&["--any", "report", "1"], 2, 0, "", REFUSED),
    (&["show", "--any", "1", "2", "2"], 2, 0, "", REFUSED),
];

/// The lines of a record of two tiles.
const SHOWN: &str =
    "version 3.4\ncoder 0 colorspace 0 depth 8\nplanes 1 shift 0 0\ngrid 2x1 tiles 2\ntables 1 contexts 1\nec 1 intra 1\n";

const REFUSED: &str = "ffv1restore: words refused\n";

/// Runs the program on these words after its name, and gives its status, which files it opened and made, and what it printed.
fn ended(alloc: Global, words: &[&str]) -> Result<(u8, u32, Vec<u8>, Vec<u8>), Fail> {
    let mut given = given_of(alloc, words)?;
    let order = Order::new();
    let files = Fakes {
        order: &order,
        first: &TWO_TILES,
        others: &FRAME,
    };
    let (mut printed, mut reported) = (Vec::new(alloc), Vec::new(alloc));
    let status = run_program(
        alloc,
        &files,
        &mut given,
        &mut ThroughWrite::new(&mut printed),
        &mut ThroughWrite::new(&mut reported),
    );
    Ok((status, order.number(), printed, reported))
}

#[test]
fn the_program_ends_as_its_command_does(rt: HostRuntime) -> Result<(), Fail> {
    for (words, status, opened, printed, reported) in ROWS {
        let (ended_with, order, on_output, on_errors) = ended(rt.alloc(), words)?;
        assert_eq!(rt; ended_with, status, "{words:?}");
        assert_eq!(rt; order, opened, "{words:?}");
        assert_eq!(rt; on_output.as_slice(), printed.as_bytes(), "{words:?}");
        assert_eq!(rt; on_errors.as_slice(), reported.as_bytes(), "{words:?}");
    }
    Ok(())
}

#[test]
fn a_fault_before_a_command_is_reported(rt: HostRuntime) {
    let mut reported = Vec::new(rt.alloc());
    let status = report_early(
        rt.alloc(),
        &CliFault::Memory,
        &mut ThroughWrite::new(&mut reported),
    );
    assert_eq!(rt; status, 1);
    assert_eq!(rt; reported.as_slice(), "ffv1restore: memory\n".as_bytes());
}
