//! What the program reports as it ends.
use ffv1_commands::{CliFault, CommandPath};
use ffv1_program::{OUT_OF_MEMORY, command_line, early_line, end_status};
use ffv1_words::Words;
use std::test::Fail;

#[test]
fn each_end_has_its_status(rt: HostRuntime) {
    assert_eq!(rt; end_status(&Ok(true)), 0);
    assert_eq!(rt; end_status(&Ok(false)), 3);
    assert_eq!(rt; end_status(&Err(CliFault::Memory)), 1);
    assert_eq!(rt; end_status(&Err(CliFault::Words)), 2);
}

#[test]
fn lines_name_the_program_and_the_path(rt: HostRuntime) -> Result<(), Fail> {
    let line = early_line(rt.alloc(), &CliFault::Words)?;
    assert_eq!(rt; line.as_str(), "ffv1restore: words refused");
    let line = early_line(rt.alloc(), &CliFault::Memory)?;
    assert_eq!(rt; line.as_str(), OUT_OF_MEMORY);
    let words = Words::Splice {
        out: "frame",
        copies: ["a", "b"].to_vec(rt.alloc())?,
    };
    let line = command_line(rt.alloc(), &CliFault::Read(CommandPath::Copy(1)), &words)?;
    assert_eq!(rt; line.as_str(), "ffv1restore: cannot read b");
    let line = command_line(rt.alloc(), &CliFault::Write(CommandPath::Out), &words)?;
    assert_eq!(rt; line.as_str(), "ffv1restore: cannot write frame");
    Ok(())
}
