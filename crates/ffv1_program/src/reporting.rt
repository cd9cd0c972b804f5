//! What the program reports of itself as it ends (own): its exit status, and the line of a fault on standard error.
ghost use Rattle.std.specs.Prelude.{◌≡◌, [], IfOk, string_bytes};
ghost use Rattle.ffv1_commands.specs.Fault.{NamesPath, NamesNoPath};
ghost use Rattle.ffv1_words.specs.WordPaths.{IsPathOf};
ghost use Rattle.ffv1_program.specs.Reporting.{end_status, reported_line, command_line};

use ffv1_commands::CliFault;
use ffv1_words::Words;
use std::alloc::{AllocError, Global};

/// The line that reports a fault if there is no memory for its own.
pub const OUT_OF_MEMORY: &str = "ffv1restore: memory";

/// The exit status of what a command returned: 0 if it did all, 3 if something is missing or damaged, 2 if the words were refused, and 1 for
/// any other fault.
pub fn end_status(done: &Result<bool, CliFault>) -> u8
    ensures { result ≡ end_status done.now }
{
    match done {
        Ok(true) => 0,
        Ok(false) => 3,
        Err(fault) => fault.status(),
    }
}

/// The line of a fault with the program's name, where this is the text of the path that it names. It fails if an allocation fails.
fn reported_line(alloc: Global, fault: &CliFault, path: &str) -> Result<String, AllocError>
    ensures { IfOk result (λ line. string_bytes line ≡ reported_line path.now fault.now) }
{
    let line = fault.line(alloc, path)?;
    format!(in alloc; "ffv1restore: {line}")
}

/// The line of a fault that comes before there is a command, whose paths it could name: without a line feed, for standard error. It fails if
/// an allocation fails.
pub fn early_line(alloc: Global, fault: &CliFault) -> Result<String, AllocError>
    requires { NamesNoPath fault.now }
    ensures { IfOk result (λ line. string_bytes line ≡ reported_line [] fault.now) }
{
    reported_line(alloc, fault, "")
}

/// The line of a fault of the command of these words, with the word of the path that it names: without a line feed, for standard error. It
/// fails if an allocation fails.
pub fn command_line(
    alloc: Global,
    fault: &CliFault,
    words: &Words<'_>,
) -> Result<String, AllocError>
    requires { NamesPath (IsPathOf words.now) fault.now }
    ensures { IfOk result (λ line. string_bytes line ≡ command_line words.now fault.now) }
{
    let word = match fault.path() {
        Some(path) => words.path(path),
        None => "",
    };
    reported_line(alloc, fault, word)
}
