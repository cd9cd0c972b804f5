//! The program (own): the words that it is given, the command that they name, and what it reports as it ends.
ghost use Rattle.std.specs.Prelude.{◌≡◌, [], IfErr, MatchResult, map, string_bytes};
ghost use Rattle.ffv1_commands.specs.Fault.{NamesPath, NamesNoPath, exit_status_of};
ghost use Rattle.ffv1_words.specs.WordPaths.{IsPathOf};
ghost use Rattle.ffv1_program.specs.Running.{printed_by};
ghost use Rattle.ffv1_program.specs.Reporting.{end_status, reported_line};
ghost use Rattle.ffv1_program.specs.Program.{PrintsLine, ReportsFault, ReportsEnd, EndsWords, RunsProgram};

use crate::command::{out_word, run};
use crate::files::{FileSystem, NewFiles};
use crate::reporting::{OUT_OF_MEMORY, command_line, early_line, end_status};
use ffv1_commands::CliFault;
use ffv1_devices::{Sink, write_pair};
use ffv1_holding::Recordings;
use ffv1_words::{Words, read_words, recordings_of_words};
use std::alloc::{AllocError, Global};

/// Prints a line. If that fails nothing more can be reported.
fn print_line<E: Sink>(line: &str, errors: &mut E)
    ensures { PrintsLine line.now (E.log errors.old) (E.log errors.new) }
{
    let _printed = write_pair(errors, line.as_bytes(), "\n".as_bytes());
}

/// Prints the line of a fault, or, where there was no memory for it, that memory ran out.
fn report<E: Sink>(line: Result<String, AllocError>, errors: &mut E)
    ensures { MatchResult line (λ text. PrintsLine (string_bytes text) (E.log errors.old) (E.log errors.new))
        (λ _. PrintsLine (reported_line [] CliFault.Memory) (E.log errors.old) (E.log errors.new)) }
{
    match line {
        Ok(line) => print_line(line.as_str(), errors),
        Err(_) => print_line(OUT_OF_MEMORY, errors),
    }
}

/// Reports a fault that comes before there is a command, whose paths it could name: prints its line on `errors`, and returns its exit status.
pub fn report_early<E: Sink>(alloc: Global, fault: &CliFault, errors: &mut E) -> u8
    requires { NamesNoPath fault.now }
    ensures reported { ReportsFault (reported_line [] fault.now) (E.log errors.old) (E.log errors.new) }
    ensures status { result ≡ exit_status_of fault.now }
{
    report(early_line(alloc, fault), errors);
    fault.status()
}

/// Reports the fault of what the command of these words returned, if it is one, and returns the exit status.
fn report_end<E: Sink>(
    alloc: Global,
    done: &Result<bool, CliFault>,
    words: &Words<'_>,
    errors: &mut E,
) -> u8
    requires { IfErr done.now (NamesPath (IsPathOf words.now)) }
    ensures reported { ReportsEnd words.now done.now (E.log errors.old) (E.log errors.new) }
    ensures status { result ≡ end_status done.now }
{
    match done {
        Ok(_) => {}
        Err(fault) => report(command_line(alloc, fault, words), errors),
    }
    end_status(done)
}

/// Runs the command of these words, reports its fault, and returns the exit status.
fn end_words<'a, F: FileSystem<'a> + NewFiles<'a>, W: Sink, E: Sink>(
    alloc: Global,
    recordings: Recordings,
    files: &F,
    words: &Words<'a>,
    output: &mut W,
    errors: &mut E,
) -> u8
    ensures { EndsWords (F.files files.now) F.Device.log F.Buffered.log
        (record { log = F.Made.log; is_unmade_at = F.Made.is_unmade_at; is_made = F.Made.is_made; cannot_make = F.Made.cannot_make })
        recordings words.now (printed_by W.log output.old output.new) (E.log errors.old) (E.log errors.new) result }
{
    let mut made = files.unmade(out_word(words));
    let done = run(alloc, recordings, files, words, &mut made, output);
    report_end(alloc, &done, words, errors)
}

/// Runs the program on the words that it was given, the first of which is its own name: takes `--any` out of them, which says that the
/// command is of any recording; reads the command that they name, and runs it on `files`, printing on `output`. Returns the exit status, and
/// prints the line of a fault on `errors`:
///
/// - 0: the command did its work, and returned `true`;
/// - 3: it returned `false`: something is missing, damaged or not as it was recorded;
/// - 2: the words name no command, and nothing was done;
/// - 1: any other fault of the command, or of reading the words for want of memory.
///
/// A line has the program's name, what is at fault, and the word of the path that it is about. Where there is no memory for it, it is
/// `ffv1restore: memory`.
pub fn run_program<'a, F: FileSystem<'a> + NewFiles<'a>, W: Sink, E: Sink>(
    alloc: Global,
    files: &F,
    given: &'a mut Vec<String>,
    output: &mut W,
    errors: &mut E,
) -> u8
    ensures { RunsProgram (F.files files.now) F.Device.log F.Buffered.log
        (record { log = F.Made.log; is_unmade_at = F.Made.is_unmade_at; is_made = F.Made.is_made; cannot_make = F.Made.cannot_make })
        (map (λ word. string_bytes word) given.old.items) (printed_by W.log output.old output.new) (E.log errors.old) (E.log errors.new) result }
{
    let recordings = recordings_of_words(given);
    match read_words(alloc, given.as_slice()) {
        Ok(words) => end_words(alloc, recordings, files, &words, output, errors),
        Err(fault) => report_early(alloc, &fault, errors),
    }
}
