//! The words that the program is given (own): the first names a command, then come exactly its own.
ghost use Rattle.std.specs.Prelude.{◌≡◌, ℕ, List, map, option_map, false, IfOk, IfErr, MatchResult, codes, string_bytes};
ghost use Rattle.ffv1_commands.specs.Fault.{NamesNoPath};
ghost use Rattle.clap.specs.Words.{app_of, rule_of};
ghost use Rattle.clap.specs.declared.builder.command.Command.TheViews.{out-Command};
ghost use Rattle.ffv1_words.specs.Grammar.{word_rule, command_app, with_commands, program_app};
ghost use Rattle.ffv1_words.specs.Inner.Arguments.{rows_matched, IsOfHoldings, ReadsWords};
ghost use Rattle.ffv1_words.specs.Arguments.{IsWord, AreValues, IsNumberWord, AreRecordingWords, AreReadFrom, RefusesAll};

use crate::words::{RecordingWords, Words};
use clap::error::ErrorKind;
use clap::{Arg, ArgAction, ArgMatches, Command};
use ffv1_commands::CliFault;
use std::alloc::{AllocError, Global};

/// The commands: the name of each, its words, and after them the word of which there has to be one at least.
static COMMANDS: [(&str, &[&str], Option<&str>); 17] = [
    ("chain", &["FRAME"], None),
    ("scan", &["RANGES", "FILE"], None),
    ("check", &["FILE"], None),
    ("show", &["RECORD", "WIDTH", "HEIGHT"], None),
    ("setup", &["RECORD", "WIDTH", "HEIGHT"], None),
    ("take", &["RECORD", "WIDTH", "HEIGHT", "OUT"], Some("COPY")),
    ("join", &["OUT"], Some("HOLD")),
    ("merge", &["OUT", "A", "B"], None),
    ("report", &["HOLD"], None),
    ("restore", &["HOLD", "OUT"], None),
    ("picture", &["HOLD", "OUT"], None),
    ("splice", &["OUT"], Some("COPY")),
    ("mend", &["LIST", "OUT"], Some("COPY")),
    (
        "decode",
        &["RECORD", "WIDTH", "HEIGHT", "FRAME", "OUT"],
        None,
    ),
    (
        "samples",
        &["RECORD", "WIDTH", "HEIGHT", "OUT"],
        Some("FRAME"),
    ),
    ("help", &[], None),
    ("version", &[], None),
];

/// A word that has to be there, by this name.
fn one<'a>(alloc: Global, name: &'a str) -> Arg<'a>
    ensures rule { rule_of result ≡ word_rule name.now }
    ensures local { result.global ≡ false }
{
    Arg::new(alloc, name).required(true).action(ArgAction::Set)
}

/// A command of this name, with its words, and the word of which there has to be one at least.
fn command<'a>(
    alloc: Global,
    name: &'a str,
    words: &[&'a str],
    several: Option<&'a str>,
) -> Result<Command<'a>, AllocError>
    ensures app { IfOk result (λ command. app_of command ≡ command_app name.now (map (λ word. word.now) words.now) (option_map (λ word. word.now) several.entry)) }
    ensures local { IfOk result (λ command. (out-Command command).has_globals ≡ false) }
{
    let mut command = Command::new(alloc, name);
    for word in words {
        command = command.arg(one(alloc, word))?;
    }
    match several {
        Some(word) => command.arg(one(alloc, word).num_args(1..)),
        None => Ok(command),
    }
}

/// A program with these commands after its own: the name of each, its words, and the word of which there has to be one at least.
fn with_commands<'a>(
    alloc: Global,
    program: Command<'a>,
    commands: &[(&'a str, &'a [&'a str], Option<&'a str>)],
) -> Result<Command<'a>, AllocError>
    ensures { IfOk result (λ r. app_of r ≡ with_commands (app_of program.entry) (map (λ command. (command.0.now, map (λ word. word.now) command.1.now, option_map (λ word. word.now) command.2)) commands.now)) }
{
    let mut program = program;
    for (name, words, several) in commands {
        program = program.subcommand(command(alloc, name, words, *several)?)?;
    }
    Ok(program)
}

/// The program's commands, `help` among them: clap has none of its own beside it.
fn program<'a>(alloc: Global) -> Result<Command<'a>, AllocError>
    ensures { IfOk result (λ program. app_of program ≡ program_app) }
{
    let program = Command::new(alloc, "ffv1restore")
        .disable_help_subcommand(true)
        .subcommand_required(true);
    with_commands(alloc, program, &COMMANDS)
}

/// The word of this name.
fn word<'a>(matches: &ArgMatches<'a>, name: &str) -> Result<&'a str, CliFault>
    ensures read { MatchResult result (λ word. IsWord (rows_matched matches.now) name.now word.now) (RefusesAll (IsWord (rows_matched matches.now) name.now)) }
    ensures fault { IfErr result (λ fault. fault ≡ CliFault.Words) }
{
    matches.get_str(name).ok_or(CliFault::Words)
}

/// The word of this name, as a number.
fn number(matches: &ArgMatches, name: &str) -> Result<u32, CliFault>
    ensures read { MatchResult result (IsNumberWord (rows_matched matches.now) name.now) (RefusesAll (IsNumberWord (rows_matched matches.now) name.now)) }
    ensures fault { IfErr result (λ fault. fault ≡ CliFault.Words) }
{
    match word(matches, name)?.parse::<u32>() {
        Ok(number) => Ok(number),
        Err(_) => Err(CliFault::Words),
    }
}

/// The words of this name.
fn several<'m, 'a>(matches: &'m ArgMatches<'a>, name: &str) -> Result<&'m [&'a str], CliFault>
    ensures { MatchResult result (λ words. AreValues (rows_matched matches.now) name.now (map (λ word. word.now) words.now))
        (RefusesAll (AreValues (rows_matched matches.now) name.now)) }
{
    matches.get_strs(name).ok_or(CliFault::Words)
}

/// A list of words in memory of its own.
fn list<'a>(alloc: Global, words: &[&'a str]) -> Result<Vec<&'a str>, CliFault>
    ensures { MatchResult result (λ list. list.items ≡ words.now) (λ fault. fault ≡ CliFault.Memory) }
{
    Ok(words.to_vec(alloc)?)
}

/// The words of a recording: RECORD, WIDTH and HEIGHT.
fn recording_words<'a>(matches: &ArgMatches<'a>) -> Result<RecordingWords<'a>, CliFault>
    ensures { MatchResult result (AreRecordingWords (rows_matched matches.now)) (RefusesAll (AreRecordingWords (rows_matched matches.now))) }
{
    Ok(RecordingWords {
        record: word(matches, "RECORD")?,
        width: number(matches, "WIDTH")?,
        height: number(matches, "HEIGHT")?,
    })
}

/// The words COPY.
fn copies<'a>(alloc: Global, matches: &ArgMatches<'a>) -> Result<Vec<&'a str>, CliFault>
    ensures { MatchResult result (λ copies. AreValues (rows_matched matches.now) (codes "COPY") (map (λ word. word.now) copies.items))
        (RefusesAll (AreValues (rows_matched matches.now) (codes "COPY"))) }
{
    list(alloc, several(matches, "COPY")?)
}

/// The words FRAME.
fn frames<'a>(alloc: Global, matches: &ArgMatches<'a>) -> Result<Vec<&'a str>, CliFault>
    ensures { MatchResult result (λ frames. AreValues (rows_matched matches.now) (codes "FRAME") (map (λ word. word.now) frames.items))
        (RefusesAll (AreValues (rows_matched matches.now) (codes "FRAME"))) }
{
    list(alloc, several(matches, "FRAME")?)
}

/// The words of `join`.
fn join_words<'a>(alloc: Global, matches: &ArgMatches<'a>) -> Result<Words<'a>, CliFault>
    ensures { ReadsWords (rows_matched matches.now) (codes "join") result }
{
    let [first, others @ ..] = several(matches, "HOLD")? else {
        return Err(CliFault::Words);
    };
    Ok(Words::Join {
        out: word(matches, "OUT")?,
        first,
        others: list(alloc, others)?,
    })
}

/// The command of this name that reads holding files, with its words.
fn hold_words_of<'a>(
    alloc: Global,
    name: &str,
    matches: &ArgMatches<'a>,
) -> Result<Words<'a>, CliFault>
    requires { IsOfHoldings name.now }
    ensures { ReadsWords (rows_matched matches.now) name.now result }
{
    match name {
        "join" => join_words(alloc, matches),
        "merge" => Ok(Words::Merge {
            out: word(matches, "OUT")?,
            left: word(matches, "A")?,
            right: word(matches, "B")?,
        }),
        "report" => Ok(Words::Report {
            file: word(matches, "HOLD")?,
        }),
        "restore" => Ok(Words::Restore {
            file: word(matches, "HOLD")?,
            out: word(matches, "OUT")?,
        }),
        "picture" => Ok(Words::Picture {
            file: word(matches, "HOLD")?,
            out: word(matches, "OUT")?,
        }),
        _ => Err(CliFault::Words),
    }
}

/// The command of this name, with its words.
fn words_of<'a>(alloc: Global, name: &str, matches: &ArgMatches<'a>) -> Result<Words<'a>, CliFault>
    ensures { ReadsWords (rows_matched matches.now) name.now result }
{
    match name {
        "chain" => Ok(Words::Chain {
            frame: word(matches, "FRAME")?,
        }),
        "scan" => Ok(Words::Scan {
            ranges: word(matches, "RANGES")?,
            file: word(matches, "FILE")?,
        }),
        "check" => Ok(Words::Check {
            file: word(matches, "FILE")?,
        }),
        "show" => Ok(Words::Show {
            recording: recording_words(matches)?,
        }),
        "setup" => Ok(Words::Setup {
            recording: recording_words(matches)?,
        }),
        "take" => Ok(Words::Take {
            recording: recording_words(matches)?,
            out: word(matches, "OUT")?,
            copies: copies(alloc, matches)?,
        }),
        "splice" => Ok(Words::Splice {
            out: word(matches, "OUT")?,
            copies: copies(alloc, matches)?,
        }),
        "mend" => Ok(Words::Mend {
            list: word(matches, "LIST")?,
            out: word(matches, "OUT")?,
            copies: copies(alloc, matches)?,
        }),
        "decode" => Ok(Words::Decode {
            recording: recording_words(matches)?,
            frame: word(matches, "FRAME")?,
            out: word(matches, "OUT")?,
        }),
        "samples" => Ok(Words::Samples {
            recording: recording_words(matches)?,
            out: word(matches, "OUT")?,
            frames: frames(alloc, matches)?,
        }),
        "help" => Ok(Words::Help),
        "version" => Ok(Words::Version),
        _ => hold_words_of(alloc, name, matches),
    }
}

/// The command that the program's words name, the first of which is the program's own: they are read as `clap` reads them, by the
/// commands of `specs/Grammar.antt`. Only other words are refused with `Words`, `--help` and `help` with a word after it among them, and
/// a width or height that is no number under 2^32. Returns `Memory` if an allocation fails.
pub fn read_words<'a>(alloc: Global, words: &'a [String]) -> Result<Words<'a>, CliFault>
    ensures ok { IfOk result (AreReadFrom (map (λ word. string_bytes word) words.now)) }
    ensures err { IfErr result (RefusesAll (AreReadFrom (map (λ word. string_bytes word) words.now))) }
    ensures names { IfErr result NamesNoPath }
{
    let Ok(program) = program(alloc) else {
        return Err(CliFault::Memory);
    };
    let matches = match program.try_get_matches_from(words) {
        Ok(matches) => matches,
        Err(error) if error.kind() == ErrorKind::OutOfMemory => return Err(CliFault::Memory),
        Err(_) => return Err(CliFault::Words),
    };
    match matches.subcommand() {
        Some((name, found)) => words_of(alloc, name, found),
        None => Err(CliFault::Words),
    }
}
