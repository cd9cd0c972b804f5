//! Makes calls that take memory, and makes each again if it reports that an allocation failed.
//!
//! `tests/memory` runs this program while one allocation after the other is refused, and compares what it prints: a line
//! for each call with the remainder of the bytes that it gave, before which stands a line with `memory` if the call
//! reported that, and in whose place stands `wrong` if it returned anything else or what the call was made on has
//! changed. The exit status is 2 if the allocation was refused to what the calls are made on.
#![tactic(auto)]

mod attempt;
mod buffer;
mod calls;
mod commands;
mod mending;
mod playing;
mod stock;

use attempt::{Attempt, Tried};
use calls::{
    DecodeFrame, DecodeTile, JoinStreams, JoinWith, MakeDecoder, MakeHolding, Picture, ReadHold,
    ReadHolding, ReadSetup, Repair, Report, Restore, Splice, Take, TakeAll, Vote, Weave, WriteHold,
};
use commands::{Command, Run};
use mending::{Mend, MendStretches, ReadList};
use playing::{DecodeSlice, MakePlayer, PlayFrame, ReadLayout, ShowHolding};
use std::io;
use std::process::ExitCode;
use stock::Stock;

/// Makes a call, and again if an allocation failed, and prints what it came to.
fn report<C: Attempt>(rt: &HostRuntime, name: &str, mut call: C) -> io::Result<()> {
    let mut outcome = call.attempt(rt.alloc());
    if outcome == Tried::Memory {
        println!(rt; "{name} memory")?;
        let kept = call.is_kept();
        outcome = call.attempt(rt.alloc());
        if !kept {
            outcome = Tried::Wrong;
        }
    }
    match outcome {
        Tried::Done(remainder) => println!(rt; "{name} {remainder:08x}"),
        Tried::Memory | Tried::Wrong => println!(rt; "{name} wrong"),
    }
}

/// The calls that read a record or take slices.
fn report_holdings(rt: &HostRuntime, stock: &Stock) -> io::Result<()> {
    report(rt, "Setup::read", ReadSetup)?;
    report(rt, "Holding::new", MakeHolding)?;
    report(rt, "take", Take::new(rt.alloc())?)?;
    report(rt, "take_all", TakeAll::new(rt.alloc())?)?;
    report(rt, "join_with", JoinWith::new(rt.alloc(), stock)?)
}

/// The calls that restore a payload, or read and write a holding file.
fn report_files(rt: &HostRuntime, stock: &Stock) -> io::Result<()> {
    let (held, file) = (&stock.both.holding, stock.both.file.bytes());
    report(rt, "restore", Restore { held })?;
    report(rt, "write_hold", WriteHold { held })?;
    report(rt, "read_hold", ReadHold { file })?;
    report(rt, "read_holding", ReadHolding { file })?;
    report(rt, "join_streams", JoinStreams::new(stock))
}

/// The calls that decode, and those that show a holding.
fn report_pictures(rt: &HostRuntime, stock: &Stock) -> io::Result<()> {
    let held = &stock.both.holding;
    let setup = held.setup();
    report(rt, "decode_tile", DecodeTile { setup })?;
    report(rt, "Decoder::new", MakeDecoder)?;
    report(rt, "decode_frame", DecodeFrame::new(rt.alloc())?)?;
    let first = &stock.alone.first.holding;
    report(rt, "picture", Picture { held: first })?;
    report(rt, "show_holding", ShowHolding { held: first })?;
    report(rt, "report", Report { held })
}

/// The calls that decode the frames of any recording.
fn report_players(rt: &HostRuntime) -> io::Result<()> {
    report(rt, "read_layout", ReadLayout::new(rt.alloc())?)?;
    report(rt, "decode_slice", DecodeSlice::new(rt.alloc())?)?;
    report(rt, "Player::new", MakePlayer)?;
    report(rt, "Player::decode", PlayFrame::new(rt.alloc())?)
}

/// The calls that splice copies without a setup.
fn report_splices(rt: &HostRuntime) -> io::Result<()> {
    report(rt, "weave", Weave)?;
    report(rt, "repair", Repair)?;
    report(rt, "vote", Vote)?;
    report(rt, "splice", Splice)
}

/// The calls that mend a file of its stretches.
fn report_stretches(rt: &HostRuntime) -> io::Result<()> {
    report(rt, "mend", Mend)?;
    report(rt, "read_list", ReadList)?;
    report(rt, "mend_stretches", MendStretches::new())
}

/// The functions of the commands, by their names.
static COMMANDS: [(&str, Command); 16] = [
    ("run_chain", Command::Chain),
    ("run_show", Command::Show),
    ("run_setup", Command::Setup),
    ("run_take", Command::Take),
    ("run_join", Command::Join),
    ("run_merge", Command::Merge),
    ("run_report", Command::Report),
    ("run_restore", Command::Restore),
    ("run_picture", Command::Picture),
    ("run_any_picture", Command::AnyPicture),
    ("run_splice", Command::Splice),
    ("run_scan", Command::Scan),
    ("run_check", Command::Check),
    ("run_mend", Command::Mend),
    ("run_decode", Command::Decode),
    ("run_samples", Command::Samples),
];

/// The functions of the commands.
fn report_commands(rt: &HostRuntime, stock: &Stock) -> io::Result<()> {
    for &(name, command) in &COMMANDS {
        report(rt, name, Run::new(command, stock))?;
    }
    Ok(())
}

/// All calls, on what is there.
fn report_calls(rt: &HostRuntime, stock: &Stock) -> io::Result<()> {
    report_holdings(rt, stock)?;
    report_files(rt, stock)?;
    report_pictures(rt, stock)?;
    report_players(rt)?;
    report_splices(rt)?;
    report_stretches(rt)?;
    report_commands(rt, stock)
}

/// All of it.
fn report_all(rt: &HostRuntime) -> io::Result<()> {
    let stock = Stock::new(rt.alloc())?;
    report_calls(rt, &stock)
}

fn main(rt: HostRuntime) -> ExitCode {
    match report_all(&rt) {
        Ok(()) => ExitCode::SUCCESS,
        Err(_) => ExitCode::from(2),
    }
}
