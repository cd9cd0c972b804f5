//! The command `chain`: prints the links of a frame payload and how their chain ends (RFC 9043, section 4.9).
ghost use Rattle.std.specs.Prelude.{◌≡◌, ◌+◌, ◌≤◌, List, ℕ, [], ◌++◌, length, IfErr, OnOk, OnErr, IfSome, string_bytes, string_len, string_capacity};
ghost use Rattle.ffv1_bits.specs.Limits.{payload_limit};
ghost use Rattle.ffv1_commands.specs.Fault.{NamesPath};
ghost use Rattle.ffv1_commands.specs.Paths.{IsChainPath};
ghost use Rattle.ffv1_devices.specs.Logs.{StopsWriting};
ghost use Rattle.ffv1_devices.specs.Results.{WritesAll};
ghost use Rattle.ffv1_commands.specs.Devices.{UnlessWriting};
ghost use Rattle.ffv1_commands.specs.Inner.Lines.{room, longest_line, PrintsFront};
ghost use Rattle.ffv1_commands.specs.ChainText.{link_place, link_state, link_line, parity_word, end_line, IsChainText, PrintsChain, ChainStops, ReportsChain};
ghost use Rattle.ffv1_slice.specs.Chain.{IsFramed};

use crate::devices::read_file;
use crate::fault::CliFault;
use crate::lines::{ROOM, make_room, push_number, push_word};
use crate::path::CommandPath;
use ffv1_devices::{FromRead, Sink, Source, ThroughWrite, WriteFailed, write_field};
use ffv1_slice::{Chain, ChainEnd, FOOTER_LENGTH, Link, next_link};
use std::alloc::Global;
use std::io::{Read, Write};

/// Reads a frame payload to its end and prints its links, from the payload's end, and how their chain ends: a line for
/// each, as `11..22 size 3 status 0 pass` (from this byte of the payload up to that one, the bytes before the footer, the
/// error status, and `pass` or `fail` for the parity), then `end whole` or `end broken at 5`.
///
/// Any bytes are a payload. Returns `Read` if the frame can't be read or is longer than 2^30 bytes, and `Memory` if an
/// allocation fails: then nothing was written. Returns `Write` if the output fails: then a front of the text was written.
pub fn run_chain<R: Read, W: Write>(
    alloc: Global,
    frame: &mut R,
    output: &mut W,
) -> Result<(), CliFault>
    ensures ok { OnOk result (IfSome (R.remaining frame.old)
        (λ payload. PrintsChain payload (W.contents output.old) (W.contents output.new))) }
    ensures few { OnOk result (IfSome (R.remaining frame.old) (λ payload. length payload ≤ payload_limit)) }
    ensures err { IfErr result (ChainStops (R.remaining frame.old) (W.contents output.old) (W.contents output.new)) }
    ensures untouched { IfErr result (λ fault. UnlessWriting fault (output.new ≡ output.old)) }
    ensures names { IfErr result (NamesPath IsChainPath) }
{
    chain_of(
        alloc,
        &mut FromRead::new(frame),
        &mut ThroughWrite::new(output),
    )
}

/// The command over a source and a sink, whose logs say how it went: at `Read` the source was given up or passed the limit,
/// and at `Write` the sink was given up; no other failures came but interruptions.
pub fn chain_of<R: Source, W: Sink>(
    alloc: Global,
    frame: &mut R,
    output: &mut W,
) -> Result<(), CliFault>
    ensures reported { ReportsChain result (R.log frame.old) (R.log frame.new) (W.log output.old) (W.log output.new) }
    ensures untouched { IfErr result (λ fault. UnlessWriting fault (output.new ≡ output.old)) }
{
    let payload = read_file(alloc, frame, CommandPath::Frame)?;
    let mut text = String::with_capacity(alloc, ROOM)?;
    match print_chain(payload.as_slice(), &mut text, output) {
        Ok(()) => Ok(()),
        Err(WriteFailed) => Err(CliFault::Write(CommandPath::StandardOutput)),
    }
}

/// Prints the text of a payload's chain, line by line, through an empty text with room for many of them.
fn print_chain<W: Sink>(
    payload: &[u8],
    text: &mut String,
    output: &mut W,
) -> Result<(), WriteFailed>
    requires empty { string_bytes text.old ≡ [] }
    requires large { room ≤ string_capacity text.old }
    ensures { (all : List ℕ) × IsChainText payload.now all × WritesAll result (W.log output.old) (W.log output.new) all }
{
    let mut chain = Chain::new(payload);
    let end = chain.end();
    while let Some(link) = next_link(&mut chain) {
        print_link(text, &link, output)?;
    }
    print_end(text, end, output)
}

/// Adds the line of a link to the text, what waits there being printed where it might not find room.
fn print_link<W: Sink>(
    text: &mut String,
    link: &Link<'_>,
    output: &mut W,
) -> Result<(), WriteFailed>
    requires { room ≤ string_capacity text.old }
    ensures ok { OnOk result (PrintsFront (W.log output.old) (W.log output.new) (string_bytes text.new)
        (string_bytes text.old ++ link_line link.now)) }
    ensures err { OnErr result (StopsWriting (W.log output.old) (W.log output.new) (string_bytes text.old)) }
    ensures large { room ≤ string_capacity text.new }
{
    make_room(text, output)?;
    push_place(text, link);
    push_state(text, link);
    Ok(())
}

/// Adds where a link lies and how many of its bytes stand before its footer.
fn push_place(text: &mut String, link: &Link<'_>)
    requires { string_len text.old + 68 ≤ string_capacity text.old }
    ensures bytes { string_bytes text.new ≡ string_bytes text.old ++ link_place link.now }
    ensures len { string_len text.new ≤ string_len text.old + 68 }
    ensures kept { string_capacity text.old ≤ string_capacity text.new }
{
    push_number(text, link.start());
    push_word(text, "..");
    push_number(text, link.end());
    push_word(text, " size ");
    push_number(text, link.bytes().len() - FOOTER_LENGTH);
}

/// Adds a link's error status and parity, and ends the line.
fn push_state(text: &mut String, link: &Link<'_>)
    requires { string_len text.old + 34 ≤ string_capacity text.old }
    ensures bytes { string_bytes text.new ≡ string_bytes text.old ++ link_state link.now }
    ensures kept { string_capacity text.old ≤ string_capacity text.new }
{
    push_word(text, " status ");
    push_number(text, link.status() as usize);
    push_word(text, " ");
    push_word(text, parity_word(link));
    push_word(text, "\n");
}

/// The word for whether a link's parity is right.
fn parity_word(link: &Link<'_>) -> &'static str
    ensures word { result.now ≡ parity_word link.now.bytes }
    ensures short { length result.now ≤ 4 }
{
    let _framed = link.bytes();
    if link.passes() { "pass" } else { "fail" }
}

/// Adds the line of the chain's end to the text, and prints what waits there.
fn print_end<W: Sink>(text: &mut String, end: ChainEnd, output: &mut W) -> Result<(), WriteFailed>
    requires { room ≤ string_capacity text.old }
    ensures { WritesAll result (W.log output.old) (W.log output.new) (string_bytes text.old ++ end_line end) }
{
    make_room(text, output)?;
    push_end(text, end);
    write_field(output, text.as_bytes())
}

/// Adds the line of the chain's end.
fn push_end(text: &mut String, end: ChainEnd)
    requires { string_len text.old + longest_line ≤ string_capacity text.old }
    ensures { string_bytes text.new ≡ string_bytes text.old ++ end_line end }
{
    match end {
        ChainEnd::Whole => push_word(text, "end whole\n"),
        ChainEnd::Broken(place) => {
            push_word(text, "end broken at ");
            push_number(text, place);
            push_word(text, "\n");
        }
    }
}
