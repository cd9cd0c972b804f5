//! Lines that are printed as they are found: they wait in a text, which is printed where another line might not find room,
//! and so takes no memory but what it has from the start.
ghost use Rattle.std.specs.Prelude.{◌≡◌, ◌+◌, ◌≤◌, ◌++◌, length, OnOk, OnErr, string_bytes, string_len, string_capacity};
ghost use Rattle.std.specs.Fmt.{decimal};
ghost use Rattle.ffv1_devices.specs.Logs.{StopsWriting};
ghost use Rattle.ffv1_commands.specs.Inner.Lines.{room, longest_line, PrintsFront};

use ffv1_devices::{Sink, WriteFailed, write_field};
use itoa::Buffer;

/// How many bytes a text has room for, in which lines wait.
pub(crate) const ROOM: usize = 65536;

/// No line is longer: it has four numbers of 20 digits at most, and 22 bytes beside them.
const LONGEST_LINE: usize = 102;

/// Prints what waits in a text where a line might not find room after it.
pub(crate) fn make_room<W: Sink>(text: &mut String, output: &mut W) -> Result<(), WriteFailed>
    requires { room ≤ string_capacity text.old }
    ensures ok { OnOk result (PrintsFront (W.log output.old) (W.log output.new) (string_bytes text.new) (string_bytes text.old)) }
    ensures free { OnOk result (string_len text.new + longest_line ≤ string_capacity text.new) }
    ensures err { OnErr result (StopsWriting (W.log output.old) (W.log output.new) (string_bytes text.old)) }
    ensures large { room ≤ string_capacity text.new }
{
    if text.len() <= ROOM - LONGEST_LINE {
        return Ok(());
    }
    write_field(output, text.as_bytes())?;
    text.clear();
    Ok(())
}

/// Adds a word to a text that has room for it.
pub(crate) fn push_word(text: &mut String, word: &str)
    requires { string_len text.old + length word.now ≤ string_capacity text.old }
    ensures bytes { string_bytes text.new ≡ string_bytes text.old ++ word.now }
    ensures len { string_len text.new ≡ string_len text.old + length word.now }
    ensures kept { string_capacity text.old ≤ string_capacity text.new }
{
    // It is refused only where the text has no room.
    let _added = text.push_str(word);
}

/// Adds a number, in decimal digits, to a text that has room for any.
pub(crate) fn push_number(text: &mut String, number: usize)
    requires { string_len text.old + 20 ≤ string_capacity text.old }
    ensures bytes { string_bytes text.new ≡ string_bytes text.old ++ decimal number }
    ensures len { string_len text.new ≤ string_len text.old + 20 }
    ensures kept { string_capacity text.old ≤ string_capacity text.new }
{
    let mut digits = Buffer::new();
    push_word(text, digits.format(number));
}
