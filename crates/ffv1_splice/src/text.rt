//! The places of a spliced frame, and its front, in words.
ghost use Rattle.std.specs.Prelude.{◌≡◌, ◌++◌, OnOk, string_bytes};
ghost use Rattle.ffv1_splice.specs.Text.{place_words, front_line};

use crate::place::{Place, Standing};
use std::alloc::AllocError;

/// Adds where a place lies and how it stands, as `4515..6117 settled`, or `3698..4515 woven 4` with the number of combinations. No line
/// feed ends it. It fails only if an allocation fails; then a front of it may be added.
pub fn push_place(text: &mut String, place: Place) -> Result<(), AllocError>
    ensures { OnOk result (string_bytes text.new ≡ string_bytes text.old ++ place_words place) }
{
    let (start, end) = (place.start, place.end);
    match place.standing {
        Standing::Settled => write!(text, "{start}..{end} settled"),
        Standing::Woven(count) => write!(text, "{start}..{end} woven {count}"),
        Standing::Voted(count) => write!(text, "{start}..{end} voted {count}"),
        Standing::Repaired(count) => write!(text, "{start}..{end} repaired {count}"),
        Standing::Disputed => write!(text, "{start}..{end} disputed"),
        Standing::Missing => write!(text, "{start}..{end} missing"),
        Standing::Undivided => write!(text, "{start}..{end} undivided"),
    }
}

/// Adds the line that says whether the places cover the frame: `end whole`, or `end broken at 844` where so many bytes stand before the
/// first of them. It fails only if an allocation fails; then a front of the line may be added.
pub fn push_front(text: &mut String, front: usize) -> Result<(), AllocError>
    ensures { OnOk result (string_bytes text.new ≡ string_bytes text.old ++ front_line front) }
{
    if front == 0 {
        writeln!(text, "end whole")
    } else {
        writeln!(text, "end broken at {front}")
    }
}
