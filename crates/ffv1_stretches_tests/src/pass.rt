//! A pass over copies, and what it came to.
ghost use Rattle.std.specs.Prelude.{◌≡◌, All};
ghost use Rattle.ffv1_stretches.specs.Copies.{state_of};

use crate::devices::{Input, narrow_sink};
use ffv1_devices::{FromRead, Source};
use ffv1_stretches::{CopyReader, MendFault, mend_stretches, read_list};
use std::alloc::Global;

/// What a pass is to return, make and print.
#[derive(Clone, Copy)]
pub(crate) struct Wanted<'a> {
    pub(crate) returned: Result<bool, MendFault>,
    pub(crate) made: &'a [u8],
    pub(crate) printed: &'a str,
}

/// How many bytes OUT and the output take.
#[derive(Clone, Copy)]
pub(crate) struct Rooms {
    pub(crate) out: usize,
    pub(crate) output: usize,
}

/// They take all.
pub(crate) const AMPLE: Rooms = Rooms {
    out: usize::MAX,
    output: usize::MAX,
};

/// Whether a pass over copies of which nothing was read yet comes to this.
fn comes_to<S: Source>(
    alloc: Global,
    list: &str,
    copies: &mut [CopyReader<S>],
    rooms: Rooms,
    wanted: Wanted<'_>,
) -> bool
    requires { All (λ copy. (state_of S.log copy).end ≡ 0) copies.old }
{
    let Ok(stretches) = read_list(alloc, list.as_bytes(), copies.len()) else {
        return false;
    };
    let mut out = narrow_sink(alloc, rooms.out);
    let mut output = narrow_sink(alloc, rooms.output);
    let returned = mend_stretches(alloc, stretches.as_slice(), copies, &mut out, &mut output);
    let (made, printed) = (out.into_inner().bytes, output.into_inner().bytes);
    returned == wanted.returned
        && made.as_slice() == wanted.made
        && printed.as_slice() == wanted.printed.as_bytes()
}

/// Whether a pass over two copies does.
pub(crate) fn two_come_to<'a>(
    alloc: Global,
    list: &str,
    one: Input<'a>,
    other: Input<'a>,
    rooms: Rooms,
    wanted: Wanted<'_>,
) -> bool {
    let mut copies = [
        CopyReader::new(alloc, FromRead::new(one)),
        CopyReader::new(alloc, FromRead::new(other)),
    ];
    comes_to(alloc, list, &mut copies, rooms, wanted)
}

/// Whether a pass over copies that end after these bytes does, where OUT and the output take all.
pub(crate) fn files_come_to(
    alloc: Global,
    list: &str,
    (one, other): (&[u8], &[u8]),
    wanted: Wanted<'_>,
) -> bool {
    let (one, other) = (Input::ending(one), Input::ending(other));
    two_come_to(alloc, list, one, other, AMPLE, wanted)
}

/// The same of three copies.
pub(crate) fn three_come_to(
    alloc: Global,
    list: &str,
    [one, other, third]: [&[u8]; 3],
    wanted: Wanted<'_>,
) -> bool {
    let mut copies = [
        CopyReader::new(alloc, FromRead::new(Input::ending(one))),
        CopyReader::new(alloc, FromRead::new(Input::ending(other))),
        CopyReader::new(alloc, FromRead::new(Input::ending(third))),
    ];
    comes_to(alloc, list, &mut copies, AMPLE, wanted)
}
