//! How the slices of payloads lie in their frames.
use ffv1_layout::{LayoutFault, PlacedSlice, read_layout};
use ffv1_range::{HeadFault, Recording};
use ffv1_slice::LinkFault;
use std::test::Fail;

/// A slice's tiles, how long its content is, and its error status.
#[derive(Clone, Copy, Debug, PartialEq, Eq)]
struct Place {
    x: u32,
    y: u32,
    w: u32,
    h: u32,
    length: usize,
    status: Option<u8>,
}

/// The place of a slice.
fn place_of(slice: &PlacedSlice<'_>) -> Place {
    let header = slice.header;
    Place {
        x: header.x,
        y: header.y,
        w: header.w,
        h: header.h,
        length: slice.content.len(),
        status: slice.status,
    }
}

/// A record, the frame's size, a payload, and its slices.
type Laid = (&'static [u8], (u32, u32), &'static [u8], &'static [Place]);

static LAID: [Laid; 3] = [
    // two tiles
    (
        &TWO_TILES,
        (2, 1),
        &[
            0xFC, 0x15, 0x80, 0x00, 0x00, 0x03, 0x00, 0x63, 0x1D, 0x7F, 0xBA, 0x3D, 0xDE, 0xEA,
            0x00, 0x00, 0x03, 0x00, 0xC2, 0x38, 0x9F, 0xE3,
        ],
        &[
            Place {
                x: 0,
                y: 0,
                w: 1,
                h: 1,
                length: 3,
                status: Some(0),
            },
            Place {
                x: 1,
                y: 0,
                w: 1,
                h: 1,
                length: 3,
                status: Some(0),
            },
        ],
    ),
    // two slices of two tiles, the right one first
    (
        &[
            0x56, 0x00, 0x2F, 0xD2, 0x28, 0xA7, 0x4E, 0x9D, 0x3A, 0x74, 0xE9, 0xD3, 0xA3, 0xFA,
            0x87, 0x8F, 0xBF, 0x38,
        ],
        (2, 2),
        &[
            0x99, 0x45, 0x56, 0xAE, 0x00, 0x00, 0x04, 0x00, 0x3D, 0x50, 0x44, 0xB7, 0xE0, 0x93,
            0x45, 0x2F, 0x00, 0x00, 0x04, 0x00, 0xD9, 0x8D, 0x25, 0xF4,
        ],
        &[
            Place {
                x: 1,
                y: 0,
                w: 1,
                h: 2,
                length: 4,
                status: Some(0),
            },
            Place {
                x: 0,
                y: 0,
                w: 1,
                h: 2,
                length: 4,
                status: Some(0),
            },
        ],
    ),
    // footers of 3 bytes
    (
        &[
            0x56, 0x00, 0x30, 0x28, 0x49, 0xCD, 0x9B, 0x36, 0x6C, 0xD9, 0xB3, 0x66, 0xCC, 0x83,
            0x7D, 0x25, 0x3D,
        ],
        (1, 1),
        &[0xFC, 0x16, 0x38, 0x00, 0x00, 0x03],
        &[Place {
            x: 0,
            y: 0,
            w: 1,
            h: 1,
            length: 3,
            status: None,
        }],
    ),
];

/// The record of gray of two tiles, 2 x 1 samples.
const TWO_TILES: [u8; 18] = [
    0x56, 0x00, 0x2F, 0xE2, 0x40, 0xE9, 0xD3, 0xA7, 0x4E, 0x9D, 0x3A, 0x74, 0xE5, 0x11, 0xB3, 0xB9,
    0xEA, 0x0B,
];

/// Payloads of that recording, and their faults.
static REFUSED: [(&[u8], LayoutFault); 8] = [
    (&[], LayoutFault::Chain),
    // a size that is more than there is
    (
        &[0x00, 0x00, 0x01, 0x00, 0x63, 0x1D, 0x7F, 0xBA],
        LayoutFault::Chain,
    ),
    // three slices
    (
        &[
            0xFC, 0x15, 0x80, 0x00, 0x00, 0x03, 0x00, 0x63, 0x1D, 0x7F, 0xBA, 0x3D, 0xDE, 0xEA,
            0x00, 0x00, 0x03, 0x00, 0xC2, 0x38, 0x9F, 0xE3, 0x3D, 0xDE, 0xEA, 0x00, 0x00, 0x03,
            0x00, 0xC2, 0x38, 0x9F, 0xE3,
        ],
        LayoutFault::Chain,
    ),
    // one wrong bit in the first
    (
        &[
            0xFC, 0x15, 0x81, 0x00, 0x00, 0x03, 0x00, 0x63, 0x1D, 0x7F, 0xBA, 0x3D, 0xDE, 0xEA,
            0x00, 0x00, 0x03, 0x00, 0xC2, 0x38, 0x9F, 0xE3,
        ],
        LayoutFault::Slice {
            place: 0,
            cause: LinkFault::Parity,
        },
    ),
    // one wrong bit in the second
    (
        &[
            0xFC, 0x15, 0x80, 0x00, 0x00, 0x03, 0x00, 0x63, 0x1D, 0x7F, 0xBA, 0x3D, 0xDE, 0xEB,
            0x00, 0x00, 0x03, 0x00, 0xC2, 0x38, 0x9F, 0xE3,
        ],
        LayoutFault::Slice {
            place: 1,
            cause: LinkFault::Parity,
        },
    ),
    // the second has two tiles from the second on
    (
        &[
            0xFC, 0x15, 0x80, 0x00, 0x00, 0x03, 0x00, 0x63, 0x1D, 0x7F, 0xBA, 0x28, 0x8B, 0x7A,
            0x00, 0x00, 0x03, 0x00, 0xCD, 0x8B, 0x54, 0x60,
        ],
        LayoutFault::Slice {
            place: 1,
            cause: LinkFault::Head(HeadFault::OutsideGrid),
        },
    ),
    // the first tile twice
    (
        &[
            0xFC, 0x15, 0x80, 0x00, 0x00, 0x03, 0x00, 0x63, 0x1D, 0x7F, 0xBA, 0xF9, 0x2A, 0xEB,
            0x00, 0x00, 0x03, 0x00, 0xCC, 0x1C, 0x0D, 0x7E,
        ],
        LayoutFault::Overlap { place: 1 },
    ),
    // the first tile alone
    (
        &[
            0xFC, 0x15, 0x80, 0x00, 0x00, 0x03, 0x00, 0x63, 0x1D, 0x7F, 0xBA,
        ],
        LayoutFault::Uncovered { tile: 1 },
    ),
];

#[test]
fn slices_lie_as_their_headers_say(rt: HostRuntime) -> Result<(), Fail> {
    for &(record, (width, height), payload, wanted) in &LAID {
        let recording = Recording::read(rt.alloc(), record, width, height)?;
        let slices = read_layout(rt.alloc(), &recording, payload)?;
        assert_eq!(rt; slices.len(), wanted.len());
        for (slice, place) in slices.iter().zip(wanted) {
            assert_eq!(rt; place_of(slice), *place);
        }
    }
    Ok(())
}

#[test]
fn first_fault_of_a_payload(rt: HostRuntime) -> Result<(), Fail> {
    let recording = Recording::read(rt.alloc(), &TWO_TILES, 2, 1)?;
    for &(payload, wanted) in &REFUSED {
        let fault = match read_layout(rt.alloc(), &recording, payload) {
            Ok(_) => None,
            Err(fault) => Some(fault),
        };
        assert_eq!(rt; fault, Some(wanted));
    }
    Ok(())
}
