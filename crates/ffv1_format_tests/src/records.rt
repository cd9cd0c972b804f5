//! Records and slices made to measure, and what reading them returns.
ghost use Rattle.std.specs.Prelude.{◌<◌};
ghost use Rattle.ffv1_range.specs.Decoder.{AreStates};

use crate::frames::{are_zeros, copies, is_made, setup_by};
use crate::parity::with_parity;
use ffv1_range::{
    Frames, HeadFault, RangeFault, Recording, Setup, SetupFault, read_frame_tile, read_slice_head,
};
use ffv1_slice::{Chain, LinkFault, content_of, frame_slice_of, read_frame_slice, read_slice};
use ffv1_vectors::{MakeFault, RangeEncoder, RecordSpec, make_record, spell_record, spell_slice};
use std::alloc::{AllocError, Global};

const ONE: &[u32] = &[128];

const SIX: &[u32] = &[1, 2, 4, 8, 16, 97];

const THREE: &[u32] = &[1, 2, 125];

const TWO: &[u32] = &[1, 127];

const ALL: &[u32] = &[1; 128];

const PLAIN: [&[u32]; 5] = [ONE, ONE, ONE, ONE, ONE];

/// A set for each of these tables.
fn sets_of(alloc: Global, tables: &[[&[u32]; 5]]) -> Result<Vec<Vec<Vec<u32>>>, AllocError> {
    let mut sets = Vec::new(alloc);
    for set in tables {
        sets.push(copies(alloc, set)?)?;
    }
    Ok(sets)
}

/// The fields of a record before its tables, in reading order: the version, its micro number, coder, colour space, depth,
/// chroma planes, their shift across, an extra plane, tiles across and down, sets of tables; and, after these, the parity.
const FRONT: [u32; 12] = [3, 4, 0, 0, 8, 0, 0, 0, 1, 1, 1, 1];

/// The same, each beyond the profile.
const BEYOND_FRONT: [u32; 12] = [4, 3, 1, 1, 10, 1, 3, 1, 65, 65, 9, 2];

/// A record of these fields, with sets of these tables.
fn record_of(
    alloc: Global,
    front: &[u32; 12],
    tables: &[[&[u32]; 5]],
) -> Result<RecordSpec, AllocError> {
    Ok(RecordSpec {
        version: front[0],
        micro: front[1],
        coder: front[2],
        colorspace: front[3],
        raw_depth: front[4],
        has_chroma: front[5] != 0,
        shift_h: front[6],
        shift_v: 0,
        extra_plane: front[7] != 0,
        across: front[8],
        down: front[9],
        set_count: front[10],
        sets: sets_of(alloc, tables)?,
        delta: None,
        ec: front[11],
        intra: 1,
    })
}

/// A gray recording of one tile, with sets of these tables, of which it counts one.
fn gray(alloc: Global, tables: &[[&[u32]; 5]]) -> Result<RecordSpec, AllocError> {
    record_of(alloc, &FRONT, tables)
}

/// A record whose first `right` of these fields are of the profile, and no others.
fn beyond_from(alloc: Global, right: usize) -> Result<RecordSpec, AllocError> {
    let mut front = FRONT;
    let right = right.min(front.len());
    front[right..].copy_from_slice(&BEYOND_FRONT[right..]);
    record_of(alloc, &front, &[PLAIN])
}

/// Why a record that was made is refused, for frames of this side.
fn fault_of(
    alloc: Global,
    record: Result<Vec<u8>, MakeFault>,
    side: u32,
) -> Result<Option<SetupFault>, MakeFault> {
    match record {
        Ok(record) => Ok(Setup::read(alloc, &record, side, side).err()),
        Err(fault) => Err(fault),
    }
}

/// Why a record of which so many fields are of the profile is refused, for frames of this side.
fn front_fault(alloc: Global, right: usize, side: u32) -> Result<Option<SetupFault>, MakeFault> {
    let spec = beyond_from(alloc, right)?;
    fault_of(alloc, spell_record(alloc, &spec), side)
}

/// How many fields are of the profile, the side of the frames, and why the record is refused for them.
static FRONTS: [(usize, u32, Option<SetupFault>); 13] = [
    (12, 1, None),
    (12, 65536, Some(SetupFault::Size)),
    (11, 1, Some(SetupFault::ParityMode)),
    (10, 1, Some(SetupFault::TableCount)),
    (8, 65, Some(SetupFault::TooManyTiles)),
    (8, 64, Some(SetupFault::GridTooFine)),
    (7, 1, Some(SetupFault::ExtraPlane)),
    (5, 1, Some(SetupFault::Subsampling)),
    (4, 1, Some(SetupFault::Depth)),
    (3, 1, Some(SetupFault::ColorSpace)),
    (2, 1, Some(SetupFault::Coder)),
    (1, 1, Some(SetupFault::Micro)),
    (0, 1, Some(SetupFault::Version)),
];

#[test]
fn fronts_beyond_the_profile_are_refused(rt: HostRuntime) {
    for &(right, side, fault) in &FRONTS {
        assert!(rt; front_fault(rt.alloc(), right, side) == Ok(fault));
    }
}

/// What an independent range coder, which keeps the whole number and so carries nothing, makes of the symbols below.
static SYMBOLS: [u8; 38] = [
    0x88, 0x5A, 0x28, 0x14, 0x7E, 0xFC, 0xDC, 0x00, 0x2E, 0x95, 0x07, 0x05, 0x00, 0xDE, 0x1A, 0x06,
    0x25, 0xD6, 0xE0, 0xEC, 0xFF, 0xFF, 0xFE, 0x96, 0x7C, 0x2D, 0xC8, 0xFF, 0xA0, 0x16, 0xFF, 0x7C,
    0x82, 0x46, 0x00, 0x00, 0x00, 0x04,
];

/// Writes unsigned symbols at a row of states.
fn spell_unsigned(encoder: &mut RangeEncoder, values: &[u32]) -> Result<(), MakeFault> {
    let mut states = [128; 32];
    for value in values {
        encoder.unsigned(&mut states, *value)?;
    }
    Ok(())
}

/// Writes signed symbols at a row of states.
fn spell_signed(encoder: &mut RangeEncoder, values: &[i32]) -> Result<(), MakeFault> {
    let mut states = [128; 32];
    for value in values {
        encoder.signed(&mut states, *value)?;
    }
    Ok(())
}

/// The bytes of these unsigned symbols, and of these signed ones after them.
fn coded(alloc: Global, unsigned: &[u32], signed: &[i32]) -> Result<Vec<u8>, MakeFault> {
    let mut encoder = RangeEncoder::new(alloc);
    spell_unsigned(&mut encoder, unsigned)?;
    spell_signed(&mut encoder, signed)?;
    encoder.finish_closed()
}

#[test]
fn symbols_are_coded_byte_for_byte(rt: HostRuntime) {
    let made = coded(
        rt.alloc(),
        &[0, 1, 2, 7, 255, 0x10_0000, 0x10_0001, 0x1234_5679, u32::MAX],
        &[0, 1, -1, 5, -6, i32::MAX, i32::MIN],
    );
    assert!(rt; is_made(made, &SYMBOLS));
}

#[test]
fn a_carry_passes_through_bytes_of_ones(rt: HostRuntime) {
    let made = coded(rt.alloc(), &[757, 441, 734], &[]);
    // As the same coder makes it: the two bytes 0 were 255 before the carry.
    assert!(rt; is_made(made, &[0x7F, 0x4F, 0x89, 0x00, 0x00, 0x6A, 0x5B, 0x42]));
}

/// A record with a delta of -3 for each state of the 5 contexts of its first set and the 2 of its second, as an
/// independent program makes it.
static WITH_DELTAS: [u8; 146] = [
    0x58, 0x07, 0xFB, 0xD8, 0x02, 0x5C, 0x84, 0x48, 0xD3, 0x9C, 0x27, 0x6D, 0x1D, 0xFB, 0xF7, 0xEF,
    0xE0, 0xD2, 0xD3, 0x37, 0x6E, 0xDD, 0xBB, 0x76, 0xED, 0xDD, 0xC5, 0xAD, 0x6B, 0x5A, 0xD6, 0xB5,
    0xAD, 0x6B, 0x5A, 0xD6, 0xB5, 0xAD, 0x6B, 0x5A, 0xD6, 0xB5, 0xAD, 0x6B, 0x5A, 0xD6, 0xC1, 0xBF,
    0xAD, 0xCB, 0x8C, 0xEC, 0x81, 0x16, 0xB7, 0x74, 0xA8, 0x96, 0xC4, 0x8F, 0x13, 0xD2, 0x3E, 0x4D,
    0xA1, 0x4B, 0x6B, 0xB1, 0xCB, 0x48, 0x45, 0xA5, 0xD6, 0x45, 0x64, 0xB1, 0xF3, 0xD9, 0x1C, 0x14,
    0xAB, 0x4A, 0xAA, 0xA6, 0x26, 0xA4, 0xE6, 0xD9, 0x2D, 0x81, 0x85, 0x3B, 0xA1, 0x89, 0xD7, 0x89,
    0xA0, 0x1B, 0xFF, 0x46, 0x7E, 0xB0, 0x55, 0x26, 0xD4, 0x66, 0x90, 0x20, 0x28, 0x7D, 0x42, 0xE8,
    0x5D, 0xAE, 0xAC, 0x9E, 0x0C, 0xE8, 0xC1, 0x2E, 0xE7, 0xE5, 0xBC, 0xF5, 0x0A, 0x38, 0x6A, 0x33,
    0xCC, 0x3B, 0xFA, 0xEE, 0x9C, 0xD7, 0x2E, 0x34, 0xAE, 0x23, 0x21, 0xC3, 0xFD, 0x02, 0x8A, 0x09,
    0x85, 0xCB,
];

/// The record of what `WITH_DELTAS` says: a recording in 4:1:0 of 3 x 2 tiles with two sets.
fn with_deltas(alloc: Global) -> Result<Vec<u8>, MakeFault> {
    let mut spec = gray(
        alloc,
        &[[TWO, TWO, ONE, ONE, ONE], [TWO, ONE, ONE, ONE, ONE]],
    )?;
    spec.micro = 0x10_0003;
    spec.raw_depth = 0;
    spec.has_chroma = true;
    spec.shift_h = 2;
    spec.shift_v = 1;
    spec.across = 3;
    spec.down = 2;
    spec.set_count = 2;
    spec.delta = Some(-3);
    spec.intra = 0;
    make_record(alloc, &spec)
}

/// Whether a setup is as that record says.
fn says_deltas(setup: &Setup) -> bool {
    (setup.micro(), setup.ec(), setup.intra()) == (0x10_0003, 1, 0)
        && setup.sets() == 2
        && (setup.contexts(0), setup.contexts(1)) == (5, 2)
}

#[test]
fn deltas_are_written_for_each_context(rt: HostRuntime) {
    let are_read = match Setup::read(rt.alloc(), &WITH_DELTAS, 3, 2) {
        Ok(setup) => says_deltas(&setup),
        Err(_) => false,
    };
    assert!(rt; is_made(with_deltas(rt.alloc()), &WITH_DELTAS) && are_read);
}

#[test]
fn states_are_dropped_with_golomb_rice(rt: HostRuntime) {
    let read = Recording::read(rt.alloc(), &WITH_DELTAS, 3, 2).expect(&rt, "a record with deltas");
    assert!(rt; read.sets() == 2 && read.states_coded(0) && read.states_coded(1));
    assert!(rt; read.initial(0).is_none() && read.initial(1).is_none());
}

/// The record of a gray recording with range coding, and a delta of -100 for each state of its five contexts.
fn of_five_contexts(alloc: Global) -> Result<Vec<u8>, MakeFault> {
    let mut spec = gray(alloc, &[[TWO, TWO, ONE, ONE, ONE]])?;
    spec.coder = 1;
    spec.delta = Some(-100);
    spell_record(alloc, &spec)
}

#[test]
fn states_go_on_from_the_context_before(rt: HostRuntime) {
    let record = of_five_contexts(rt.alloc()).expect(&rt, "a record");
    let read = Recording::read(rt.alloc(), &record, 1, 1).expect(&rt, "a record with states");
    let states = [[28; 32], [184; 32], [84; 32], [240; 32], [140; 32]];
    assert!(rt; read.sets() == 1 && read.initial(0) == Some(states.as_slice()));
}

/// The record of a gray recording with alpha, range coding and two sets of tables.
fn with_alpha(alloc: Global) -> Result<Vec<u8>, MakeFault> {
    let mut spec = gray(alloc, &[PLAIN, PLAIN])?;
    spec.coder = 1;
    spec.extra_plane = true;
    spec.set_count = 2;
    spell_record(alloc, &spec)
}

/// The content of a slice whose header has a field more, with this set of tables for alpha.
fn header_with_alpha(alloc: Global, table: u32) -> Result<Vec<u8>, MakeFault> {
    let mut encoder = RangeEncoder::new(alloc);
    let mut state = 128;
    encoder.bit(&mut state, true)?;
    spell_unsigned(&mut encoder, &[0, 0, 0, 0, 1, 0, table, 3, 4, 5])?;
    encoder.finish_sentinel()
}

#[test]
fn a_header_has_a_third_table_with_alpha(rt: HostRuntime) {
    let record = with_alpha(rt.alloc()).expect(&rt, "a record");
    let recording = Recording::read(rt.alloc(), &record, 1, 1).expect(&rt, "a record with alpha");
    let content = header_with_alpha(rt.alloc(), 1).expect(&rt, "a header");
    match read_slice_head(&recording, &content, true) {
        Ok((header, _)) => {
            assert!(rt; header.tables == [1, 0, 1] && header.key == Some(true));
            assert!(rt; (header.picture_structure, header.sar_num, header.sar_den) == (3, 4, 5));
        }
        Err(_) => assert!(rt; false),
    }
    let outside = header_with_alpha(rt.alloc(), 2).expect(&rt, "a header");
    match read_slice_head(&recording, &outside, true) {
        Ok(_) => assert!(rt; false),
        Err(fault) => assert!(rt; fault == HeadFault::TableIndex),
    }
}

/// The record of a gray recording of 666 contexts, with such a delta for each of their states.
fn of_666_contexts(alloc: Global, delta: Option<i32>) -> Result<Vec<u8>, MakeFault> {
    let mut spec = gray(alloc, &[[SIX, SIX, SIX, ONE, ONE]])?;
    spec.delta = delta;
    make_record(alloc, &spec)
}

/// Whether a setup is as that recording says.
fn says_666_contexts(setup: &Setup) -> bool {
    setup.sets() == 1
        && (setup.contexts(0), setup.micro(), setup.ec(), setup.intra()) == (666, 4, 1, 1)
        && (setup.entry(0, 2, 127), setup.entry(0, 3, 127)) == (605, 0)
}

/// The length of a record, if it reads as that recording says.
fn length_read(alloc: Global, record: &[u8]) -> Option<usize> {
    match Setup::read(alloc, record, 1, 1) {
        Ok(setup) => says_666_contexts(&setup).then_some(record.len()),
        Err(_) => None,
    }
}

/// The length of the record with such a delta, if it reads as that recording says.
fn length_of_666_contexts(alloc: Global, delta: Option<i32>) -> Option<usize> {
    match of_666_contexts(alloc, delta) {
        Ok(record) => length_read(alloc, &record),
        Err(_) => None,
    }
}

#[test]
fn deltas_of_666_contexts_are_passed_over(rt: HostRuntime) {
    let plain = length_of_666_contexts(rt.alloc(), None);
    let longer = length_of_666_contexts(rt.alloc(), Some(-3));
    assert!(rt; plain.is_some() && plain < longer);
}

/// A record of which nearly nothing is of the profile, as an independent program makes it.
static BEYOND: [u8; 26] = [
    0x60, 0xF4, 0xF3, 0x35, 0x9B, 0xDC, 0x98, 0xFD, 0x98, 0x77, 0x5E, 0xBD, 0x7A, 0xF5, 0xEB, 0xD7,
    0xAE, 0xFA, 0x95, 0xF5, 0xD5, 0x02, 0x49, 0x85, 0x75, 0xD8,
];

/// The record of what `BEYOND` says.
fn beyond(alloc: Global) -> Result<Vec<u8>, MakeFault> {
    let mut spec = gray(alloc, &[PLAIN])?;
    spec.version = 4;
    spec.micro = 3;
    spec.coder = 2;
    spec.colorspace = 1;
    spec.raw_depth = 10;
    spec.has_chroma = true;
    spec.shift_h = 3;
    spec.shift_v = 4;
    spec.extra_plane = true;
    spec.across = 40;
    spec.down = 50;
    spec.set_count = 9;
    spec.ec = 2;
    spec.intra = 0x10_0001;
    spell_record(alloc, &spec)
}

#[test]
fn records_beyond_the_profile_are_spelled_byte_for_byte(rt: HostRuntime) {
    assert!(rt; is_made(beyond(rt.alloc()), &BEYOND));
}

/// Writes one bit at a slot of a row of states.
fn write_slot(
    encoder: &mut RangeEncoder,
    states: &mut [u8; 32],
    slot: usize,
    bit: bool,
) -> Result<(), MakeFault>
    requires slot { slot < 32 }
    requires states { AreStates states.old }
    ensures { AreStates states.new }
{
    encoder.bit(&mut states[slot], bit)
}

/// Writes the front of a symbol that is not 0 and has so many bits below its highest, as far as they are counted.
fn spell_front(encoder: &mut RangeEncoder, count: usize) -> Result<(), MakeFault> {
    let mut states = [128; 32];
    write_slot(encoder, &mut states, 0, false)?;
    for place in 0..count {
        write_slot(encoder, &mut states, 1 + place.min(9), true)?;
    }
    Ok(())
}

/// The record of one set that counts so many.
fn counted(alloc: Global, set_count: u32) -> Result<Vec<u8>, MakeFault> {
    let mut spec = gray(alloc, &[PLAIN])?;
    spec.set_count = set_count;
    make_record(alloc, &spec)
}

#[test]
fn records_that_count_other_sets_are_not_made(rt: HostRuntime) {
    assert!(rt; counted(rt.alloc(), 2).err() == Some(MakeFault::NotSelf));
}

/// The record that says the front of such a symbol alone.
fn with_symbol(alloc: Global, count: usize) -> Result<Vec<u8>, MakeFault> {
    let mut encoder = RangeEncoder::new(alloc);
    spell_front(&mut encoder, count)?;
    Ok(with_parity(encoder.finish_closed()?)?)
}

#[test]
fn symbols_of_too_many_bits_are_refused(rt: HostRuntime) {
    let too_long = SetupFault::Range(RangeFault::SymbolTooLong);
    let fault = fault_of(rt.alloc(), with_symbol(rt.alloc(), 32), 1);
    assert!(rt; fault == Ok(Some(too_long)));
}

/// The fields of a header for the tile in this column.
fn fields_of(column: u32) -> [u32; 9] {
    [column, 0, 0, 0, 0, 0, 0, 0, 0]
}

/// Whether a slice is the first, the byte of its codes, its error status, and its bytes.
static SPELLED: [(bool, u8, u8, [u8; 11]); 4] = [
    (
        true,
        0x80,
        0,
        [0xFD, 0xF6, 0x80, 0, 0, 3, 0, 0x1C, 0x3E, 0xA0, 0x9B],
    ),
    (
        true,
        0x40,
        0,
        [0xFD, 0xF6, 0x40, 0, 0, 3, 0, 0x17, 0x60, 0xA5, 0x79],
    ),
    (
        true,
        0x40,
        2,
        [0xFD, 0xF6, 0x40, 0, 0, 3, 2, 0x1E, 0xE2, 0x9E, 0x17],
    ),
    (
        false,
        0x80,
        0,
        [0x3F, 0x2B, 0x80, 0, 0, 3, 0, 0x56, 0x0F, 0xD7, 0x3B],
    ),
];

#[test]
fn slices_are_spelled_byte_for_byte(rt: HostRuntime) {
    for (first, codes, status, wanted) in &SPELLED {
        let fields = fields_of(if *first { 0 } else { 1 });
        let slice = spell_slice(rt.alloc(), *first, true, &fields, &[*codes], *status);
        assert!(rt; is_made(slice, wanted));
    }
}

/// The setup of a gray recording of so many tiles beside each other, of one sample each.
fn tiles_beside(alloc: Global, across: u32) -> Result<Setup, MakeFault> {
    let mut spec = gray(alloc, &[PLAIN])?;
    spec.across = across;
    setup_by(alloc, &spec, (across, 1))
}

/// How a slice that was made is read, in a recording of two tiles, that is the first or a later one.
fn read_in_two(
    alloc: Global,
    slice: Result<Vec<u8>, MakeFault>,
    first: bool,
) -> Result<Result<usize, LinkFault>, MakeFault> {
    let slice = slice?;
    match tiles_beside(alloc, 2) {
        Ok(setup) => Ok(read_slice(&setup, &slice, first)),
        Err(fault) => Err(fault),
    }
}

/// Whether a slice is the first, its key bit, the fields of its header, and the tile it is of, or why it is of none.
static READ: [(bool, bool, [u32; 9], Result<usize, LinkFault>); 7] = [
    (true, true, [0, 0, 0, 0, 0, 0, 0, 0, 0], Ok(0)),
    (false, true, [1, 0, 0, 0, 0, 0, 0, 0, 0], Ok(1)),
    (
        false,
        true,
        [0, 0, 0, 0, 0, 0, 0, 0, 0],
        Err(LinkFault::Head(HeadFault::FirstElsewhere)),
    ),
    (
        true,
        false,
        [0, 0, 0, 0, 0, 0, 0, 0, 0],
        Err(LinkFault::Head(HeadFault::NotKey)),
    ),
    (
        true,
        true,
        [0, 0, 1, 0, 0, 0, 0, 0, 0],
        Err(LinkFault::Head(HeadFault::Spans)),
    ),
    (
        true,
        true,
        [0, 0, 0, 0, 0, 1, 0, 0, 0],
        Err(LinkFault::Head(HeadFault::TableIndex)),
    ),
    (
        true,
        true,
        [2, 0, 1, 0, 0, 0, 0, 0, 0],
        Err(LinkFault::Head(HeadFault::OutsideGrid)),
    ),
];

#[test]
fn slices_are_read_by_their_fields(rt: HostRuntime) {
    for (first, key, fields, wanted) in &READ {
        let slice = spell_slice(rt.alloc(), *first, *key, fields, &[0x80], 0);
        assert!(rt; read_in_two(rt.alloc(), slice, *first) == Ok(*wanted));
    }
}

/// Whether a first slice with this keyframe bit is read so in these frames: as a slice, as a link, and its content alone.
fn is_read_in(alloc: Global, frames: Frames, key: bool, wanted: Result<usize, HeadFault>) -> bool {
    let slice = spell_slice(alloc, true, key, &fields_of(0), &[0x80], 0);
    let (Ok(slice), Ok(setup)) = (slice, tiles_beside(alloc, 2)) else {
        return false;
    };
    let Some(link) = Chain::new(&slice).next() else {
        return false;
    };
    let tile = read_frame_tile(frames, setup.recording(), content_of(link.bytes()), true);
    let read = match tile {
        Ok(tile) => Ok(tile),
        Err(fault) => Err(LinkFault::Head(fault)),
    };
    tile == wanted
        && read_frame_slice(frames, &setup, &slice, true) == read
        && frame_slice_of(frames, &setup, &link) == read
}

#[test]
fn slices_of_any_frame_have_either_keyframe_bit(rt: HostRuntime) {
    let alloc = rt.alloc();
    assert!(rt; is_read_in(alloc, Frames::Ruled, true, Ok(0)));
    assert!(rt; is_read_in(alloc, Frames::Ruled, false, Err(HeadFault::NotKey)));
    assert!(rt; is_read_in(alloc, Frames::Any, true, Ok(0)));
    assert!(rt; is_read_in(alloc, Frames::Any, false, Ok(0)));
}

#[test]
fn slices_without_codes_are_not_made(rt: HostRuntime) {
    assert!(rt;
        spell_slice(rt.alloc(), true, true, &fields_of(0), &[], 0).err() == Some(MakeFault::NotSelf)
    );
}

/// The configuration records of tests/real: their frames' size, tiles across and down, and chroma shifts.
static RECORDED: [(&[u8], [u32; 6]); 5] = [
    (
        &[
            0x56, 0x2B, 0x83, 0x19, 0xE6, 0xF7, 0x93, 0x92, 0x1D, 0xB8, 0xA8, 0x7A, 0x3F, 0x8D,
            0xA2, 0x3D, 0x44, 0x64, 0x7C, 0x5C, 0xBA, 0x65, 0x53, 0x0D, 0x53, 0xC2, 0x7E, 0x5B,
            0x71, 0x42, 0x6F, 0xBC, 0x76, 0x6A, 0x39, 0xA7, 0x70, 0x9B, 0xCC, 0x14, 0x1A, 0x79,
        ],
        [48, 32, 2, 2, 0, 0],
    ),
    (
        &[
            0x56, 0x2B, 0x84, 0xE6, 0x5D, 0xE8, 0x79, 0xA5, 0x68, 0xF5, 0xD4, 0x8F, 0xF1, 0xCD,
            0xBA, 0xCE, 0x10, 0xA3, 0xE4, 0x05, 0xD9, 0xB4, 0xFD, 0x51, 0xCA, 0x9F, 0x5C, 0x31,
            0x13, 0x9D, 0x66, 0x5F, 0xB9, 0x9C, 0xFB, 0x96, 0x17, 0xAE, 0xDB, 0x80, 0x3B, 0xCD,
            0x87, 0x00,
        ],
        [720, 576, 6, 4, 1, 1],
    ),
    (
        &[
            0x56, 0x2B, 0x84, 0xDE, 0x42, 0x71, 0x73, 0x01, 0xD2, 0x7B, 0x60, 0xFE, 0xB5, 0x96,
            0x54, 0x0A, 0x26, 0xA1, 0x41, 0xFD, 0xFC, 0x10, 0x61, 0xFC, 0xBC, 0x1B, 0x49, 0x33,
            0xAE, 0xEE, 0x9A, 0x77, 0xED, 0x11, 0xF4, 0xA7, 0x7E, 0x88, 0x0A, 0xA3, 0x75, 0xA2,
        ],
        [90, 62, 3, 2, 1, 1],
    ),
    (
        &[
            0x56, 0x2B, 0x85, 0x9E, 0x00, 0x33, 0xF5, 0x9F, 0x4B, 0xC3, 0xEF, 0xAB, 0xDB, 0x97,
            0x0D, 0x0B, 0x02, 0x42, 0xF7, 0xB1, 0x63, 0x37, 0x4A, 0x95, 0x05, 0xC4, 0x3F, 0x5A,
            0xBF, 0xD9, 0x80, 0xFE, 0x19, 0x8C, 0xD2, 0x5D, 0x39, 0xCF, 0x24, 0x4E, 0xD4, 0xEB,
        ],
        [101, 77, 2, 2, 1, 0],
    ),
    (
        &[
            0x56, 0x2B, 0x8A, 0x56, 0xFB, 0xC3, 0xDC, 0xBD, 0x86, 0xC0, 0x5A, 0x5C, 0xA5, 0x09,
            0x36, 0x11, 0xAE, 0xBB, 0x59, 0x56, 0xAD, 0x71, 0x76, 0xB2, 0xD2, 0x4B, 0xDE, 0x67,
            0xE7, 0x1B, 0x42, 0xDC, 0x53, 0x97, 0x75, 0x66, 0xDE, 0xE1, 0xAE, 0xC6, 0xE9, 0x7B,
        ],
        [64, 64, 4, 4, 0, 0],
    ),
];

/// The runs of the tables that FFmpeg writes for differences of 11 and of 5 values.
const ELEVEN: &[u32] = &[1, 1, 3, 7, 23, 93];

const FIVE: &[u32] = &[1, 3, 124];

/// A configuration record of tests/real, made of what it says.
fn recorded(
    alloc: Global,
    [width, _, across, down, shift_h, shift_v]: [u32; 6],
) -> Result<Vec<u8>, MakeFault> {
    let mut spec = gray(
        alloc,
        &[
            [ELEVEN, ELEVEN, ELEVEN, ONE, ONE],
            [ELEVEN, ELEVEN, FIVE, FIVE, FIVE],
        ],
    )?;
    spec.raw_depth = 8;
    spec.has_chroma = width != 48;
    spec.shift_h = shift_h;
    spec.shift_v = shift_v;
    spec.across = across;
    spec.down = down;
    spec.set_count = 2;
    make_record(alloc, &spec)
}

/// Whether a record was made that FFmpeg wrote.
fn is_recorded(made: Result<Vec<u8>, MakeFault>, record: &[u8]) -> bool {
    let Ok(made) = made else {
        return false;
    };
    // FFmpeg wrote a zero byte more after one of them.
    let (front, later) = record.split_at(made.len().min(record.len()));
    made.as_slice() == front && are_zeros(later)
}

#[test]
fn recorded_records_are_made(rt: HostRuntime) {
    for &(record, shape) in &RECORDED {
        assert!(rt; is_recorded(recorded(rt.alloc(), shape), record));
    }
}

/// The tables of eight sets, which their third tables distinguish.
static EIGHT: [[&[u32]; 5]; 8] = [
    [ONE, ONE, ONE, ONE, ONE],
    [ONE, ONE, TWO, ONE, ONE],
    [ONE, ONE, THREE, ONE, ONE],
    [ONE, ONE, SIX, ONE, ONE],
    [ONE, ONE, ELEVEN, ONE, ONE],
    [ONE, ONE, FIVE, ONE, ONE],
    [ONE, ONE, ALL, ONE, ONE],
    [ONE, ONE, ONE, ONE, ONE],
];

/// The setup of a gray recording of one sample with these sets.
fn eight_sets(alloc: Global) -> Result<Setup, MakeFault> {
    let mut spec = gray(alloc, &EIGHT)?;
    spec.set_count = 8;
    setup_by(alloc, &spec, (1, 1))
}

/// Whether the setup has so many sets, each with so many contexts, which its third table alone distinguishes.
fn has_contexts(setup: &Setup, contexts: &[u32]) -> bool {
    for (set, wanted) in contexts.iter().enumerate() {
        if set >= setup.sets() {
            return false;
        }
        let last = setup.entry(set, 2, 127);
        if setup.contexts(set) != *wanted || last as u32 + 1 != *wanted {
            return false;
        }
    }
    setup.sets() == contexts.len()
}

#[test]
fn eight_sets_are_read(rt: HostRuntime) {
    let are_read = match eight_sets(rt.alloc()) {
        Ok(setup) => has_contexts(&setup, &[1, 2, 3, 6, 6, 3, 128, 1]),
        Err(_) => false,
    };
    assert!(rt; are_read);
}

/// The length of the first slice with so many bytes of codes, and whether it starts with its header and a code.
fn long_slice(alloc: Global, count: usize) -> Result<(usize, bool), MakeFault> {
    let codes = vec![in alloc; 0x80; count]?;
    match spell_slice(alloc, true, true, &fields_of(0), &codes, 0) {
        Ok(slice) => Ok((slice.len(), slice.starts_with(&[0xFD, 0xF6, 0x80]))),
        Err(fault) => Err(fault),
    }
}

#[test]
fn long_slices_are_spelled(rt: HostRuntime) {
    let slices = [
        long_slice(rt.alloc(), 0xFF_FFFD),
        long_slice(rt.alloc(), 0xFF_FFFE),
    ];
    assert!(rt; slices == [Ok((0x100_0007, true)), Err(MakeFault::NotSelf)]);
}
