//! Recordings that are made to measure, and played: coders, planes, depths, tables, states, slices and contents are crossed.
use ffv1_makings::{Maker, PictureSpec, RecordingSpec, SetSpec, SliceSpec, make_recording_record};
use ffv1_player::{Player, Samples};
use ffv1_range::next_state;
use ffv1_vectors::MakeFault;
use std::alloc::{AllocError, Global};
use std::process::Abort;
use std::test::Fail;

/// Whether the planes are G, B and R; the chroma shifts, where there is chroma; whether there is alpha; bits_per_raw_sample.
type Format = (bool, Option<(u32, u32)>, bool, u32);

static FORMATS: [Format; 20] = [
    (false, None, false, 0),
    (false, None, true, 9),
    (false, None, true, 11),
    (false, None, true, 13),
    (false, None, true, 15),
    (false, None, false, 16),
    (false, Some((1, 1)), true, 10),
    (false, Some((2, 2)), false, 9),
    (false, Some((1, 2)), true, 16),
    (false, Some((0, 1)), false, 12),
    (false, Some((2, 0)), true, 15),
    (false, Some((0, 2)), false, 8),
    (true, Some((0, 0)), false, 8),
    (true, Some((0, 0)), false, 9),
    (true, Some((0, 0)), true, 11),
    (true, Some((0, 0)), false, 13),
    (true, Some((0, 0)), true, 15),
    (true, Some((0, 0)), false, 15),
    (true, Some((0, 0)), true, 16),
    (true, Some((0, 0)), true, 8),
];

static SIZES: [(u32, u32); 7] = [(24, 20), (1, 13), (17, 1), (7, 5), (16, 9), (5, 18), (3, 2)];

/// The tiles across and down, and the column, the row, the width and the height of each slice in tiles.
type Layout = ((u32, u32), &'static [(u32, u32, u32, u32)]);

static LAYOUTS: [Layout; 6] = [
    ((4, 4), &[(2, 2, 2, 2), (0, 0, 4, 2), (0, 2, 2, 2)]),
    ((2, 2), &[(1, 0, 1, 2), (0, 0, 1, 2)]),
    ((3, 1), &[(2, 0, 1, 1), (0, 0, 2, 1)]),
    ((1, 2), &[(0, 1, 1, 1), (0, 0, 1, 1)]),
    ((3, 2), &[(1, 1, 2, 1), (0, 0, 1, 2), (1, 0, 2, 1)]),
    ((1, 1), &[(0, 0, 1, 1)]),
];

/// The runs of the five tables of a set, how many contexts it has, and whether its initial states are coded.
type Tables = ([&'static [u32]; 5], u32, bool);

static TABLES: [Tables; 4] = [
    ([&[128], &[128], &[128], &[128], &[128]], 1, false),
    ([&[1, 127], &[128], &[128], &[128], &[128]], 2, true),
    (
        [&[1, 2, 125], &[3, 125], &[128], &[128], &[2, 126]],
        23,
        true,
    ),
    (
        [&[1, 2, 4, 121], &[3, 125], &[1, 127], &[5, 123], &[2, 126]],
        284,
        false,
    ),
];

/// The tables of each set of a recording.
static SETS: [&[usize]; 4] = [&[0], &[3, 0, 1], &[1, 2], &[2, 3, 1, 0]];

/// What the samples of a picture are.
#[derive(Clone, Copy)]
enum Content {
    /// One value, another one for each plane.
    Flat,
    /// 0 and the greatest value by turns.
    Extremes,
    /// One value, and now and then another.
    Spots,
    /// Values that rise by a step modulo 2^depth.
    Ramp,
    /// Any values.
    Noise,
}

static CONTENTS: [Content; 5] = [
    Content::Flat,
    Content::Extremes,
    Content::Spots,
    Content::Ramp,
    Content::Noise,
];

/// A number that looks like any, for each number.
fn scattered(number: u32) -> u32 {
    let first = number.wrapping_mul(1_664_525).wrapping_add(1_013_904_223);
    let second = (first ^ (first >> 15)).wrapping_mul(0x2C1B_3C6D);
    second ^ (second >> 13)
}

/// A recording, the size of its frames and the slices of each.
#[derive(Drop)]
struct Case {
    number: u32,
    coder: u32,
    format: Format,
    size: (u32, u32),
    layout: Layout,
    sets: &'static [usize],
}

/// The first layout from a number on that is not finer than a frame of this size.
fn layout_of(number: u32, (width, height): (u32, u32)) -> Layout {
    for step in 0..6u32 {
        let layout = LAYOUTS[(number.wrapping_add(step) % 6) as usize];
        let ((across, down), _slices) = layout;
        if across <= width && down <= height {
            return layout;
        }
    }
    LAYOUTS[5]
}

/// The case of a coder and a number.
fn case_of(coder: u32, number: u32) -> Case {
    let size = SIZES[(number.wrapping_add(coder) % 7) as usize];
    Case {
        number,
        coder,
        format: FORMATS[(number % 20) as usize],
        size,
        layout: layout_of(number.wrapping_add(coder.wrapping_mul(2)), size),
        sets: SETS[(number.wrapping_add(coder) / 2 % 4) as usize],
    }
}

impl Case {
    /// The bits of a sample.
    fn depth(&self) -> u32 {
        let (_is_rgb, _chroma, _has_alpha, raw_depth) = self.format;
        if raw_depth == 0 { 8 } else { raw_depth }
    }

    /// How many planes there are.
    fn planes(&self) -> u32 {
        let (_is_rgb, chroma, has_alpha, _raw_depth) = self.format;
        if chroma.is_some() {
            3 + u32::from(has_alpha)
        } else {
            1 + u32::from(has_alpha)
        }
    }

    /// How a plane is subsampled.
    fn shifts(&self, plane: u32) -> (u32, u32) {
        let (_is_rgb, chroma, _has_alpha, _raw_depth) = self.format;
        match chroma {
            Some(shifts) if plane == 1 || plane == 2 => shifts,
            _ => (0, 0),
        }
    }

    /// What the record is to say.
    fn recording(&self, alloc: Global) -> Result<RecordingSpec, AllocError> {
        let (is_rgb, chroma, has_alpha, raw_depth) = self.format;
        let (shift_h, shift_v) = chroma.unwrap_or((0, 0));
        let ((across, down), _slices) = self.layout;
        Ok(RecordingSpec {
            micro: 4 + self.number % 6,
            coder: self.coder,
            deltas: deltas_of(alloc, self.number)?,
            is_rgb,
            raw_depth,
            has_chroma: chroma.is_some(),
            shift_h,
            shift_v,
            has_alpha,
            across,
            down,
            sets: sets_of(alloc, self.sets, self.coder, self.number)?,
            ec: u32::from(self.number % 4 != 3),
            intra: self.number % 2,
        })
    }

    /// What a frame is to be.
    fn picture(&self, alloc: Global, frame: u32) -> Result<PictureSpec, AllocError> {
        let mut planes = Vec::new(alloc);
        for plane in 0..self.planes() {
            planes.push(self.plane(alloc, frame, plane)?)?;
        }
        Ok(PictureSpec {
            key: frame % 4 == 0,
            slices: self.slices(alloc)?,
            planes,
        })
    }

    /// The slices of each frame. Their tables are other ones from slice to slice.
    fn slices(&self, alloc: Global) -> Result<Vec<SliceSpec>, AllocError> {
        let (_grid, layout) = self.layout;
        let count = (self.sets.len().min(8) as u32).max(1);
        let mut slices = Vec::new(alloc);
        for (place, (x, y, w, h)) in layout.iter().enumerate() {
            let turn = (place % 8) as u32;
            slices.push(SliceSpec {
                x: *x,
                y: *y,
                w: *w,
                h: *h,
                tables: [turn % count, (turn + 1) % count, (turn + 2) % count],
                status: (place % 8) as u8,
            })?;
        }
        Ok(slices)
    }

    /// The samples of a plane: those of the slices, and 2^(depth - 1) where none lies.
    fn plane(&self, alloc: Global, frame: u32, plane: u32) -> Result<Vec<u16>, AllocError> {
        let (shift_h, shift_v) = self.shifts(plane);
        let ((across, down), layout) = self.layout;
        let (width, height) = self.size;
        let mut samples = Vec::new(alloc);
        for y in 0..part_size(height, shift_v) {
            for x in 0..part_size(width, shift_h) {
                let lies = layout.iter().any(|(column, row, columns, rows)| {
                    lies_in(x, width, across, *column, *columns, shift_h)
                        && lies_in(y, height, down, *row, *rows, shift_v)
                });
                samples.push(self.sample(frame, plane, x, y, lies))?;
            }
        }
        Ok(samples)
    }

    /// A sample of a plane.
    fn sample(&self, frame: u32, plane: u32, x: u32, y: u32, lies: bool) -> u16 {
        let half = 1u32.checked_shl(self.depth().wrapping_sub(1)).unwrap_or(1);
        if !lies {
            return (half % 65536) as u16;
        }
        let place = y.wrapping_mul(64).wrapping_add(x);
        let kind = self.number.wrapping_add(frame).wrapping_add(plane / 2);
        let base = scattered(plane.wrapping_add(frame.wrapping_mul(8)));
        let value = match CONTENTS[(kind % 5) as usize] {
            Content::Flat => base,
            Content::Extremes if (x ^ y) & 1 == 0 => 0,
            Content::Extremes => u32::MAX,
            Content::Spots if scattered(place) % 23 == 0 => base.wrapping_add(half / 3),
            Content::Spots => base,
            Content::Ramp => x.wrapping_mul(half / 5).wrapping_add(y),
            Content::Noise => scattered(place.wrapping_add(base)),
        };
        (value % half.wrapping_mul(2).clamp(1, 65536)) as u16
    }
}

/// How many samples a part of a side has where it is subsampled.
fn part_size(side: u32, shift: u32) -> u32 {
    side.div_ceil(1u32.checked_shl(shift).unwrap_or(1).max(1))
}

/// Whether a column of a subsampled plane, or a row, lies in some tiles.
fn lies_in(place: u32, side: u32, tiles: u32, first: u32, count: u32, shift: u32) -> bool {
    let tiles = tiles.max(1);
    let from = first.wrapping_mul(side) / tiles;
    let to = first.wrapping_add(count).wrapping_mul(side) / tiles;
    let start = from.checked_shr(shift).unwrap_or(0);
    start <= place && place < start.wrapping_add(part_size(to.wrapping_sub(from), shift))
}

/// state_transition_delta that leads each state to another one in 1..=255; with every third number all are 0.
fn deltas_of(alloc: Global, number: u32) -> Result<Vec<i32>, AllocError> {
    let mut deltas = Vec::new(alloc);
    for state in 1..=255u8 {
        let to = scattered(number.wrapping_add(u32::from(state))) % 255;
        let delta = (1 + to) as i32 - i32::from(next_state(state, true));
        deltas.push(if number % 3 == 2 { 0 } else { delta })?;
    }
    Ok(deltas)
}

/// The sets of tables.
fn sets_of(
    alloc: Global,
    sets: &[usize],
    coder: u32,
    number: u32,
) -> Result<Vec<SetSpec>, AllocError> {
    let mut all = Vec::new(alloc);
    for set in sets {
        let (runs, contexts, is_coded) = &TABLES[*set % 4];
        let mut tables = Vec::new(alloc);
        for lengths in runs {
            tables.push(Vec::from_slice(alloc, lengths)?)?;
        }
        let states = if *is_coded {
            states_of(alloc, *contexts, coder, number)?
        } else {
            Vec::new(alloc)
        };
        all.push(SetSpec { tables, states })?;
    }
    Ok(all)
}

/// Initial states, which no bit leads to 0.
fn states_of(
    alloc: Global,
    contexts: u32,
    coder: u32,
    number: u32,
) -> Result<Vec<[u8; 32]>, AllocError> {
    let by_default = coder != 2 || number % 3 == 2;
    let mut states = Vec::new(alloc);
    for context in 0..contexts {
        let mut row = [0; 32];
        for (slot, state) in row.iter_mut().enumerate() {
            let any = scattered(context.wrapping_mul(32).wrapping_add((slot % 32) as u32));
            *state = if by_default {
                (8 + any % 241) as u8
            } else {
                (1 + any % 255) as u8
            };
        }
        states.push(row)?;
    }
    Ok(states)
}

/// Asserts that a frame is the picture, and that each of its slices ends as an encoder ends it.
fn assert_played(rt: &impl Abort, frame: &Samples, picture: &PictureSpec, coder: u32, number: u32) {
    assert_eq!(rt; frame.key, picture.key, "coder {coder}, case {number}");
    assert_eq!(rt;
        frame.planes.len(),
        picture.planes.len(),
        "coder {coder}, case {number}"
    );
    assert_eq!(rt;
        frame.slices.len(),
        picture.slices.len(),
        "coder {coder}, case {number}"
    );
    for (samples, wanted) in frame.planes.iter().zip(&picture.planes) {
        assert!(rt;
            samples.as_slice() == wanted.as_slice(),
            "coder {coder}, case {number}"
        );
    }
    for slice in &frame.slices {
        assert!(rt; slice.is_clean, "coder {coder}, case {number}");
        assert!(rt;
            slice.spare_bits < if coder == 0 { 8 } else { 1 },
            "coder {coder}, case {number}"
        );
    }
}

/// Makes and plays some frames of a case: a keyframe, three that go on from it, and a keyframe again.
fn play_case(rt: &impl Abort, alloc: Global, coder: u32, number: u32) -> Result<(), Fail> {
    let case = case_of(coder, number);
    let (width, height) = case.size;
    let mut maker = Maker::new(alloc, case.recording(alloc)?, width, height)?;
    let mut player = Player::new(alloc, maker.record(), width, height)?;
    for frame in 0..5 {
        let picture = case.picture(alloc, frame)?;
        let payload = maker.frame(&picture)?;
        assert_played(rt, &player.decode(&payload)?, &picture, coder, number);
    }
    Ok(())
}

#[test]
fn codes_of_any_recording_are_played(rt: HostRuntime) -> Result<(), Fail> {
    for number in 0..20 {
        play_case(&rt, rt.alloc(), 0, number)?;
    }
    Ok(())
}

#[test]
fn range_coding_of_any_recording_is_played(rt: HostRuntime) -> Result<(), Fail> {
    for number in 0..20 {
        play_case(&rt, rt.alloc(), 1, number)?;
    }
    Ok(())
}

#[test]
fn transitions_of_any_recording_are_played(rt: HostRuntime) -> Result<(), Fail> {
    for number in 0..20 {
        play_case(&rt, rt.alloc(), 2, number)?;
    }
    Ok(())
}

/// A recording of gray with one tile and one context, whose frames are of one slice.
fn gray_recording(
    alloc: Global,
    coder: u32,
    raw_depth: u32,
    states: &[[u8; 32]],
) -> Result<RecordingSpec, AllocError> {
    let mut sets = sets_of(alloc, &[0], coder, 0)?;
    if let Some(set) = sets.first_mut() {
        set.states.extend_from_slice(states)?;
    }
    Ok(RecordingSpec {
        micro: 4,
        coder,
        deltas: Vec::new(alloc),
        is_rgb: false,
        raw_depth,
        has_chroma: false,
        shift_h: 0,
        shift_v: 0,
        has_alpha: false,
        across: 1,
        down: 1,
        sets,
        ec: 1,
        intra: 0,
    })
}

/// A frame of one slice, whose one plane has these samples.
fn gray_picture(alloc: Global, key: bool, samples: &[u16]) -> Result<PictureSpec, AllocError> {
    let slice = SliceSpec {
        x: 0,
        y: 0,
        w: 1,
        h: 1,
        tables: [0, 0, 0],
        status: 0,
    };
    let mut planes = Vec::new(alloc);
    planes.push(Vec::from_slice(alloc, samples)?)?;
    Ok(PictureSpec {
        key,
        slices: Vec::from_slice(alloc, &[slice])?,
        planes,
    })
}

/// A column of samples, each a step more than the one above it, modulo 1024. The step is what is coded of each.
fn steps(alloc: Global, step: u16) -> Result<Vec<u16>, AllocError> {
    let mut samples = Vec::new(alloc);
    for place in 1..=400u16 {
        samples.push(place.wrapping_mul(step) % 1024)?;
    }
    Ok(samples)
}

#[test]
fn bias_comes_to_both_limits(rt: HostRuntime) -> Result<(), Fail> {
    let alloc = rt.alloc();
    let mut maker = Maker::new(alloc, gray_recording(alloc, 0, 10, &[])?, 1, 400)?;
    let mut player = Player::new(alloc, maker.record(), 1, 400)?;
    // The bias goes to 127 by 300, and to -128 by 1024 - 300.
    for (frame, step) in [(0, 300), (1, 724), (2, 300)] {
        let picture = gray_picture(alloc, frame == 0, &steps(alloc, step)?)?;
        let payload = maker.frame(&picture)?;
        assert_played(&rt, &player.decode(&payload)?, &picture, 0, frame);
    }
    Ok(())
}

#[test]
fn state_0_codes_no_sign(rt: HostRuntime) -> Result<(), Fail> {
    let alloc = rt.alloc();
    let mut states = [128; 32];
    for state in states.iter_mut().skip(11).take(11) {
        *state = 0;
    }
    let recording = gray_recording(alloc, 1, 8, &[states])?;
    let mut maker = Maker::new(alloc, recording, 5, 1)?;
    let mut player = Player::new(alloc, maker.record(), 5, 1)?;
    for (frame, samples) in [(0, [0, 3, 3, 90, 217]), (1, [1, 1, 2, 100, 227])] {
        let picture = gray_picture(alloc, frame == 0, &samples)?;
        let payload = maker.frame(&picture)?;
        assert_played(&rt, &player.decode(&payload)?, &picture, 1, frame);
    }
    let falling = gray_picture(alloc, false, &[0, 3, 2, 90, 217])?;
    assert!(rt; matches!(maker.frame(&falling), Err(MakeFault::NotSelf)));
    Ok(())
}

#[test]
fn frame_that_goes_on_from_nothing_is_not_made(rt: HostRuntime) -> Result<(), Fail> {
    let alloc = rt.alloc();
    let mut maker = Maker::new(alloc, gray_recording(alloc, 2, 12, &[])?, 2, 1)?;
    let next = gray_picture(alloc, false, &[4095, 7])?;
    assert!(rt; matches!(maker.frame(&next), Err(MakeFault::NotSelf)));
    maker.frame(&gray_picture(alloc, true, &[1, 2])?)?;
    maker.frame(&next)?;
    assert!(rt;
        matches!(
            maker.frame(&gray_picture(alloc, false, &[4096, 7])?),
            Err(MakeFault::NotSelf)
        )
    );
    assert!(rt; matches!(maker.frame(&next), Err(MakeFault::NotSelf)));
    Ok(())
}

#[test]
fn record_of_another_meaning_is_not_made(rt: HostRuntime) -> Result<(), Fail> {
    let alloc = rt.alloc();
    for (coder, raw_depth) in [(3, 8), (1, 7), (1, 17)] {
        let record = make_recording_record(alloc, &gray_recording(alloc, coder, raw_depth, &[])?);
        assert!(rt;
            matches!(record, Err(MakeFault::NotSelf)),
            "coder {coder}, depth {raw_depth}"
        );
    }
    make_recording_record(alloc, &gray_recording(alloc, 1, 0, &[])?)?;
    Ok(())
}
