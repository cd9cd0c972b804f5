//! The colours of RGB: rows by the standard's formulas, and coded samples that no colour has.
use ffv1_colors::{CodedColor, CodedPlanes, Color, ColorCoding, ColorsFault, OutsideDepth};

/// Green, blue and red, the bits of a sample, whether there is alpha, and the three coded samples.
const CODED: [((u32, u32, u32), u32, bool, (u32, u32, u32)); 9] = [
    ((10, 20, 30), 8, false, (17, 266, 276)),
    ((10, 20, 30), 8, true, (17, 266, 276)),
    ((10, 20, 30), 9, false, (20, 502, 522)),
    ((10, 20, 30), 10, false, (20, 1014, 1034)),
    ((10, 20, 30), 10, true, (17, 1034, 1044)),
    ((10, 20, 30), 15, false, (20, 32758, 32778)),
    ((10, 20, 30), 16, false, (17, 65546, 65556)),
    ((255, 0, 0), 8, false, (127, 1, 1)),
    ((0, 65535, 65535), 16, false, (32767, 131071, 131071)),
];

/// Three coded samples, the bits of a sample, and the first plane that has none: 0 for G, 1 for B, 2 for R.
const REFUSED: [((u32, u32, u32), u32, usize); 6] = [
    ((10, 506, 256), 8, 0),
    ((10, 316, 256), 8, 0),
    ((255, 257, 256), 8, 1),
    ((255, 256, 258), 8, 2),
    ((1023, 1024, 1025), 10, 2),
    ((1023, 1025, 1024), 10, 0),
];

fn coded_color((luma, blue_difference, red_difference): (u32, u32, u32)) -> CodedColor {
    CodedColor {
        luma,
        blue_difference,
        red_difference,
    }
}

/// The coding of so many bits, 8 at least and 16 at most.
fn coding_of(depth: u32, has_alpha: bool) -> ColorCoding {
    ColorCoding::new(depth.max(8).min(16), has_alpha)
}

#[test]
fn coded_samples_have_their_colors(rt: HostRuntime) {
    for ((green, blue, red), depth, has_alpha, coded) in CODED {
        let found = coding_of(depth, has_alpha).color(&coded_color(coded));
        assert_eq!(rt; found, Ok(Color { green, blue, red }));
    }
}

#[test]
fn first_plane_outside_is_reported(rt: HostRuntime) {
    for (coded, depth, plane) in REFUSED {
        let found = coding_of(depth, false).color(&coded_color(coded));
        assert_eq!(rt; found, Err(OutsideDepth { plane }));
    }
}

#[test]
fn colors_are_coded(rt: HostRuntime) {
    let color = Color {
        green: 10,
        blue: 20,
        red: 30,
    };
    let coded = (
        ColorCoding::new(8, false).coded(&color),
        ColorCoding::new(10, false).coded(&color),
        ColorCoding::new(10, true).coded(&color),
        ColorCoding::new(16, false).coded(&color),
    );
    let wanted = (
        coded_color((17, 266, 276)),
        coded_color((20, 1014, 1034)),
        coded_color((17, 1034, 1044)),
        coded_color((17, 65546, 65556)),
    );
    assert_eq!(rt; coded, wanted);
}

#[test]
fn planes_have_the_colors_of_their_places(rt: HostRuntime) {
    let coded = CodedPlanes {
        luma: &[17, 127],
        blue_difference: &[266, 1],
        red_difference: &[276, 1],
    };
    let planes = coding_of(8, false)
        .planes_of(rt.alloc(), &coded)
        .expect(&rt, "planes");
    assert!(rt; planes.green.as_slice() == [10, 255].as_slice());
    assert!(rt; planes.blue.as_slice() == [20, 0].as_slice());
    assert!(rt; planes.red.as_slice() == [30, 0].as_slice());
}

#[test]
fn first_place_without_a_color_is_reported(rt: HostRuntime) {
    let coded = CodedPlanes {
        luma: &[17, 255, 10],
        blue_difference: &[266, 257, 506],
        red_difference: &[276, 256, 256],
    };
    let refused = coding_of(8, false).planes_of(rt.alloc(), &coded);
    assert!(rt; refused.err() == Some(ColorsFault::Outside { place: 1, plane: 1 }));
}
