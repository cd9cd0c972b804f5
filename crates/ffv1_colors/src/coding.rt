//! A colour and its three coded samples, each made of the other.
ghost use Rattle.std.specs.Prelude.{◌≡◌, ◌≤◌, ◌^◌, IfOk, IfErr, pos, neg_ℤ, ◌-ℤ◌, ◌≤ℤ◌};
ghost use Rattle.std.specs.Int.{int_div_euclid};
ghost use Rattle.ffv1_colors.specs.Views.{color_samples, coded_samples};
ghost use Rattle.ffv1_colors.specs.Inner.Views.{plane_samples};
ghost use Rattle.ffv1_colors.specs.Colors.{swapped, coded_of, colors_of, are_swapped, IsColor, IsCodedColor, IsOfBits, IsFirstOutside, ColorsAreBack, CodedColorsFit};

use std::marker::Model;

/// The samples of a place in the planes G, B and R of a picture.
#[derive(Clone, Copy, Debug, PartialEq, Eq)]
pub struct Color {
    pub green: u32,
    pub blue: u32,
    pub red: u32,
}

/// The samples of a place in the three coded planes.
#[derive(Clone, Copy, Debug, PartialEq, Eq)]
pub struct CodedColor {
    pub luma: u32,
    pub blue_difference: u32,
    pub red_difference: u32,
}

/// A plane of the picture has no such sample: its number, 0 for G, 1 for B, 2 for R.
#[derive(Clone, Copy, Debug, PartialEq, Eq)]
pub struct OutsideDepth {
    pub plane: usize,
}

/// How the colours of a recording are coded.
#[derive(Drop)]
pub struct ColorCoding {
    depth: u32,
    /// 2^depth.
    pub(crate) offset: u32,
    is_swapped: bool,
}

impl Model for ColorCoding {
    ghost use Rattle.ffv1_colors.specs.Colors.{CodingValue};
    ghost use Rattle.ffv1_colors.specs.Colors.{IsOffset};

    ghost Value = { CodingValue };

    ghost view = { λ c. record { depth = c.depth; is_swapped = c.is_swapped } };

    ghost invariant = { λ c. IsOffset c.depth c.offset };
}

/// Samples of a place that can be any numbers.
#[derive(Clone, Copy)]
struct Planes {
    first: i64,
    second: i64,
    third: i64,
}

impl ColorCoding {
    /// The coding of pictures of 8 to 16 bits a sample, with an alpha plane or without.
    pub fn new(depth: u32, has_alpha: bool) -> ColorCoding
        requires least { 8 ≤ depth }
        requires most { depth ≤ 16 }
        ensures { result ≡ record { depth = depth; is_swapped = are_swapped depth has_alpha } }
    {
        ColorCoding {
            depth,
            offset: 1 << depth,
            is_swapped: 9 <= depth && depth <= 15 && !has_alpha,
        }
    }

    /// The samples that are coded of a colour (RFC 9043, section 3.7.2). Its samples have at most the picture's bits; those that are coded have
    /// one more.
    pub fn coded(&self, color: &Color) -> CodedColor
        requires { IsColor self.now (color_samples color.now) }
        ensures value { coded_samples result ≡ coded_of self.now (color_samples color.now) }
        ensures fits { IsCodedColor self.now (coded_samples result) }
    {
        let offset = self.offset;
        let Color { green, blue, red } = self.swapped(color);
        CodedColor {
            // Green, and a quarter of both differences.
            luma: (2 * green + blue + red) / 4,
            blue_difference: blue + offset - green,
            red_difference: red + offset - green,
        }
    }

    /// A colour whose green and blue are in each other's place, where they are coded so.
    fn swapped(&self, color: &Color) -> Color
        requires { IsColor self.now (color_samples color.now) }
        ensures value { color_samples result ≡ swapped self.now.is_swapped (color_samples color.now) }
        ensures within { IsColor self.now (color_samples result) }
    {
        if self.is_swapped {
            return Color {
                green: color.blue,
                blue: color.green,
                red: color.red,
            };
        }
        *color
    }

    /// The colour of which these samples are coded (RFC 9043, section 3.7.2).
    ///
    /// Refused where one of its samples is no number of the picture's bits, with the first such plane.
    #[inline(always)]
    #[tactic(auto, using(crate::proofs::Back::colors_coded))]
    pub fn color(&self, coded: &CodedColor) -> Result<Color, OutsideDepth>
        ensures value { IfOk result (λ color. coded_of self.now (color_samples color) ≡ coded_samples coded.now) }
        ensures within { IfOk result (λ color. IsColor self.now (color_samples color)) }
        ensures err { IfErr result (λ outside. IsFirstOutside self.now (colors_of self.now (coded_samples coded.now)) outside.plane) }
    {
        let planes = self.planes(coded);
        Ok(Color {
            green: self.within(planes.first, 0)?,
            blue: self.within(planes.second, 1)?,
            red: self.within(planes.third, 2)?,
        })
    }

    /// The samples of G, B and R, whatever they are.
    #[inline(always)]
    fn planes(&self, coded: &CodedColor) -> Planes
        ensures { plane_samples result ≡ colors_of self.now (coded_samples coded.now) }
    {
        let blue = lowered(coded.blue_difference, self.offset);
        let red = lowered(coded.red_difference, self.offset);
        let green = i64::from(coded.luma) - quarter(blue + red);
        self.placed(green, blue + green, red + green)
    }

    /// Samples of G, B and R in their places.
    #[inline(always)]
    fn placed(&self, green: i64, blue: i64, red: i64) -> Planes
        ensures { plane_samples result ≡ swapped self.now.is_swapped (record { first = green; second = blue; third = red }) }
    {
        let (first, second) = if self.is_swapped {
            (blue, green)
        } else {
            (green, blue)
        };
        Planes {
            first,
            second,
            third: red,
        }
    }

    /// A sample of a plane, where it is a number of the picture's bits.
    #[inline(always)]
    fn within(&self, sample: i64, plane: usize) -> Result<u32, OutsideDepth>
        ensures ok { IfOk result (λ found. (pos found ≡ sample) × IsOfBits self.now.depth (pos found)) }
        ensures err { IfErr result (λ outside. (outside.plane ≡ plane) × (IsOfBits self.now.depth sample → ⊥)) }
    {
        if sample < 0 || sample >= i64::from(self.offset) {
            return Err(OutsideDepth { plane });
        }
        Ok(sample as u32)
    }
}

/// A coded difference without its offset.
#[inline(always)]
fn lowered(coded: u32, offset: u32) -> i64
    ensures value { result ≡ pos coded -ℤ pos offset }
    ensures low { neg_ℤ (pos (2 ^ 32)) ≤ℤ result }
    ensures high { result ≤ℤ pos (2 ^ 32) }
{
    i64::from(coded) - i64::from(offset)
}

/// A quarter, rounded down.
#[inline(always)]
fn quarter(sum: i64) -> i64
    requires low { neg_ℤ (pos (2 ^ 34)) ≤ℤ sum }
    requires high { sum ≤ℤ pos (2 ^ 34) }
    ensures value { result ≡ int_div_euclid sum (pos 4) }
    ensures low { neg_ℤ (pos (2 ^ 34)) ≤ℤ result }
    ensures high { result ≤ℤ pos (2 ^ 34) }
{
    sum.div_euclid(4)
}

/// The colour of what is coded of a colour is that colour, and the other way round.
pub fn colors_are_back()
    ensures { ColorsAreBack }
{}

/// What is coded of a colour has one bit more a sample.
pub fn coded_colors_fit()
    ensures { CodedColorsFit }
{}
