//! The colours of RGB, and the samples that are coded of them (RFC 9043, section 3.7.2).
#![tactic(auto)]

mod coding;
mod planes;

pub use coding::{CodedColor, Color, ColorCoding, OutsideDepth, coded_colors_fit, colors_are_back};
pub use planes::{CodedPlanes, ColorPlanes, ColorsFault};
