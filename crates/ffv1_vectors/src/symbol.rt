//! The bits of a range-coded symbol (RFC 9043, section 3.8.1.2), each with the slot of the state at which it is coded.
ghost use Rattle.std.specs.Prelude.{◌<◌};

/// A symbol of a magnitude, and in a signed one whether it is below 0.
#[derive(Clone, Copy)]
pub(crate) struct Symbol {
    magnitude: u32,
    is_negative: Option<bool>,
}

impl Symbol {
    pub(crate) fn unsigned(value: u32) -> Symbol {
        Symbol {
            magnitude: value,
            is_negative: None,
        }
    }

    pub(crate) fn signed(value: i32) -> Symbol {
        Symbol {
            magnitude: value.unsigned_abs(),
            is_negative: Some(value < 0),
        }
    }

    /// How many bits it has: whether it is 0; the exponent's, at most 32; those under the highest, at most 31; the sign.
    pub(crate) fn bits(self) -> u32 {
        if self.magnitude == 0 {
            return 1;
        }
        2 * self.magnitude.ilog2() + 2 + u32::from(self.is_negative.is_some())
    }

    /// The slot of a bit, and the bit: whether it is 0; else so many ones as its exponent says, and a zero; the bits under its highest, the
    /// highest of them first; and its sign.
    pub(crate) fn bit(self, place: u32) -> (usize, bool)
        ensures { result.0 < 32 }
    {
        if place == 0 || self.magnitude == 0 {
            return (0, self.magnitude == 0);
        }
        let exponent = self.magnitude.ilog2();
        if place <= exponent + 1 {
            return (place.min(10) as usize, place <= exponent);
        }
        if place <= 2 * exponent + 1 {
            let low = 2 * exponent + 1 - place;
            return (22 + low.min(9) as usize, (self.magnitude >> low) & 1 == 1);
        }
        (
            11 + exponent.min(10) as usize,
            self.is_negative == Some(true),
        )
    }
}
