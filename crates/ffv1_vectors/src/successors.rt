//! What each state becomes after a bit that was coded at it (RFC 9043, sections 3.8.1.4 to 3.8.1.6).

use ffv1_range::next_state;

/// The states after a bit, of all 256 states.
#[derive(Clone, Copy)]
pub struct Successors {
    zero: [u8; 256],
    one: [u8; 256],
}

impl Successors {
    /// The default table with these deltas of the states from 1 on, modulo 256. Those that are left out are 0.
    pub fn with_deltas(deltas: &[i32]) -> Successors {
        let one = one_states(deltas);
        Successors {
            zero: zero_states(&one),
            one,
        }
    }

    /// The state after a bit.
    pub(crate) fn after(&self, state: u8, bit: bool) -> u8 {
        if bit {
            self.one[state as usize]
        } else {
            self.zero[state as usize]
        }
    }
}

/// The states after a bit 1.
fn one_states(deltas: &[i32]) -> [u8; 256] {
    let mut states = [0; 256];
    for state in 1..256usize {
        let delta = deltas.get(state - 1).copied().unwrap_or(0);
        let low = (delta.cast_unsigned() & 0xFF) as u8;
        states[state] = next_state(state as u8, true).wrapping_add(low);
    }
    states
}

/// The states after a bit 0, which mirror those after a bit 1.
fn zero_states(ones: &[u8; 256]) -> [u8; 256] {
    let mut states = [0; 256];
    for state in 1..256usize {
        states[state] = 0u8.wrapping_sub(ones[256 - state]);
    }
    states
}
