//! State transitions (RFC 9043, sections 3.8.1.4 to 3.8.1.6): what a state becomes after a bit that was coded at it.
ghost use Rattle.std.specs.Prelude.{◌≡◌, ◌<◌, slice_index};
ghost use Rattle.ffv1_range.specs.Transitions.{IsBitState, bit_state_after, state_following, transitions_with, standard_transitions, one_states_with, zero_states_of, default_states};

/// The default state transition table: what each state becomes after a bit 1 (RFC 9043, section 3.8.1.5).
const DEFAULT_STATES: [u8; 256] = [
    0, 0, 0, 0, 0, 0, 0, 0, 20, 21, 22, 23, 24, 25, 26, 27, 28, 29, 30, 31, 32, 33, 34, 35, 36, 37,
    37, 38, 39, 40, 41, 42, 43, 44, 45, 46, 47, 48, 49, 50, 51, 52, 53, 54, 55, 56, 56, 57, 58, 59,
    60, 61, 62, 63, 64, 65, 66, 67, 68, 69, 70, 71, 72, 73, 74, 75, 75, 76, 77, 78, 79, 80, 81, 82,
    83, 84, 85, 86, 87, 88, 89, 90, 91, 92, 93, 94, 94, 95, 96, 97, 98, 99, 100, 101, 102, 103,
    104, 105, 106, 107, 108, 109, 110, 111, 112, 113, 114, 114, 115, 116, 117, 118, 119, 120, 121,
    122, 123, 124, 125, 126, 127, 128, 129, 130, 131, 132, 133, 133, 134, 135, 136, 137, 138, 139,
    140, 141, 142, 143, 144, 145, 146, 147, 148, 149, 150, 151, 152, 152, 153, 154, 155, 156, 157,
    158, 159, 160, 161, 162, 163, 164, 165, 166, 167, 168, 169, 170, 171, 171, 172, 173, 174, 175,
    176, 177, 178, 179, 180, 181, 182, 183, 184, 185, 186, 187, 188, 189, 190, 190, 191, 192, 194,
    194, 195, 196, 197, 198, 199, 200, 201, 202, 202, 204, 205, 206, 207, 208, 209, 209, 210, 211,
    212, 213, 215, 215, 216, 217, 218, 219, 220, 220, 222, 223, 224, 225, 226, 227, 227, 229, 229,
    230, 231, 232, 234, 234, 235, 236, 237, 238, 239, 240, 241, 242, 243, 244, 245, 246, 247, 248,
    248, 0, 0, 0, 0, 0, 0, 0,
];

/// What each state becomes after a bit 0, by the default table.
const DEFAULT_ZERO_STATES: [u8; 256] = [
    0, 0, 0, 0, 0, 0, 0, 0, 8, 8, 9, 10, 11, 12, 13, 14, 15, 16, 17, 18, 19, 20, 21, 22, 22, 24,
    25, 26, 27, 27, 29, 29, 30, 31, 32, 33, 34, 36, 36, 37, 38, 39, 40, 41, 41, 43, 44, 45, 46, 47,
    47, 48, 49, 50, 51, 52, 54, 54, 55, 56, 57, 58, 59, 60, 61, 62, 62, 64, 65, 66, 66, 67, 68, 69,
    70, 71, 72, 73, 74, 75, 76, 77, 78, 79, 80, 81, 82, 83, 84, 85, 85, 86, 87, 88, 89, 90, 91, 92,
    93, 94, 95, 96, 97, 98, 99, 100, 101, 102, 103, 104, 104, 105, 106, 107, 108, 109, 110, 111,
    112, 113, 114, 115, 116, 117, 118, 119, 120, 121, 122, 123, 123, 124, 125, 126, 127, 128, 129,
    130, 131, 132, 133, 134, 135, 136, 137, 138, 139, 140, 141, 142, 142, 143, 144, 145, 146, 147,
    148, 149, 150, 151, 152, 153, 154, 155, 156, 157, 158, 159, 160, 161, 162, 162, 163, 164, 165,
    166, 167, 168, 169, 170, 171, 172, 173, 174, 175, 176, 177, 178, 179, 180, 181, 181, 182, 183,
    184, 185, 186, 187, 188, 189, 190, 191, 192, 193, 194, 195, 196, 197, 198, 199, 200, 200, 201,
    202, 203, 204, 205, 206, 207, 208, 209, 210, 211, 212, 213, 214, 215, 216, 217, 218, 219, 219,
    220, 221, 222, 223, 224, 225, 226, 227, 228, 229, 230, 231, 232, 233, 234, 235, 236, 0, 0, 0,
    0, 0, 0, 0,
];

/// The transitions where no deltas are coded.
static STANDARD: Transitions = Transitions {
    zero: DEFAULT_ZERO_STATES,
    one: DEFAULT_STATES,
};

/// What each of the 256 states becomes after a bit that was coded at it.
#[derive(Clone, Copy)]
pub struct Transitions {
    /// The states after a bit 0.
    zero: [u8; 256],
    /// The states after a bit 1.
    one: [u8; 256],
}

impl Transitions {
    /// The transitions of the default table (RFC 9043, section 3.8.1.5).
    pub fn standard() -> Transitions
        ensures { result ≡ standard_transitions }
    {
        *standard()
    }

    /// The transitions with these deltas of the states 1 to 255, each modulo 256, which are added to the entries of the default table
    /// modulo 256 (RFC 9043, section 3.8.1.6). State 0 stays 0.
    pub fn with_deltas(deltas: &[u8; 255]) -> Transitions
        ensures { result ≡ transitions_with deltas.now }
    {
        let one = one_states(deltas);
        Transitions {
            zero: zero_states(&one),
            one,
        }
    }

    /// The state after a bit.
    #[inline(always)]
    pub(crate) fn after(&self, state: u8, bit: bool) -> u8
        ensures { result ≡ state_following self.now state bit }
    {
        if bit {
            self.one[state as usize]
        } else {
            self.zero[state as usize]
        }
    }
}

/// The transitions of the default table.
pub(crate) fn standard<'a>() -> &'a Transitions
    ensures { result.now ≡ standard_transitions }
{
    &STANDARD
}

/// The state after a bit, by the default table (RFC 9043, section 3.8.1.5). From a state in 8..=248 it is in 8..=248 again.
pub fn next_state(state: u8, bit: bool) -> u8
    ensures value { result ≡ bit_state_after state bit }
    ensures in_range { IsBitState state → IsBitState result }
{
    standard().after(state, bit)
}

/// The states after a bit 1.
fn one_states(deltas: &[u8; 255]) -> [u8; 256]
    ensures { result ≡ one_states_with deltas.now }
{
    let mut states = [0; 256];
    for state in 1..256usize {
        states[state] = default_state(state).wrapping_add(deltas[state - 1]);
    }
    states
}

/// An entry of the default table.
#[tactic(auto, unfolding(crate::specs::Transitions::default_states))]
fn default_state(state: usize) -> u8
    requires { state < 256 }
    ensures { result ≡ slice_index default_states state }
{
    DEFAULT_STATES[state]
}

/// The states after a bit 0, which mirror those after a bit 1.
fn zero_states(ones: &[u8; 256]) -> [u8; 256]
    ensures { result ≡ zero_states_of ones.now }
{
    let mut states = [0; 256];
    for state in 1..256usize {
        states[state] = 0u8.wrapping_sub(ones[256 - state]);
    }
    states
}
