//! Whether states change in a recording as asked (RFC 9043, sections 3.8.1.4 to 3.8.1.6).
ghost use Rattle.std.specs.Prelude.{◌≡◌, IsTrue, IfSome, pos, map, slice_index, slice_index_or};
ghost use Rattle.ffv1_range.specs.Transitions.{delta_byte, delta_bytes, transitions_with};
ghost use Rattle.ffv1_makings.specs.Asked.{asked_deltas, asked_transitions};
ghost use Rattle.ffv1_makings.specs.Inner.ReadBack.{HaveSameOnes};

use crate::spec::RecordingSpec;
use ffv1_range::{RangeDecoder, Recording, Transitions};

/// Whether each state but 0 becomes after a bit 1 what was asked for.
pub(crate) fn has_transitions(recording: &Recording, spec: &RecordingSpec) -> bool
    ensures { IsTrue result → HaveSameOnes recording.now.transitions (asked_transitions spec.now) }
{
    let asked = Transitions::with_deltas(&asked_bytes(spec));
    have_same_ones(recording.transitions(), &asked)
}

/// Whether each state but 0 becomes the same after a bit 1.
fn have_same_ones(transitions: &Transitions, others: &Transitions) -> bool
    ensures { IsTrue result → HaveSameOnes transitions.now others.now }
{
    for state in 1..256usize {
        let state = state as u8;
        match (after_one(transitions, state), after_one(others, state)) {
            (Some(after), Some(other)) if after == other => {}
            _ => return false,
        }
    }
    true
}

/// What a state becomes after a bit 1, as a decoder of a slice changes it. `None` where it reads no such bit.
fn after_one(transitions: &Transitions, state: u8) -> Option<u8>
    ensures { IfSome result (λ after. after ≡ slice_index transitions.now.one state) }
{
    let Ok(mut decoder) = RangeDecoder::slice(&[0xFE, 0xFF], transitions) else {
        return None;
    };
    let mut after = state;
    match decoder.bit(&mut after) {
        Ok(true) => Some(after),
        _ => None,
    }
}

/// The deltas of the states 1 to 255, each modulo 256.
fn asked_bytes(spec: &RecordingSpec) -> [u8; 255]
    ensures { result ≡ delta_bytes spec.now.coder (asked_deltas spec.now.deltas.items) }
{
    if spec.coder == 2 {
        bytes_of(&spec.deltas)
    } else {
        [0; 255]
    }
}

/// These deltas modulo 256. Those that are left out are 0.
fn bytes_of(deltas: &[i32]) -> [u8; 255]
    ensures { result ≡ map delta_byte (asked_deltas deltas.now) }
{
    let mut bytes = [0; 255];
    for place in 0..255usize {
        bytes[place] = byte_at(deltas, place);
    }
    bytes
}

/// A delta modulo 256, or 0 where it is left out.
fn byte_at(deltas: &[i32], place: usize) -> u8
    ensures { result ≡ delta_byte (slice_index_or deltas.now place (pos 0)) }
{
    if place < deltas.len() {
        byte_of(deltas[place])
    } else {
        0
    }
}

/// A delta modulo 256.
fn byte_of(delta: i32) -> u8
    ensures { result ≡ delta_byte delta }
{
    let magnitude = (delta.unsigned_abs() % 256) as u8;
    if delta < 0 {
        0u8.wrapping_sub(magnitude)
    } else {
        magnitude
    }
}
