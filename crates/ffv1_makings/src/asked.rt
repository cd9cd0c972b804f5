//! Whether a recording is what its record was asked to say.
ghost use Rattle.std.specs.Prelude.{◌≡◌, IsTrue};
ghost use Rattle.ffv1_makings.specs.Asked.{HasAskedCoding, HasAskedPlanes, IsAskedRecording};
ghost use Rattle.ffv1_makings.specs.Inner.ReadBack.{IsRecorded, ShowsFields};

use crate::sets::has_sets;
use crate::spec::RecordingSpec;
use crate::transitions::has_transitions;
use ffv1_range::Recording;

/// Whether the recording is the one asked for, but for the size of its frames.
pub(crate) fn is_asked(recording: &Recording, spec: &RecordingSpec) -> bool
    ensures { IsTrue result → IsRecorded recording.now → IsAskedRecording recording.now spec.now }
{
    has_coding(recording, spec)
        && has_format(recording, spec)
        && has_sets(recording, spec.coder, &spec.sets)
}

/// Whether the recording is coded as asked for.
fn has_coding(recording: &Recording, spec: &RecordingSpec) -> bool
    ensures { IsTrue result → IsRecorded recording.now → HasAskedCoding recording.now spec.now }
{
    has_fields(recording, spec) && has_transitions(recording, spec)
}

/// Whether the recording is coded as asked for, but for its transitions.
fn has_fields(recording: &Recording, spec: &RecordingSpec) -> bool
    ensures { IsTrue result → ShowsFields recording.now spec.now }
{
    recording.micro() == spec.micro
        && recording.coder() == spec.coder
        && recording.ec() == spec.ec
        && recording.intra() == spec.intra
        && recording.grid().across() == spec.across
        && recording.grid().down() == spec.down
}

/// Whether the recording has the planes asked for.
fn has_format(recording: &Recording, spec: &RecordingSpec) -> bool
    ensures { IsTrue result → HasAskedPlanes recording.now spec.now }
{
    let (shift_h, shift_v) = if spec.has_chroma {
        (spec.shift_h, spec.shift_v)
    } else {
        (0, 0)
    };
    let depth = if spec.raw_depth == 0 {
        8
    } else {
        spec.raw_depth
    };
    recording.is_rgb() == spec.is_rgb
        && recording.depth() == depth
        && recording.has_chroma() == spec.has_chroma
        && recording.shift_h() == shift_h
        && recording.shift_v() == shift_v
        && recording.has_alpha() == spec.has_alpha
}
