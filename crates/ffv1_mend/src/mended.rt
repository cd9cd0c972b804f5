//! What becomes of a stretch.
ghost use Rattle.std.specs.Prelude.{◌≡◌, map};
ghost use Rattle.ffv1_mend.specs.Content.{held_bytes};
ghost use Rattle.ffv1_mend.specs.Improved.{part_value};
ghost use Rattle.ffv1_mend.specs.Mended.{is_good};

use crate::content::Content;
use crate::part::MendedPart;
use crate::state::State;
use std::marker::Model;

/// A stretch that was mended.
#[derive(Drop)]
pub struct Mended<'a> {
    state: State,
    content: Option<Content<'a>>,
    parts: Vec<MendedPart<'a>>,
}

impl<'a> Model for Mended<'a> {
    ghost use Rattle.std.specs.Prelude.{map};
    ghost use Rattle.ffv1_mend.specs.Content.{held_bytes};
    ghost use Rattle.ffv1_mend.specs.Improved.{part_value};
    ghost use Rattle.ffv1_mend.specs.Mended.{MendedValue};

    ghost Value = { MendedValue };

    ghost view = { λ a. record { state = a.state; bytes = held_bytes a.content (map part_value a.parts.items); parts = map part_value a.parts.items } };
}

impl<'a> Mended<'a> {
    /// A stretch that stands so, with this content, or else that of the first of these parts, which is a splice.
    pub(crate) fn new(
        state: State,
        content: Option<Content<'a>>,
        parts: Vec<MendedPart<'a>>,
    ) -> Mended<'a>
        ensures { result ≡ record { state = state; bytes = held_bytes content.entry (map part_value parts.entry.items); parts = map part_value parts.entry.items } }
    {
        Mended {
            state,
            content,
            parts,
        }
    }

    /// How it stands.
    pub fn state(&self) -> State
        ensures { result ≡ self.now.state }
    {
        self.state
    }

    /// Its bytes.
    pub fn bytes(&self) -> &[u8]
        ensures { result.now ≡ self.now.bytes }
    {
        match (&self.content, self.parts.first()) {
            (Some(content), _) => content.bytes(),
            (None, Some(MendedPart::Spliced(spliced))) => spliced.payload(),
            (None, _) => &[],
        }
    }

    /// Of a frame of FFV1 its splice, alone; of an element what becomes of each part, in their order, over the versions as they were given. An
    /// element that is whole in all versions has none, and stretches of other kinds have none.
    pub fn parts(&self) -> &[MendedPart<'a>]
        ensures { map part_value result.now ≡ self.now.parts }
    {
        self.parts.as_slice()
    }

    /// Whether a checksum vouches for its bytes, or two versions at least that are all equal: it is `Whole`, `Woven` or `Agreed`.
    pub fn is_good(&self) -> bool
        ensures { result ≡ is_good self.now.state }
    {
        matches!(self.state, State::Whole | State::Woven(_) | State::Agreed)
    }
}
