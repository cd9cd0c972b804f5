//! What a check knows of the elements of the top after some parts of a file.
ghost use Rattle.std.specs.Prelude.{◌≡◌, List, [], ◌∷◌, ◌++◌};
ghost use Rattle.matroska_parts.specs.TopElements.{element_number};
ghost use Rattle.matroska_parts.specs.declared.top_elements.TopElement.{TopElement};
ghost use Rattle.matroska_parts.specs.declared.parts.Part.{Part};
ghost use Rattle.std.specs.Prelude.{◌||◌, false, get_or, option_to_list};
ghost use Rattle.std.specs.List.{list_any};
ghost use Rattle.ffv1_check.specs.Before.{is_ebml, first_of, if_segment, has_one, has_crc32};
ghost use Rattle.ffv1_check.specs.PartFindings.{is_misplaced, opening_findings, if_bare, closing_findings};
ghost use Rattle.ffv1_check.specs.Inner.Stands.{found_list, TopsStand};

use crate::findings::Finding;
use matroska_parts::{Closing, Crc32, Opening, Part, TopElement};

/// What is wrong with one part: two things at most.
#[derive(Clone, Copy, Debug)]
pub(crate) struct Found {
    pub(crate) first: Option<Finding>,
    pub(crate) second: Option<Finding>,
}

/// What is known after some parts.
#[derive(Clone, Copy, Debug)]
pub(crate) struct Tops {
    /// Whether an element began.
    pub(crate) begun: bool,
    /// Whether an EBML did.
    pub(crate) has_ebml: bool,
    /// The first Segment.
    pub(crate) segment: Option<Opening>,
    /// The Timestamp of the Cluster that is read.
    pub(crate) timestamp: Option<u64>,
    /// Whether an element of each kind had a CRC-32.
    pub(crate) with_crc32: [bool; 11],
}

impl Tops {
    /// Before the first part.
    pub(crate) fn new() -> Tops
        ensures { TopsStand [] result }
    {
        Tops {
            begun: false,
            has_ebml: false,
            segment: None,
            timestamp: None,
            with_crc32: [false; 11],
        }
    }

    /// After one more.
    pub(crate) fn after(&self, part: &Part) -> Tops
        ensures { (parts : List Part) → TopsStand parts self.now → TopsStand (parts ++ part.now ∷ []) result }
    {
        match part {
            Part::Begin(opening) => self.after_head(opening),
            Part::Timestamp(timestamp) => Tops {
                timestamp: Some(*timestamp),
                ..*self
            },
            Part::End(closing) => self.after_end(closing),
            Part::Unknown(_) => *self,
            Part::Block(_) => *self,
            Part::Record(_) => *self,
            Part::NoMatroska(_) => *self,
        }
    }

    /// After the head of an element.
    fn after_head(&self, opening: &Opening) -> Tops
        ensures { (parts : List Part) → TopsStand parts self.now → TopsStand (parts ++ Part.Begin opening.now ∷ []) result }
    {
        Tops {
            begun: true,
            has_ebml: self.ebml_with(opening.element),
            segment: self.segment_with(opening),
            timestamp: None,
            with_crc32: self.with_crc32,
        }
    }

    /// Whether an EBML began, if this element begins.
    fn ebml_with(&self, element: TopElement) -> bool
        ensures { result ≡ (self.now.has_ebml || is_ebml element) }
    {
        match element {
            TopElement::Ebml => true,
            _ => self.has_ebml,
        }
    }

    /// The first Segment, if an element begins so.
    fn segment_with(&self, opening: &Opening) -> Option<Opening>
        ensures { result ≡ first_of self.now.segment (if_segment opening.now opening.now.element) }
    {
        match self.segment {
            Some(segment) => Some(segment),
            None => match opening.element {
                TopElement::Segment => Some(*opening),
                _ => None,
            },
        }
    }

    /// After the end of an element.
    fn after_end(&self, closing: &Closing) -> Tops
        ensures { (parts : List Part) → TopsStand parts self.now → TopsStand (parts ++ Part.End closing.now ∷ []) result }
    {
        Tops {
            with_crc32: self.crc32s_with(closing),
            ..*self
        }
    }

    /// Which elements had a CRC-32, if one ends so.
    fn crc32s_with(&self, closing: &Closing) -> [bool; 11]
        ensures { (element : TopElement) → get_or result (element_number element) false
            ≡ (get_or self.now.with_crc32 (element_number element) false || has_crc32 element (Part.End closing.now)) }
    {
        let mut with_crc32 = self.with_crc32;
        if has_one(closing.crc32) {
            with_crc32[closing.element.number()] = true;
        }
        with_crc32
    }

    /// What is wrong where an element begins.
    pub(crate) fn at_head(&self, opening: &Opening) -> Found
        ensures { (parts : List Part) → TopsStand parts self.now → found_list result ≡ opening_findings parts opening.now }
    {
        let first = if self.is_misplaced(opening.element) {
            Some(Finding::Misplaced(opening.element))
        } else {
            None
        };
        let second = match opening.end {
            Some(_) => None,
            None => Some(Finding::Endless(opening.element)),
        };
        Found { first, second }
    }

    /// Whether such an element may not stand here.
    fn is_misplaced(&self, element: TopElement) -> bool
        ensures { (parts : List Part) → TopsStand parts self.now → result ≡ is_misplaced parts element }
    {
        match element {
            TopElement::Ebml => self.begun,
            TopElement::Segment => self.segment.is_some() || !self.has_ebml,
            TopElement::Void => false,
            _ => self.segment.is_none(),
        }
    }

    /// What is wrong where an element ends.
    pub(crate) fn at_end(&self, closing: &Closing) -> Option<Finding>
        ensures { (parts : List Part) → TopsStand parts self.now → option_to_list result ≡ closing_findings parts closing.now }
    {
        match closing.crc32 {
            Crc32::Cut => Some(Finding::Cut(closing.element, closing.size)),
            Crc32::Fails => Some(Finding::Crc32(closing.element, closing.size)),
            Crc32::Passes => None,
            Crc32::Absent => self.bare(closing),
        }
    }

    /// What is wrong where an element without a CRC-32 ends.
    fn bare(&self, closing: &Closing) -> Option<Finding>
        ensures { (parts : List Part) → TopsStand parts self.now → option_to_list result ≡ if_bare (list_any (has_crc32 closing.now.element) parts) closing.now }
    {
        if self.with_crc32[closing.element.number()] {
            Some(Finding::Bare(closing.element, closing.size))
        } else {
            None
        }
    }
}

/// Whether there is a CRC-32, right or wrong.
fn has_one(crc32: Crc32) -> bool
    ensures { result ≡ has_one crc32 }
{
    match crc32 {
        Crc32::Cut => false,
        Crc32::Absent => false,
        Crc32::Passes => true,
        Crc32::Fails => true,
    }
}
