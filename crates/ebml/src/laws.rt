//! Laws of items and of whole files.
ghost use Rattle.ebml.specs.Items.{ItemsAreOne, WholeItemsAreLocal};
ghost use Rattle.ebml.specs.Head.{HeadsAreLocal};
ghost use Rattle.ebml.specs.Whole.{OneSegmentHasItems, CutIsSeen};

/// The items of a file are one list.
pub fn items_are_one()
    ensures { ItemsAreOne }
{}

/// No front of a file that is an EBML and one Segment is one, and nothing that goes on after one.
pub fn cut_is_seen()
    ensures { CutIsSeen }
{}

/// The items of a file that is an EBML and one Segment begin with these two.
pub fn one_segment_has_items()
    ensures { OneSegmentHasItems }
{}

/// A head is seen in 12 bytes.
pub fn heads_are_local()
    ensures { HeadsAreLocal }
{}

/// An element that is there whole is an item whatever follows it.
pub fn whole_items_are_local()
    ensures { WholeItemsAreLocal }
{}
