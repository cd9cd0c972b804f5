//! Laws of holding files (own), as contracts of functions that do nothing.
ghost use Rattle.ffv1_hold.specs.Laws.{OneText, OneReadLimit, OneFault, OneShownFault, TextHasNoFault, TextShowsNoFault, PartShowsNoFault};

/// Two holdings with one text, of whatever version, are equal. So each has exactly one of version 2, and one without
/// origins exactly one of version 1.
pub fn one_text()
    ensures { OneText }
{}

/// The text of a holding has no fault: no beginning of it shows one, and the whole text is no unfinished one. Nor
/// does a beginning of an unfinished file show one.
pub fn text_shows_no_fault()
    ensures text { TextHasNoFault }
    ensures beginnings { TextShowsNoFault }
    ensures unfinished { PartShowsNoFault }
{}

/// An input has one fault at most: it shows one, ends too early, passes the limit or goes on after a text.
pub fn one_fault()
    ensures input { OneFault }
    ensures beginnings { OneShownFault }
{}

/// However far the text of a holding may be read where a write fails, that is one place: each text, beside another
/// holding or none, and each bytes that were written have exactly one read_limit.
pub fn one_read_limit()
    ensures { OneReadLimit }
{}
