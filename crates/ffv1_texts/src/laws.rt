//! Laws of texts, whatever reads them.
ghost use Rattle.ffv1_texts.specs.Laws.{OneReadingOfLines, OneReadingOfWords};

/// A text has one list of lines.
pub fn one_reading_of_lines()
    ensures { OneReadingOfLines }
{}

/// A line has one list of words.
pub fn one_reading_of_words()
    ensures { OneReadingOfWords }
{}
