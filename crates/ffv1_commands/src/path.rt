//! The paths of a command: its words that name files, and standard output.

/// A path of a command, by the word that names it.
#[derive(Clone, Copy, Debug, PartialEq, Eq)]
pub enum CommandPath {
    /// The configuration record.
    Record,
    /// The payload of a frame.
    Frame,
    /// The copy of a payload or of the file of `mend`, or the frame of `samples`, before which stand so many others.
    Copy(usize),
    /// The holding file before which stand so many others.
    Hold(usize),
    /// The list of ranges of `scan`.
    Ranges,
    /// The file that `check` judges, or of which `scan` judges ranges.
    File,
    /// The list of the stretches of `mend`.
    List,
    /// Both holding files of `merge`, which are read together.
    Inputs,
    /// The file that is made.
    Out,
    /// What is printed.
    StandardOutput,
}
