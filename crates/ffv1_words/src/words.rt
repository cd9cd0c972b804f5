//! A command and its words (own). Each of its paths is one of them.
ghost use Rattle.std.specs.Prelude.{◌≡◌};
ghost use Rattle.ffv1_words.specs.WordPaths.{IsPathOf, path_word};

use ffv1_commands::CommandPath;

/// A configuration record, and the size in samples of the frames that are recorded with it.
#[derive(Drop)]
pub struct RecordingWords<'a> {
    /// The path of the record.
    pub record: &'a str,
    /// The width of its frames, in samples.
    pub width: u32,
    /// Their height, in samples.
    pub height: u32,
}

/// A command and its words, each a path except the numbers of a recording. No path is opened or judged yet.
#[derive(Drop)]
pub enum Words<'a> {
    /// Prints the chain of a frame payload.
    Chain {
        /// The payload.
        frame: &'a str,
    },
    /// Judges ranges of a file.
    Scan {
        /// The list of ranges.
        ranges: &'a str,
        /// The file.
        file: &'a str,
    },
    /// Judges a whole Matroska file.
    Check {
        /// The file.
        file: &'a str,
    },
    /// Prints the setup of a configuration record, for frames of its size.
    Show {
        /// The record and the size.
        recording: RecordingWords<'a>,
    },
    /// Prints what a configuration record says of any recording of version 3, for frames of its size.
    Setup {
        /// The record and the size.
        recording: RecordingWords<'a>,
    },
    /// Makes the holding file of copies.
    Take {
        /// The record and size of the copies.
        recording: RecordingWords<'a>,
        /// The file that is made.
        out: &'a str,
        /// The copies, one at least.
        copies: Vec<&'a str>,
    },
    /// Makes the holding file of the union of holding files.
    Join {
        /// The file that is made.
        out: &'a str,
        /// The first holding file.
        first: &'a str,
        /// The others.
        others: Vec<&'a str>,
    },
    /// Makes the holding file of the union of two holding files, which are read as streams.
    Merge {
        /// The file that is made.
        out: &'a str,
        /// The one holding file.
        left: &'a str,
        /// The other.
        right: &'a str,
    },
    /// Prints the damage report of a holding file.
    Report {
        /// The holding file.
        file: &'a str,
    },
    /// Writes the payload that a holding file restores.
    Restore {
        /// The holding file.
        file: &'a str,
        /// The file that is made.
        out: &'a str,
    },
    /// Writes what can be shown of a holding file.
    Picture {
        /// The holding file.
        file: &'a str,
        /// The file that is made.
        out: &'a str,
    },
    /// Splices copies of a frame.
    Splice {
        /// The file that is made.
        out: &'a str,
        /// The copies, one at least.
        copies: Vec<&'a str>,
    },
    /// Makes a file of its stretches in copies of it.
    Mend {
        /// The list of the stretches.
        list: &'a str,
        /// The file that is made.
        out: &'a str,
        /// The copies, one at least.
        copies: Vec<&'a str>,
    },
    /// Writes the samples of a frame payload.
    Decode {
        /// The record and size of the frame.
        recording: RecordingWords<'a>,
        /// The payload.
        frame: &'a str,
        /// The file that is made.
        out: &'a str,
    },
    /// Writes the samples of the frames of a recording of version 3.
    Samples {
        /// The record and size of the frames.
        recording: RecordingWords<'a>,
        /// The file that is made.
        out: &'a str,
        /// The payloads of the frames in their order, one at least.
        frames: Vec<&'a str>,
    },
    /// Prints each command, the exit statuses and the faults.
    Help,
    /// Prints the version, and the kit that proved it.
    Version,
}

impl<'a> Words<'a> {
    /// The word that names a path of the command, which has to be one of its own; `inputs` for both of `merge` together,
    /// and `standard output` for that.
    #[tactic(auto, unfolding(crate::specs::WordPaths::path_word))]
    pub fn path(&self, path: CommandPath) -> &'a str
        requires { IsPathOf self.now path }
        ensures { result.now ≡ path_word self.now path }
    {
        match (self, path) {
            (Words::Chain { frame } | Words::Decode { frame, .. }, CommandPath::Frame) => *frame,
            (Words::Scan { ranges, .. }, CommandPath::Ranges) => *ranges,
            (Words::Scan { file, .. } | Words::Check { file }, CommandPath::File) => *file,
            (
                Words::Show { recording }
                | Words::Setup { recording }
                | Words::Take { recording, .. }
                | Words::Decode { recording, .. }
                | Words::Samples { recording, .. },
                CommandPath::Record,
            ) => recording.record,
            (Words::Mend { list, .. }, CommandPath::List) => *list,
            (
                Words::Take { copies, .. }
                | Words::Splice { copies, .. }
                | Words::Mend { copies, .. }
                | Words::Samples { frames: copies, .. },
                CommandPath::Copy(place),
            ) => copies[place],
            (Words::Join { first, .. }, CommandPath::Hold(0)) => *first,
            (Words::Join { others, .. }, CommandPath::Hold(place)) => others[place - 1],
            (Words::Merge { left, .. }, CommandPath::Hold(0)) => *left,
            (Words::Merge { right, .. }, CommandPath::Hold(_)) => *right,
            (Words::Merge { .. }, CommandPath::Inputs) => "inputs",
            (
                Words::Report { file } | Words::Restore { file, .. } | Words::Picture { file, .. },
                CommandPath::Hold(_),
            ) => *file,
            (
                Words::Take { out, .. }
                | Words::Join { out, .. }
                | Words::Merge { out, .. }
                | Words::Restore { out, .. }
                | Words::Picture { out, .. }
                | Words::Splice { out, .. }
                | Words::Mend { out, .. }
                | Words::Decode { out, .. }
                | Words::Samples { out, .. },
                CommandPath::Out,
            ) => *out,
            // No command has another path.
            _ => "standard output",
        }
    }
}
