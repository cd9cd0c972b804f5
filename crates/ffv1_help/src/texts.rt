//! The texts (own). The manual page and the README have the same sentences: `tests/manual` compares them.

/// What `help` prints.
pub(crate) const HELP: &str = "\
ffv1restore - restore FFV1 video from several damaged copies

Commands
  ffv1restore chain FRAME
      lists the slices of a frame from its end, and whether each passes its
      parity
  ffv1restore scan RANGES FILE
      judges many frames of one file in one pass
  ffv1restore check FILE
      judges a whole Matroska file by the checksums in it
  ffv1restore show RECORD WIDTH HEIGHT
      shows a recording's setup, or why the tool can't take it
  ffv1restore setup RECORD WIDTH HEIGHT
      shows the setup of any recording of version 3, and its format's name
  ffv1restore take [--any] RECORD WIDTH HEIGHT OUT COPY...
      makes a holding of all undamaged slices of the copies
  ffv1restore join [--any] OUT HOLD...
      makes the union of holdings
  ffv1restore merge [--any] OUT A B
      the same of two files, holding one entry of each; prints nothing
  ffv1restore report [--any] HOLD
      reports each tile's state and which copies gave it, with SHA-256 digests
  ffv1restore restore [--any] HOLD OUT
      writes the frame if each of its tiles has one best slice
  ffv1restore picture [--any] HOLD OUT
      writes the samples of what a holding has, and mid-gray elsewhere
  ffv1restore splice OUT COPY...
      puts a frame together from copies of one length, by their footers
  ffv1restore mend LIST OUT COPY...
      puts a whole file together from its copies, by a list of what lies where
  ffv1restore decode RECORD WIDTH HEIGHT FRAME OUT
      writes the samples of a frame
  ffv1restore samples RECORD WIDTH HEIGHT OUT FRAME...
      writes those of frames of any recording of version 3
  ffv1restore help
      prints these lines, the exit statuses, and what each fault means
  ffv1restore version
      prints the version, and the kit that proved it

Option
  --any
      The first word after take, join, merge, report, restore or picture. The
      command then takes any recording of version 3 whose slices have parities
      and one tile each: each coder, 8 to 16 bits, RGB, alpha, frames that are
      no keyframes. If the record is in the profile, a holding is the same file
      with --any and without, unless a slice of it says that the frame is no
      keyframe. Any other holding file begins with FFV1ANY, and is read with
      --any alone.

Exit statuses
  0  Done.
  1  A fault, reported in one line on standard error. If it came before OUT was
     written, OUT is unchanged.
  2  The words were refused.
  3  picture wrote OUT, and some tile has no samples, or with --any its slice is
     unclean; or take --any wrote OUT, and a copy is unordered; or splice wrote
     OUT, and some place is neither settled nor woven, or the end is broken; or
     mend wrote OUT, and some stretch is missing, disputed, open or alone; or
     samples wrote all frames, and some slice is unclean; or scan found a range
     that is not whole, has no slice, or has one that fails; or check found a
     file that is not whole.

Faults
  cannot read PATH
      The file can't be opened or read. Or it is a record, a frame, a copy of
      splice, the RANGES of scan or the LIST of mend, and has more than 2^30
      bytes. Or it is the FILE of scan, and ends before a range does; or it is a
      copy of mend, and ends before a stretch does. cannot read inputs comes
      from merge, if it opened A and B, and reading one of them fails.
  cannot write PATH
      The file, or standard output, can't be made or written; or OUT of merge is
      A or B, or OUT of mend is LIST or a copy, or OUT of samples is RECORD or a
      FRAME, by the same word. Then nothing is read.
  cannot splice PATH
      The copy does not have the length of the first one.
  ranges fault N
      Line N of RANGES, counted from 1, is the first that is no range, or begins
      before the end of the one before it. All of RANGES is judged before FILE
      is opened.
  list fault N
      Line N of LIST, counted from 1, is the first that is not as LISTS of the
      manual page says. All of LIST is judged before a copy is opened.
  missing tile T
      No copy has an undamaged slice of tile T, and all tiles before it are
      settled.
  disputed tile T
      Several different slices of tile T have the least error status, and all
      tiles before it are settled.
  memory
      Memory was refused.
  words refused
      The words are not a command with exactly its words.
  setup fault N
      setup and samples take more: coder_type 1 and 2, colorspace_type 1 (RGB,
      with its planes), up to 16 bits, an extra plane, chroma subsampled by up
      to 16, and ec 0. Their faults 6 to 8, 10 and 16 are of other values than
      these. --any takes all of that but ec 0, which is fault 16.
       1  the record has fewer than 6 bytes
       2  its parity fails: the record is damaged
       3  a number in it can't be read
       4  the version is not 3
       5  micro_version is under 4
       6  coder_type is not 0 (Golomb-Rice)
       7  colorspace_type is not 0 (YCbCr)
       8  bits_per_raw_sample is neither 8 nor 0
       9  there is an extra plane
      10  chroma is subsampled by more than 4
      11  there are more tiles across or down than samples
      12  there are more than 4096 tiles
      13  the number of table sets is not 1 to 8
      14  a run of a table goes past its end
      15  a set of tables has too many contexts
      16  ec is not 1: slices have no parity
      17  width or height is not 1 to 65535 (judged after fault 2)
  hold fault N
       1  the holding file has another record or size than the first
       2  the copy has more than 2^30 bytes
  holding file fault N
       1  the file is no holding file, or its version is neither 1 nor 2; or it
          begins with FFV1ANY, and --any is not given, or its version is not 1,
          or its record is in the profile and its first slice does not say that
          the frame is no keyframe
       2  its record has no setup for its size, or is not in the profile and the
          file begins with FFV1HLD
       3  it ends before its end tag
       4  a tag is neither 0 nor 1
       5  an entry or a digest does not come after the one before it in order
       6  an entry is no slice of its tile
       7  a byte follows the end tag
      11  a record, a slice, its list of digests, the file that is read, or the
          one that would be made is too long
      12  the two files of merge have different records or sizes
  frame fault N
      Faults 2 and 3 name, after the word at, the number of the slice, fault 4
      that of the tile. Both count from 0 from the frame's front.
       1  the chain is broken, or does not have one slice per tile (also if a
          whole container is given instead of a frame)
       2  a slice is damaged, or is no slice of the recording (also if the frame
          is not a keyframe)
       3  a slice is of another tile
       4  a tile has a code that can't be read (also if width or height is
          wrong)
  samples fault N
      After the words in frame comes the number of the FRAME, counted from 1.
      Faults 2 to 6 name, after the word at, the number of the slice, but fault
      4 that of the tile. Both count from 0 from the frame's front.
       1  the chain is broken, has no slice, or more than there are tiles (also
          if a whole container is given instead of a frame)
       2  a slice is damaged, or is no slice of the recording
       3  a slice has a tile of one before it
       4  a tile is in no slice
       5  the frame is no keyframe, and a slice of it does not go on from the
          FRAME before (also if there is none)
       6  the samples of a slice can't be read (also if width or height is
          wrong, or a frame before it is left out)

The manual page has more: man ffv1restore.
";

/// What `version` prints: the program's version, and the kit whose prover proved it.
pub(crate) const VERSION: &str = "\
ffv1restore 0.2.0
proved with rattle-kit-13f
";
