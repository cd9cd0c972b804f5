//! The way from copies to a frame or a file by commands, whatever their order (own), as contracts of functions that do nothing.
ghost use Rattle.ffv1_commands.specs.Commands.{MadeOfCopies, SameCopiesMakeOneFile, SameCopiesMakeOneHolding, SameCopiesMakeOneReport, CommandsRestoreTheOriginal, CommandsRestoreNearCopies, CommandsShowTheOriginal, CommandsShowNearCopies};
ghost use Rattle.ffv1_commands.specs.AnyPictureLaws.{AnyPictureShowsTheOriginal, AnyPictureShowsNearCopies, AnyPictureShowsTheKeyframe, PicturesAreAlike};
ghost use Rattle.ffv1_commands.specs.SmallCommands.{CommandsRestoreByAFunction};
ghost use Rattle.ffv1_commands.specs.SmallSplices.{TrueIsSpliced, SettledIsMade};
ghost use Rattle.ffv1_commands.specs.SmallMends.{TrueIsGood};
ghost use Rattle.ffv1_commands.specs.MendLaws.{ListedIsMade, AnyOrderMakesOneFile, TrueIsVouched, MendGivesTheOriginal};
ghost use Rattle.ffv1_commands.specs.UnreadLaws.{UnreadIsGivenUp, LongCopyIsGivenUp};
ghost use Rattle.ffv1_commands.specs.SpliceLaws.{SameCopiesMakeOneSplice, SpliceGivesTheOriginal, SpliceGivesNearCopies, SpliceGivesWovenCopies, SpliceGivesNearWovenCopies, TrueIsWhole};

/// Whatever trees of `take`, `join` and `merge` lead from copies to a holding file, for one record and size, of recordings of the profile
/// or of any: the file is that of the holding of just what is found in the copies, by the record's own rules where each slice is one by these.
/// However the same copies are ordered, grouped or repeated, the files are equal byte for byte, what is read of them is equal in every tile
/// and origin, and their reports are equal. So it is of a tree for the profile and one for any recording, if both find the same in the copies.
pub fn same_copies_make_one_file()
    ensures made { MadeOfCopies }
    ensures file { SameCopiesMakeOneFile }
    ensures holding { SameCopiesMakeOneHolding }
    ensures report { SameCopiesMakeOneReport }
{}

/// Whatever trees of `take`, `join` and `merge` lead from copies to a holding file, for one record and size: where
/// every slice found in the copies is the original's for its tile, and each tile's is found in some copy, `restore`
/// of the file writes the original byte for byte, or is refused because reading, writing or memory failed. Of any recording the original may be of
/// a frame between keyframes. Of a recording of the profile `picture` of the file shows what the original's slices spell. So it is where all
/// copies differ from the original only within 32 bits of each slice, its size field undamaged, and each of its slices is intact in one of them.
pub fn commands_restore_the_original()
    ensures original { CommandsRestoreTheOriginal }
    ensures near { CommandsRestoreNearCopies }
    ensures shows { CommandsShowTheOriginal }
    ensures shows_near { CommandsShowNearCopies }
{}

/// Whatever trees of `take --any`, `join --any` and `merge --any` lead from copies to a holding file, for one record and size: where every slice
/// found in the copies is the original's for its tile, and each tile's is found in some copy, `picture --any` of the file writes the samples of
/// just the pictures that the original's slices have as those of a keyframe, and of none if the first says that the frame is no keyframe; or it
/// is refused because reading, writing or memory failed. It returns whether each slice has a picture and ends as an encoder ends it. So it is
/// of near copies, with each slice intact in one of them. Where `Player::decode` of the original after no frame gives a frame, the samples
/// written are that frame's.
pub fn any_picture_shows_the_original()
    ensures original { AnyPictureShowsTheOriginal }
    ensures near { AnyPictureShowsNearCopies }
    ensures keyframe { AnyPictureShowsTheKeyframe }
{}

/// Of one holding file of the profile `picture` and `picture --any` write the same bytes: each tile that the one shows the other shows too.
pub fn pictures_are_alike()
    ensures { PicturesAreAlike }
{}

/// Of a record and a size some function gives contents their tiles, and there is a number of tiles, such that whatever trees of `take`, `join`
/// and `merge` lead from copies to a holding file, what `restore` writes of it is what is restored from the copies by them, byte for byte;
/// and where a payload is restored from the copies, it is refused only as reading, writing or memory failed.
pub fn commands_restore_by_a_function()
    ensures { CommandsRestoreByAFunction }
{}

/// However the same copies are ordered or repeated, `splice` writes the same file, prints the same lines and returns the
/// same.
pub fn same_copies_make_one_splice()
    ensures { SameCopiesMakeOneSplice }
{}

/// Where each slice with content that passes its parity and ends at an end of an original is the original's there, and
/// each of the original's slices is found so in some copy, `splice` writes the original byte for byte, prints that each
/// of its slices is settled, and returns `true`; or it is refused because reading, writing or memory failed. So it is where all
/// copies differ from the original only within 32 bits of each slice, its size field undamaged, and each of its slices is
/// intact in one of them.
pub fn splice_gives_the_original()
    ensures original { SpliceGivesTheOriginal }
    ensures near { SpliceGivesNearCopies }
{}

/// Where some of the original's slices are intact in no copy, but a footer of some copy claims the start of each, and
/// each is among the combinations that are tried there (so it is where each region in which the copies differ is intact
/// in some copy; and where each byte is, and there are at most 4096 combinations at distance 0): where `splice` returns
/// `true`, what it wrote is the original byte for byte; and it is refused only because reading, writing or memory failed. Of
/// near copies the starts need not be asked for.
pub fn splice_weaves_the_original()
    ensures original { SpliceGivesWovenCopies }
    ensures near { SpliceGivesNearWovenCopies }
{}

/// Where `splice` returns `true`, what it wrote is a whole frame: by its own footers its chain is whole, and each of its
/// slices has content and passes its parity.
pub fn splice_reports_whole_frames()
    ensures { TrueIsWhole }
{}

/// Where `splice` returns `true`, what it wrote is spliced from the copies, as the small definitions have it; and where an original is settled
/// from the copies, `splice` writes it byte for byte and returns `true`. By `true_splices_are_the_original` what is spliced is the
/// original where no piece contradicts it and each of its slices is within reach, and near copies settle it where each is a piece.
pub fn splice_makes_what_is_spliced()
    ensures spliced { TrueIsSpliced }
    ensures settled { SettledIsMade }
{}

/// What `mend` makes is what becomes of the stretches that the list lists, and nothing else: OUT is their bytes, one after the other, the
/// lines are theirs, and it returns whether each is whole, woven or agreed. What stands in a copy after its last stretch changes
/// nothing.
pub fn mend_makes_what_is_listed()
    ensures { ListedIsMade }
{}

/// However the copies are ordered, and the places and the copy FROM of each line with them, `mend` makes the same file, returns the
/// same, and the same becomes of each stretch.
pub fn any_order_makes_one_file()
    ensures { AnyOrderMakesOneFile }
{}

/// Where `mend` returns `true`, what becomes of each stretch is vouched for, and so each byte of OUT lies in a stretch that passes its
/// checksum, or that two copies at least have alike: an element passes its CRC-32, a Configuration Record its parity, a frame of FLAC its
/// CRC-8 and its CRC-16; the chain of a frame of FFV1 is whole, and each of its slices passes its parity; and bytes without a checksum are what two copies at least have, and every copy that has them.
pub fn mend_claims_what_is_vouched()
    ensures { TrueIsVouched }
{}

/// Where the original of each stretch is known again, and `mend` returns `true`, what it wrote is the originals, one after the other; and
/// it is refused only because reading, writing or memory failed. An original is known again so: that of an element passes its CRC-32, no
/// version that passes differs from it, and it is among the combinations that are tried of the improved versions; so it is of a record, of
/// its versions as they are; that of a frame of FLAC passes, and no version that passes differs from it; no slice of a version of a frame of
/// FFV1 that passes its parity differs from the original's, and the versions can be woven; and some version of bytes without a checksum has
/// them.
pub fn mend_gives_the_original()
    ensures { MendGivesTheOriginal }
{}

/// Where `mend` returns `true`, what it wrote is the bytes of the stretches, one after the other, and each is good as the small definitions
/// have it. By `good_is_the_original` such a stretch is the original that is known again.
pub fn mend_makes_what_is_good()
    ensures { TrueIsGood }
{}

/// An input of at most 2^30 bytes that is read whole, as a record, a list, a copy for `splice` or a frame of `samples`, is reported as unread
/// only if its source was given up. So is a copy that `mend` reads by a list, if it is as long as the list asks: a shorter one ends within a
/// stretch, and no device is at fault.
pub fn unread_files_were_given_up()
    ensures within_limit { UnreadIsGivenUp }
    ensures long_enough { LongCopyIsGivenUp }
{}
