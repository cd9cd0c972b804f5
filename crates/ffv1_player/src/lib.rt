//! Frames of any recording of version 3, decoded one after the other, written as samples and reported in lines (RFC 9043, sections
//! 3.8.1.3, 3.8.2.4 and 4.4 to 4.9; own: what is printed).
#![tactic(auto)]

mod before;
mod drawn;
mod fault;
mod frame_lines;
mod player;
mod playing;
mod restored;
mod samples;
mod shown;
mod write;

pub use fault::{ContentFault, SamplesFault};
pub use player::{Player, frame_is_played, notions_are_of_players, played_frames_are_one};
pub use playing::{PlayFault, play_frames};
pub use restored::{AnyRestoration, any_restored};
pub use samples::{Samples, SliceEnd, count_of_planes, frame_in, rect_in};
pub use shown::{
    Shown, ShownTile, keyframe_is_shown, profile_is_shown_alike, show_holding,
    tiles_are_shown_alone,
};
pub use write::write_samples;
