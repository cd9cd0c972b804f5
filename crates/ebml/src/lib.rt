//! Elements of EBML files (RFC 8794): their heads, the children of a master, the items of a Matroska file, and the CRC-32 with which an
//! element may begin.
#![tactic(auto)]

mod children;
mod contents;
mod crc;
mod crc_element;
mod head;
mod items;
mod laws;
mod masters;
mod table;
mod vint;

pub use children::{Element, children_are_one, children_end, is_among, next_child, read_element};
pub use contents::{Content, contents_are_one, last_content, last_place, next_content};
pub use crc::{crc32, crc32_after};
pub use crc_element::{burst_seen_by_crc32, crc32_element, element_left, has_crc32, passes_crc32};
pub use head::{Head, read_head, read_head_at};
pub use items::{Item, Kind, count_items, next_item, next_known};
pub use laws::{
    cut_is_seen, heads_are_local, items_are_one, one_segment_has_items, whole_items_are_local,
};
pub use masters::{CLUSTER_IDS, child_ids};
pub use vint::{VintData, read_vint_data, unsigned};
