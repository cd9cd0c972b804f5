//! The items of a Matroska file: what its top and its Segment have, in one list, from its first byte to its last.
ghost use Rattle.std.specs.Prelude.{ℕ, ◌≡◌, ◌≤◌, ◌<◌, ◌↔◌, ◌++◌, IsTrue, IfSome, List, length, take, drop};
ghost use Rattle.ebml.specs.Head.{HasHead};
ghost use Rattle.ebml.specs.Items.{IsTop, IsSized, IsItem, BeginsKnown, ItemValue, AreItems};
ghost use Rattle.ebml.specs.declared.items.Kind.{Kind};
ghost use Rattle.ebml.specs.declared.head.Head.{Head};

use crate::children::{children_end, is_among};
use crate::head::{Head, read_head};
use crate::masters::{
    ATTACHMENTS, CHAPTERS, CLUSTER, CLUSTER_IDS, CUES, EBML, INFO, SEEK_HEAD, SEGMENT, TAGS,
    TRACKS, VOID,
};

/// The known IDs: Void, EBML, Segment, SeekHead, Info, Tracks, Cues, Cluster, Attachments, Chapters, Tags.
const TOP_IDS: [u32; 11] = [
    VOID,
    EBML,
    SEGMENT,
    SEEK_HEAD,
    INFO,
    TRACKS,
    CUES,
    CLUSTER,
    ATTACHMENTS,
    CHAPTERS,
    TAGS,
];

/// Those of four octets.
const LONG_IDS: [u32; 10] = [
    EBML,
    SEGMENT,
    SEEK_HEAD,
    INFO,
    TRACKS,
    CUES,
    CLUSTER,
    ATTACHMENTS,
    CHAPTERS,
    TAGS,
];

/// What an item is.
#[derive(Clone, Copy, Debug, PartialEq, Eq)]
pub enum Kind {
    /// The head of a Segment.
    Segment(Head),
    /// An element of known size, as far as it is there.
    Element(Head),
    /// A Cluster of unknown size, with the children that follow its head.
    Endless(Head),
    /// What no element covers.
    Unknown,
}

/// An item at the start of bytes: what it is, and how many bytes it has.
#[derive(Clone, Copy, Debug, PartialEq, Eq)]
pub struct Item {
    pub kind: Kind,
    pub length: usize,
}

/// The item that begins the bytes, which go to the end of the file.
pub fn next_item(bytes: &[u8]) -> Item
    requires { 0 < length bytes.now }
    ensures some { 0 < result.length }
    ensures within { result.length ≤ length bytes.now }
    ensures is { IsItem result.kind (take result.length bytes.now) (drop result.length bytes.now) }
    ensures only { (kind : Kind) (item following : List ℕ) → bytes.now ≡ item ++ following → IsItem kind item following
        → (kind ≡ result.kind) × (item ≡ take result.length bytes.now) }
{
    item_of(read_head(bytes), bytes)
}

/// How many items a file has.
pub fn count_items(file: &[u8]) -> usize
    ensures { (items : List ItemValue) × AreItems file.now items × (result ≡ length items) }
{
    let mut place = 0;
    let mut count = 0;
    while place < file.len() {
        let item = next_item(&file[place..]);
        place += item.length;
        count += 1;
    }
    count
}

/// The item that begins the bytes, by the head that does.
fn item_of(head: Option<Head>, bytes: &[u8]) -> Item
    requires some { 0 < length bytes.now }
    requires found { IfSome head (λ head. HasHead bytes.now head) }
    requires only { (other : Head) → HasHead bytes.now other → head ≡ Some other }
    ensures within { result.length ≤ length bytes.now }
    ensures is { IsItem result.kind (take result.length bytes.now) (drop result.length bytes.now) }
{
    let Some(head) = head else {
        return unknown_item(bytes);
    };
    if !is_top(&head) {
        return unknown_item(bytes);
    }
    headed_item(head, bytes)
}

/// Whether a head is one at the top.
fn is_top(head: &Head) -> bool
    ensures { IsTrue result ↔ IsTop head.now }
{
    is_among(&TOP_IDS, head.id) && is_sized(head)
}

/// Whether its size is known, or need not be.
fn is_sized(head: &Head) -> bool
    ensures { IsTrue result ↔ IsSized head.now }
{
    match head.size {
        Some(_) => true,
        None => head.id == SEGMENT || head.id == CLUSTER,
    }
}

/// The item that begins with this head.
fn headed_item(head: Head, bytes: &[u8]) -> Item
    requires top { IsTop head }
    requires has { HasHead bytes.now head }
    ensures within { result.length ≤ length bytes.now }
    ensures is { IsItem result.kind (take result.length bytes.now) (drop result.length bytes.now) }
{
    let left = bytes.len() - head.length;
    if head.id == SEGMENT {
        return Item {
            kind: Kind::Segment(head),
            length: head.length,
        };
    }
    match head.size {
        Some(size) => Item {
            kind: Kind::Element(head),
            length: head.length + size.min(left as u64) as usize,
        },
        None => Item {
            kind: Kind::Endless(head),
            length: head.length + children_end(&CLUSTER_IDS, &bytes[head.length..]),
        },
    }
}

/// The item that begins the bytes where no head at the top does.
fn unknown_item(bytes: &[u8]) -> Item
    requires some { 0 < length bytes.now }
    requires no_element { (head : Head) → IsTop head → HasHead bytes.now head → ⊥ }
    ensures within { result.length ≤ length bytes.now }
    ensures is { IsItem result.kind (take result.length bytes.now) (drop result.length bytes.now) }
{
    Item {
        kind: Kind::Unknown,
        length: next_known(bytes),
    }
}

/// The next place from 1 on at which the four bytes of a known ID of the top stand, or the end: so far an unknown item goes. Of bytes that are
/// read in pieces, the last four are searched again with those that follow them.
pub fn next_known(bytes: &[u8]) -> usize
    requires { 0 < length bytes.now }
    ensures some { 0 < result }
    ensures within { result ≤ length bytes.now }
    ensures none { (place : ℕ) → 0 < place → place < result → BeginsKnown (drop place bytes.now) → ⊥ }
    ensures there { result < length bytes.now → BeginsKnown (drop result bytes.now) }
{
    for place in 1..bytes.len() {
        if begins_known(&bytes[place..]) {
            return place;
        }
    }
    bytes.len()
}

/// Whether the four bytes of a known ID begin the bytes.
fn begins_known(bytes: &[u8]) -> bool
    ensures { IsTrue result ↔ BeginsKnown bytes.now }
{
    let [a, b, c, d, ..] = bytes else {
        return false;
    };
    is_among(&LONG_IDS, u32::from_be_bytes([*a, *b, *c, *d]))
}
