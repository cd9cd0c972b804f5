//! The contents of elements that follow each other, by ID.
ghost use Rattle.std.specs.Prelude.{ℕ, ◌+◌, ◌-◌, ◌≡◌, ◌≤◌, ◌<◌, List, [], ◌∷◌, length, IfSome, IfNone, option_map};
ghost use Rattle.std.specs.Option.{option_copied};
ghost use Rattle.ebml.specs.Contents.{AreContents, OfLast, PlacedBytes, AreContentsAt, OfLastPlaced, place_in, ContentsAreOne};

use crate::children::read_element;

/// What an element has after its head, where that begins in the bytes that were searched, and the bytes that follow the element.
#[derive(Clone, Copy, Debug)]
pub struct Content<'a> {
    pub place: usize,
    pub bytes: &'a [u8],
    pub rest: &'a [u8],
}

/// The content of the first element with this ID, among the elements that follow each other from the start of the bytes. `None` where none
/// of them has it.
pub fn next_content<'a>(id: u32, bytes: &'a [u8]) -> Option<Content<'a>>
    ensures found { IfSome result (λ found. (contents : List (List ℕ)) → AreContents id found.rest.now contents
        → AreContents id bytes.now (found.bytes.now ∷ contents)) }
    ensures placed { IfSome result (λ found. (from : ℕ) (placed : List PlacedBytes)
        → AreContentsAt id (from + (length bytes.now - length found.rest.now)) found.rest.now placed
        → AreContentsAt id from bytes.now (record { place = from + found.place; bytes = found.bytes.now } ∷ placed)) }
    ensures within { IfSome result (λ found. found.place + length found.rest.now ≤ length bytes.now) }
    ensures shorter { IfSome result (λ found. length found.rest.now < length bytes.now) }
    ensures none { IfNone result (AreContents id bytes.now []) }
{
    let mut left = bytes;
    while let Some(element) = read_element(left) {
        let (front, rest) = left.split_at(element.length);
        if element.head.id == id {
            let place = bytes.len() - left.len() + element.head.length;
            let bytes = &front[element.head.length..];
            return Some(Content { place, bytes, rest });
        }
        left = rest;
    }
    None
}

/// The content of the last element with this ID, among those that follow each other from the start of the bytes.
pub fn last_content<'a>(id: u32, bytes: &'a [u8]) -> Option<&'a [u8]>
    ensures { OfLast id bytes.now (λ last. option_copied result ≡ last) }
{
    let mut last = None;
    let mut left = bytes;
    while let Some(content) = next_content(id, left) {
        last = Some(content.bytes);
        left = content.rest;
    }
    last
}

/// Where the content of the last element with this ID begins, among those that follow each other from the start of the bytes. `None` where
/// none of them has it.
pub fn last_place(id: u32, bytes: &[u8]) -> Option<usize>
    ensures place { (from : ℕ) → OfLastPlaced id from bytes.now (λ last. option_map (λ place. from + place) result ≡ place_in last) }
    ensures within { IfSome result (λ place. place ≤ length bytes.now) }
{
    let mut last = None;
    let mut left = bytes;
    while let Some(content) = next_content(id, left) {
        last = Some(bytes.len() - left.len() + content.place);
        left = content.rest;
    }
    last
}

/// The contents of the elements with one ID are one list.
pub fn contents_are_one()
    ensures { ContentsAreOne }
{}
