//! The children of a master: elements that follow each other from the start of its content.
ghost use Rattle.std.specs.Prelude.{ℕ, ◌≡◌, ◌↔◌, IsTrue, ◌≤◌, ◌<◌, List, length, take, drop, Contains, IfSome, IfNone};
ghost use Rattle.ebml.specs.declared.head.Head.{Head};
ghost use Rattle.ebml.specs.Children.{IsElement, BeginsNoChild, AreChildren, ChildrenAreOne};

use crate::head::{Head, read_head};

/// An element at the start of bytes: its head, and how many bytes it has with that.
#[derive(Clone, Copy, Debug, PartialEq, Eq)]
pub struct Element {
    pub head: Head,
    pub length: usize,
}

/// The element that begins the bytes, if it ends within them.
pub fn read_element(bytes: &[u8]) -> Option<Element>
    ensures found { IfSome result (λ element. (element.length ≤ length bytes.now) × IsElement element.head (take element.length bytes.now)) }
    ensures none { IfNone result ((n : ℕ) (head : Head) → IsElement head (take n bytes.now) → ⊥) }
{
    let Some(head) = read_head(bytes) else {
        return None;
    };
    let Some(size) = head.size else {
        return None;
    };
    let left = (bytes.len() - head.length) as u64;
    if size > left {
        return None;
    }
    let length = head.length + size as usize;
    Some(Element { head, length })
}

/// The child that begins the bytes: an element with one of these IDs, which ends within them.
pub fn next_child(ids: &[u32], bytes: &[u8]) -> Option<Element>
    ensures within { IfSome result (λ child. child.length ≤ length bytes.now) }
    ensures some { IfSome result (λ child. 0 < child.length) }
    ensures found { IfSome result (λ child. IsElement child.head (take child.length bytes.now)) }
    ensures known { IfSome result (λ child. Contains ids.now child.head.id) }
    ensures none { IfNone result (BeginsNoChild ids.now bytes.now) }
{
    let Some(element) = read_element(bytes) else {
        return None;
    };
    if !is_among(ids, element.head.id) {
        return None;
    }
    Some(element)
}

/// Whether an ID is one of these.
pub fn is_among(ids: &[u32], id: u32) -> bool
    ensures { IsTrue result ↔ Contains ids.now id }
{
    ids.contains(&id)
}

/// How many bytes of a master's content its children have, which follow each other from its start.
pub fn children_end(ids: &[u32], content: &[u8]) -> usize
    ensures within { result ≤ length content.now }
    ensures are { (children : List (List ℕ)) × AreChildren ids.now content.now children (drop result content.now) }
{
    let mut place = 0;
    while let Some(child) = next_child(ids, &content[place..]) {
        place += child.length;
    }
    place
}

/// The children of a content are one list.
pub fn children_are_one()
    ensures { ChildrenAreOne }
{}
