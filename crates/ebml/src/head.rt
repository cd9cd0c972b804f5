//! Heads of elements: an Element ID and an Element Data Size (RFC 8794, sections 5 and 6).
ghost use Rattle.std.specs.Prelude.{◌≡◌, ◌==◌, ◌+◌, ◌-◌, ◌≤◌, if◌then◌else◌, length, drop, IfSome, Some, None};
ghost use Rattle.ebml.specs.Vint.{marker};
ghost use Rattle.ebml.specs.Head.{HasHead};
ghost use Rattle.ebml.specs.declared.head.Head.{Head};

use crate::vint::read_vint;

/// How many octets an Element ID has at most.
const ID_LENGTH: usize = 4;

/// How many an Element Data Size has.
const SIZE_LENGTH: usize = 8;

/// What begins an element: its ID with the marker, its size where it is known, and how many bytes both have.
#[derive(Clone, Copy, Debug, PartialEq, Eq)]
pub struct Head {
    pub id: u32,
    pub size: Option<u64>,
    pub length: usize,
}

/// The head that begins the bytes. `None` if none does, or the bytes end within it.
pub fn read_head(bytes: &[u8]) -> Option<Head>
    ensures found { IfSome result (λ head. HasHead bytes.now head) }
    ensures only { (head : Head) → HasHead bytes.now head → result ≡ Some head }
{
    let Some(id) = read_vint(bytes, ID_LENGTH) else {
        return None;
    };
    let Some(size) = read_vint(&bytes[id.length..], SIZE_LENGTH) else {
        return None;
    };
    Some(Head {
        id: id.number as u32,
        size: data_size(size.number, size.length),
        length: id.length + size.length,
    })
}

/// The head at a place, which is within the bytes or at their end.
pub fn read_head_at(bytes: &[u8], place: usize) -> Option<Head>
    requires { place ≤ length bytes.now }
    ensures found { IfSome result (λ head. HasHead (drop place bytes.now) head) }
    ensures only { (head : Head) → HasHead (drop place bytes.now) head → result ≡ Some head }
{
    read_head(&bytes[place..])
}

/// The size that a Variable-Size Integer gives; all ones after the marker say that it is not known.
fn data_size(number: u64, length: usize) -> Option<u64>
    requires short { length ≤ 8 }
    requires marked { marker length ≤ number }
    ensures { result ≡ (if number - marker length + 1 == marker length then None else Some (number - marker length)) }
{
    let marker = 1u64 << (7 * length);
    let data = number - marker;
    if data == marker - 1 { None } else { Some(data) }
}
