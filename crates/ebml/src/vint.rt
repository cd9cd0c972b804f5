//! Variable-Size Integers (RFC 8794, section 4).
ghost use Rattle.std.specs.Prelude.{◌≡◌, ◌+◌, ◌-◌, ◌^◌, ◌≤◌, ◌<◌, ◌⊎◌, IfSome, Some, length};
ghost use Rattle.ebml.specs.Vint.{number_of, HasData};
ghost use Rattle.ebml.specs.Contents.{unsigned_of};
ghost use Rattle.ebml.specs.Inner.Front.{HasVint, IsLengthBy};
ghost use Rattle.ebml.specs.declared.vint.Vint.{Vint};
ghost use Rattle.ebml.specs.declared.vint.VintData.{VintData};

/// How many octets a number has at most.
const MOST_OCTETS: usize = 8;

/// What one gives: how many octets it has, and the number after its marker.
#[derive(Clone, Copy, Debug, PartialEq, Eq)]
pub struct VintData {
    pub value: u64,
    pub length: usize,
}

/// One as it stands: how many octets it has, and all of them as a number, with the marker.
#[derive(Clone, Copy, Debug, PartialEq, Eq)]
pub(crate) struct Vint {
    pub(crate) number: u64,
    pub(crate) length: usize,
}

/// The Variable-Size Integer that begins the bytes, if it has at most so many octets.
pub(crate) fn read_vint(bytes: &[u8], most: usize) -> Option<Vint>
    requires { most ≤ 8 }
    ensures found { IfSome result (λ vint. HasVint bytes.now most vint) }
    ensures only { (vint : Vint) → HasVint bytes.now most vint → result ≡ Some vint }
{
    let [first, ..] = bytes else {
        return None;
    };
    let length = length_by(*first);
    if length > most || length > bytes.len() {
        return None;
    }
    let number = number_of(&bytes[..length]);
    Some(Vint { number, length })
}

/// The Variable-Size Integer of at most 8 octets that begins the bytes, as a number without its marker. `None` if none does, or the bytes end
/// within it.
pub fn read_vint_data(bytes: &[u8]) -> Option<VintData>
    ensures found { IfSome result (λ found. HasData bytes.now found) }
    ensures only { (found : VintData) → HasData bytes.now found → result ≡ Some found }
{
    let Some(vint) = read_vint(bytes, MOST_OCTETS) else {
        return None;
    };
    Some(VintData {
        value: vint.number - (1u64 << (7 * vint.length)),
        length: vint.length,
    })
}

/// The value of an Unsigned Integer Element with this content (RFC 8794, section 7.2): the bytes as a number, the highest first; 0 where they
/// are more than 8.
pub fn unsigned(content: &[u8]) -> u64
    ensures { result ≡ unsigned_of content.now }
{
    if content.len() > MOST_OCTETS {
        return 0;
    }
    number_of(content)
}

/// How many octets one has by its first: the place of that octet's first 1 bit, from 1 on; 9 if it has none.
fn length_by(first: u8) -> usize
    ensures { IsLengthBy first result }
{
    match first {
        0x80..=0xFF => 1,
        0x40..=0x7F => 2,
        0x20..=0x3F => 3,
        0x10..=0x1F => 4,
        0x08..=0x0F => 5,
        0x04..=0x07 => 6,
        0x02..=0x03 => 7,
        0x01 => 8,
        0x00 => 9,
    }
}

/// Bytes as a number, the highest first.
fn number_of(bytes: &[u8]) -> u64
    requires { length bytes.now ≤ 8 }
    ensures { result ≡ number_of bytes.now }
{
    let mut number: u64 = 0;
    for byte in bytes {
        number = number * 256 + u64::from(*byte);
    }
    number
}
