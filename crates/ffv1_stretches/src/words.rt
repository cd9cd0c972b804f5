//! What the words of a line of the list say (own).
ghost use Rattle.std.specs.Prelude.{◌≡◌, ◌+◌, ◌↔◌, ℕ, List, Option, IsTrue, IfOk, MatchOption};
ghost use Rattle.std.specs.List.{AllZip};
ghost use Rattle.ffv1_weave.specs.References.{values_of};
ghost use Rattle.ffv1_mend.specs.declared.kind.Kind.{Kind};
ghost use Rattle.ffv1_mend.specs.declared.part.Part.{Part};
ghost use Rattle.ffv1_mend.specs.declared.part.Sort.{Sort};
ghost use Rattle.ffv1_texts.specs.Numbers.{IsNumber};
ghost use Rattle.ffv1_stretches.specs.Stretches.{StretchValue, HasPlace};
ghost use Rattle.ffv1_stretches.specs.Listed.{kind_word, sort_words, IsPlaceWord, AreStretchWords, end_of_parts};
ghost use Rattle.ffv1_stretches.specs.Inner.ListSteps.{IsStretchSize, BeginsPart, IsPartOf};

use crate::stretch::Stretch;
use ffv1_bits::PAYLOAD_LIMIT;
use ffv1_mend::{Kind, Part, Sort};
use ffv1_texts::read_number;
use std::alloc::{AllocError, Global};

/// How many bytes an element's own CRC-32 takes, which no part has.
const HEAD_LENGTH: usize = 6;

/// Whether two words are the same.
fn is_same(word: &[u8], other: &[u8]) -> bool
    ensures { IsTrue result ↔ (word.now ≡ other.now) }
{
    word == other
}

/// The kind that a word names.
fn read_kind(word: &[u8]) -> Option<Kind>
    ensures { MatchOption result ((kind : Kind) → word.now ≡ kind_word kind → ⊥) (λ kind. word.now ≡ kind_word kind) }
{
    if is_same(word, b"frame") {
        return Some(Kind::Frame);
    }
    if is_same(word, b"crc32") {
        return Some(Kind::Crc32);
    }
    if is_same(word, b"record") {
        return Some(Kind::Record);
    }
    if is_same(word, b"flac") {
        return Some(Kind::Flac);
    }
    if is_same(word, b"plain") {
        return Some(Kind::Plain);
    }
    None
}

/// The place that a word gives a copy, or that it has none.
fn read_place(word: &[u8]) -> Option<Option<u64>>
    ensures { MatchOption result ((place : Option ℕ) → IsPlaceWord word.now place → ⊥) (λ place. IsPlaceWord word.now place) }
{
    if is_same(word, b"-") {
        return Some(None);
    }
    match read_number(word) {
        Some(place) => Some(Some(place)),
        None => None,
    }
}

/// The places that words give copies.
fn read_places(alloc: Global, words: &[&[u8]]) -> Result<Option<Vec<Option<u64>>>, AllocError>
    ensures { IfOk result (λ found. MatchOption found
        ((places : List (Option ℕ)) → AllZip IsPlaceWord (values_of words.now) places → ⊥)
        (λ places. AllZip IsPlaceWord (values_of words.now) places.items)) }
{
    let mut places = Vec::with_capacity(alloc, words.len())?;
    for word in words {
        match read_place(word) {
            Some(place) => places.push(place)?,
            None => return Ok(None),
        }
    }
    Ok(Some(places))
}

/// The size that a word gives a stretch.
fn read_size(word: &[u8]) -> Option<usize>
    ensures { MatchOption result ((size : ℕ) → IsStretchSize word.now size → ⊥) (λ size. IsStretchSize word.now size) }
{
    let size = read_number(word)?;
    if size == 0 || size > PAYLOAD_LIMIT as u64 {
        return None;
    }
    Some(size as usize)
}

/// The number, counted from 0, of the copy FROM that a word gives, counted from 1, where it has a place.
fn read_from(word: &[u8], places: &[Option<u64>]) -> Option<usize>
    ensures { MatchOption result ((from : ℕ) → IsNumber word.now (from + 1) → HasPlace places.now from → ⊥)
        (λ from. IsNumber word.now (from + 1) × HasPlace places.now from) }
{
    let number = read_number(word)?;
    if number == 0 {
        return None;
    }
    let from = (number - 1) as usize;
    match places.get(from) {
        Some(Some(_)) => Some(from),
        _ => None,
    }
}

/// The stretch of so many copies that words are.
pub(crate) fn read_stretch(
    alloc: Global,
    words: &[&[u8]],
    copies: usize,
) -> Result<Option<Stretch>, AllocError>
    ensures { IfOk result (λ found. MatchOption found
        ((stretch : StretchValue) → AreStretchWords copies (values_of words.now) stretch → ⊥)
        (AreStretchWords copies (values_of words.now))) }
{
    let [kind, size, from, places @ ..] = words else {
        return Ok(None);
    };
    let (Some(kind), Some(size)) = (read_kind(kind), read_size(size)) else {
        return Ok(None);
    };
    let Some(places) = read_places(alloc, places)? else {
        return Ok(None);
    };
    let Some(from) = read_from(from, places.as_slice()) else {
        return Ok(None);
    };
    if places.len() != copies {
        return Ok(None);
    }
    Ok(Some(Stretch {
        kind,
        size,
        from,
        places,
        parts: Vec::new(alloc),
    }))
}

/// Whether words begin with that of a part.
pub(crate) fn begins_part(words: &[&[u8]]) -> bool
    ensures { IsTrue result ↔ BeginsPart (values_of words.now) }
{
    match words {
        [first, ..] => is_same(first, b"part"),
        [] => false,
    }
}

/// Where the last part of an element ends; after its own CRC-32 where it has none.
fn end_of_parts(parts: &[Part]) -> usize
    ensures { result ≡ end_of_parts parts.now }
{
    match parts.last() {
        Some(part) => part.end,
        None => HEAD_LENGTH,
    }
}

/// What a part is, by the words after its place and its size.
fn read_sort(words: &[&[u8]]) -> Option<Sort>
    ensures { MatchOption result ((sort : Sort) → values_of words.now ≡ sort_words sort → ⊥)
        (λ sort. values_of words.now ≡ sort_words sort) }
{
    match words {
        [] => Some(Sort::Frame),
        [word] if is_same(word, b"flac") => Some(Sort::Flac),
        _ => None,
    }
}

/// The part that words are, where it follows those of a stretch and lies within it.
pub(crate) fn next_part(words: &[&[u8]], stretch: &Stretch) -> Option<Part>
    ensures { MatchOption result ((part : Part) → IsPartOf (values_of words.now) stretch.now part → ⊥)
        (IsPartOf (values_of words.now) stretch.now) }
{
    let [first, start, size, sort @ ..] = words else {
        return None;
    };
    if stretch.kind != Kind::Crc32 || !is_same(first, b"part") {
        return None;
    }
    let (start, size, sort) = (read_number(start)?, read_number(size)?, read_sort(sort)?);
    let (start, size) = (start as usize, size as usize);
    if size == 0 || start < end_of_parts(stretch.parts.as_slice()) {
        return None;
    }
    if start > stretch.size || size > stretch.size - start {
        return None;
    }
    Some(Part {
        start,
        end: start + size,
        sort,
    })
}
