//! How the bytes of a range stand as a frame payload (RFC 9043, section 4.9).
ghost use Rattle.std.specs.Prelude.{◌≡◌, ◌++◌, OnOk, string_bytes};
ghost use Rattle.ffv1_scan.specs.Verdicts.{is_passing, IsVerdictOf, is_undamaged, verdict_line};

use ffv1_slice::{Chain, ChainEnd, FOOTER_LENGTH, Link, next_link};
use std::alloc::AllocError;

/// How the bytes of a range stand.
#[derive(Clone, Copy, Debug, PartialEq, Eq)]
pub struct Verdict {
    /// How many links they have, from their end.
    pub links: usize,
    /// How many of the links have content before their footer and pass their parity.
    pub passing: usize,
    /// How their chain ends.
    pub end: ChainEnd,
}

impl Verdict {
    /// Whether the range is whole, has a link, and all its links pass.
    pub fn is_undamaged(&self) -> bool
        ensures { result ≡ is_undamaged self.now }
    {
        self.end == ChainEnd::Whole && self.links > 0 && self.passing == self.links
    }
}

/// Judges the bytes of a range by themselves. Any bytes can be judged; no memory is taken.
pub fn judge(bytes: &[u8]) -> Verdict
    ensures { IsVerdictOf bytes.now result }
{
    let mut chain = Chain::new(bytes);
    let end = chain.end();
    let mut links = 0;
    let mut passing = 0;
    while let Some(link) = next_link(&mut chain) {
        links += 1;
        if is_passing(&link) {
            passing += 1;
        }
    }
    Verdict {
        links,
        passing,
        end,
    }
}

/// Whether a link has content before its footer, and passes its parity.
pub fn is_passing(link: &Link<'_>) -> bool
    ensures { result ≡ is_passing link.now }
{
    link.bytes().len() > FOOTER_LENGTH && link.passes()
}

/// Adds the line of the range with this number.
pub(crate) fn push_line(
    text: &mut String,
    number: usize,
    verdict: &Verdict,
) -> Result<(), AllocError>
    ensures { OnOk result (string_bytes text.new ≡ string_bytes text.old ++ verdict_line number verdict.now) }
{
    let (links, passing) = (verdict.links, verdict.passing);
    write!(text, "range {number} links {links} pass {passing}")?;
    match verdict.end {
        ChainEnd::Whole => writeln!(text, " whole"),
        ChainEnd::Broken(place) => writeln!(text, " broken at {place}"),
    }
}
