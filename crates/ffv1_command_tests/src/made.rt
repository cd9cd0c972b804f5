//! The frames of `tests/made`, which FFmpeg's decoder reads too: the makers make them as they are stored.
use crate::suite::{Made, asked_samples, frame_of};
use ffv1_vectors::{SuiteCase, SuiteContent, SuiteTables};
use sha2::{Digest, Sha256};
use std::alloc::Global;

/// A case whose frame is stored, and the SHA-256 digest of its record, payload and planes, one after the other.
type Stored = (
    SuiteTables,
    Option<(u32, u32)>,
    (u32, u32),
    SuiteContent,
    (u32, u32),
    &'static str,
);

static STORED: [Stored; 19] = [
    (
        SuiteTables::OneRun,
        None,
        (1, 1),
        SuiteContent::Flat,
        (64, 64),
        "2f98ee3d1fb0ce682a9fbfb9ab94a33aa48535fbdb837cda5e57972b465cdebe",
    ),
    (
        SuiteTables::SixRuns,
        None,
        (2, 2),
        SuiteContent::Rising,
        (64, 64),
        "7b0f72afdac25049e89bab5b85c5d848a14d48e19804da8d108e90dfcba58070",
    ),
    (
        SuiteTables::TwoRuns,
        None,
        (3, 2),
        SuiteContent::Alternating,
        (64, 64),
        "7266c37e486871dba580385b90d832db1a4a50c4ef58caed1762f00f1b3c2fb3",
    ),
    (
        SuiteTables::SixRuns,
        None,
        (3, 2),
        SuiteContent::Alternating,
        (64, 7),
        "3e77e77673e775d47ef36a3c06e5b8cce07a0782483219cc6581951157a90f62",
    ),
    (
        SuiteTables::OneRun,
        None,
        (2, 2),
        SuiteContent::Rising,
        (7, 64),
        "d179e1180eb5d7854425a2aeb529bbf8f386dd618ce4dc721b0180af8bea4e70",
    ),
    (
        SuiteTables::TwoRuns,
        None,
        (3, 2),
        SuiteContent::Rising,
        (7, 2),
        "615debaf4cb5d3b564be701ea17be2e49d09a9ab8e1556331317c77db91fc76a",
    ),
    (
        SuiteTables::SixRuns,
        Some((0, 0)),
        (1, 1),
        SuiteContent::Alternating,
        (64, 64),
        "cac2e88f81cc83582a86ce467d0718abc5e465f82636fd6ef7f642e10bb90f78",
    ),
    (
        SuiteTables::OneRun,
        Some((0, 0)),
        (3, 2),
        SuiteContent::Rising,
        (64, 64),
        "3e39d2ddabe5426dc22527755b32eeb6ecdfeee8efcc513a17f406664f71965d",
    ),
    (
        SuiteTables::TwoRuns,
        Some((0, 0)),
        (2, 2),
        SuiteContent::Flat,
        (7, 64),
        "695bcef521101d8c4781e0ecb100fe2971169cb7078ec9f6fafb8649ad773afc",
    ),
    (
        SuiteTables::TwoRuns,
        Some((1, 0)),
        (2, 2),
        SuiteContent::Rising,
        (64, 64),
        "f2ac94cedb784ac0fb31e04a013ea3a4dfe7304a770dd893ce8aba5e7afc5325",
    ),
    (
        SuiteTables::SixRuns,
        Some((1, 0)),
        (3, 2),
        SuiteContent::Flat,
        (64, 64),
        "e8e5a4e99f7d5b06b86588c158a8cefd0750fa2122283c7a4e2315363a0c3127",
    ),
    (
        SuiteTables::OneRun,
        Some((1, 0)),
        (1, 1),
        SuiteContent::Alternating,
        (64, 7),
        "f744cc5ee5c4d787e7a90bbcbb6360a91585c92a9c9781b3d554278f13b66863",
    ),
    (
        SuiteTables::SixRuns,
        Some((1, 1)),
        (2, 2),
        SuiteContent::Rising,
        (64, 64),
        "80ad2ab9018435eae4cecea1194f5610ec58ee34d5c7fd49c2c0b07b1a9ff173",
    ),
    (
        SuiteTables::TwoRuns,
        Some((1, 1)),
        (1, 1),
        SuiteContent::Flat,
        (64, 64),
        "9b8c6f0141a0081398b329362d77680db75b3937d96135b2e2a633fc10282e50",
    ),
    (
        SuiteTables::OneRun,
        Some((1, 1)),
        (3, 2),
        SuiteContent::Alternating,
        (7, 64),
        "507296ceb6a01823403c9a14533c555f39381967e94b1f439087bceb54907ba0",
    ),
    (
        SuiteTables::SixRuns,
        Some((1, 1)),
        (1, 1),
        SuiteContent::Rising,
        (7, 7),
        "ac3644918e8b319d8bc0be0ae996d04fb536b11bed7ddf78b8b9f899bebf88c2",
    ),
    (
        SuiteTables::OneRun,
        Some((2, 2)),
        (2, 2),
        SuiteContent::Alternating,
        (64, 64),
        "673c4ffe2ee50975e435f0e0b96524bab0046831b9a24ffd8cac458a3d4e0782",
    ),
    (
        SuiteTables::TwoRuns,
        Some((2, 2)),
        (3, 2),
        SuiteContent::Rising,
        (64, 64),
        "14777be0751f47a31aba86ae1ab04024144a8dd52b1414adbc90968759d53fcb",
    ),
    (
        SuiteTables::SixRuns,
        Some((2, 2)),
        (1, 1),
        SuiteContent::Rising,
        (64, 7),
        "45746421c65334a07fb645aad64d14c7deecb5914d5cf5650018d717213adc84",
    ),
];

/// Whether bytes are what these digits say.
fn are_digits_of(alloc: Global, bytes: &[u8], digits: &str) -> bool {
    let mut text = String::new(alloc);
    for byte in bytes {
        if write!(text, "{byte:02x}").is_err() {
            return false;
        }
    }
    text.as_str() == digits
}

/// The SHA-256 digest of a frame that the makers made, and of its samples.
fn digest_of(made: &Made, samples: &[u8]) -> [u8; 32] {
    let mut hasher = Sha256::new();
    hasher.update(&made.record);
    hasher.update(&made.payload);
    hasher.update(samples);
    hasher.finalize()
}

/// Whether the digest of a frame is what these digits say.
fn has_digits(alloc: Global, made: &Made, digits: &str) -> bool {
    match asked_samples(alloc, made) {
        Ok(samples) => are_digits_of(alloc, &digest_of(made, &samples), digits),
        Err(_) => false,
    }
}

/// Whether the makers make what is stored of a case.
fn is_made_as_stored(alloc: Global, stored: &Stored) -> bool {
    let &(tables, chroma, grid, content, size, digits) = stored;
    let case = SuiteCase {
        tables,
        chroma,
        grid,
        content,
        size,
    };
    match frame_of(alloc, &case) {
        Some(made) => has_digits(alloc, &made, digits),
        None => false,
    }
}

#[test]
fn stored_frames_are_made(rt: HostRuntime) {
    for stored in &STORED {
        assert!(rt; is_made_as_stored(rt.alloc(), stored));
    }
}
