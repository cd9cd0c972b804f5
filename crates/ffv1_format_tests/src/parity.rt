//! Bytes with a parity, where a test makes a record or a slice of its own.
use ffv1_bits::{remainder, remainder_after};
use std::alloc::AllocError;

/// The bytes with their parity after them: the remainder of the bytes and four zero bytes, most significant byte first.
pub(crate) fn with_parity(content: Vec<u8>) -> Result<Vec<u8>, AllocError> {
    let mut bytes = content;
    let parity = remainder_after(remainder(&bytes), &[0; 4]);
    bytes.extend_from_slice(&parity.to_be_bytes())?;
    Ok(bytes)
}
