//! The parity that ends records and slices (RFC 9043, sections 4.3.2 and 4.9.3).
ghost use Rattle.std.specs.Prelude.{◌≡◌, ◌+◌, ◌++◌, List, length, ℕ, IfOk, IfErr};
ghost use Rattle.ffv1_vectors.specs.declared.fault.MakeFault.TheVariants.{Memory};

use crate::fault::MakeFault;
use ffv1_bits::remainder;

/// The bytes with their parity after them: the remainder of the bytes and four zero bytes, most significant byte first. `Memory`, the one fault, is
/// returned if an allocation of memory failed.
pub fn with_parity(content: Vec<u8>) -> Result<Vec<u8>, MakeFault>
    ensures kept { IfOk result (λ bytes. (parity : List ℕ) × (bytes.items ≡ content.items ++ parity) × (length parity ≡ 4)) }
    ensures memory { IfErr result (λ fault. fault ≡ Memory) }
{
    let mut bytes = content;
    bytes.extend_from_slice(&[0; 4])?;
    let parity = remainder(&bytes).to_be_bytes();
    bytes.truncate(bytes.len() - 4);
    bytes.extend_from_slice(&parity)?;
    Ok(bytes)
}
