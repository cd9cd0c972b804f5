//! How many bytes of a file some check covers that passes.
ghost use Rattle.std.specs.Prelude.{◌≡◌};
ghost use Rattle.ffv1_check.specs.CheckedBytes.{block_bytes, part_bytes};

use matroska_parts::{Crc32, Part, Standing};

/// How many a part adds.
pub(crate) fn part_bytes(part: &Part) -> u64
    ensures { result ≡ part_bytes part.now }
{
    match part {
        Part::Block(block) => block_bytes(&block.standing),
        Part::Record(record) => {
            if record.is_wrong || record.is_vouched {
                return 0;
            }
            record.size
        }
        Part::End(closing) => match closing.crc32 {
            Crc32::Passes => closing.content,
            _ => 0,
        },
        _ => 0,
    }
}

/// How many a block adds: none in a Cluster whose CRC-32 passes, as that covers them.
fn block_bytes(standing: &Standing) -> u64
    ensures { result ≡ block_bytes standing.now }
{
    match standing {
        Standing::Named(block) => {
            if block.is_vouched {
                return 0;
            }
            block.passing
        }
        _ => 0,
    }
}
