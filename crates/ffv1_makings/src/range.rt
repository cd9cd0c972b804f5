//! Rows of samples written by the range coder (RFC 9043, section 3.8.1).

use ffv1_vectors::{CodedPlane, MakeFault, RowWriter, SymbolEncoder};

/// Writes samples as signed symbols, each at the 32 states of its context in its group.
#[derive(Drop)]
pub(crate) struct RangeWriter<'a> {
    pub(crate) encoder: SymbolEncoder<'a>,
    /// The states of each group.
    pub(crate) states: Vec<Vec<[u8; 32]>>,
}

impl RowWriter for RangeWriter<'_> {
    fn begin_plane(&mut self) {}

    fn row(&mut self, plane: &CodedPlane<'_>, y: usize) -> Result<(), MakeFault> {
        let Some(states) = self.states.get_mut(plane.group) else {
            return Err(MakeFault::NotSelf);
        };
        for x in 0..plane.width {
            let residual = plane.residual(x, y);
            let Some(row) = states.get_mut(residual.context.unsigned_abs() as usize) else {
                return Err(MakeFault::NotSelf);
            };
            self.encoder.signed(row, residual.difference)?;
        }
        Ok(())
    }
}
