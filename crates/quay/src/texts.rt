// Arrow buffers for columns of texts.
use column::{Column, ColumnFault};
use layout::Output;
use std::alloc::{AllocError, Global};

// The buffers of a column of texts.
#[derive(Drop)]
pub struct Texts {
    validity: Vec<u8>,
    offsets: Vec<u32>,
    data: Vec<u8>,
}

// Says in the validity bytes that a row is not null.
fn mark_valid(validity: &mut [u8], row: usize) {
    if let Some(byte) = validity.get_mut(row / 8) {
        *byte |= 1 << (row % 8);
    }
}

impl Texts {
    // Room for so many texts of at most 32 bytes, the most that a stage holds.
    pub fn room(heap: Global, rows: usize) -> Result<Texts, AllocError> {
        Ok(Texts {
            validity: vec![in heap; 0u8; rows.div_ceil(8)]?,
            offsets: vec![in heap; 0u32; rows.saturating_add(1)]?,
            data: vec![in heap; 0u8; rows.saturating_mul(32)]?,
        })
    }

    // The buffers of a column that shows these texts, however long they are.
    pub fn of(heap: Global, cells: &[Option<&str>]) -> anyhow::Result<Texts> {
        let mut made = Texts {
            validity: vec![in heap; 0u8; cells.len().div_ceil(8)]?,
            offsets: vec![in heap; 0u32]?,
            data: Vec::new(heap),
        };
        for (row, cell) in cells.iter().enumerate() {
            if let Some(text) = cell {
                mark_valid(&mut made.validity, row);
                made.data.extend_from_slice(text.as_bytes())?;
            }
            made.offsets.push(u32::try_from(made.data.len())?)?;
        }
        Ok(made)
    }

    // Where a column of texts is written to.
    pub fn output(&mut self) -> Output<'_> {
        Output {
            validity: &mut self.validity,
            offsets: &mut self.offsets,
            data: &mut self.data,
        }
    }

    // The column over the buffers.
    pub fn column(&self) -> Result<Column<'_>, ColumnFault> {
        let rows = self.offsets.len().saturating_sub(1);
        Column::new(2, rows, &self.validity, &self.offsets, &self.data)
    }

    // The text in a row; none where it is null.
    pub fn text(&self, row: usize) -> Option<&str> {
        let bytes = self.column().ok()?.bytes(row)?;
        str::from_utf8(bytes).ok()
    }
}
