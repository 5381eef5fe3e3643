// Arrow buffers for columns of numbers and of truth values.
use column::{BoolColumn, Column, ColumnFault};
use layout::{FlagOutput, FlagSource, Output};
use std::alloc::{AllocError, Global};

// The buffers of a column of numbers.
#[derive(Drop)]
pub struct Numbers {
    validity: Vec<u8>,
    data: Vec<u8>,
}

impl Numbers {
    // Room for so many numbers.
    pub fn room(heap: Global, rows: usize) -> Result<Numbers, AllocError> {
        let validity = vec![in heap; 0u8; rows.div_ceil(8)]?;
        let data = vec![in heap; 0u8; rows.saturating_mul(8)]?;
        Ok(Numbers { validity, data })
    }

    // The buffers of a column that shows these numbers.
    pub fn of(heap: Global, cells: &[Option<i64>]) -> Result<Numbers, AllocError> {
        let mut made = Numbers::room(heap, cells.len())?;
        // There is room for them.
        let _ = made.output().put_numbers(cells);
        Ok(made)
    }

    // Where a column of numbers is written to.
    pub fn output(&mut self) -> Output<'_> {
        Output {
            validity: &mut self.validity,
            offsets: &mut [],
            data: &mut self.data,
        }
    }

    // The column over the buffers.
    pub fn column(&self) -> Result<Column<'_>, ColumnFault> {
        Column::new(1, self.data.len() / 8, &self.validity, &[], &self.data)
    }
}

// The buffers of a column of truth values.
#[derive(Drop)]
pub struct Flags {
    rows: usize,
    validity: Vec<u8>,
    bits: Vec<u8>,
}

impl Flags {
    // Room for so many truth values.
    pub fn room(heap: Global, rows: usize) -> Result<Flags, AllocError> {
        Ok(Flags {
            rows,
            validity: vec![in heap; 0u8; rows.div_ceil(8)]?,
            bits: vec![in heap; 0u8; rows.div_ceil(8)]?,
        })
    }

    // The buffers of a column that shows the first `rows` truth values.
    pub fn of<F: FlagSource>(heap: Global, flags: &F, rows: usize) -> Result<Flags, AllocError> {
        let mut made = Flags::room(heap, rows)?;
        // There is room for them.
        let _ = made.output().put_flags(flags, rows);
        Ok(made)
    }

    // Where a column of truth values is written to.
    pub fn output(&mut self) -> FlagOutput<'_> {
        FlagOutput {
            validity: &mut self.validity,
            bits: &mut self.bits,
        }
    }

    // The column over the buffers.
    pub fn column(&self) -> Result<BoolColumn<'_>, ColumnFault> {
        BoolColumn::new(self.rows, &self.validity, &self.bits)
    }
}
