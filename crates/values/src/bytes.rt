// The byte state.
ghost use Rattle.std.specs.Prelude.{◌≡◌, true, not, find, []};
ghost use Rattle.column.specs.Columns.{count_up};
ghost use Rattle.column.specs.Seen.{column_seen};
ghost use Rattle.tables.specs.Delivered.{bytes_state};
ghost use Rattle.tables.specs.Reading.{cell_taken};
ghost use Rattle.tables.specs.declared.StateFault.TheVariants as state;
ghost use Rattle.values.specs.Held.{bytes_entries, NoneLong};
ghost use Rattle.tables.proofs.Ordering.{bytes_state_laws};

use crate::cells::{held_cell, write_cells};
use column::{CellView, Column, Kind};
use layout::{Output, ShortBytes, Space};
use tables::{Entries, GroupTable, StateFault, ValueState};

/// A byte string of at most 32 bytes, or null, for each held group. The original's `BytesValueState`, in fixed memory.
#[derive(Drop)]
pub struct BytesValueState {
    cells: Entries<Option<ShortBytes>>,
}

impl BytesValueState {
    /// A state of no group.
    #[inline]
    pub fn new() -> BytesValueState
        ensures entries { bytes_entries result ≡ [] }
        ensures settings { ⟦<BytesValueState as GroupTable>⟧.settings result ≡ bytes_state }
    {
        BytesValueState {
            cells: Entries::new(None),
        }
    }
}

// Whether the byte string in a row has at most 32 bytes, or is null.
#[inline]
fn is_short(column: &Column, row: usize) -> bool
    ensures { result ≡ cell_taken bytes_state (column_seen column.now) row }
{
    match column.bytes(row) {
        Some(bytes) => bytes.len() <= 32,
        None => true,
    }
}

// Whether no string between two offsets is longer than 32 bytes. Without an early exit, so that several are measured at once.
fn no_long(offsets: &[u32]) -> bool
    ensures { result ≡ true → NoneLong offsets.now }
{
    let mut longest = 0;
    for i in 1..offsets.len() {
        longest = longest.max(offsets[i].wrapping_sub(offsets[i - 1]));
    }
    longest <= 32
}

// The lowest row whose byte string is longer than 32 bytes.
fn first_long(column: &Column) -> Option<usize>
    ensures { result ≡ find (λ r. not (cell_taken bytes_state (column_seen column.now) r)) (count_up 0 column.now.rows) }
{
    for row in 0..column.rows {
        if !is_short(column, row) {
            return Some(row);
        }
    }
    None
}

impl GroupTable for BytesValueState {
    type Fault = StateFault;

    ghost entries = { bytes_entries };

    ghost settings = { λ s. bytes_state };

    ghost declines = { state.Table };

    #[inline]
    fn groups(&self) -> usize {
        self.cells.len()
    }

    #[inline]
    fn columns(&self) -> usize {
        1
    }

    fn grow(&mut self, total: usize) -> Result<(), StateFault> {
        Ok(self.cells.grow(total, None)?)
    }

    fn drop_first(&mut self, n: usize) -> Result<(), StateFault> {
        Ok(self.cells.drop_first(n)?)
    }
}

impl ValueState for BytesValueState {
    ghost lawful = { λ s. bytes_state_laws };

    #[inline]
    fn kind(&self) -> Kind {
        Kind::Bytes
    }

    #[inline]
    fn is_taken(&self, column: &Column, row: usize) -> bool {
        is_short(column, row)
    }

    #[inline]
    fn first_untaken(&self, column: &Column) -> Option<usize> {
        if no_long(column.offsets) {
            return None;
        }
        first_long(column)
    }

    #[inline]
    fn put_cell(&mut self, group_idx: usize, column: &Column, row: usize) {
        match column.bytes(row) {
            Some(bytes) => {
                if let Some(text) = ShortBytes::new(bytes) {
                    self.cells.set(group_idx, Some(text));
                }
            }
            None => self.cells.set(group_idx, None),
        }
    }

    #[inline]
    fn cell(&self, group_idx: usize) -> Result<CellView<'_>, StateFault> {
        held_cell(&self.cells, group_idx)
    }

    fn space(&self, n: usize) -> Result<Space, StateFault> {
        Ok(self.cells.space(Kind::Bytes, n)?)
    }

    fn write(&self, n: usize, out: &mut Output) -> Result<(), StateFault> {
        write_cells(&self.cells, Kind::Bytes, n, out)
    }
}
