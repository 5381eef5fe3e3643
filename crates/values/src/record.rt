// The record state.
ghost use Rattle.std.specs.Prelude.{◌≡◌, []};
ghost use Rattle.tables.specs.Delivered.{record_state};
ghost use Rattle.tables.specs.declared.StateFault.TheVariants as state;
ghost use Rattle.values.specs.Held.{record_entries};
ghost use Rattle.tables.proofs.Ordering.{record_state_laws};

use crate::cells::{held_cell, write_cells};
use column::{CellView, Column, Kind};
use layout::{Output, Space};
use tables::{Entries, GroupTable, StateFault, ValueState};

/// A record of three numbers each of which may be absent, or null, for each held group.
#[derive(Drop)]
pub struct RecordValueState {
    cells: Entries<Option<[Option<i64>; 3]>>,
}

impl RecordValueState {
    /// A state of no group.
    #[inline]
    pub fn new() -> RecordValueState
        ensures entries { record_entries result ≡ [] }
        ensures settings { ⟦<RecordValueState as GroupTable>⟧.settings result ≡ record_state }
    {
        RecordValueState {
            cells: Entries::new(None),
        }
    }
}

impl GroupTable for RecordValueState {
    type Fault = StateFault;

    ghost entries = { record_entries };

    ghost settings = { λ s. record_state };

    ghost declines = { state.Table };

    #[inline]
    fn groups(&self) -> usize {
        self.cells.len()
    }

    #[inline]
    fn columns(&self) -> usize {
        1
    }

    fn grow(&mut self, total: usize) -> Result<(), StateFault> {
        Ok(self.cells.grow(total, None)?)
    }

    fn drop_first(&mut self, n: usize) -> Result<(), StateFault> {
        Ok(self.cells.drop_first(n)?)
    }
}

impl ValueState for RecordValueState {
    ghost lawful = { λ s. record_state_laws };

    #[inline]
    fn kind(&self) -> Kind {
        Kind::Record
    }

    #[inline]
    fn is_taken(&self, _column: &Column, _row: usize) -> bool {
        true
    }

    #[inline]
    fn first_untaken(&self, _column: &Column) -> Option<usize> {
        None
    }

    #[inline]
    fn put_cell(&mut self, group_idx: usize, column: &Column, row: usize) {
        self.cells.set(group_idx, column.fields(row));
    }

    #[inline]
    fn cell(&self, group_idx: usize) -> Result<CellView<'_>, StateFault> {
        held_cell(&self.cells, group_idx)
    }

    fn space(&self, n: usize) -> Result<Space, StateFault> {
        Ok(self.cells.space(Kind::Record, n)?)
    }

    fn write(&self, n: usize, out: &mut Output) -> Result<(), StateFault> {
        write_cells(&self.cells, Kind::Record, n, out)
    }
}
