// The number state.
ghost use Rattle.std.specs.Prelude.{◌≡◌, []};
ghost use Rattle.tables.specs.Delivered.{number_state};
ghost use Rattle.tables.specs.declared.StateFault.TheVariants as state;
ghost use Rattle.values.specs.Held.{number_entries};
ghost use Rattle.tables.proofs.Ordering.{number_state_laws};

use crate::cells::held_cell;
use column::{CellView, Column, Kind};
use layout::{Output, Space};
use tables::{Entries, GroupTable, StateFault, ValueState, check_drop};

/// A number, or null, for each held group. The original's `PrimitiveValueState`, at `Int64Type`.
#[derive(Drop)]
pub struct NumberValueState {
    cells: Entries<Option<i64>>,
}

impl NumberValueState {
    /// A state of no group.
    #[inline]
    pub fn new() -> NumberValueState
        ensures entries { number_entries result ≡ [] }
        ensures settings { ⟦<NumberValueState as GroupTable>⟧.settings result ≡ number_state }
    {
        NumberValueState {
            cells: Entries::new(None),
        }
    }
}

impl GroupTable for NumberValueState {
    type Fault = StateFault;

    ghost entries = { number_entries };

    ghost settings = { λ s. number_state };

    ghost declines = { state.Table };

    #[inline]
    fn groups(&self) -> usize {
        self.cells.len()
    }

    #[inline]
    fn columns(&self) -> usize {
        1
    }

    fn grow(&mut self, total: usize) -> Result<(), StateFault> {
        Ok(self.cells.grow(total, None)?)
    }

    fn drop_first(&mut self, n: usize) -> Result<(), StateFault> {
        Ok(self.cells.drop_first(n)?)
    }
}

impl ValueState for NumberValueState {
    ghost lawful = { λ s. number_state_laws };

    #[inline]
    fn kind(&self) -> Kind {
        Kind::Number
    }

    #[inline]
    fn is_taken(&self, _column: &Column, _row: usize) -> bool {
        true
    }

    #[inline]
    fn first_untaken(&self, _column: &Column) -> Option<usize> {
        None
    }

    #[inline]
    fn put_cell(&mut self, group_idx: usize, column: &Column, row: usize) {
        self.cells.set(group_idx, column.number(row));
    }

    #[inline]
    fn cell(&self, group_idx: usize) -> Result<CellView<'_>, StateFault> {
        held_cell(&self.cells, group_idx)
    }

    fn space(&self, n: usize) -> Result<Space, StateFault> {
        Ok(self.cells.space(Kind::Number, n)?)
    }

    fn write(&self, n: usize, out: &mut Output) -> Result<(), StateFault> {
        let held = self.cells.as_slice();
        check_drop(held.len(), n)?;
        Ok(out.put_numbers(&held[..n])?)
    }
}
