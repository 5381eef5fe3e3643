//! Value states.
ghost use Rattle.std.specs.Prelude.{◌≡◌, false, [], ◌∷◌, length, drop, find, not, nat_le, slice_index_or, slice_set, if◌then◌else◌};
ghost use Rattle.std.specs.Option.{option_map};
ghost use Rattle.column.specs.Cells.{null};
ghost use Rattle.column.specs.Checks.{outcome, refuse, unless_refused, Settles};
ghost use Rattle.column.specs.Columns.{cell_at, count_up};
ghost use Rattle.column.specs.Seen.{column_seen, kind_seen};
ghost use Rattle.column.specs.Views.{answer_seen};
ghost use Rattle.layout.specs.Layout.{written};
ghost use Rattle.layout.specs.Written.{parts_seen, space_of};
ghost use Rattle.tables.specs.Meaning.{StateLaws, state_of, first_cells};
ghost use Rattle.tables.specs.Reading.{cell_read, cell_taken};
ghost use Rattle.tables.specs.Refusals.{unread, cell_refused, cells_laid, dropping, writing};
ghost use Rattle.tables.specs.declared.StateFault.TheVariants as state;

use crate::{GroupTable, StateFault};
use column::{CellView, Column, Kind};
use layout::{Output, Space};

/// A cell for each group, of one kind. The original's `ValueState` (`first_last/state.rs`).
///
/// An implementation says which kind it reads, which cells it takes, and how it holds them and writes them out. What declines a call is the same for all.
pub trait ValueState: GroupTable<Fault = StateFault> {
    /// The kind of the column that is read.
    fn kind(&self) -> Kind
        ensures { kind_seen result ≡ (state_of (Self.settings self.now)).kind };

    /// Whether the cell in a row is taken, the column read as one of this kind.
    fn is_taken(&self, column: &Column, row: usize) -> bool
        ensures { result ≡ cell_taken (Self.settings self.now) (column_seen column.now) row };

    /// The lowest row whose cell is not taken, the column read as one of this kind.
    #[inline]
    fn first_untaken(&self, column: &Column) -> Option<usize>
        ensures { result ≡ find (λ r. not (cell_taken (Self.settings self.now) (column_seen column.now) r)) (count_up 0 column.now.rows) }
    {
        for row in 0..column.rows {
            if !self.is_taken(column, row) {
                return Some(row);
            }
        }
        None
    }

    /// Sets one group's cell to the cell in a row, the column read as one of this kind, and no other; nothing where the cell is not taken, or the group not held.
    fn put_cell(&mut self, group_idx: usize, column: &Column, row: usize)
        ensures after { Self.entries self.new ≡ (if cell_taken (Self.settings self.old) (column_seen column.now) row
            then slice_set (Self.entries self.old) group_idx (cell_read (Self.settings self.old) (column_seen column.now) row ∷ [])
            else Self.entries self.old) }
        ensures kept { Self.settings self.new ≡ Self.settings self.old };

    /// The cell that is held for a group: GROUP.
    fn cell(&self, group_idx: usize) -> Result<CellView<'_>, StateFault>
        ensures { answer_seen result ≡ outcome (refuse (nat_le (length (Self.entries self.now)) group_idx) state.Group) (slice_index_or (first_cells (Self.entries self.now)) group_idx null) };

    /// The space that the first `n` cells need: FEWER.
    fn space(&self, n: usize) -> Result<Space, StateFault>
        ensures { result ≡ outcome (option_map state.Table (dropping (length (Self.entries self.now)) n)) (space_of (cells_laid (Self.settings self.now) (Self.entries self.now) n)) };

    /// Writes the first `n` cells: FEWER, SPACE.
    fn write(&self, n: usize, out: &mut Output) -> Result<(), StateFault>
        ensures { Settles (writing (Self.settings self.now) (Self.entries self.now) n (parts_seen out.old)) tt
            (written (cells_laid (Self.settings self.now) (Self.entries self.now) n) (parts_seen out.old)) (parts_seen out.old) result (parts_seen out.new) };

    /// Whether a column is of the kind that is read: KIND.
    final fn reads(&self, column: &Column) -> Result<(), StateFault>
        ensures { result ≡ outcome (unread (state_of (Self.settings self.now)).kind (column_seen column.now)) tt }
    {
        if column.kind != self.kind() {
            return Err(StateFault::Kind);
        }
        Ok(())
    }

    /// Whether the cell in a row is taken: KIND, ROWS, LONG.
    final fn takes(&self, column: &Column, row: usize) -> Result<(), StateFault>
        ensures { result ≡ outcome (cell_refused (Self.settings self.now) false (column_seen column.now) row) tt }
    {
        self.reads(column)?;
        if row >= column.rows {
            return Err(StateFault::Rows);
        }
        if !self.is_taken(column, row) {
            return Err(StateFault::Long);
        }
        Ok(())
    }

    /// Sets one group's cell to a column's cell, and no other: GROUP, KIND, ROWS, LONG.
    final fn update(
        &mut self,
        group_idx: usize,
        column: &Column,
        row: usize,
    ) -> Result<(), StateFault>
        ensures settles { Settles (cell_refused (Self.settings self.old) (nat_le (length (Self.entries self.old)) group_idx) (column_seen column.now) row) tt
            (slice_set (Self.entries self.old) group_idx (cell_at (column_seen column.now) row ∷ [])) (Self.entries self.old) result (Self.entries self.new) }
        ensures kept { Self.settings self.new ≡ Self.settings self.old }
    {
        if group_idx >= self.groups() {
            return Err(StateFault::Group);
        }
        self.takes(column, row)?;
        self.put_cell(group_idx, column, row);
        Ok(())
    }

    /// Whether there is room for the first `n` cells: FEWER, SPACE.
    final fn fits(&self, n: usize, out: &Output) -> Result<(), StateFault>
        ensures { result ≡ outcome (writing (Self.settings self.now) (Self.entries self.now) n (parts_seen out.now)) tt }
    {
        if !self.space(n)?.fits(out) {
            return Err(StateFault::Space);
        }
        Ok(())
    }

    /// Writes the first `n` cells and drops them: FEWER, SPACE.
    final fn take(&mut self, n: usize, out: &mut Output) -> Result<(), StateFault>
        ensures output { Settles (writing (Self.settings self.old) (Self.entries self.old) n (parts_seen out.old)) tt
            (written (cells_laid (Self.settings self.old) (Self.entries self.old) n) (parts_seen out.old)) (parts_seen out.old) result (parts_seen out.new) }
        ensures after { Self.entries self.new ≡ unless_refused (writing (Self.settings self.old) (Self.entries self.old) n (parts_seen out.old)) (drop n (Self.entries self.old)) (Self.entries self.old) }
        ensures kept { Self.settings self.new ≡ Self.settings self.old }
    {
        self.write(n, out)?;
        self.drop_first(n)
    }

    ghost lawful: { (s : Self) → StateLaws (state_of (Self.settings s)) };
}
