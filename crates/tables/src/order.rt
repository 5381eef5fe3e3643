//! Row orders.
ghost use Rattle.std.specs.Prelude.{◌≡◌, ◌<◌, ◌≤◌, false, true, None, IfSome, [], ◌∷◌, map, length, drop, find, not, nat_le, slice_get, slice_index_or, slice_set, if◌then◌else◌};
ghost use Rattle.std.specs.Option.{option_map};
ghost use Rattle.std.specs.declared.cmp.Ordering.TheVariants.{Equal};
ghost use Rattle.column.specs.Cells.{null};
ghost use Rattle.column.specs.Checks.{outcome, unless_refused, Settles};
ghost use Rattle.column.specs.Columns.{count_up};
ghost use Rattle.column.specs.Seen.{column_seen, columns_seen, kind_seen};
ghost use Rattle.column.specs.Views.{answer_seen};
ghost use Rattle.layout.specs.Layout.{written, written_all};
ghost use Rattle.layout.specs.Written.{parts_seen, keys_seen, space_of};
ghost use Rattle.tables.specs.Leading.{LeadsIn};
ghost use Rattle.tables.specs.Meaning.{OrderLaws, column_cells};
ghost use Rattle.tables.specs.Reading.{named_taken, key_read, key_taken};
ghost use Rattle.tables.specs.Refusals.{named_unread, named_refused, asking_key, key_refused, key_at, verdict, key_laid, measuring_key, writing_key, keys_laid, taking_keys};

use crate::checks::{check_drop, check_held_key, check_key};
use crate::{GroupTable, Leading, OrderFault};
use column::{CellView, Column, Kind};
use layout::{KeyOutputs, Output, Space};
use std::cmp::Ordering;

/// A key for each group, of one or more columns, and a total and transitive relation between keys.
///
/// An implementation says which kinds it reads, which cells it takes, how two keys compare, and how it holds them and writes them out. What declines a call is the same for all. Calls that take all order columns take them as an array of three and a count, or as a slice where nothing is declined.
pub trait RowOrder: GroupTable<Fault = OrderFault> {
    /// The kind that is read as column `named`, if so many are read.
    fn kind_of(&self, named: usize) -> Option<Kind>
        ensures { option_map kind_seen result ≡ slice_get (Self.settings self.now).kinds named };

    /// Whether the cell in a row is taken as column `named`, the column read as one of its kind; true where no such column is read, of which nothing is asked.
    fn is_named_taken(&self, named: usize, column: &Column, row: usize) -> bool
        ensures read { named < length (Self.settings self.now).kinds → result ≡ named_taken (Self.settings self.now) named (column_seen column.now) row }
        ensures unread { length (Self.settings self.now).kinds ≤ named → result ≡ true };

    /// The lowest row whose cell is not taken as column `named`, the column read as one of its kind; none where no such column is read.
    #[inline]
    fn first_untaken(&self, named: usize, column: &Column) -> Option<usize>
        ensures read { named < length (Self.settings self.now).kinds → result ≡ find (λ r. not (named_taken (Self.settings self.now) named (column_seen column.now) r)) (count_up 0 column.now.rows) }
        ensures unread { length (Self.settings self.now).kinds ≤ named → result ≡ None }
    {
        for row in 0..column.rows {
            if !self.is_named_taken(named, column, row) {
                return Some(row);
            }
        }
        None
    }

    /// How the key of row `a` stands to the key of row `b`, the columns read as of the kinds that are read, a column that is not given as null.
    fn compare(&self, columns: &[Column], a: usize, b: usize) -> Ordering
        ensures { result ≡ verdict (Self.settings self.now) (key_read (Self.settings self.now).kinds (map column_seen columns.now) a) (key_read (Self.settings self.now).kinds (map column_seen columns.now) b) };

    /// A column of numbers by which this order compares rows first, if it has one that is worth a walk of its own.
    #[inline]
    fn leading<'a>(&self, columns: &[Column<'a>]) -> Option<Leading<'a>>
        ensures { IfSome result (LeadsIn (Self.settings self.now) (map column_seen columns.now)) }
    {
        let _ = columns;
        None
    }

    /// How the key of a row, read in the same way, stands to the key of a group that is held; `Equal` where no such group is.
    fn compare_with_held(&self, group_idx: usize, columns: &[Column], row: usize) -> Ordering
        ensures held { group_idx < length (Self.entries self.now) → result ≡ verdict (Self.settings self.now) (key_read (Self.settings self.now).kinds (map column_seen columns.now) row) (slice_index_or (Self.entries self.now) group_idx []) }
        ensures missing { length (Self.entries self.now) ≤ group_idx → result ≡ Equal };

    /// Sets one group's key to the key of a row, read in the same way, and no other; nothing where a cell of it is not taken, or the group not held.
    fn put_key(&mut self, group_idx: usize, columns: &[Column], row: usize)
        ensures after { Self.entries self.new ≡ (if key_taken (Self.settings self.old) (map column_seen columns.now) row
            then slice_set (Self.entries self.old) group_idx (key_read (Self.settings self.old).kinds (map column_seen columns.now) row)
            else Self.entries self.old) }
        ensures kept { Self.settings self.new ≡ Self.settings self.old };

    /// The cell in column `named` of the key that is held for a group: COLS, GROUP.
    fn key_cell(&self, named: usize, group_idx: usize) -> Result<CellView<'_>, OrderFault>
        ensures { answer_seen result ≡ outcome (asking_key (Self.settings self.now).kinds named (length (Self.entries self.now)) group_idx) (slice_index_or (column_cells named (Self.entries self.now)) group_idx null) };

    /// The space that the first `n` cells of key column `named` need: COLS, FEWER.
    fn key_space(&self, named: usize, n: usize) -> Result<Space, OrderFault>
        ensures { result ≡ outcome (measuring_key (Self.settings self.now) (Self.entries self.now) named n) (space_of (key_laid (Self.settings self.now) (Self.entries self.now) named n)) };

    /// Writes the first `n` cells of key column `named`: COLS, FEWER, SPACE.
    fn write_key(&self, named: usize, n: usize, out: &mut Output) -> Result<(), OrderFault>
        ensures { Settles (writing_key (Self.settings self.now) (Self.entries self.now) named n (parts_seen out.old)) tt
            (written (key_laid (Self.settings self.now) (Self.entries self.now) named n) (parts_seen out.old)) (parts_seen out.old) result (parts_seen out.new) };

    /// Whether a column is of the kind that is read as column `named`: COLS, KIND.
    final fn reads_named(&self, named: usize, column: &Column) -> Result<(), OrderFault>
        ensures { result ≡ outcome (named_unread (Self.settings self.now).kinds named (column_seen column.now)) tt }
    {
        let Some(kind) = self.kind_of(named) else {
            return Err(OrderFault::Cols);
        };
        if column.kind != kind {
            return Err(OrderFault::Kind);
        }
        Ok(())
    }

    /// Whether the cell in a row is taken as column `named`: COLS, KIND, ROWS, LONG.
    final fn takes_named(&self, named: usize, column: &Column, row: usize) -> Result<(), OrderFault>
        ensures { result ≡ outcome (named_refused (Self.settings self.now) named (column_seen column.now) row) tt }
    {
        self.reads_named(named, column)?;
        if row >= column.rows {
            return Err(OrderFault::Rows);
        }
        if !self.is_named_taken(named, column, row) {
            return Err(OrderFault::Long);
        }
        Ok(())
    }

    /// How the key of row `a` stands to the key of row `b`: COLS, KIND, ROWS, LONG.
    final fn compare_rows(
        &self,
        columns: [Column; 3],
        count: usize,
        a: usize,
        b: usize,
    ) -> Result<Ordering, OrderFault>
        ensures { result ≡ outcome (key_refused (Self.settings self.now) false (columns_seen columns.entry count) count (a ∷ (b ∷ [])))
            (verdict (Self.settings self.now) (key_at (columns_seen columns.entry count) a) (key_at (columns_seen columns.entry count) b)) }
    {
        check_key(self, columns, count, &[a, b])?;
        Ok(self.compare(&columns[..count], a, b))
    }

    /// How the key of a row stands to the key that is held for a group: COLS, GROUP, KIND, ROWS, LONG.
    final fn compare_held(
        &self,
        group_idx: usize,
        columns: [Column; 3],
        count: usize,
        row: usize,
    ) -> Result<Ordering, OrderFault>
        ensures { result ≡ outcome (key_refused (Self.settings self.now) (nat_le (length (Self.entries self.now)) group_idx) (columns_seen columns.entry count) count (row ∷ []))
            (verdict (Self.settings self.now) (key_at (columns_seen columns.entry count) row) (slice_index_or (Self.entries self.now) group_idx [])) }
    {
        check_held_key(self, group_idx, columns, count, row)?;
        Ok(self.compare_with_held(group_idx, &columns[..count], row))
    }

    /// Sets one group's key to the key of a row, and no other: COLS, GROUP, KIND, ROWS, LONG.
    final fn set_key(
        &mut self,
        group_idx: usize,
        columns: [Column; 3],
        count: usize,
        row: usize,
    ) -> Result<(), OrderFault>
        ensures settles { Settles (key_refused (Self.settings self.old) (nat_le (length (Self.entries self.old)) group_idx) (columns_seen columns.entry count) count (row ∷ [])) tt
            (slice_set (Self.entries self.old) group_idx (key_at (columns_seen columns.entry count) row)) (Self.entries self.old) result (Self.entries self.new) }
        ensures kept { Self.settings self.new ≡ Self.settings self.old }
    {
        check_held_key(self, group_idx, columns, count, row)?;
        self.put_key(group_idx, &columns[..count], row);
        Ok(())
    }

    /// Whether there is room for the first `n` cells of key column `named`: COLS, FEWER, SPACE.
    final fn key_fits(&self, named: usize, n: usize, out: &Output) -> Result<(), OrderFault>
        ensures { result ≡ outcome (writing_key (Self.settings self.now) (Self.entries self.now) named n (parts_seen out.now)) tt }
    {
        if !self.key_space(named, n)?.fits(out) {
            return Err(OrderFault::Space);
        }
        Ok(())
    }

    /// Whether the outputs have room for the first `n` keys, a column to an output: FEWER, SPACE.
    final fn keys_fit(&self, n: usize, out: &KeyOutputs) -> Result<(), OrderFault>
        ensures { result ≡ outcome (taking_keys (Self.settings self.now) (Self.entries self.now) n (keys_seen out.now)) tt }
    {
        check_drop(self.groups(), n)?;
        let columns = self.columns();
        if columns > 3 {
            return Err(OrderFault::Space);
        }
        if columns == 0 {
            return Ok(());
        }
        self.key_fits(0, n, &out.first)?;
        if columns == 1 {
            return Ok(());
        }
        self.key_fits(1, n, &out.second)?;
        if columns == 2 {
            return Ok(());
        }
        self.key_fits(2, n, &out.third)
    }

    /// Writes the first `n` keys, a column to an output: FEWER, SPACE.
    final fn write_keys(&self, n: usize, out: &mut KeyOutputs) -> Result<(), OrderFault>
        ensures { Settles (taking_keys (Self.settings self.now) (Self.entries self.now) n (keys_seen out.old)) tt
            (written_all (keys_laid (Self.settings self.now) (Self.entries self.now) n) (keys_seen out.old)) (keys_seen out.old) result (keys_seen out.new) }
    {
        self.keys_fit(n, out)?;
        let columns = self.columns();
        if columns == 0 {
            return Ok(());
        }
        self.write_key(0, n, &mut out.first)?;
        if columns == 1 {
            return Ok(());
        }
        self.write_key(1, n, &mut out.second)?;
        if columns == 2 {
            return Ok(());
        }
        self.write_key(2, n, &mut out.third)
    }

    /// Writes the first `n` keys, a column to an output, and drops them: FEWER, SPACE.
    final fn take_keys(&mut self, n: usize, out: &mut KeyOutputs) -> Result<(), OrderFault>
        ensures output { Settles (taking_keys (Self.settings self.old) (Self.entries self.old) n (keys_seen out.old)) tt
            (written_all (keys_laid (Self.settings self.old) (Self.entries self.old) n) (keys_seen out.old)) (keys_seen out.old) result (keys_seen out.new) }
        ensures after { Self.entries self.new ≡ unless_refused (taking_keys (Self.settings self.old) (Self.entries self.old) n (keys_seen out.old)) (drop n (Self.entries self.old)) (Self.entries self.old) }
        ensures kept { Self.settings self.new ≡ Self.settings self.old }
    {
        self.write_keys(n, out)?;
        self.drop_first(n)
    }

    ghost lawful: { (o : Self) → OrderLaws (Self.settings o) };
}
